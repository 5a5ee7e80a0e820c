// What only an open register does: it is made, and a delay settles it.
ghost use Rattle.std.specs.Prelude.{◌≡◌};
ghost use Rattle.refusal.specs.Tellings.{told};
ghost use Rattle.runs.specs.Acts.{delay, takes, first_standing};
ghost use Rattle.sheets.specs.Counting.{unless_full};
ghost use Rattle.runs.specs.Steps.{finding, sheet_after, replied, Reached, Stepped};
ghost use Rattle.register.specs.Views.{standing, model_after, told_after, standing_after};

use super::{Open, Register, Settled, Unsettled};
use process::Model;
use refusal::Refusal;
use sheets::Sheet;
use std::marker::PhantomData;
use vectors::check_delay;

impl<M: Model> Register<M, Open> {
    // A new register over a model, with the first bracket and counts of 0.
    pub fn new(model: M) -> Register<M, Open>
        ensures model { result.model ≡ model }
        ensures standing { standing result ≡ first_standing }
        ensures reached { Reached M.Model.scale (M.Model.meaning result.model) (standing result) }
    {
        Register {
            model,
            sheet: Sheet::first(),
            stage: PhantomData,
        }
    }

    // An accepted delay settles the register; a refused one hands it back as it is.
    pub fn delay(mut self, entries: &[u32]) -> Result<Register<M, Settled>, Unsettled<M>>
        requires { M.Model.valid self.model }
        ensures step { Stepped M.Model.scale (M.Model.meaning self.model) (takes (delay entries.now)) (takes (delay entries.now)) (standing self) (standing_after result) (replied (told_after result)) }
        ensures model { model_after result ≡ self.model }
    {
        match self.take_delay(entries) {
            Ok(()) => {
                let Register {
                    model,
                    sheet,
                    stage: _,
                } = self;
                Ok(Register {
                    model,
                    sheet,
                    stage: PhantomData,
                })
            }
            Err(refusal) => Err(Unsettled {
                register: self,
                refusal,
            }),
        }
    }

    fn take_delay(&mut self, entries: &[u32]) -> Result<(), Refusal>
        requires { M.Model.valid self.old.model }
        ensures answer { replied (told result) ≡ replied (unless_full self.old.sheet (finding M.Model.scale (M.Model.meaning self.old.model) (delay entries.now))) }
        ensures sheet { self.new.sheet ≡ sheet_after (finding M.Model.scale (M.Model.meaning self.old.model) (delay entries.now)) self.old.sheet }
        ensures model { self.new.model ≡ self.old.model }
    {
        self.sheet.take()?;
        let bound = check_delay(&self.model, entries)?;
        self.pass(|bracket| bracket.meet_delay(bound));
        Ok(())
    }
}
