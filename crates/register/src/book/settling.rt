// What only a settled register takes: floors.
ghost use Rattle.std.specs.Prelude.{◌≡◌};
ghost use Rattle.refusal.specs.Tellings.{told};
ghost use Rattle.runs.specs.Acts.{floor, takes};
ghost use Rattle.runs.specs.Steps.{replied, Stepped};
ghost use Rattle.register.specs.Views.{standing};

use super::{Register, Settled};
use process::Model;
use refusal::Refusal;
use vectors::check_floor;

impl<M: Model> Register<M, Settled> {
    pub fn floor(&mut self, entries: &[u32], marks: &mut [u8]) -> Result<(), Refusal>
        requires { M.Model.valid self.old.model }
        ensures step { Stepped M.Model.scale (M.Model.meaning self.old.model) (takes (floor entries.now marks.old)) (takes (floor entries.now marks.new)) (standing self.old) (standing self.new) (replied (told result)) }
        ensures model { self.new.model ≡ self.old.model }
    {
        self.sheet.take()?;
        let bound = check_floor(&self.model, entries, marks)?;
        self.pass(|bracket| bracket.meet_floor(bound));
        Ok(())
    }
}
