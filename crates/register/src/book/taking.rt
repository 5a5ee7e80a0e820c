// What a register takes at every stage: caps, hopes, risks and questions.
ghost use Rattle.std.specs.Prelude.{◌≡◌};
ghost use Rattle.refusal.specs.Tellings.{told};
ghost use Rattle.runs.specs.Acts.{cap, hope, risk, takes, asks_least, asks_most};
ghost use Rattle.runs.specs.Steps.{replied, spoken, Stepped};
ghost use Rattle.register.specs.Views.{standing};

use super::{Register, Stage};
use flows::{check_hope, check_risk};
use kinds::FlowKind;
use process::Model;
use refusal::Refusal;
use sheets::Decision;
use vectors::check_cap;

// kept: that the model stays is a clause of each call; a name for one equation would be no plainer
impl<M: Model, S: Stage> Register<M, S> {
    pub fn cap(&mut self, entries: &[u32]) -> Result<(), Refusal>
        requires { M.Model.valid self.old.model }
        ensures step { Stepped M.Model.scale (M.Model.meaning self.old.model) (takes (cap entries.now)) (takes (cap entries.now)) (standing self.old) (standing self.new) (replied (told result)) }
        ensures model { self.new.model ≡ self.old.model }
    {
        self.sheet.take()?;
        let bound = check_cap(&self.model, entries)?;
        self.pass(|bracket| bracket.meet_cap(bound));
        Ok(())
    }

    pub fn hope(
        &mut self,
        entries: &[u32],
        marks: &mut [u8],
        tally: &mut [u64],
    ) -> Result<(), Refusal>
        requires { M.Model.valid self.old.model }
        ensures step { Stepped M.Model.scale (M.Model.meaning self.old.model) (takes (hope entries.now marks.old tally.old)) (takes (hope entries.now marks.new tally.new)) (standing self.old) (standing self.new) (replied (told result)) }
        ensures model { self.new.model ≡ self.old.model }
    {
        self.sheet.take()?;
        let flow = check_hope(&self.model, entries, marks, tally)?;
        let bound = FlowKind::Hope.round(&self.model, flow.sum);
        self.pass(|bracket| bracket.meet_hope(bound, flow.visits));
        Ok(())
    }

    pub fn risk(&mut self, entries: &[u32], tally: &mut [u64]) -> Result<(), Refusal>
        requires { M.Model.valid self.old.model }
        ensures step { Stepped M.Model.scale (M.Model.meaning self.old.model) (takes (risk entries.now tally.old)) (takes (risk entries.now tally.new)) (standing self.old) (standing self.new) (replied (told result)) }
        ensures model { self.new.model ≡ self.old.model }
    {
        self.sheet.take()?;
        let flow = check_risk(&self.model, entries, tally)?;
        let bound = FlowKind::Risk.round(&self.model, flow.sum);
        self.pass(|bracket| bracket.meet_risk(bound));
        Ok(())
    }

    // Does every order reach the target with this chance at least?
    pub fn at_least(&self, chance: u32) -> Result<Decision, Refusal>
        ensures { Stepped M.Model.scale (M.Model.meaning self.now.model) (asks_least chance) (asks_least chance) (standing self.now) (standing self.now) (spoken (told result)) }
    {
        self.sheet.bracket.at_least(chance)
    }

    // Does every order reach the target with this chance at most?
    pub fn at_most(&self, chance: u32) -> Result<Decision, Refusal>
        ensures { Stepped M.Model.scale (M.Model.meaning self.now.model) (asks_most chance) (asks_most chance) (standing self.now) (standing self.now) (spoken (told result)) }
    {
        self.sheet.bracket.at_most(chance)
    }
}
