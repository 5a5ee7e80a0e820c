// What a bracket says of a chance that a planner names, in parts of a million.
ghost use Rattle.std.specs.Prelude.{◌≡◌};
ghost use Rattle.refusal.specs.Tellings.{told};
ghost use Rattle.sheets.specs.Brackets.{asked, decision, least_decision, most_decision};

use crate::figures::Bracket;
use refusal::Refusal;

// The answer to a question.
#[derive(Clone, Copy, PartialEq, Eq, Debug)]
pub enum Decision {
    Yes,
    No,
    // the bounds leave it open
    Undecided,
}

impl Bracket {
    // Does every order reach the target with this chance at least?
    pub fn at_least(&self, chance: u32) -> Result<Decision, Refusal>
        ensures { told result ≡ asked chance (least_decision self.now chance) }
    {
        answer(chance, self.floor >= chance, self.risk < u64::from(chance))
    }

    // Does every order reach the target with this chance at most?
    pub fn at_most(&self, chance: u32) -> Result<Decision, Refusal>
        ensures { told result ≡ asked chance (most_decision self.now chance) }
    {
        answer(chance, self.cap <= chance, self.hope > u64::from(chance))
    }
}

// What a question about a chance answers, where one bound may tell that it holds and one that it fails.
fn answer(chance: u32, holds: bool, fails: bool) -> Result<Decision, Refusal>
    ensures { told result ≡ asked chance (decision holds fails) }
{
    if chance > 1_000_000 {
        return Err(Refusal::RegisterChance);
    }
    Ok(if holds {
        Decision::Yes
    } else if fails {
        Decision::No
    } else {
        Decision::Undecided
    })
}
