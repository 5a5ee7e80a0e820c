// How a sheet counts the vectors that are taken, and those that pass.
ghost use Rattle.std.specs.Prelude.{◌≡◌, Ok};
ghost use Rattle.refusal.specs.Tellings.{told};
ghost use Rattle.sheets.specs.Brackets.{first_sheet};
ghost use Rattle.sheets.specs.Counting.{unless_full, one_taken};

use crate::figures::{Bracket, Sheet};
use refusal::Refusal;

// as many vectors as a sheet counts
const MOST_TAKEN: u32 = 65_535;

impl Sheet {
    // The sheet of a new register.
    pub fn first() -> Sheet
        ensures { result ≡ first_sheet }
    {
        Sheet {
            bracket: Bracket::first(),
            taken: 0,
            passed: 0,
        }
    }

    // One more vector is taken: 51 where the sheet counts no more.
    pub fn take(&mut self) -> Result<(), Refusal>
        ensures answer { told result ≡ unless_full self.old (Ok tt) }
        ensures sheet { self.new ≡ one_taken self.old }
    {
        if self.taken >= MOST_TAKEN {
            return Err(Refusal::RegisterFull);
        }
        self.taken += 1;
        Ok(())
    }
}
