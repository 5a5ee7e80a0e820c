// How a bracket meets the bound of an accepted vector: the better of the two stays.
ghost use Rattle.std.specs.Prelude.{◌≡◌};
ghost use Rattle.sheets.specs.Brackets.{first_bracket, lower_cap, higher_floor, given_delay, higher_hope, lower_risk};

use crate::figures::Bracket;

impl Bracket {
    // What is known before any vector: certainty above, nothing below.
    pub fn first() -> Bracket
        ensures { result ≡ first_bracket }
    {
        Bracket {
            cap: 1_000_000,
            floor: 0,
            risk: 1_000_000,
            hope: 0,
            visits: 0,
            delay: None,
        }
    }

    // A lower cap replaces what stood.
    pub fn meet_cap(&mut self, bound: u32)
        ensures { self.new ≡ lower_cap bound self.old }
    {
        self.cap = self.cap.min(bound);
    }

    // A higher floor replaces what stood.
    pub fn meet_floor(&mut self, bound: u32)
        ensures { self.new ≡ higher_floor bound self.old }
    {
        self.floor = self.floor.max(bound);
    }

    // The delay that settles a register is the one that it keeps.
    pub fn meet_delay(&mut self, bound: u32)
        ensures { self.new ≡ given_delay bound self.old }
    {
        self.delay = Some(bound);
    }

    // A higher hope replaces what stood, and an equal one with fewer visits; visits change only with the hope.
    pub fn meet_hope(&mut self, bound: u64, visits: u64)
        ensures { self.new ≡ higher_hope bound visits self.old }
    {
        // kept: pairs with the visits reversed compare the same, and read no plainer
        if self.hope < bound || (self.hope == bound && visits < self.visits) {
            self.hope = bound;
            self.visits = visits;
        }
    }

    // A lower risk replaces what stood.
    pub fn meet_risk(&mut self, bound: u64)
        ensures { self.new ≡ lower_risk bound self.old }
    {
        self.risk = self.risk.min(bound);
    }
}
