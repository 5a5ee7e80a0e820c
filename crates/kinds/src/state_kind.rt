// What differs between a cap, a floor and a delay.
ghost use Rattle.std.specs.Prelude.{◌≡◌};
ghost use Rattle.kinds.specs.StateKinds.{limit_of, reward_of, charge_of, fair};

// The vectors with one entry for each state.
#[derive(Clone, Copy, PartialEq, Eq, Debug)]
pub enum StateKind {
    Cap,
    Floor,
    Delay,
}

impl StateKind {
    // The largest entry.
    // kept: one function for each figure, since a table of figures would be read by its field just so
    pub fn limit(self) -> u32
        ensures { result ≡ limit_of self }
    {
        match self {
            StateKind::Cap | StateKind::Floor => 1_000_000,
            StateKind::Delay => 1_073_741_824,
        }
    }

    // What the target is worth.
    pub fn reward(self) -> u32
        ensures { result ≡ reward_of self }
    {
        match self {
            StateKind::Cap | StateKind::Floor => 1_000_000,
            StateKind::Delay => 0,
        }
    }

    // What an option is charged at a scale, whatever its moves.
    pub fn charge(self, scale: u32) -> u32
        ensures { result ≡ charge_of self scale }
    {
        match self {
            StateKind::Cap | StateKind::Floor => 0,
            StateKind::Delay => scale,
        }
    }

    // Whether the scale times the state's own entry compares with what an option gives as it should.
    pub fn holds(self, own: u64, given: u64) -> bool
        ensures { result ≡ fair self own given }
    {
        match self {
            StateKind::Cap | StateKind::Delay => given <= own,
            StateKind::Floor => own <= given,
        }
    }
}
