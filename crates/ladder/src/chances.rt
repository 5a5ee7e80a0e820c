ghost use Rattle.std.specs.Prelude.{◌≡◌};
ghost use Rattle.ladder.specs.Ladder.{fits};

// What comes of one try, in parts of 4,096: the target, the exit, or the same try again; the rest fails.
#[derive(Clone, Copy, PartialEq, Eq, Debug)]
pub struct Chances {
    pub target: u32,
    pub exit: u32,
    pub again: u32,
}

impl Chances {
    // whether they leave the rest of the scale to failure
    pub(crate) fn fit(self) -> bool
        ensures { result ≡ fits self }
    {
        u64::from(self.target) + u64::from(self.exit) + u64::from(self.again) <= 4096
    }
}
