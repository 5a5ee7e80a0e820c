// What differs between a hope and a risk.
ghost use Rattle.std.specs.Prelude.{◌≡◌, ◌≤◌};
ghost use Rattle.kinds.specs.FlowKinds.{balanced, rounded, Rounds};

use process::Model;

// The vectors with one entry for each option.
#[derive(Clone, Copy, PartialEq, Eq, Debug)]
pub enum FlowKind {
    Hope,
    Risk,
}

impl FlowKind {
    // Whether the scale times what a state spends compares with what it has as it should.
    pub fn balances(self, spent: u64, has: u64) -> bool
        ensures { result ≡ balanced self spent has }
    {
        match self {
            FlowKind::Hope => spent <= has,
            FlowKind::Risk => has <= spent,
        }
    }

    // The bound that a sum gives over a model, in whole parts of a million: a hope is rounded down, a risk up.
    pub fn round<M: Model>(self, model: &M, sum: u64) -> u64
        requires { M.Model.valid model.now }
        ensures value { result ≡ rounded self sum M.Model.scale }
        ensures next { Rounds self sum M.Model.scale result }
    {
        let scale = u64::from(M::total_weight());
        match self {
            FlowKind::Hope => sum / scale,
            FlowKind::Risk => sum.div_ceil(scale),
        }
    }
}
