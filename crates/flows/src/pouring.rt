// What an option sends: to the states, in a tally, and to the target.
ghost use Rattle.std.specs.Prelude.{◌≡◌, ℕ, ◌+◌, ◌*◌, ◌^◌, ◌<◌, ◌≤◌, length, slice_index};
ghost use Rattle.process.specs.Process.{Within};
ghost use Rattle.process.specs.Queries.{moves_of};
ghost use Rattle.process.specs.Means.{worth};
ghost use Rattle.bounds.specs.Vectors.{one_at, weight_to, weight_to_target};

use process::{Model, Place, steps};

// adds an amount at a place that is a state
fn credit(tally: &mut [u64], place: Place, amount: u64)
    requires some { 1 ≤ length tally.old }
    requires within { Within (length tally.old) place }
    requires room { (s : ℕ) → s < length tally.old → slice_index tally.old s + amount * worth (one_at s) 0 place < 2 ^ 64 }
    ensures { (s : ℕ) → s < length tally.old → slice_index tally.new s ≡ slice_index tally.old s + amount * worth (one_at s) 0 place }
{
    tally[place.index()] += amount * place.is_state();
}

// Adds the flow of an option times its weights to the tally, and tells the flow times the weight to the target.
pub(crate) fn pour<M: Model>(
    model: &M,
    state: usize,
    option: usize,
    flow: u32,
    tally: &mut [u64],
) -> u64
    requires valid { M.Model.valid model.now }
    requires level { length tally.old ≡ length (M.Model.meaning model.now) }
    requires room { (s : ℕ) → s < length tally.old → slice_index tally.old s + flow * weight_to s (moves_of (M.Model.meaning model.now) state option) < 2 ^ 64 }
    ensures inflow { (s : ℕ) → s < length tally.old → slice_index tally.new s ≡ slice_index tally.old s + flow * weight_to s (moves_of (M.Model.meaning model.now) state option) }
    ensures gain { result ≡ flow * weight_to_target (moves_of (M.Model.meaning model.now) state option) }
{
    let mut gained: u64 = 0;
    for step in steps(model, state, option) {
        let amount = u64::from(flow) * u64::from(step.weight);
        credit(tally, step.place, amount);
        gained += amount * step.place.is_target();
    }
    gained
}
