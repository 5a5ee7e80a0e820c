// The two turns of a look ahead, which call each other: the controller picks an option, then chance one of its moves.
ghost use Rattle.std.specs.Prelude.{◌≡◌, ◌≤◌};
ghost use Rattle.process.specs.Queries.{moves_of};
ghost use Rattle.encoding.specs.Reading.{process_read};
ghost use Rattle.table.specs.View.{lists_of};
ghost use Rattle.lookahead.specs.Sides.{kept, outlook, mean_outlook};

use process::{End, Place, option_count, steps};
use table::Table;

// What the controller plays for: the most hits or the fewest.
// kept: the contracts speak of the side, and two cases are plainer than `u64::max` or `u64::min` passed through both turns
#[derive(Clone, Copy)]
pub(crate) enum Side {
    Greatest,
    Least,
}

impl Side {
    // The one of two hits that the controller prefers.
    fn keep(self, a: u64, b: u64) -> u64
        ensures { result ≡ kept self a b }
    {
        match self {
            Side::Greatest => a.max(b),
            Side::Least => a.min(b),
        }
    }
}

// The controller's turn: the hits from a state within `depth` moves, out of 1,000 to the power of the depth.
#[cycle(chance_choice)]
pub(crate) fn choice(table: &Table, side: Side, depth: u32, state: usize) -> u64
    requires { depth ≤ 6 }
    ensures { result ≡ outlook side 1000 (process_read (lists_of table.now)) depth state }
{
    if depth == 0 {
        return 0;
    }
    let mut hits = chance(table, side, depth - 1, state, 0);
    // kept: in a chain the closure would call back into this pair of functions, and need a second copy of their contract
    for option in 1..option_count(table, state) {
        let next = chance(table, side, depth - 1, state, option);
        hits = side.keep(hits, next);
    }
    hits
}

// The turn of chance: the hits of an option, each move by its weight, with `depth` moves left after that.
#[cycle(chance_choice)]
fn chance(table: &Table, side: Side, depth: u32, state: usize, option: usize) -> u64
    requires { depth ≤ 5 }
    ensures { result ≡ mean_outlook side 1000 (process_read (lists_of table.now)) depth (moves_of (process_read (lists_of table.now)) state option) }
{
    let certain = 1000u64.pow(depth);
    let mut sum = 0;
    for step in steps(table, state, option) {
        let hits = match step.place {
            Place::State(next) => choice(table, side, depth, next as usize),
            Place::End(End::Target) => certain,
            Place::End(End::Exit) => 0,
        };
        sum += u64::from(step.weight) * hits;
    }
    sum
}
