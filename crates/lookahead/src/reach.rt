// How far a look ahead may reach: six turns over states of at most 16 moves are at most 16 to the power of 6 walks.
ghost use Rattle.std.specs.Prelude.{◌≡◌};
ghost use Rattle.encoding.specs.Reading.{process_read};
ghost use Rattle.table.specs.View.{lists_of};
ghost use Rattle.lookahead.specs.Answers.{too_wide};

use process::{Model, move_count};
use table::Table;

pub(crate) const DEPTH_LIMIT: u32 = 6;

const MOVE_LIMIT: usize = 16;

// The first state whose options have too many moves together.
pub(crate) fn first_crowded(table: &Table) -> Option<usize>
    ensures { result ≡ too_wide (process_read (lists_of table.now)) }
{
    (0..table.states()).find(|state| move_count(table, *state) > MOVE_LIMIT)
}
