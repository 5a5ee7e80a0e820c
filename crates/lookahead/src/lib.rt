#![tactic(auto)]

ghost use Rattle.std.specs.Prelude.{◌≡◌, Ok};
ghost use Rattle.refusal.specs.Tellings.{told};
ghost use Rattle.encoding.specs.Reading.{process_read};
ghost use Rattle.table.specs.View.{lists_of};
ghost use Rattle.lookahead.specs.Answers.{answer};
ghost use Rattle.lookahead.specs.Orders.{OverAllOrders};

mod reach;
mod turns;

use reach::{DEPTH_LIMIT, first_crowded};
use refusal::Refusal;
use table::Table;
use turns::{Side, choice};

// The greatest and the least hits over all charging orders within `depth` moves, out of 1,000 to the power of the depth.
#[derive(Clone, Copy, PartialEq, Eq, Debug)]
pub struct Outlook {
    pub greatest: u64,
    pub least: u64,
}

// Looks ahead from the start. Refused where the walk could grow too long: at a depth that is too great, or else at the
// first state with too many moves.
pub fn look_ahead(table: &Table, depth: u32) -> Result<Outlook, Refusal>
    ensures answer { told result ≡ answer 1000 (process_read (lists_of table.now)) depth }
    ensures orders { (h : Outlook) → result ≡ Ok h → OverAllOrders 1000 (process_read (lists_of table.now)) depth h.greatest h.least }
{
    if depth > DEPTH_LIMIT {
        return Err(Refusal::LookAheadReach(depth as usize));
    }
    if let Some(state) = first_crowded(table) {
        return Err(Refusal::LookAheadReach(state));
    }
    Ok(Outlook {
        greatest: choice(table, Side::Greatest, depth, 0),
        least: choice(table, Side::Least, depth, 0),
    })
}
