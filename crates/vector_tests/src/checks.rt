// The checks of vectors by their kind, with a refusal as its number and place.
use flows::{Flow, check_hope, check_risk};
use kinds::{FlowKind, StateKind};
use process::Model;
use refusal::Refusal;
use vectors::{check_cap, check_delay, check_floor};

// number and place of a refusal
// kept: the tables of cases are written in the numbers that users see
pub(crate) type Told = (u8, usize);

pub(crate) fn told(refusal: Refusal) -> Told {
    (refusal.number(), refusal.place())
}

// The bound of a vector with one entry for each state; a floor alone leaves marks.
pub(crate) fn states_checked<M: Model>(
    model: &M,
    kind: StateKind,
    entries: &[u32],
    marks: &mut [u8],
) -> Result<u32, Told>
    requires { M.Model.valid model.now }
{
    let answer = match kind {
        StateKind::Cap => check_cap(model, entries),
        StateKind::Delay => check_delay(model, entries),
        StateKind::Floor => check_floor(model, entries, marks),
    };
    answer.map_err(told)
}

// What a vector with one entry for each option gives; a hope alone leaves marks.
pub(crate) fn options_checked<M: Model>(
    model: &M,
    kind: FlowKind,
    entries: &[u32],
    marks: &mut [u8],
    tally: &mut [u64],
) -> Result<Flow, Told>
    requires { M.Model.valid model.now }
{
    let answer = match kind {
        FlowKind::Hope => check_hope(model, entries, marks, tally),
        FlowKind::Risk => check_risk(model, entries, tally),
    };
    answer.map_err(told)
}
