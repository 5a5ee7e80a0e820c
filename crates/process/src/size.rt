// How large a model is.
ghost use Rattle.std.specs.Prelude.{◌≡◌, [], length, slice_index_or};
ghost use Rattle.process.specs.Process.{joined};

use crate::{Model, count_of, option_total, span_of};

#[derive(Clone, Copy, PartialEq, Eq, Debug)]
pub struct Size {
    pub states: usize,
    pub options: usize,
    pub moves: usize,
}

pub fn size_of<M: Model>(model: &M) -> Size
    requires { M.Model.valid model.now }
    ensures states { result.states ≡ length (M.Model.meaning model.now) }
    ensures options { result.options ≡ length (joined (M.Model.meaning model.now)) }
    ensures moves { result.moves ≡ length (joined (joined (M.Model.meaning model.now))) }
{
    let states = model.states();
    let options = option_total(model);
    let moves = (0..states).map(|state| move_count(model, state)).sum();
    Size {
        states,
        options,
        moves,
    }
}

// How many options a state has; none where it is missing.
pub fn option_count<M: Model>(model: &M, state: usize) -> usize
    requires { M.Model.valid model.now }
    ensures { result ≡ length (slice_index_or (M.Model.meaning model.now) state []) }
{
    span_of(model, state).count
}

// How many moves the options of a state have together.
pub fn move_count<M: Model>(model: &M, state: usize) -> usize
    requires { M.Model.valid model.now }
    ensures { result ≡ length (joined (slice_index_or (M.Model.meaning model.now) state [])) }
{
    (0..option_count(model, state))
        .map(|option| count_of(model, state, option))
        .sum()
}
