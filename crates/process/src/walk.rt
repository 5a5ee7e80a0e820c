// The queries of a model made total, for loops over its states, options and moves: what is missing counts for nothing.
ghost use Rattle.std.specs.Prelude.{◌≡◌, ◌≤◌, length};
ghost use Rattle.std.specs.Option.{unwrap_or};
ghost use Rattle.process.specs.Process.{joined, weights};
ghost use Rattle.process.specs.Queries.{options_at, moves_of, move_at};
ghost use Rattle.process.specs.Walks.{no_options, no_move, Spanned, Step};
ghost use Rattle.process.specs.Steps.{moves_left, LeadWithin};

use crate::{End, Model, Move, Place, Span, Steps};

// The options of a state.
pub fn span_of<M: Model>(model: &M, state: usize) -> Span
    requires { M.Model.valid model.now }
    ensures answer { result ≡ unwrap_or (options_at (M.Model.meaning model.now) state) no_options }
    ensures spanned { Spanned (M.Model.meaning model.now) state result }
{
    model.options(state).unwrap_or_default()
}

// How many moves an option of a state has.
pub fn count_of<M: Model>(model: &M, state: usize, option: usize) -> usize
    requires { M.Model.valid model.now }
    ensures { result ≡ length (moves_of (M.Model.meaning model.now) state option) }
{
    model.moves(state, option).unwrap_or(0)
}

// One move of an option of a state.
pub fn step_of<M: Model>(model: &M, state: usize, option: usize, index: usize) -> Move
    requires { M.Model.valid model.now }
    ensures answer { result ≡ unwrap_or (move_at (M.Model.meaning model.now) state option index) no_move }
    ensures step { Step (length (M.Model.meaning model.now)) (moves_of (M.Model.meaning model.now) state option) index result }
{
    model.move_at(state, option, index).unwrap_or(Move {
        place: Place::End(End::Exit),
        weight: 0,
    })
}

// The moves of an option of a state, from the first to the last.
pub fn steps<M: Model>(model: &M, state: usize, option: usize) -> Steps<'_, M>
    requires { M.Model.valid model.now }
    ensures model { result.model.now ≡ model.now }
    ensures moves { moves_left M.Model.meaning result ≡ moves_of (M.Model.meaning model.now) state option }
    ensures within { LeadWithin (length (M.Model.meaning model.now)) (moves_left M.Model.meaning result) }
    ensures limit { weights (moves_left M.Model.meaning result) ≤ 65536 }
{
    Steps {
        model,
        state,
        option,
        index: 0,
        count: count_of(model, state, option),
    }
}

// How many options a model has in all.
pub fn option_total<M: Model>(model: &M) -> usize
    requires { M.Model.valid model.now }
    ensures value { result ≡ length (joined (M.Model.meaning model.now)) }
    ensures limit { result ≤ 16384 }
{
    let last = span_of(model, model.states() - 1);
    last.first + last.count
}
