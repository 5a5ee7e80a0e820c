// How far a walk over the moves of an option has come.
ghost use Rattle.std.specs.Prelude.{◌≡◌, length};
ghost use Rattle.process.specs.Queries.{moves_of};

use crate::Model;

#[derive(Drop)]
pub struct Steps<'a, M: Model> {
    pub(crate) model: &'a M,
    pub(crate) state: usize,
    pub(crate) option: usize,
    pub(crate) index: usize,
    // how many moves the option has, so that the model is asked for each of them once and for none past the last
    pub(crate) count: usize,
    ghost counted: { count ≡ length (moves_of (M.Model.meaning model.now) state option) },
}
