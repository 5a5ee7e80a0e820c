// The moves of an option, one after another.
ghost use Rattle.std.specs.Iterator.{YieldsFirst, item_count};
ghost use Rattle.process.specs.Steps.{moves_left};

use crate::{Model, Move, Steps, step_of};

impl<'a, M: Model> Iterator for Steps<'a, M> {
    type Item = Move;

    ghost can_next = { λ s. M.Model.valid s.model.now };

    ghost next_gives = { YieldsFirst (moves_left M.Model.meaning) };

    ghost remaining = { item_count (moves_left M.Model.meaning) };

    fn next(&mut self) -> Option<Move> {
        if self.index >= self.count {
            return None;
        }
        let step = step_of(self.model, self.state, self.option, self.index);
        self.index += 1;
        Some(step)
    }
}
