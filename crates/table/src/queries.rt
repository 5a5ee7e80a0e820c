ghost use Rattle.std.specs.Prelude.{◌≡◌, ◌+◌, ◌/◌, ◌<◌, ◌≤◌, length, slice_index, IfSome};
ghost use Rattle.encoding.specs.Reading.{process_read};
ghost use Rattle.table.specs.View.{lists_of};
ghost use Rattle.table.specs.Runs.{span_from, span_at, run_at};
ghost use Rattle.table.specs.Laws.{formed_table};

use crate::Table;
use crate::reading::read_move;
use process::{Model as ProcessModel, Move, Span};

// where part `index` of a list stands, from the starts of its parts
fn span_from(starts: &[u32], index: usize) -> Span
    requires within { index + 1 < length starts.now }
    requires rise { slice_index starts.now index ≤ slice_index starts.now (index + 1) }
    ensures { result ≡ span_from starts.now index }
{
    let first = starts[index] as usize;
    Span {
        first,
        count: starts[index + 1] as usize - first,
    }
}

impl Table<'_> {
    // the options of a state, counted through the whole table
    fn span(&self, state: usize) -> Option<Span>
        ensures value { result ≡ span_at (lists_of self.now) state }
        ensures within { IfSome result (λ w. w.first + w.count < length self.now.lists.starts.now) }
    {
        if state >= self.lists.options.len() - 1 {
            return None;
        }
        Some(span_from(self.lists.options, state))
    }

    // where the moves of an option stand in the list of moves
    fn run(&self, state: usize, option: usize) -> Option<Span>
        ensures value { result ≡ run_at (lists_of self.now) state option }
        ensures within { IfSome result (λ w. w.first + w.count ≤ length self.now.lists.moves.now / 2) }
    {
        let span = self.span(state)?;
        if option >= span.count {
            return None;
        }
        // the starts have been checked, so an option that is there has its run
        Some(span_from(self.lists.starts, span.first + option))
    }
}

impl<'a> ProcessModel for Table<'a> {
    const SCALE: u32 = 1000;

    ghost scale = { 1000 };

    ghost meaning = { λ t. process_read (lists_of t) };

    ghost formed = { λ t _. formed_table t };

    fn total_weight() -> u32
        ensures { result ≡ 1000 }
    {
        Self::SCALE
    }

    fn states(&self) -> usize {
        self.lists.options.len() - 1
    }

    fn options(&self, state: usize) -> Option<Span> {
        self.span(state)
    }

    fn moves(&self, state: usize, option: usize) -> Option<usize> {
        Some(self.run(state, option)?.count)
    }

    fn move_at(&self, state: usize, option: usize, index: usize) -> Option<Move> {
        let run = self.run(state, option)?;
        if index >= run.count {
            return None;
        }
        let at = 2 * (run.first + index);
        Some(read_move(&self.lists.moves[at..at + 2]))
    }
}
