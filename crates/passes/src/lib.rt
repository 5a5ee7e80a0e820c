#![tactic(auto)]

ghost use Rattle.std.specs.Prelude.{◌≡◌, ℕ, Bool, Result as Answer};
ghost use Rattle.refusal.specs.Tellings.{Telling, told};
ghost use Rattle.encoding.specs.Lists.{Lists};
ghost use Rattle.lines.specs.Lines.{Said};
ghost use Rattle.lines.specs.View.{line_at, said_by};
ghost use Rattle.passes.specs.View.{view, left};

mod lent;
mod passing;

pub use lent::{Lent, write_at};
use lines::Line;
pub use passing::{Passed, pass};
use refusal::Refusal;

// A format of text, as what may come next: a state that takes one line after another.
pub trait Automaton: Sized {
    // the state after a line, or why the line is refused
    ghost next: { Self → ℕ → Said → Answer Self Telling };

    // no further line belongs to the text
    ghost ended: { Self → Bool };

    // what the line read last puts into the lent lists
    ghost puts: { Self → Lists → Lists };

    fn step(self, line: Line<'_>) -> Result<Self, Refusal>
        ensures { told result ≡ next self (line_at line.entry) (said_by line.entry) };

    fn has_ended(&self) -> bool
        ensures { result ≡ ended self.now };

    fn put(&self, lists: Lent<'_>)
        ensures { left lists.exit ≡ puts self.now (view lists.entry) };
}
