#![tactic(auto)]

ghost use Rattle.std.specs.Prelude.{◌≡◌, ℕ, length};
ghost use Rattle.process.specs.Process.{Process, Formed};
ghost use Rattle.process.specs.Queries.{options_at, moves_at, move_at};

mod moves;
mod place;
mod size;
mod stepping;
mod walk;
mod worth;

pub use place::{End, Move, Place, Span};
pub use size::{Size, move_count, option_count, size_of};
pub use stepping::Steps;
pub use walk::{count_of, option_total, span_of, step_of, steps};

// A decision process behind queries. State 0 is the start. An option is named by its state and its place in that
// state; what is missing is answered by `None`.
pub trait Model {
    // what the weights of an option add up to, fixed for each kind of model
    const SCALE: u32;

    ghost scale: { ℕ };

    // the process that the model means
    ghost meaning: { Self → Process };

    // what a value asks before it promises anything: nothing, but for layers that multiply counts
    // kept: a clause of each function, since a ghost field has to be a proposition and this need not be one
    ghost valid: { Self → Type 0 } = { λ _. Unit {0} };

    // SCALE, for code that knows only the trait: a constant carries no contract
    fn total_weight() -> u32
        ensures { result ≡ scale };

    fn states(&self) -> usize
        requires { valid self.now }
        ensures { result ≡ length (meaning self.now) };

    fn options(&self, state: usize) -> Option<Span>
        requires { valid self.now }
        ensures { result ≡ options_at (meaning self.now) state };

    // how many moves an option of a state has
    // kept: an option is two numbers, as the rules name it; a pair of them would be taken apart wherever it is used
    fn moves(&self, state: usize, option: usize) -> Option<usize>
        requires { valid self.now }
        ensures { result ≡ moves_at (meaning self.now) state option };

    fn move_at(&self, state: usize, option: usize, index: usize) -> Option<Move>
        requires { valid self.now }
        ensures { result ≡ move_at (meaning self.now) state option index };

    // the law of every model: its meaning is well formed, so that code for every model may rest on it
    ghost formed: { (m : Self) → valid m → Formed scale (meaning m) };
}
