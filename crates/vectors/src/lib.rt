#![tactic(auto)]

ghost use Rattle.std.specs.Prelude.{◌≡◌, length, is_ok, Decides};
ghost use Rattle.refusal.specs.Tellings.{told};
ghost use Rattle.vectors.specs.Verdicts.{verdict, floor_verdict, floor_marks};
ghost use Rattle.vectors.specs.Accepts.{Accepted, FirstNamed};

mod entries;
mod levels;

pub use entries::first_above;
use entries::mark;
use kinds::StateKind;
use levels::Levels;
use process::Model;
use refusal::Refusal;

// A cap: no order reaches the target with a greater chance than the first entry, out of a million.
pub fn check_cap<M: Model>(model: &M, entries: &[u32]) -> Result<u32, Refusal>
    requires { M.Model.valid model.now }
    ensures answer { told result ≡ verdict StateKind.Cap M.Model.scale (M.Model.meaning model.now) entries.now }
    ensures accepts { Decides (is_ok result) (Accepted StateKind.Cap M.Model.scale (M.Model.meaning model.now) entries.now) }
    ensures first { FirstNamed StateKind.Cap M.Model.scale (M.Model.meaning model.now) entries.now (told result) }
{
    Levels::new(model, StateKind::Cap, entries)?.judge()
}

// A delay: every order has left the states, on average, after as many moves as the first entry.
// kept: a name beside that of caps, since one function over the kind would take a floor without its marks
pub fn check_delay<M: Model>(model: &M, entries: &[u32]) -> Result<u32, Refusal>
    requires { M.Model.valid model.now }
    ensures answer { told result ≡ verdict StateKind.Delay M.Model.scale (M.Model.meaning model.now) entries.now }
    ensures accepts { Decides (is_ok result) (Accepted StateKind.Delay M.Model.scale (M.Model.meaning model.now) entries.now) }
    ensures first { FirstNamed StateKind.Delay M.Model.scale (M.Model.meaning model.now) entries.now (told result) }
{
    Levels::new(model, StateKind::Delay, entries)?.judge()
}

// A floor, which with a delay bounds every order from below. Acceptance marks the states that carry it.
pub fn check_floor<M: Model>(model: &M, entries: &[u32], marks: &mut [u8]) -> Result<u32, Refusal>
    requires { M.Model.valid model.now }
    ensures answer { told result ≡ floor_verdict M.Model.scale (M.Model.meaning model.now) entries.now (length marks.old) }
    ensures marks { marks.new ≡ floor_marks (told result) entries.now marks.old }
    ensures accepts { Decides (is_ok result) (Accepted StateKind.Floor M.Model.scale (M.Model.meaning model.now) entries.now × (length marks.old ≡ length (M.Model.meaning model.now))) }
    ensures first { FirstNamed StateKind.Floor M.Model.scale (M.Model.meaning model.now) entries.now (told result) }
{
    let levels = Levels::new(model, StateKind::Floor, entries)?;
    if marks.len() != entries.len() {
        return Err(Refusal::VectorLength(1));
    }
    let bound = levels.judge()?;
    mark(entries, marks);
    Ok(bound)
}
