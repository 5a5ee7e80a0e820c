ghost use Rattle.std.specs.Prelude.{◌≡◌};
ghost use Rattle.refusal.specs.Tellings.{told};
ghost use Rattle.passes.specs.Texts.{lines as lines_of};
ghost use Rattle.passes.specs.View.{view, left as returned};
ghost use Rattle.depot_text.specs.Loading.{beginning, nothing_after, size as size_of, answer, left};
ghost use Rattle.depot_text.specs.Spelling.{LoadedAsSpelled};

use crate::progress::{Depot, Phase, Progress, Rules};
use lines::Text;
use passes::{Lent, pass};
use process::Size;
use refusal::Refusal;

impl Depot {
    // the beginning of a text of some scale, for these lists
    fn new(scale: u32, lists: &Lent<'_>) -> Depot
        ensures { result ≡ beginning scale (view lists.now) }
    {
        Depot {
            rules: Rules {
                scale,
                states: lists.options.len().saturating_sub(1).min(4096) as u32,
                options: lists.starts.len().saturating_sub(1).min(16384) as u32,
                moves: (lists.moves.len() / 2).min(65536) as u32,
            },
            progress: Progress {
                phase: Phase::Start,
                states: 0,
                begun: 0,
                before: 0,
                options: 0,
                moves: 0,
            },
        }
    }

    fn size(self) -> Size
        ensures { result ≡ size_of self }
    {
        Size {
            states: self.progress.states as usize,
            options: self.progress.options as usize,
            moves: self.progress.moves as usize,
        }
    }
}

// a depot text ends with its end: a further line is refused
#[tactic(auto, using(crate::proofs::Ends::after_end))]
fn check_end(depot: Depot, text: Text<'_>) -> Result<Depot, Refusal>
    ensures { told result ≡ nothing_after depot text.entry.at (lines_of text.entry.rest.now) }
{
    if text.is_empty() {
        return Ok(depot);
    }
    let _ = text.read_line()?;
    Err(Refusal::TextOrder(text.at()))
}

// Reads a depot from its text into three lists: option starts, move starts, and the place and weight of each move.
// Numbers past those that it needs stay; after a refusal all three are as they were.
#[tactic(auto, using(crate::proofs::Law::loaded_from_one))]
pub fn load(text: &[u8], lists: Lent<'_>) -> Result<Size, Refusal>
    ensures answer { told result ≡ answer 1000 1 text.now (view lists.entry) }
    ensures lists { returned lists.exit ≡ left 1000 1 text.now (view lists.entry) }
    ensures spelled { LoadedAsSpelled 1000 text.now (view lists.entry) (told result) (returned lists.exit) }
{
    let depot = Depot::new(1000, &lists);
    // kept: what lists hold after they were handed on whole did not prove, so they are taken apart first
    let Lent {
        options,
        starts,
        moves,
    } = lists;
    let lent = Lent {
        options,
        starts,
        moves,
    };
    let text = Text::new(1, text);
    // the whole text is checked before anything is written
    let passed = pass(depot, text, Lent::default())?;
    let whole = check_end(passed.state, passed.text)?;
    let _ = pass(depot, text, lent);
    Ok(whole.size())
}
