#![tactic(auto)]

// A depot table opened from its text.
ghost use Rattle.std.specs.Prelude.{◌≡◌};
ghost use Rattle.refusal.specs.Tellings.{told};
ghost use Rattle.encoding.specs.Reading.{process_read};
ghost use Rattle.passes.specs.View.{view};
ghost use Rattle.table.specs.View.{lists_of};
ghost use Rattle.opened.specs.Opening.{OpenedAsSpelled};

use depot_text::load;
use encoding::Lists;
use passes::Lent;
use refusal::Refusal;
use table::Table;

// Reads a depot from its text into three lists, and opens the table over them; a refusal leaves the table as it was.
#[tactic(auto, using(crate::proofs::Opens::opens))]
pub fn open_text<'a>(table: &mut Table<'a>, text: &[u8], lists: Lent<'a>) -> Result<(), Refusal>
    ensures { OpenedAsSpelled text.now (view lists.entry) (process_read (lists_of table.old)) (told result) (process_read (lists_of table.new)) }
{
    let Lent {
        options,
        starts,
        moves,
    } = lists;
    let lent = Lent {
        options: &mut *options,
        starts: &mut *starts,
        moves: &mut *moves,
    };
    let size = load(text, lent)?;
    table.open(Lists {
        options: &options[..size.states + 1],
        starts: &starts[..size.options + 1],
        moves: &moves[..2 * size.moves],
    })
}
