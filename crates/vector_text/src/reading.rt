ghost use Rattle.std.specs.Prelude.{◌≡◌, ◌+◌, ◌<◌, ◌≤◌, [], length, IfOk};
ghost use Rattle.refusal.specs.Tellings.{told_as};
ghost use Rattle.encoding.specs.Lists.{lists as three};
ghost use Rattle.vector_text.specs.Reading.{answer, left, found};
ghost use Rattle.vector_text.specs.Spelling.{ReadAsSpelled};

use crate::format::{Kind, Phase, Vector};
use lines::Text;
use passes::{Lent, pass};
use refusal::Refusal;

// A vector that was read: its kind, how many entries it has, and the text after it.
#[derive(Clone, Copy, Debug)]
pub struct Found<'a> {
    pub kind: Kind,
    // kept: a rule of the project, the list is lent, with no heap, and may have more room than the vector takes
    pub count: usize,
    pub text: Text<'a>,
}

// Reads one vector into a list, once the whole of it has been checked. Entries past those of the vector stay; after a
// refusal the list is as it was.
#[tactic(auto, using(crate::proofs::Law::read_by))]
pub fn read_vector<'a>(text: Text<'a>, entries: &mut [u32]) -> Result<Found<'a>, Refusal>
    ensures answer { told_as found result ≡ answer text.entry.at text.entry.rest.now (three [] [] entries.old) }
    ensures near { IfOk result (λ x. (text.entry.at < x.text.at) × (x.text.at + length x.text.rest.now ≤ text.entry.at + length text.entry.rest.now)) }
    ensures entries { entries.new ≡ (left text.entry.at text.entry.rest.now (three [] [] entries.old)).moves }
    ensures spelled { ReadAsSpelled text.entry.at text.entry.rest.now entries.old (told_as found result) entries.new }
{
    let vector = Vector {
        phase: Phase::Start,
        room: entries.len(),
        count: 0,
    };
    let passed = pass(vector, text, Lent::default())?;
    let lent = Lent {
        moves: entries,
        ..Lent::default()
    };
    let _ = pass(vector, text, lent);
    let Phase::End(kind) = passed.state.phase else {
        // no pass stops here, since it goes on to the end of a vector or is refused
        return Err(Refusal::TextOrder(passed.text.at()));
    };
    Ok(Found {
        kind,
        count: passed.state.count,
        text: passed.text,
    })
}
