ghost use Rattle.std.specs.Prelude.{◌≡◌, ℕ, ◌+◌, ◌<◌, ◌≤◌, false, length, IfOk};
ghost use Rattle.refusal.specs.Tellings.{told_as};
ghost use Rattle.passes.specs.Texts.{lines};
ghost use Rattle.passes.specs.Passes.{advanced, pass as pass_of, filled};
ghost use Rattle.passes.specs.View.{view, left, halted};

use crate::Automaton;
use crate::lent::Lent;
use lines::Text;
use refusal::Refusal;

// A state, and the text from there on.
#[derive(Drop)]
pub struct Passed<'a, A> {
    pub state: A,
    pub text: Text<'a>,
}

impl<A: Automaton + Drop> Passed<'_, A> {
    // one line of the text
    fn advance(self) -> Result<Self, Refusal>
        ensures answer { told_as halted result ≡ advanced A.Automaton.next self.entry.state self.entry.text.at (lines self.entry.text.rest.now) }
        ensures less { IfOk result (λ x. length x.text.rest.now < length self.entry.text.rest.now) }
        ensures next { IfOk result (λ x. x.text.at ≡ self.entry.text.at + 1) }
    {
        let read = self.text.read_line()?;
        let state = self.state.step(read.line)?;
        Ok(Passed {
            state,
            text: read.text,
        })
    }
}

// Reads lines until the format has ended, and hands on what follows. Each line puts what it has to into the lists; with
// no lists lent, it is read and nothing else.
pub fn pass<'a, A: Automaton + Drop>(
    start: A,
    text: Text<'a>,
    lists: Lent<'_>,
) -> Result<Passed<'a, A>, Refusal>
    ensures answer { told_as halted result ≡ pass_of A.Automaton.next A.Automaton.ended start text.entry.at (lines text.entry.rest.now) }
    ensures moved { IfOk result (λ x. A.Automaton.ended start ≡ false → text.entry.at < x.text.at) }
    ensures near { IfOk result (λ x. x.text.at + length x.text.rest.now ≤ text.entry.at + length text.entry.rest.now) }
    ensures lists { left lists.exit ≡ filled A.Automaton.next A.Automaton.ended A.Automaton.puts start text.entry.at (lines text.entry.rest.now) (view lists.entry) }
{
    let Lent {
        options,
        starts,
        moves,
    } = lists;
    let mut passed = Passed { state: start, text };
    while !passed.state.has_ended() {
        passed = passed.advance()?;
        passed.state.put(Lent {
            options: &mut *options,
            starts: &mut *starts,
            moves: &mut *moves,
        });
    }
    Ok(passed)
}
