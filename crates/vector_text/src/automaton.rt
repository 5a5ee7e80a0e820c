ghost use Rattle.std.specs.Prelude.{◌≡◌};
ghost use Rattle.refusal.specs.Tellings.{told};
ghost use Rattle.vector_text.specs.Machine.{inside, on_vector, on_entry, on_end, next, ended, puts};

use crate::format::{Kind, Phase, Vector};
use crate::item::Item;
use lines::Line;
use passes::{Automaton, Lent, write_at};
use refusal::Refusal;

impl Vector {
    // The kind of a vector that has begun and not ended.
    fn inside(self, at: usize) -> Result<Kind, Refusal>
        ensures { told result ≡ inside self.phase at }
    {
        match self.phase {
            Phase::Vector(kind) | Phase::Entry { kind, .. } => Ok(kind),
            Phase::Start | Phase::End(_) => Err(Refusal::TextOrder(at)),
        }
    }

    fn on_vector(self, at: usize, kind: Kind) -> Result<Vector, Refusal>
        ensures { told result ≡ on_vector self at kind }
    {
        if self.phase != Phase::Start {
            return Err(Refusal::TextOrder(at));
        }
        Ok(Vector {
            phase: Phase::Vector(kind),
            ..self
        })
    }

    fn on_entry(self, at: usize, entry: u32) -> Result<Vector, Refusal>
        ensures { told result ≡ on_entry self at entry }
    {
        let kind = self.inside(at)?;
        if self.count >= self.room {
            return Err(Refusal::TextRoom(at));
        }
        Ok(Vector {
            phase: Phase::Entry { kind, entry },
            count: self.count + 1,
            ..self
        })
    }

    fn on_end(self, at: usize) -> Result<Vector, Refusal>
        ensures { told result ≡ on_end self at }
    {
        let kind = self.inside(at)?;
        Ok(Vector {
            phase: Phase::End(kind),
            ..self
        })
    }
}

impl Automaton for Vector {
    ghost next = { next };

    ghost ended = { ended };

    ghost puts = { puts };

    fn step(self, line: Line<'_>) -> Result<Vector, Refusal> {
        match Item::from(line) {
            Item::Vector(kind) => self.on_vector(line.at(), kind),
            Item::Entry(entry) => self.on_entry(line.at(), entry),
            Item::End => self.on_end(line.at()),
            Item::Other => Err(Refusal::TextOrder(line.at())),
        }
    }

    fn has_ended(&self) -> bool {
        matches!(self.phase, Phase::End(_))
    }

    fn put(&self, lists: Lent<'_>) {
        if let Phase::Entry { entry, .. } = self.phase {
            // kept: a plain `- 1` wants a premise, and `put` has none
            write_at(lists.moves, self.count.saturating_sub(1), entry);
        }
    }
}
