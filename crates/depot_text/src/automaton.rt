ghost use Rattle.depot_text.specs.Loading.{next, ended, puts};

use crate::item::Item;
use crate::progress::{Depot, Phase};
use lines::Line;
use passes::{Automaton, Lent, write_at};
use refusal::Refusal;

impl Automaton for Depot {
    ghost next = { next };

    ghost ended = { ended };

    ghost puts = { puts };

    fn step(self, line: Line<'_>) -> Result<Depot, Refusal> {
        let progress = self.on_item(line.at(), Item::from(line))?;
        Ok(Depot { progress, ..self })
    }

    fn has_ended(&self) -> bool {
        self.progress.phase == Phase::End
    }

    fn put(&self, lists: Lent<'_>) {
        let s = self.progress;
        let Lent {
            options,
            starts,
            moves,
        } = lists;
        match s.phase {
            Phase::State => write_at(options, (s.begun as usize).saturating_sub(1), s.options),
            Phase::Choice { .. } => write_at(
                starts,
                (s.options as usize).saturating_sub(1),
                s.moves,
            ),
            Phase::Weight { place, weight, .. } => {
                let index = 2 * (s.moves as usize).saturating_sub(1);
                write_at(moves, index, u32::from(place));
                write_at(moves, index + 1, weight);
            }
            Phase::End => {
                write_at(options, s.begun as usize, s.options);
                write_at(starts, s.options as usize, s.moves);
            }
            _ => {}
        }
    }
}
