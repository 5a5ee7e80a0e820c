// A vector with one entry for each state of a model.
ghost use Rattle.std.specs.Prelude.{◌≡◌, ◌^◌, ◌<◌, ◌≤◌, ◌∷◌, [], length, is_ok, ◌==◌, Ok, IfOk, Decides};
ghost use Rattle.refusal.specs.Tellings.{told, told_as, at_vector};
ghost use Rattle.refusal.specs.Tests.{first_false, unless};
ghost use Rattle.process.specs.Process.{Within};
ghost use Rattle.process.specs.Queries.{moves_of};
ghost use Rattle.process.specs.Means.{mean, worth};
ghost use Rattle.bounds.specs.Vectors.{value_at};
ghost use Rattle.kinds.specs.StateKinds.{reward_of, holds_at};
ghost use Rattle.vectors.specs.Verdicts.{first_failing, judgement};
ghost use Rattle.vectors.specs.Accepts.{Accepted, FirstNamed};

use crate::first_above;
use kinds::StateKind;
use process::{Model, Place, span_of, steps};
use refusal::Refusal;

// A vector of a kind, with as many entries as its model has states.
#[derive(Drop)]
pub(crate) struct Levels<'a, M: Model> {
    model: &'a M,
    kind: StateKind,
    entries: &'a [u32],
    ghost level: { length entries.now ≡ length (M.Model.meaning model.now) },
}

impl<'a, M: Model> Levels<'a, M> {
    // 41 where the lengths differ
    pub(crate) fn new(
        model: &'a M,
        kind: StateKind,
        entries: &'a [u32],
    ) -> Result<Levels<'a, M>, Refusal>
        requires { M.Model.valid model.now }
        ensures answer { told_as (λ l. l.entries.now) result ≡ unless (at_vector 41) (first_false ((length entries.now == length (M.Model.meaning model.now)) ∷ [])) (Ok entries.now) }
        ensures parts { IfOk result (λ l. (l.model.now ≡ model.now) × (l.kind ≡ kind)) }
    {
        if entries.len() != model.states() {
            return Err(Refusal::VectorLength(0));
        }
        Ok(Levels {
            model,
            kind,
            entries,
        })
    }

    // 42, 43, or the bound; inlined, so that the kind is a constant of each check and not asked at each move
    #[inline(always)]
    pub(crate) fn judge(&self) -> Result<u32, Refusal>
        requires { M.Model.valid self.now.model.now }
        ensures answer { told result ≡ judgement self.now.kind M.Model.scale (M.Model.meaning self.now.model.now) self.now.entries.now }
        ensures accepts { Decides (is_ok result) (Accepted self.now.kind M.Model.scale (M.Model.meaning self.now.model.now) self.now.entries.now) }
        ensures first { FirstNamed self.now.kind M.Model.scale (M.Model.meaning self.now.model.now) self.now.entries.now (told result) }
    {
        if let Some(index) = first_above(self.entries, self.kind.limit()) {
            return Err(Refusal::VectorEntry(index));
        }
        if let Some(option) = self.first_unfair() {
            return Err(Refusal::VectorInequality(option));
        }
        Ok(self.entries[0])
    }

    // the number of the first option at which the inequality fails, states in rising order
    #[inline(always)]
    fn first_unfair(&self) -> Option<usize>
        requires { M.Model.valid self.now.model.now }
        ensures { result ≡ first_failing (holds_at self.now.kind M.Model.scale (length (M.Model.meaning self.now.model.now)) self.now.entries.now) 0 0 (M.Model.meaning self.now.model.now) }
    {
        // kept: a rule of the project, the search for an option is left by a label with its number
        'search: {
            for state in 0..self.model.states() {
                let span = span_of(self.model, state);
                for option in 0..span.count {
                    if !self.fair_at(state, option) {
                        break 'search Some(span.first + option);
                    }
                }
            }
            None
        }
    }

    // whether the inequality holds at an option of a state
    fn fair_at(&self, state: usize, option: usize) -> bool
        requires valid { M.Model.valid self.now.model.now }
        requires state { state < length (M.Model.meaning self.now.model.now) }
        ensures { result ≡ holds_at self.now.kind M.Model.scale (length (M.Model.meaning self.now.model.now)) self.now.entries.now state (moves_of (M.Model.meaning self.now.model.now) state option) }
    {
        let scale = M::total_weight();
        let given = self.sum_moves(state, option);
        let charge = self.kind.charge(scale);
        let own = u64::from(scale) * u64::from(self.entries[state]);
        self.kind.holds(own, u64::from(charge) + given)
    }

    // the sum over an option's moves of weight times worth
    fn sum_moves(&self, state: usize, option: usize) -> u64
        requires { M.Model.valid self.now.model.now }
        ensures sum { result ≡ mean (worth (value_at self.now.entries.now) (reward_of self.now.kind)) (moves_of (M.Model.meaning self.now.model.now) state option) }
        ensures bound { result ≤ 2 ^ 48 }
    {
        let mut total: u64 = 0;
        for step in steps(self.model, state, option) {
            total += u64::from(step.weight) * self.worth_of(step.place);
        }
        total
    }

    // the entry of a state, the reward of the target, and 0 for another end
    fn worth_of(&self, place: Place) -> u64
        requires valid { M.Model.valid self.now.model.now }
        requires within { Within (length (M.Model.meaning self.now.model.now)) place }
        ensures value { result ≡ worth (value_at self.now.entries.now) (reward_of self.now.kind) place }
        ensures bound { result < 2 ^ 32 }
    {
        let value = u64::from(self.entries[place.index()]);
        value * place.is_state() + u64::from(self.kind.reward()) * place.is_target()
    }
}
