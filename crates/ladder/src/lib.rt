#![tactic(auto)]

ghost use Rattle.std.specs.Prelude.{◌≡◌, ◌<◌, true, [], ◌∷◌, nat_lt, is_ok, if◌then◌else◌};
ghost use Rattle.std.specs.List.{slice_get};
ghost use Rattle.refusal.specs.Tellings.{told_as};
ghost use Rattle.ladder.specs.Ladder.{answer, tried, fits, moves_after, after_failure};
ghost use Rattle.ladder.specs.Laws.{formed_ladder};

mod chances;

pub use chances::Chances;
use process::{End, Model as ProcessModel, Move, Place, Span};
use refusal::Refusal;

// A contactor that is tried again and again, at forty amps (option 0) or at twenty (option 1). State s means that s
// tries have failed.
#[derive(Clone, Copy)]
pub struct Ladder {
    tries: u32,
    forty: Chances,
    twenty: Chances,
    ghost ok: { is_ok (answer tries forty twenty) ≡ true },
}

impl Ladder {
    pub fn new(tries: u32, forty: Chances, twenty: Chances) -> Result<Self, Refusal>
        ensures { told_as (λ l. tried l.tries l.forty l.twenty) result ≡ answer tries forty twenty }
    {
        if !(1..=4096).contains(&tries) {
            return Err(Refusal::LadderTries);
        }
        if !forty.fit() {
            return Err(Refusal::LadderChances(0));
        }
        if !twenty.fit() {
            return Err(Refusal::LadderChances(1));
        }
        Ok(Ladder {
            tries,
            forty,
            twenty,
        })
    }

    // how many tries have failed in a state, if there is such a state
    fn failed(&self, state: usize) -> Option<u32>
        ensures { result ≡ (if nat_lt state self.now.tries then Some state else None) }
    {
        (state < self.tries as usize).then(|| state as u32)
    }

    // the chances of an option, if there is such an option
    fn chances(&self, option: usize) -> Option<Chances>
        ensures { result ≡ slice_get (self.now.forty ∷ (self.now.twenty ∷ [])) option }
    {
        match option {
            0 => Some(self.forty),
            1 => Some(self.twenty),
            _ => None,
        }
    }

    // a move after some failed tries
    fn outcome(&self, failed: u32, chances: Chances, index: usize) -> Option<Move>
        requires tried { failed < self.now.tries }
        requires fits { fits chances ≡ true }
        ensures { result ≡ slice_get (moves_after self.now.tries chances failed) index }
    {
        let rest = 4096 - (chances.target + chances.exit + chances.again);
        match index {
            0 => Some(Move {
                place: Place::End(End::Target),
                weight: chances.target,
            }),
            1 => Some(Move {
                place: Place::End(End::Exit),
                weight: chances.exit,
            }),
            2 => Some(Move {
                place: Place::State(failed),
                weight: chances.again,
            }),
            3 => Some(Move {
                place: self.after_failure(failed),
                weight: rest,
            }),
            _ => None,
        }
    }

    // where a failed try leads: to the next, and after the last to the exit
    fn after_failure(&self, failed: u32) -> Place
        requires { failed < self.now.tries }
        ensures { result ≡ after_failure self.now.tries failed }
    {
        if failed + 1 < self.tries {
            Place::State(failed + 1)
        } else {
            Place::End(End::Exit)
        }
    }
}

#[tactic(auto, using(crate::proofs::Queries::ladder_queries))]
impl ProcessModel for Ladder {
    const SCALE: u32 = 4096;

    ghost scale = { 4096 };

    ghost meaning = { λ l. tried l.tries l.forty l.twenty };

    ghost formed = { λ l _. formed_ladder l.tries l.forty l.twenty l.ok };

    fn total_weight() -> u32
        ensures { result ≡ 4096 }
    {
        Self::SCALE
    }

    fn states(&self) -> usize {
        self.tries as usize
    }

    fn options(&self, state: usize) -> Option<Span> {
        let failed = self.failed(state)?;
        Some(Span {
            first: 2 * failed as usize,
            count: 2,
        })
    }

    fn moves(&self, state: usize, option: usize) -> Option<usize> {
        self.failed(state)?;
        self.chances(option)?;
        Some(4)
    }

    fn move_at(&self, state: usize, option: usize, index: usize) -> Option<Move> {
        let failed = self.failed(state)?;
        let chances = self.chances(option)?;
        self.outcome(failed, chances, index)
    }
}
