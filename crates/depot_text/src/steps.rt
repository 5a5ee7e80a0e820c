// What each line of a depot text does, or why it is refused.
ghost use Rattle.std.specs.Prelude.{◌≡◌, if◌then◌else◌, Ok, Err};
ghost use Rattle.refusal.specs.Tellings.{told, at_text};
ghost use Rattle.depot_text.specs.Machine.{closed, on_kind, on_states, on_state, on_choice, on_to, on_weight, on_end, on_item};

use crate::item::{Item, Spelled};
use crate::progress::{Depot, Phase, Progress};
use refusal::Refusal;

impl Depot {
    // the weights of the last option, if one is complete, have to make the scale; told at the line after the option
    fn check_sum(self, at: usize) -> Result<(), Refusal>
        ensures { told result ≡ (if closed self.progress then Ok tt else Err (at_text 15 at)) }
    {
        match self.progress.phase {
            Phase::Weight { lacks, .. } if lacks != Some(0) => Err(Refusal::TextSum(at)),
            _ => Ok(()),
        }
    }

    fn on_kind(self, at: usize) -> Result<Progress, Refusal>
        ensures { told result ≡ on_kind self.progress at }
    {
        if self.progress.phase != Phase::Start {
            return Err(Refusal::TextOrder(at));
        }
        Ok(Progress {
            phase: Phase::Kind,
            ..self.progress
        })
    }

    fn on_states(self, at: usize, states: u32) -> Result<Progress, Refusal>
        ensures { told result ≡ on_states self.rules self.progress at states }
    {
        if self.progress.phase != Phase::Kind {
            return Err(Refusal::TextOrder(at));
        }
        if !(1..=4096).contains(&states) {
            return Err(Refusal::TextValue(at));
        }
        if states > self.rules.states {
            return Err(Refusal::TextRoom(at));
        }
        Ok(Progress {
            phase: Phase::States,
            states,
            ..self.progress
        })
    }

    fn on_state(self, at: usize, state: u32) -> Result<Progress, Refusal>
        ensures { told result ≡ on_state self.progress at state }
    {
        let s = self.progress;
        if !(matches!(s.phase, Phase::States | Phase::Weight { .. })
            && state == s.begun
            && state < s.states)
        {
            return Err(Refusal::TextOrder(at));
        }
        self.check_sum(at)?;
        Ok(Progress {
            phase: Phase::State,
            begun: state + 1,
            before: s.options,
            ..s
        })
    }

    fn on_choice(self, at: usize, option: u32) -> Result<Progress, Refusal>
        ensures { told result ≡ on_choice self.rules self.progress at option }
    {
        let s = self.progress;
        if !(matches!(s.phase, Phase::State | Phase::Weight { .. })
            && option == s.options.saturating_sub(s.before))
        {
            return Err(Refusal::TextOrder(at));
        }
        if s.options >= self.rules.options {
            return Err(Refusal::TextRoom(at));
        }
        self.check_sum(at)?;
        Ok(Progress {
            phase: Phase::Choice {
                lacks: Some(self.rules.scale),
            },
            options: s.options + 1,
            ..s
        })
    }

    fn on_to(self, at: usize, place: Spelled) -> Result<Progress, Refusal>
        ensures { told result ≡ on_to self.rules self.progress at place }
    {
        let s = self.progress;
        let (Phase::Choice { lacks } | Phase::Weight { lacks, .. }) = s.phase else {
            return Err(Refusal::TextOrder(at));
        };
        if !place.exists(s.states) {
            return Err(Refusal::TextValue(at));
        }
        if s.moves >= self.rules.moves {
            return Err(Refusal::TextRoom(at));
        }
        Ok(Progress {
            phase: Phase::To { place, lacks },
            moves: s.moves + 1,
            ..s
        })
    }

    fn on_weight(self, at: usize, weight: u32) -> Result<Progress, Refusal>
        ensures { told result ≡ on_weight self.rules self.progress at weight }
    {
        let Phase::To { place, lacks } = self.progress.phase else {
            return Err(Refusal::TextOrder(at));
        };
        if weight > self.rules.scale {
            return Err(Refusal::TextValue(at));
        }
        Ok(Progress {
            phase: Phase::Weight {
                place,
                weight,
                lacks: lacks.and_then(|rest| rest.checked_sub(weight)),
            },
            ..self.progress
        })
    }

    fn on_end(self, at: usize) -> Result<Progress, Refusal>
        ensures { told result ≡ on_end self.progress at }
    {
        let s = self.progress;
        if !(matches!(s.phase, Phase::Weight { .. }) && s.begun == s.states) {
            return Err(Refusal::TextOrder(at));
        }
        self.check_sum(at)?;
        Ok(Progress {
            phase: Phase::End,
            ..s
        })
    }

    pub(crate) fn on_item(self, at: usize, item: Item) -> Result<Progress, Refusal>
        ensures { told result ≡ on_item self.rules self.progress at item }
    {
        match item {
            Item::Kind => self.on_kind(at),
            Item::States(states) => self.on_states(at, states),
            Item::State(state) => self.on_state(at, state),
            Item::Choice(option) => self.on_choice(at, option),
            Item::To(place) => self.on_to(at, place),
            Item::Weight(weight) => self.on_weight(at, weight),
            Item::End => self.on_end(at),
            Item::Other => Err(Refusal::TextOrder(at)),
        }
    }
}
