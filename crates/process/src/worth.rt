// Places read by arithmetic, so that a loop over moves has no branch in it: what a place is worth is the entry at its
// index times `is_state`, and the target's reward times `is_target`.
ghost use Rattle.std.specs.Prelude.{◌≡◌};
ghost use Rattle.process.specs.Means.{valued, worth};

use crate::{End, Place};

impl Place {
    // The state that it is, and 0 for an end.
    pub fn index(self) -> usize
        ensures { result ≡ valued (λ s. s) (λ _. 0) self }
    {
        match self {
            Place::State(state) => state as usize,
            Place::End(_) => 0,
        }
    }

    // 1 for a state, 0 for an end.
    pub fn is_state(self) -> u64
        ensures { result ≡ valued (λ _. 1) (λ _. 0) self }
    {
        match self {
            Place::State(_) => 1,
            Place::End(_) => 0,
        }
    }

    // 1 for the target, 0 for any other place.
    pub fn is_target(self) -> u64
        ensures { result ≡ worth (λ _. 0) 1 self }
    {
        match self {
            Place::State(_) => 0,
            Place::End(End::Target) => 1,
            Place::End(End::Exit) => 0,
        }
    }
}
