use crate::item::Spelled;

// The kind of line that was read last. While an option stands open it has the place and the weight of the last move, and
// what the weights so far lack of the scale, nothing once they pass it.
#[derive(Clone, Copy, PartialEq, Eq, Debug)]
pub enum Phase {
    Start,
    Kind,
    States,
    State,
    Choice {
        lacks: Option<u32>,
    },
    To {
        place: Spelled,
        lacks: Option<u32>,
    },
    Weight {
        place: Spelled,
        weight: u32,
        lacks: Option<u32>,
    },
    End,
}

// The scale, and how much the limits and the lent lists hold.
#[derive(Clone, Copy, PartialEq, Eq, Debug)]
pub struct Rules {
    pub scale: u32,
    pub states: u32,
    pub options: u32,
    pub moves: u32,
}

// How far a depot text has been read.
// kept: counts begin at 0, so they stay beside the phase instead of in each phase that knows them
#[derive(Clone, Copy, PartialEq, Eq, Debug)]
pub struct Progress {
    pub phase: Phase,
    // the states that the text announces, and those begun
    pub states: u32,
    pub begun: u32,
    // the options before the last state, and all so far
    pub before: u32,
    pub options: u32,
    pub moves: u32,
}

// The format of depot text, somewhere in a text.
#[derive(Clone, Copy, PartialEq, Eq, Debug)]
pub struct Depot {
    pub rules: Rules,
    pub progress: Progress,
}
