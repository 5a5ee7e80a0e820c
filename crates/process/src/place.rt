// How a walk through a depot ends.
#[derive(Clone, Copy, PartialEq, Eq, Debug)]
pub enum End {
    Target,
    Exit,
}

// Where a move leads.
#[derive(Clone, Copy, PartialEq, Eq, Debug)]
pub enum Place {
    State(u32),
    End(End),
}

// One way that an option can turn out; its chance is the weight over the scale.
#[derive(Clone, Copy, PartialEq, Eq, Debug)]
pub struct Move {
    pub place: Place,
    pub weight: u32,
}

// The options of one state, by their numbers in the whole model: the first, and how many.
#[derive(Clone, Copy, PartialEq, Eq, Debug, Default)]
pub struct Span {
    pub first: usize,
    pub count: usize,
}
