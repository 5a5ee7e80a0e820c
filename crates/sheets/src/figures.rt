// The best bounds so far, in parts of a million, with the visits of the hope; no delay until one was accepted.
#[derive(Clone, Copy, PartialEq, Eq, Debug)]
pub struct Bracket {
    pub cap: u32,
    pub floor: u32,
    pub risk: u64,
    pub hope: u64,
    pub visits: u64,
    pub delay: Option<u32>,
}

// A bracket, and how many vectors were taken and how many of those passed.
#[derive(Clone, Copy, PartialEq, Eq, Debug)]
pub struct Sheet {
    pub bracket: Bracket,
    pub taken: u32,
    pub passed: u32,
}
