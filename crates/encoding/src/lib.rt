#![tactic(auto)]

// How three lists of numbers spell a decision process. Only the lists, definitions (specs/) and their laws (proofs/): the
// table reads such lists, and a loader writes them.

// Three lists of numbers, lent. Any lists will do: whether they spell a process is asked of them.
// kept: a rule of the project, tables read three lent lists beside one another, and nothing is copied
#[derive(Clone, Copy, Debug)]
pub struct Lists<'a> {
    // where the options of each state start, and where the last ones end
    pub options: &'a [u32],
    // where the moves of each option start, and where the last ones end
    pub starts: &'a [u32],
    // the place and the weight of each move in turn
    pub moves: &'a [u32],
}
