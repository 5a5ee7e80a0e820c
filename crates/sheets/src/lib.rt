#![tactic(auto)]

// What a register keeps: the best bounds so far and the counts of vectors, how a bracket meets a new bound, and the
// questions that it answers.
mod counting;
mod figures;
mod meeting;
mod questions;

pub use figures::{Bracket, Sheet};
pub use questions::Decision;
