#![tactic(auto)]

// Vector text: one vector after another, each read whole or refused at its first bad line.
mod automaton;
mod format;
mod item;
mod reading;

pub use format::{Kind, Phase, Vector};
pub use item::Item;
pub use reading::{Found, read_vector};
