#![tactic(auto)]

// Depot text: read whole, or refused at its first bad line.
mod automaton;
mod item;
mod loading;
mod progress;
mod splitting;
mod steps;

pub use item::{Item, Spelled};
pub use loading::load;
pub use progress::{Depot, Phase, Progress, Rules};
pub use splitting::{Split, split_input};
