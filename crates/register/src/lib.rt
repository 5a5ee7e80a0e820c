#![tactic(auto)]

// Registers: the best bounds on a model, kept from call to call. An open register takes no floor; an accepted delay settles
// it.
mod book;

pub use book::{Open, Register, Settled, Stage, Unsettled};
