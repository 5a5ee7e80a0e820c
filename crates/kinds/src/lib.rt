#![tactic(auto)]

// What differs between the kinds of vector: their limits, their sides and how these compare.
mod flow_kind;
mod state_kind;

pub use flow_kind::FlowKind;
pub use state_kind::StateKind;
