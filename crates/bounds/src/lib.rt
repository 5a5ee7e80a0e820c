#![tactic(auto)]

// Charging orders, hits and the inequalities of the five vectors: definitions and what follows from them. There is no
// code here; the crates that check vectors and look ahead cite it.
