#![tactic(auto)]

// Calls on a register, one after another, and what holds after any list of them: definitions and their proofs. There is no
// code here; the register and the whole run cite it.
