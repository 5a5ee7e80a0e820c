#![tactic(auto)]

// Tests of the five vector checks and of look-ahead. Expected values are worked out by hand from the inequalities.
#[cfg(test)]
mod checks;
#[cfg(test)]
mod flow_checks;
#[cfg(test)]
mod ladders;
#[cfg(test)]
mod looks;
#[cfg(test)]
mod states;
#[cfg(test)]
mod worked;
