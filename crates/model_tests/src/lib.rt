#![tactic(auto)]

// Tests of the three models at the edges of their rules.
#[cfg(test)]
mod ladders;
#[cfg(test)]
mod parts;
#[cfg(test)]
mod refusals;
mod shapes;
#[cfg(test)]
mod tables;
mod told;
