#![tactic(auto)]

// Tests of the text formats at the edges of their rules.
#[cfg(test)]
mod depots;
#[cfg(test)]
mod inputs;
#[cfg(test)]
mod limits;
#[cfg(test)]
mod told;
#[cfg(test)]
mod vectors;
mod worked;
