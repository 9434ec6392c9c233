//! Tests of a map in bins, and of its growth.
#![tactic(auto)]

#[cfg(test)]
mod checks;
#[cfg(test)]
mod collisions;
#[cfg(test)]
mod growths;
#[cfg(test)]
mod numbers;
#[cfg(test)]
mod random_calls;
#[cfg(test)]
mod tables;
