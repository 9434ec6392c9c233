//! Tests of the map's types and functions, a stripe's part, and the words and stripes that passes share.
#![tactic(auto)]

#[cfg(test)]
mod callers;
#[cfg(test)]
mod checks;
#[cfg(test)]
mod functions;
#[cfg(test)]
mod growths;
#[cfg(test)]
mod hashes;
#[cfg(test)]
mod marks;
#[cfg(test)]
mod parts;
#[cfg(test)]
mod stripes;
#[cfg(test)]
mod threads;
#[cfg(test)]
mod tickets;
#[cfg(test)]
mod types;
#[cfg(test)]
mod words;
