//! How the keeper of a store stands against what the events and outcomes so far say of it. The
//! definitions stand in the specs; their laws are the contracts of functions.
#![tactic(auto)]

pub mod laws;
