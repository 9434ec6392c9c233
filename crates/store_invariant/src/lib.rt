//! How the four files of a store stand between two device calls, and what a stop may leave of them. The
//! definitions stand in the specs; their laws are the contracts of functions.
#![tactic(auto)]

pub mod laws;
