//! How the words and the workers of a life stand against what the events and outcomes so far say of
//! it. The definitions stand in the specs; their laws are the contracts of functions.
#![tactic(auto)]

pub mod laws;
