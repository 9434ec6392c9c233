//! The program: what the words of its command line ask for is done; and what a server is made of.
#![tactic(auto)]

pub mod descriptors;
mod grammar;
mod host;
mod order;
pub mod program;
pub mod simulation;

pub use cmd_serve::{
    Arrivals, Bell, Furniture, NoObserver, Observer, Service, Stream, furnish, workers,
};
pub use connections::{Calls, ConnectionError, serve_connection};
pub use descriptors::{Descriptors, StandardStreams, hold_streams};
pub use host::Host;
pub use program::dchm;
pub use simulation::{sim, simulate};
