//! The client of a server: one call, or one for each line of an input, and what is printed of the
//! replies.
#![tactic(auto)]

pub mod calling;
pub mod client;
mod deadlines;
mod input;
pub mod lines;
pub mod outcomes;
pub mod places;
pub mod rounds;
pub mod servers;
pub mod streams;

pub use calling::{call_lines, make_calls};
pub use client::{ask, call};
pub use places::{PlaceWords, server_named};
pub use servers::{Place, Replies, Requests, Server, Servers};
pub use streams::ServerStream;
