//! A connection: its requests in, its replies out.
#![tactic(auto)]

pub mod calls;
pub mod connection;
pub mod exchange;
mod lending;
mod outgoing;
pub mod resting;
pub mod room;
mod row;

pub use calls::Calls;
pub use connection::{ConnectionError, serve_connection};
pub use exchange::{Answered, Connection, Stage};
pub use resting::Resting;
pub use room::{Buffer, Row};
