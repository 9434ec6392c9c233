//! The server: the map of a directory is served at a port or a Unix socket, by workers that serve many
//! connections each.
#![tactic(auto)]

mod accepting;
pub mod begun;
pub mod bells;
mod bulk;
mod client;
mod closing;
pub mod desk;
pub mod errands;
mod event_loop;
pub mod figures;
mod idle;
pub mod laws;
mod listening;
pub mod observer;
mod opening;
pub mod pool;
mod reporting;
mod reports;
pub mod seats;
pub mod server;
pub mod service;
pub mod settings;
mod spares;
pub mod streams;
pub mod tally;
mod turns;
mod watching;
pub mod worker;

pub use begun::Begun;
pub use bells::Bell;
pub use figures::Figures;
pub use observer::{NoObserver, Observer};
pub use pool::{Arrivals, workers};
pub use seats::{Furniture, furnish};
pub use server::serve;
pub use service::{Service, serve_map};
pub use settings::ServerWords;
pub use streams::Stream;
pub use tally::Tally;
pub use worker::Worker;
