//! The shared words and the stripes, on which any number of threads make their steps: one history.
#![tactic(auto)]

mod beginning;
mod board;
mod calls;
mod fronts;
mod held;
pub mod laws;
mod marks;
mod parking;
mod plays;
mod rule;
mod starts;
mod steps;
mod stripes;
mod view;
mod waiting;

pub use beginning::Beginning;
pub use board::Board;
pub use held::{Held, Released};
pub use marks::Marks;
pub use rule::{Pass, StripeRule};
pub use stripes::Stripes;
pub use view::SeatView;
