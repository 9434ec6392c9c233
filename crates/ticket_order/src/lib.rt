//! The order of tickets: what one pass records of its steps on the shared words, the steps
//! themselves, and the walks of a change, a read, a release, a sweep and a capture.
#![tactic(auto)]

pub mod calls;
mod capture_walk;
mod change_walk;
pub mod held;
pub mod numbers;
mod read_walk;
pub mod record;
mod release_walk;
pub mod steps;
pub mod stripe;
mod sweep_walk;
pub mod walk;

pub use calls::{call_on, read_on, release, try_call, try_read};
pub use capture_walk::Captured;
pub use held::{Held, Released};
pub use numbers::{Position, Ticket};
pub use record::{Asked, Call, FiniteMap, Holding, Opening, Purpose, Record, Section, StepMade};
pub use steps::Steps;
pub use stripe::{Entry, Stripe};
pub use walk::{Stepped, Walk};
