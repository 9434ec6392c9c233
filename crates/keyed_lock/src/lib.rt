//! A lock whose value fits a key. A clause can name the key beside the lock, where it can't name what
//! stands under a `Mutex`.
#![tactic(auto)]

mod guarding;
mod lock;

pub use guarding::{Guard, Keyed, KeyedLock, Loan};
