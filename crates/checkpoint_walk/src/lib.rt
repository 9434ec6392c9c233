//! A checkpoint is written while other threads work. The stripes are captured one by one, each at
//! its own mark. Once all marks are committed, the checkpoint is sealed.
#![tactic(auto)]

mod advancing;
mod beginning;
mod captures;
mod capturing;
pub mod laws;
mod sealing;
mod sections;

pub use advancing::advance;
pub use beginning::begin;
pub use captures::{capture, capture_step, try_capture};
pub use sealing::seal;
