//! The lines of a script.
use sim_rules::Event;

/// How a line goes on behind its first event, and how what came of it is printed.
#[derive(Clone, Copy, Debug, PartialEq, Eq)]
pub enum Form {
    /// One event, that isn't of a worker.
    Single,
    /// A worker begins the walk of a change or a read.
    Start { worker: usize },
    /// A worker's walk makes its next step.
    Step { worker: usize },
    /// A worker's walk makes all steps that are left.
    Go { worker: usize },
    /// A worker begins a release, which makes all its steps.
    Release { worker: usize },
    /// The keeper makes a sweep, or what is left of one.
    Sweep,
    /// The keeper captures a stripe.
    Capture,
}

/// A line of a script, by its first event.
#[derive(Drop)]
pub struct Line {
    pub form: Form,
    pub event: Event,
}
