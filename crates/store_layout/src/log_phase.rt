//! How far a log is.

/// What comes next in a log. In each phase but `Idle` one device call is due.
#[derive(Clone, Copy, Debug, PartialEq, Eq)]
pub enum Phase {
    /// Nothing is due.
    Idle,
    /// The header and a closed gate are to be written.
    Header,
    /// They are to be synced.
    HeaderWritten,
    /// The staged frame and a closed gate are to be written behind the last gate.
    Staged,
    /// They are to be synced.
    Written,
    /// The gate before them is to be opened.
    Synced,
    /// That is to be synced.
    Opened,
}
