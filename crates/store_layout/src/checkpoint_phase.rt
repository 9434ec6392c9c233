//! How far a checkpoint is.

/// What comes next in a checkpoint. In each phase but `Idle`, `Ready` and `Sealed` one device call is
/// due.
#[derive(Clone, Copy, Debug, PartialEq, Eq)]
pub enum CheckpointPhase {
    /// Nothing was begun.
    Idle,
    /// The gate of the file is to be closed.
    Gate,
    /// The closed gate is to be synced.
    GateWritten,
    /// Zeros are to be written where the header will stand.
    GateSynced,
    /// The next section may be given, or if all are written, the checkpoint may be sealed.
    Ready,
    /// The section that was given is to be written.
    Staged,
    /// The header is to be written.
    Header,
    /// It is to be synced, with the sections.
    HeaderWritten,
    /// The gate is to be opened.
    HeaderSynced,
    /// That is to be synced.
    Opened,
    /// The checkpoint is sealed.
    Sealed,
}
