/// Picks one of the contents that a stop may leave, or that a failed write may leave to be read.
///
/// `lens` are the lengths of the four files; one that isn't allowed is brought to the nearest that is.
#[derive(Drop)]
pub enum Fill {
    /// Bytes and lengths as at the last successful sync.
    Old,
    /// What a read gives; of a failed write, all of it.
    New,
    /// This byte in every pending place, at the greatest length.
    Byte(u8),
    /// At a stop the pending bytes, in order of file and place, are the next of these `bytes`; of a
    /// failed write, the bytes of its range. Those for which there is none are as with `New`.
    Chosen { bytes: Vec<u8>, lens: [usize; 4] },
}
