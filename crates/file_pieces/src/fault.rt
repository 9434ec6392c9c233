//! Why no bytes were read.

/// Why no bytes were read.
#[derive(Clone, Copy, Debug, PartialEq, Eq)]
pub enum ReadFault {
    /// The device call failed.
    Failed,
    /// No memory was found for the bytes. No device call was made for them.
    NoMemory,
    /// The device gave fewer bytes than its own length of the file says.
    Short,
}
