//! What this program is.

/// The program's version, the versions of the files that it reads and writes, and the toolchain that it
/// is proved with.
pub const VERSION: &str =
    "0.2.0\nfiles: reads versions 1 and 2, writes version 2\ntoolchain: rattle-kit-13f logic dac8208d650f15bf";
