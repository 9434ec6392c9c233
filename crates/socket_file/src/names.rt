//! The path and the rights of a socket's file, and where it is made.
ghost use Rattle.std.specs.Prelude.{◌≡◌, ◌↔◌, IsTrue, IfOk, string_bytes};
ghost use Rattle.socket_file.specs.Names.{IsModeNamed, IsSocketPath, inner_of, room_of};

use std::alloc::{AllocError, Global};

/// The most bytes of a path for which the address of a Unix socket has room.
pub const MOST_BYTES: usize = 107;

/// Whether the address of a Unix socket has room for the path.
pub fn is_socket_path(path: &str) -> bool
    ensures { IsTrue result ↔ IsSocketPath path.now }
{
    !path.is_empty() && path.len() <= MOST_BYTES
}

/// The rights that the word names in octal, from 0 to 777.
pub fn mode_named(word: &str) -> Option<u32>
    ensures { IsModeNamed word.now result }
{
    match u32::from_str_radix(word, 8) {
        Ok(mode) if mode <= 0o777 => Some(mode),
        _ => None,
    }
}

/// The directory in which the socket is made.
pub(crate) fn room_of(alloc: Global, path: &str) -> Result<String, AllocError>
    ensures { IfOk result (λ room. string_bytes room ≡ room_of path.now) }
{
    format!(in alloc; "{path}.new")
}

/// The path at which the socket is made.
pub(crate) fn inner_of(alloc: Global, path: &str) -> Result<String, AllocError>
    ensures { IfOk result (λ inner. string_bytes inner ≡ inner_of path.now) }
{
    format!(in alloc; "{path}.new/s")
}
