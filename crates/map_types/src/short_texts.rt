//! Texts of few bytes, which lie in the value itself.
ghost use Rattle.std.specs.Prelude.{◌≡◌, ◌≤◌, length, ⊤};

use std::alloc::AllocError;
use std::marker::Model;
use std::str;

/// The most bytes of a short text. With its length and the tag of the key that it lies in, it takes
/// as much as a `String`.
const ROOM: usize = 22;

/// A text of at most 22 bytes, which contracts see as its UTF-8 bytes.
#[derive(Debug, Drop)]
pub(crate) struct ShortText {
    len: u8,
    bytes: [u8; 22],
}

impl Model for ShortText {
    ghost use Rattle.std.specs.Prelude.{List, ℕ, ◌≤◌, take, length, IsUtf8};

    ghost Value = { List ℕ };

    ghost view = { λ text. take text.len text.bytes };

    ghost invariant = { λ text. (text.len ≤ 22) × ∥ IsUtf8 (take text.len text.bytes) ∥₁ };
}

impl ShortText {
    /// The most bytes that a short text may have.
    pub(crate) const MOST_BYTES: usize = ROOM;

    /// The text with these bytes.
    pub(crate) fn new(text: &str) -> ShortText
        requires { length text.now ≤ 22 }
        ensures { result ≡ text.now }
    {
        let len = text.len();
        let mut bytes = [0; ROOM];
        bytes[..len].copy_from_slice(text.as_bytes());
        ShortText {
            len: len as u8,
            bytes,
        }
    }

    pub(crate) fn as_str(&self) -> &str
        ensures text { result.now ≡ self.now }
        ensures within { length result.now ≤ 22 }
    {
        // The bytes are those of a text.
        unsafe { str::from_utf8_unchecked(&self.bytes[..usize::from(self.len)]) }
    }
}

impl Clone for ShortText {
    ghost is_clone = { λ text copy. copy ≡ text };

    ghost is_infallible = { λ _. ⊤ };

    fn clone(&self) -> Result<ShortText, AllocError> {
        Ok(ShortText {
            len: self.len,
            bytes: self.bytes,
        })
    }
}
