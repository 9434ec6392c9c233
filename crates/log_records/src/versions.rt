//! The versions of records, and what each has for the keys in them.
ghost use Rattle.std.specs.Prelude.{◌≡◌, ◌≤◌, ◌<◌, ◌^◌, ◌↔◌, Some};
ghost use Rattle.log_records.specs.declared.versions.Version.{Version};
ghost use Rattle.log_records.specs.Layout.{layout_of};

use map_types::Key;

/// The first version's byte in a file. The versions count from 1, so that zeros, as where nothing was written, are of
/// no version.
const FIRST_BYTE: u8 = 1;
/// The second version's byte in a file: the next number.
const SECOND_BYTE: u8 = 2;
/// How many bytes the length of a key takes in the first version: the fewest that say a length.
const FIRST_KEY_WIDTH: usize = 1;
/// How many bytes the length of a key takes in the second version: two, since one says no length above 255.
const SECOND_KEY_WIDTH: usize = 2;
/// The most bytes of a key in the first version: the greatest length that its one byte can say.
const FIRST_KEY_LIMIT: u16 = 255;
/// The most bytes of a key in the second version: as many as a `Key` may have, though its two bytes can say more.
const SECOND_KEY_LIMIT: u16 = Key::MOST_BYTES as u16;

/// A version of records.
#[derive(Clone, Copy, Debug, PartialEq, Eq)]
pub enum Version {
    /// The length of a key is one byte.
    First,
    /// The length of a key is two bytes.
    Second,
}

impl Version {
    /// The version with this byte in a file, if there is one.
    pub fn of(byte: u8) -> Option<Version>
        ensures { (version : Version) → ((result ≡ Some version)
            ↔ (byte ≡ (layout_of version).version)) }
    {
        match byte {
            FIRST_BYTE => Some(Version::First),
            SECOND_BYTE => Some(Version::Second),
            _ => None,
        }
    }

    /// The version's byte in a file.
    pub fn byte(self) -> u8
        ensures { result ≡ (layout_of self).version }
    {
        match self {
            Version::First => FIRST_BYTE,
            Version::Second => SECOND_BYTE,
        }
    }

    /// The most bytes that a key may have.
    pub fn key_limit(self) -> u16
        ensures { result ≡ (layout_of self).key_limit }
    {
        match self {
            Version::First => FIRST_KEY_LIMIT,
            Version::Second => SECOND_KEY_LIMIT,
        }
    }

    /// How many bytes the length of a key takes.
    pub(crate) fn key_width(self) -> usize
        ensures width { result ≡ (layout_of self).key_width }
        ensures low { 1 ≤ result }
        ensures high { result ≤ 2 }
        ensures room { (layout_of self).key_limit < 256 ^ result }
    {
        match self {
            Version::First => FIRST_KEY_WIDTH,
            Version::Second => SECOND_KEY_WIDTH,
        }
    }
}
