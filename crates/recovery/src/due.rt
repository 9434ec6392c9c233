//! A change that is to be made.
ghost use Rattle.std.specs.Prelude.{◌≡◌};
ghost use Rattle.bin_table.specs.Tables.{spread_of_key};

use map_types::Command;

/// A change that is due, and the spread of its key's hash.
#[derive(Drop)]
pub(crate) struct Due {
    pub command: Command,
    pub spread: u32,
    ghost hashed: { spread ≡ spread_of_key command.key },
}
