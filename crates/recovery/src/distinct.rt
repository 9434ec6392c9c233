//! Entries, no two of one key.
ghost use Rattle.bin_table.specs.Chains.{HasDistinctKeys};
ghost use Rattle.recovery.specs.Distinctness.{HasDistinctKeys-prop};

use map_types::{Key, Value};

/// Entries, no two of one key.
#[derive(Drop)]
pub(crate) struct Distinct {
    pub entries: Vec<(Key, Value)>,
    ghost distinct: { HasDistinctKeys entries.items } by { HasDistinctKeys-prop entries.items },
}
