//! The entries of a part, lent where they stand.
ghost use Rattle.std.specs.Prelude.{◌≡◌, IfErr, IfOk};
ghost use Rattle.std.specs.FinMap as finite;

use crate::parts::Part;
use bin_table::LentEntry;
use map_types::Refusal;
use std::alloc::Global;

impl Part {
    /// All entries where they stand, in rising byte order of their keys. No key and no value is
    /// copied. Refuses with `NoMemory` alone.
    pub fn lent_sorted(&self, alloc: Global) -> Result<Vec<LentEntry<'_>>, Refusal>
        ensures ok { IfOk result (λ entries. entries.items ≡ finite.entries self.now.map) }
        ensures err { IfErr result (λ refusal. refusal ≡ Refusal.NoMemory) }
    {
        Ok(self.table.lent_sorted(alloc)?)
    }
}
