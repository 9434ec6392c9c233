//! The entries of a map in growing bins, lent where they stand.
ghost use Rattle.std.specs.Prelude.{◌≡◌, IfOk, OnOk};
ghost use Rattle.std.specs.FinMap as finite;
ghost use Rattle.bin_table.specs.Tables.{IsCopied};

use crate::growing::Growing;
use bin_table::{LentEntry, sort_lent};
use std::alloc::{AllocError, Global};

impl Growing {
    /// Lends each entry, behind those that are there.
    fn lend_entries<'a>(&'a self, entries: &mut Vec<LentEntry<'a>>) -> Result<(), AllocError>
        ensures { OnOk result (IsCopied self.now.map entries.old.items entries.new.items) }
    {
        match &self.growth {
            None => self.bins.lend_entries(entries),
            Some(growth) => {
                self.bins.lend_entries(entries)?;
                growth.table.lend_entries(entries)?;
                Ok(())
            }
        }
    }

    /// All entries where they stand, in rising byte order of their keys. No key and no value is
    /// copied.
    pub fn lent_sorted(&self, alloc: Global) -> Result<Vec<LentEntry<'_>>, AllocError>
        ensures { IfOk result (λ entries. entries.items ≡ finite.entries self.now.map) }
    {
        let mut entries = Vec::with_capacity(alloc, self.len())?;
        self.lend_entries(&mut entries)?;
        sort_lent(&mut entries);
        Ok(entries)
    }
}
