//! The entries of a table, lent where they stand.
ghost use Rattle.std.specs.Prelude.{◌≡◌, ◌++◌, OnOk};
ghost use Rattle.std.specs.FinMap as finite;
ghost use Rattle.bin_table.specs.Chains.{HasDistinctKeys, chain_entries, map_of};
ghost use Rattle.bin_table.specs.Tables.{IsCopied, all_entries};

use crate::bins::Bins;
use crate::chains::Chain;
use crate::lent_entries::LentEntry;
use std::alloc::AllocError;

/// Lends the entries of a chain, behind those that are there, or some if memory is refused.
fn lend_chain<'a>(chain: &'a Chain, entries: &mut Vec<LentEntry<'a>>) -> Result<(), AllocError>
    ensures { OnOk result (entries.new.items ≡ entries.old.items ++ chain_entries chain.now) }
{
    let mut rest = chain;
    while let Chain::Link(node) = rest {
        entries.push(LentEntry::new(&node.key, &node.value))?;
        rest = &node.next;
    }
    Ok(())
}

/// Lends the entries of all chains, behind those that are there, or some if memory is refused.
fn lend_all<'a>(chains: &'a Vec<Chain>, entries: &mut Vec<LentEntry<'a>>) -> Result<(), AllocError>
    ensures { OnOk result (entries.new.items ≡ entries.old.items ++ all_entries chains.now.items) }
{
    for chain in chains {
        lend_chain(chain, entries)?;
    }
    Ok(())
}

/// Sorts lent entries, no two of one key, by rising byte order of their keys. Takes no memory.
pub fn sort_lent(entries: &mut Vec<LentEntry<'_>>)
    requires { HasDistinctKeys entries.old.items }
    ensures { entries.new.items ≡ finite.entries (map_of entries.old.items) }
{
    entries.sort_unstable_by(|a, b| a.compare_keys(b));
}

impl Bins {
    /// Lends each entry, behind those that are there, in no order. If memory is refused, some may
    /// stand there.
    pub fn lend_entries<'a>(&'a self, entries: &mut Vec<LentEntry<'a>>) -> Result<(), AllocError>
        ensures { OnOk result (IsCopied self.now.map entries.old.items entries.new.items) }
    {
        lend_all(&self.chains, entries)
    }
}
