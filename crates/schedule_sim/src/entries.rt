//! The entries of a map that is divided into parts.
ghost use Rattle.std.specs.Prelude.{◌≡◌, ◌++◌, ℕ, map, IfOk, OnOk};
ghost use Rattle.std.specs.FinMap as finite;
ghost use Rattle.map_model.specs.Parts.{union_of};
ghost use Rattle.one_history.specs.Turns.{maps_of};
ghost use Rattle.recovery.specs.Dividing.{ArePartsOf};
ghost use Rattle.sim_rules.specs.Cases.{entry_of};

use atomic_methods::Part;
use sim_rules::MapEntry;
use std::alloc::{AllocError, Global};

/// Puts the entries of the part behind the others.
fn add_part(alloc: Global, part: &Part, entries: &mut Vec<MapEntry>) -> Result<(), AllocError>
    ensures { OnOk result
        (map entry_of entries.new.items ≡ map entry_of entries.old.items
        ++ finite.entries part.now.map) }
{
    let Ok(own) = part.entries_sorted(alloc) else {
        return Err(AllocError);
    };
    for (key, value) in own {
        entries.push(MapEntry { key, value })?;
    }
    Ok(())
}

/// The entries of all parts, in rising byte order of their keys.
pub(crate) fn entries_of(alloc: Global, parts: &[Part]) -> Result<Vec<MapEntry>, AllocError>
    requires { (stripes : ℕ) × ArePartsOf stripes parts.now }
    ensures { IfOk result (λ entries.
        map entry_of entries.items ≡ finite.entries (union_of (maps_of parts.now))) }
{
    let mut entries = Vec::new(alloc);
    for part in parts {
        add_part(alloc, part, &mut entries)?;
    }
    entries.sort_unstable_by(|a, b| a.key.cmp(&b.key));
    Ok(entries)
}
