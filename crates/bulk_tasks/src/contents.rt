//! What a view holds: the content of each stripe at its mark.
ghost use Rattle.std.specs.Prelude.{◌≡◌, ◌<◌, ◌^◌, ℕ, List, IfOk, IfErr, slice_get};
ghost use Rattle.map_model.specs.Maps.{Map};
ghost use Rattle.map_model.specs.Parts.{union_of};
ghost use Rattle.bulk_tasks.specs.Bulk as bulk;
ghost use Rattle.bulk_tasks.specs.Parts.{AreParts, entries_of, marks_of, parts_from};

use crate::nearest::{copied, nearest_of_all};
use crate::tally::{can_reduce, tally_of_all};
use durable_map::Captured;
use map_types::{Func, FuncError, Key, Refusal, Value};
use std::alloc::Global;
use std::marker::Model;
use std::thread::Threads;

/// The content of a map, stripe by stripe, each at a mark of its own. A mark says how many changes of
/// the one history the content of its stripe rests on.
#[derive(Drop)]
pub struct View {
    marks: Vec<u64>,
    // Of all stripes, one after another.
    entries: Vec<(Key, Value)>,
}

impl Model for View {
    ghost use Rattle.std.specs.Coded.{coded_ℕ, coded_list, coded×, code_by};
    ghost use Rattle.std.specs.Prelude.{refl};
    ghost use Rattle.std.specs.FinMap as finite;
    ghost use Rattle.map_types.specs.contracts.texts.Value as value_type;
    ghost use Rattle.bulk_tasks.specs.ViewState.{ViewState};
    ghost use Rattle.bin_table.specs.Chains.{HasDistinctKeys};

    ghost Value = { ViewState };

    ghost coded = { code_by _
        (coded× (coded_list coded_ℕ) (finite.code (coded_list coded_ℕ) value_type.the_row.coded))
        (λ s. (s.marks, s.map))
        (λ p. record { marks = p.0; map = p.1 })
        (λ _. refl) };

    ghost view = { λ v.
        record { marks = v.marks.items; map = finite.from_entries v.entries.items } };

    ghost invariant = { λ v. HasDistinctKeys v.entries.items };
}

/// The marks, and the entries of all stripes, one after another.
fn in_one(alloc: Global, captured: Vec<Captured>) -> Result<(Vec<u64>, Vec<(Key, Value)>), Refusal>
    ensures marks { IfOk result (λ found. found.0.items ≡ marks_of captured.items) }
    ensures entries { IfOk result (λ found. found.1.items ≡ entries_of captured.items) }
    ensures err { IfErr result (λ refusal. refusal ≡ Refusal.NoMemory) }
{
    let mut marks = Vec::new(alloc);
    let mut entries = Vec::new(alloc);
    for mut one in captured {
        marks.push(one.mark)?;
        entries.append(&mut one.entries)?;
    }
    Ok((marks, entries))
}

impl View {
    /// The view of stripes that were captured in turn, each with the part of its keys of a map of its
    /// own. Refused with `NoMemory` alone.
    pub fn new(alloc: Global, captured: Vec<Captured>) -> Result<View, Refusal>
        requires parts { (n : ℕ) × (maps : List Map) × AreParts n 0 captured.items maps }

        // It is the union of the parts, and has their marks.
        ensures marks { IfOk result (λ view. view.marks ≡ marks_of captured.items) }
        ensures map { (n : ℕ) (maps : List Map) → AreParts n 0 captured.items maps
            → IfOk result (λ view. view.map ≡ union_of (parts_from n 0 maps)) }
        ensures err { IfErr result (λ refusal. refusal ≡ Refusal.NoMemory) }
    {
        let (marks, entries) = in_one(alloc, captured)?;
        Ok(View { marks, entries })
    }

    /// The mark of the stripe, or `None` if there are not as many stripes.
    pub fn mark(&self, stripe: usize) -> Option<u64>
        ensures { result ≡ slice_get self.now.marks stripe }
    {
        self.marks.get(stripe).copied()
    }

    /// How many entries there are.
    pub fn count(&self) -> usize
        ensures value { result ≡ bulk.count_of self.now.map }
        ensures fits { result < 2 ^ 63 }
    {
        self.entries.len()
    }

    /// The plain left fold of `Sum`, `Max` or `Min` over the values in rising byte order of their
    /// keys, whatever the threshold. `None` if there is no entry, and a fault if a value is a text.
    /// A view with fewer entries than the threshold is folded in one thread. Another function is
    /// refused with `UnknownFunction`. It takes no memory.
    pub fn reduce(
        &self,
        rt: &(impl Threads + Sync),
        func: Func,
        threshold: u64,
    ) -> Result<Result<Option<Value>, FuncError>, Refusal>
        ensures ok { IfOk result
            (λ reduced. bulk.IsReducing func × (reduced ≡ bulk.reduction_of func self.now.map)) }
        ensures err { IfErr result
            (λ refusal. (bulk.IsReducing func → ⊥) × (refusal ≡ Refusal.UnknownFunction)) }
    {
        if !can_reduce(func) {
            return Err(Refusal::UnknownFunction);
        }
        let tally = tally_of_all(rt, func, self.entries.as_slice(), threshold);
        Ok(tally.answer())
    }

    /// The least key by bytes whose value equals the one sought, whatever the threshold, or `None`. A
    /// view with fewer entries than the threshold is searched in one thread. Refused with `NoMemory` if
    /// the key can't be copied.
    pub fn search(
        &self,
        rt: &(impl Threads + Sync),
        sought: &Value,
        threshold: u64,
    ) -> Result<Option<Key>, Refusal>
        ensures ok { IfOk result (λ found. found ≡ bulk.key_of_value sought.now self.now.map) }
        ensures err { IfErr result (λ refusal. refusal ≡ Refusal.NoMemory) }
    {
        let near = nearest_of_all(rt, sought, self.entries.as_slice(), threshold);
        copied(near)
    }
}
