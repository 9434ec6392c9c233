//! The parts of an empty map.
ghost use Rattle.std.specs.Prelude.{◌≡◌, length, IfOk, IfErr};
ghost use Rattle.one_history.specs.SharedWords.{AreEmpty};

use atomic_methods::Part;
use java_hash::StripeCount;
use map_types::Refusal;
use std::alloc::Global;

/// As many parts as there are stripes, all empty. Each has one bin, and its bins will be chosen by
/// the bits of the hash that don't choose the stripe.
pub fn empty_parts(alloc: Global, stripes: StripeCount) -> Result<Vec<Part>, Refusal>
    ensures count { IfOk result (λ parts. length parts.items ≡ stripes.count) }
    ensures empty { IfOk result (λ parts. AreEmpty stripes.count parts.items) }
    ensures err { IfErr result (λ refusal. refusal ≡ Refusal.NoMemory) }
{
    let mut parts = Vec::new(alloc);
    for _stripe in 0..stripes.get() {
        parts.push(Part::new(alloc, stripes)?)?;
    }
    Ok(parts)
}
