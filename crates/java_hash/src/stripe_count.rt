//! How many stripes a map has, and which stripe and bin a key belongs to.
ghost use Rattle.std.specs.Prelude.{◌≡◌, ◌↔◌, IsSome, IfSome, IsTrue, ◌<◌, ◌^◌, ℕ, List};
ghost use Rattle.java_hash.specs.Hash.{hash_of, spread_of};
ghost use Rattle.java_hash.specs.Stripes.{is_stripe_count, stripe_of, bin_of};

use crate::string_hash::spread_of;

/// A number of stripes: a power of two from 1 to 256.
#[derive(Clone, Copy)]
pub struct StripeCount {
    pub count: u16,
    pub ghost allowed: { IsTrue (is_stripe_count count) },
}

impl StripeCount {
    /// `None` if the number isn't allowed.
    pub fn new(count: u16) -> Option<StripeCount>
        ensures allowed { IsSome result ↔ IsTrue (is_stripe_count count) }
        ensures value { IfSome result (λ stripes. stripes.count ≡ count) }
    {
        if matches!(count, 1 | 2 | 4 | 8 | 16 | 32 | 64 | 128 | 256) {
            Some(StripeCount { count })
        } else {
            None
        }
    }

    pub fn get(self) -> usize
        ensures value { result ≡ self.count }
        ensures allowed { IsTrue (is_stripe_count result) }
    {
        usize::from(self.count)
    }

    /// By how many bits a number is shifted in place of a division by the number of stripes.
    fn shift(self) -> u32
        ensures power { 2 ^ result ≡ self.count }
        ensures within { result < 64 }
    {
        self.count.trailing_zeros()
    }
}

/// The stripe of the key `text`.
pub fn stripe_of(text: &str, stripes: StripeCount) -> usize
    ensures value { result ≡ stripe_of stripes.count text.now }
    ensures within { result < stripes.count }
{
    stripe_of_spread(spread_of(text), stripes)
}

/// The stripe of each key whose hash has this spread.
#[tactic(auto, unfolding(crate::specs::Stripes::stripe_of))]
pub fn stripe_of_spread(spread: u32, stripes: StripeCount) -> usize
    ensures value { (text : List ℕ) → spread ≡ spread_of (hash_of text) →
        result ≡ stripe_of stripes.count text }
    ensures within { result < stripes.count }
{
    spread as usize & (stripes.get() - 1)
}

/// The bin of a spread in a stripe with `bins` bins.
pub fn bin_of(spread: u32, stripes: StripeCount, bins: usize) -> usize
    requires { (k : ℕ) × (bins ≡ 2 ^ k) }
    ensures value { result ≡ bin_of stripes.count bins spread }
    ensures within { result < bins }
{
    (spread as usize >> stripes.shift()) & (bins - 1)
}
