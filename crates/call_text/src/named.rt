//! The numbers that words of the command line name.
ghost use Rattle.std.specs.Prelude.{option_map};
ghost use Rattle.call_text.specs.Naming.{IsNamed, IsPort, IsStripeCount};

use java_hash::StripeCount;

/// The number of stripes that the word names, if that is allowed.
pub fn stripes_named(word: &str) -> Option<StripeCount>
    ensures { IsNamed IsStripeCount word.now (option_map (λ stripes. stripes.count) result) }
{
    match word.parse::<u16>() {
        Ok(count) => StripeCount::new(count),
        Err(_) => None,
    }
}

/// The port that the word names.
pub fn port_named(word: &str) -> Option<u16>
    ensures { IsNamed IsPort word.now result }
{
    match word.parse::<u16>() {
        Ok(port) if port > 0 => Some(port),
        _ => None,
    }
}
