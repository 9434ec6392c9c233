//! Hashes of texts, and the stripes and bins that are chosen by them.
use crate::checks::assert_same;
use java_hash::{StripeCount, bin_of, hash, spread, stripe_of, units};

/// Java's own answers: texts, their hashes, these when they are spread, the stripes among 16, and
/// some of the bins among eight.
static KNOWN: [(&str, i32, u32, usize, Option<usize>); 11] = [
    ("", 0, 0, 0, None),
    ("Aa", 2112, 2112, 0, Some(4)),
    ("BB", 2112, 2112, 0, Some(4)),
    ("a", 97, 97, 1, Some(6)),
    ("hello", 99162322, 99163451, 11, Some(3)),
    ("polygenelubricants", -2147483648, 32768, 0, Some(0)),
    ("\u{1F600}", 1772899, 1772920, 8, Some(7)),
    (
        "na\u{EF}ve \u{20AC} 1\u{1F600}z",
        2137779471,
        2137756260,
        4,
        None,
    ),
    (
        "\u{FFFF}\u{10000}\u{10FFFF}",
        2096656479,
        2096630951,
        7,
        None,
    ),
    (
        "x\u{1F469}\u{200D}\u{1F4BB}y",
        -23311054,
        2124198830,
        14,
        None,
    ),
    (
        "the quick brown fox jumps over the lazy dog",
        -2082818701,
        64632489,
        9,
        None,
    ),
];

/// Whether texts whose hash is spread to this one are in this bin of eight, if it's known.
fn is_in_bin(spread_out: u32, stripes: StripeCount, bin: Option<usize>) -> bool {
    match bin {
        Some(bin) => bin_of(spread_out, stripes, 8) == bin,
        None => true,
    }
}

/// The first of these texts that comes out otherwise, if any.
fn first_wrong(stripes: StripeCount) -> Option<&'static str> {
    for (text, wanted, spread_out, stripe, bin) in &KNOWN {
        let is_known = hash(text) == *wanted
            && spread(*wanted) == *spread_out
            && stripe_of(text, stripes) == *stripe
            && is_in_bin(*spread_out, stripes, *bin);
        if !is_known {
            return Some(*text);
        }
    }
    None
}

#[test]
fn known_hashes(rt: HostRuntime) {
    let stripes = StripeCount::new(16).expect(&rt, "16 stripes");
    assert_same(&rt, &first_wrong(stripes), &None);
}

#[test]
fn units_of_a_pair(rt: HostRuntime) {
    let mut left = units("\u{1F600}");
    let found = [left.next(), left.next(), left.next()];
    assert_same(&rt, &found, &[Some(0xd83d), Some(0xde00), None]);
}

#[test]
fn stripe_counts(rt: HostRuntime) {
    let allowed = (0..300u16)
        .filter(|count| StripeCount::new(*count).is_some())
        .count();
    assert_same(&rt, &allowed, &9);
}
