//! How many a second.

use std::time::Duration;

/// How many a second, if so many took `spent`.
pub(crate) fn rate(count: u64, spent: Duration) -> u128 {
    u128::from(count) * 1_000_000_000 / spent.as_nanos().max(1)
}
