//! When a growth starts, and how far each change brings it.
use crate::checks::assert_same;
use crate::numbers::{Numbers, Texts};
use bin_table::MOST_BINS;
use map_types::Refusal;
use std::alloc::Global;

/// What is done to a map behind its new keys.
#[derive(Clone, Copy, Debug)]
enum Then {
    Nothing,
    /// A key is removed.
    Remove,
    /// Each key is read.
    Read,
    /// Three keys are mapped again to their numbers, and each key is read.
    PutAgain,
}

/// The bins, whether a growth runs, and whether the answers were right.
type Seen = (usize, bool, bool);

impl Numbers {
    /// Whether the first three keys are mapped to their numbers, to which it maps them again.
    fn put_three_again(&mut self) -> Result<bool, Refusal> {
        for number in 0..3 {
            let value = i64::from(number);
            if self.put(number, value)? != Some(value) {
                return Ok(false);
            }
        }
        Ok(true)
    }

    /// Does that to a map of `keys` keys, and says whether the answers are right.
    fn answers(&mut self, then: Then, keys: u32) -> Result<bool, Refusal> {
        match then {
            Then::Nothing => Ok(true),
            Then::Remove => Ok(self.remove(7)? == Some(7)),
            Then::Read => self.has_all(keys),
            Then::PutAgain => Ok(self.put_three_again()? && self.has_all(keys)?),
        }
    }

    /// The same, and what is seen then.
    fn seen(&mut self, keys: u32, then: Then) -> Result<Seen, Refusal> {
        let are_right = self.answers(then, keys)?;
        Ok((self.growing.bins(), self.growing.is_growing(), are_right))
    }
}

/// The bins, whether a growth runs, and whether the answers were right, after `keys` new keys and what
/// is done then.
fn seen(alloc: Global, keys: u32, then: Then) -> Result<Seen, Refusal> {
    let mut numbers = Numbers::with_keys(alloc, Texts::Rising, keys)?;
    numbers.seen(keys, then)
}

/// New keys, what is done then, how many bins there are, and whether a growth runs. Each change helps a
/// growth that runs, and no read does.
static GROWTHS: [(u32, Then, usize, bool); 21] = [
    (0, Then::Nothing, 1, false),
    (1, Then::Nothing, 1, false),
    (2, Then::Nothing, 2, false),
    (3, Then::Nothing, 4, false),
    (4, Then::Nothing, 8, false),
    (5, Then::Nothing, 8, false),
    (6, Then::Nothing, 8, false),
    (7, Then::Nothing, 16, false),
    (12, Then::Nothing, 16, false),
    (13, Then::Nothing, 32, false),
    (24, Then::Nothing, 32, false),
    (25, Then::Nothing, 32, true),
    (26, Then::Nothing, 64, false),
    (48, Then::Nothing, 64, false),
    (49, Then::Nothing, 64, true),
    (50, Then::Nothing, 64, true),
    (51, Then::Nothing, 64, true),
    (52, Then::Nothing, 128, false),
    (25, Then::Remove, 64, false),
    (25, Then::Read, 32, true),
    (49, Then::PutAgain, 128, false),
];

#[test]
fn growth_by_new_keys(rt: HostRuntime) {
    for row in &GROWTHS {
        let found = seen(rt.alloc(), row.0, row.1);
        assert_same(&rt, row, &found, &Ok((row.2, row.3, true)));
    }
}

impl Numbers {
    /// How many old bins each of five helps moves, of a growth that starts.
    fn helps(&mut self) -> Result<[usize; 5], Refusal> {
        let mut counts = [0; 5];
        if self.growing.is_growing() || self.growing.bins() >= MOST_BINS {
            return Ok(counts);
        }
        self.growing.start(self.alloc)?;
        for count in counts.iter_mut() {
            *count = self.growing.help();
        }
        Ok(counts)
    }
}

/// The same of a map of `keys` new keys.
fn helped(alloc: Global, keys: u32) -> Result<[usize; 5], Refusal> {
    let mut numbers = Numbers::with_keys(alloc, Texts::Rising, keys)?;
    numbers.helps()
}

/// New keys, and how many old bins the helps move.
static HELPS: [(u32, [usize; 5]); 5] = [
    (0, [1, 0, 0, 0, 0]),
    (6, [8, 0, 0, 0, 0]),
    (12, [16, 0, 0, 0, 0]),
    (24, [16, 16, 0, 0, 0]),
    (48, [16, 16, 16, 16, 0]),
];

#[test]
fn helps_of_a_growth(rt: HostRuntime) {
    for row in &HELPS {
        assert_same(&rt, row, &helped(rt.alloc(), row.0), &Ok(row.1));
    }
}
