//! The words of script lines, but for those of calls.
ghost use Rattle.std.specs.Prelude.{◌≡◌, ◌<◌, IfSome};
ghost use Rattle.sim_script.specs.LineWords.{byte_of, fill_of, hexadecimal_digit, number_of, stripes_of, worker_of, Gives};

use crate::bad_line::{BadLine, LineError};
use disk_model::Fill;
use java_hash::StripeCount;

/// How many workers there are.
const WORKERS: usize = 64;

fn u16_of(word: &str) -> Option<u16>
    ensures { result ≡ number_of 16 word.now }
{
    word.parse::<u16>().ok()
}

pub(crate) fn u32_of(word: &str) -> Option<u32>
    ensures { result ≡ number_of 32 word.now }
{
    word.parse::<u32>().ok()
}

pub(crate) fn u64_of(word: &str) -> Option<u64>
    ensures { result ≡ number_of 64 word.now }
{
    word.parse::<u64>().ok()
}

pub(crate) fn usize_of(word: &str) -> Option<usize>
    ensures { result ≡ number_of 64 word.now }
{
    word.parse::<usize>().ok()
}

/// The number of a worker.
#[tactic(auto, unfolding(crate::specs::LineWords::worker_of))]
pub(crate) fn worker_of(word: &str) -> Result<usize, LineError>
    ensures { Gives (λ worker. worker) result (worker_of word.now) }
{
    match usize_of(word) {
        Some(worker) if worker < WORKERS => Ok(worker),
        _ => Err(LineError::Bad(BadLine::Worker)),
    }
}

/// A number of stripes.
#[tactic(auto, unfolding(crate::specs::LineWords::stripes_of))]
pub(crate) fn stripes_of(word: &str) -> Result<StripeCount, LineError>
    ensures { Gives (λ stripes. stripes) result (stripes_of word.now) }
{
    let Some(count) = u16_of(word) else {
        return Err(LineError::Bad(BadLine::Stripes));
    };
    match StripeCount::new(count) {
        Some(stripes) => Ok(stripes),
        None => Err(LineError::Bad(BadLine::Stripes)),
    }
}

/// The value of a hexadecimal digit, of either case.
fn hexadecimal_digit(byte: u8) -> Option<u8>
    ensures value { result ≡ hexadecimal_digit byte }
    ensures small { IfSome result (λ digit. digit < 16) }
{
    match byte {
        b'0'..=b'9' => Some(byte - b'0'),
        b'a'..=b'f' => Some(byte - b'a' + 10),
        b'A'..=b'F' => Some(byte - b'A' + 10),
        _ => None,
    }
}

/// The byte of two hexadecimal digits.
fn byte_of(word: &[u8]) -> Option<u8>
    ensures { result ≡ byte_of word.now }
{
    match word {
        [high, low] => Some(16 * hexadecimal_digit(*high)? + hexadecimal_digit(*low)?),
        _ => None,
    }
}

/// What is left of what wasn't synced.
#[tactic(auto, unfolding(crate::specs::LineWords::fill_of))]
pub(crate) fn fill_of(word: &str) -> Result<Fill, LineError>
    ensures { Gives (λ fill. fill) result (fill_of word.now) }
{
    match word {
        "old" => return Ok(Fill::Old),
        "new" => return Ok(Fill::New),
        _ => {}
    }
    match byte_of(word.as_bytes()) {
        Some(byte) => Ok(Fill::Byte(byte)),
        None => Err(LineError::Bad(BadLine::Fill)),
    }
}
