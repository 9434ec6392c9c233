//! Fills of chosen bytes.
use disk_model::Fill;
use run_cases::bytes_spelled;
use sim_script::{BadLine, LineError};
use std::alloc::Global;

/// How long a file is.
fn length_of(word: &str) -> Result<usize, LineError> {
    match word.parse::<usize>() {
        Ok(length) => Ok(length),
        Err(_) => Err(LineError::Bad(BadLine::Number)),
    }
}

/// The bytes in hexadecimal.
fn bytes_of(alloc: Global, word: &str) -> Result<Vec<u8>, LineError> {
    match bytes_spelled(alloc, word)? {
        Some(bytes) => Ok(bytes),
        None => Err(LineError::Bad(BadLine::Fill)),
    }
}

/// The fill of a word `BYTES-LENGTH-LENGTH-LENGTH-LENGTH`.
pub(crate) fn chosen_fill(alloc: Global, word: &str) -> Result<Fill, LineError> {
    let words: Vec<&str> = word.split('-').collect(alloc)?;
    match words.as_slice() {
        [bytes, first, second, third, fourth] => {
            let bytes = bytes_of(alloc, bytes)?;
            let lens = [
                length_of(first)?,
                length_of(second)?,
                length_of(third)?,
                length_of(fourth)?,
            ];
            Ok(Fill::Chosen { bytes, lens })
        }
        _ => Err(LineError::Bad(BadLine::Fill)),
    }
}
