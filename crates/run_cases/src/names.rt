//! The bytes that a file of cases names, and the words that stand for bytes.
use crate::bytes::bytes_spelled;
use map_types::Refusal;
use std::alloc::{AllocError, Global};

/// Bytes by their name.
#[derive(Drop)]
struct Named {
    name: String,
    bytes: Vec<u8>,
}

/// What has a name so far.
#[derive(Drop)]
pub struct Names {
    all: Vec<Named>,
}

/// Makes one change of the bytes: `+` and bytes that follow, a place with `=` and the byte that is to stand
/// there, or how many bytes are kept.
fn change(alloc: Global, bytes: &mut Vec<u8>, edit: &str) -> Result<(), Refusal> {
    if let Some(more) = edit.strip_prefix('+') {
        return add(alloc, bytes, more);
    }
    if let Some((place, byte)) = edit.split_once('=') {
        return put(alloc, bytes, place, byte);
    }
    bytes.truncate(number(edit)? as usize);
    Ok(())
}

fn add(alloc: Global, bytes: &mut Vec<u8>, more: &str) -> Result<(), Refusal> {
    let more = spelled(alloc, more)?;
    bytes.extend_from_slice(&more)?;
    Ok(())
}

fn put(alloc: Global, bytes: &mut Vec<u8>, place: &str, byte: &str) -> Result<(), Refusal> {
    let place = number(place)? as usize;
    let byte = spelled(alloc, byte)?;
    match (bytes.get_mut(place), byte.first()) {
        (Some(old), Some(new)) => {
            *old = *new;
            Ok(())
        }
        _ => Err(Refusal::WrongPhase),
    }
}

fn spelled(alloc: Global, text: &str) -> Result<Vec<u8>, Refusal> {
    match bytes_spelled(alloc, text)? {
        Some(bytes) => Ok(bytes),
        None => Err(Refusal::WrongPhase),
    }
}

/// The number of a word. `WrongPhase` stands for words that aren't as they are to be.
pub fn number(word: &str) -> Result<u64, Refusal> {
    match word.parse::<u64>() {
        Ok(number) => Ok(number),
        Err(_) => Err(Refusal::WrongPhase),
    }
}

impl Names {
    pub fn new(alloc: Global) -> Names {
        Names {
            all: Vec::new(alloc),
        }
    }

    /// Gives the bytes that are spelled so a name.
    pub fn add(&mut self, alloc: Global, name: &str, text: &str) -> Result<(), AllocError> {
        let name = String::from_str(alloc, name)?;
        if let Some(bytes) = bytes_spelled(alloc, text)? {
            self.all.push(Named { name, bytes })?;
        }
        Ok(())
    }

    /// The bytes of this name, or else those that are spelled so; `-` stands for none.
    fn named(&self, alloc: Global, word: &str) -> Result<Vec<u8>, Refusal> {
        if word == "-" {
            return Ok(Vec::new(alloc));
        }
        match self.all.iter().find(|named| named.name.as_str() == word) {
            Some(named) => Ok(named.bytes.to_vec(alloc)?),
            None => spelled(alloc, word),
        }
    }

    /// The bytes that a word stands for: named or spelled, and what is changed of them behind commas.
    pub fn bytes(&self, alloc: Global, word: &str) -> Result<Vec<u8>, Refusal> {
        let mut edits = word.split(',');
        let mut bytes = self.named(alloc, edits.next().unwrap_or("-"))?;
        for edit in edits {
            change(alloc, &mut bytes, edit)?;
        }
        Ok(bytes)
    }
}
