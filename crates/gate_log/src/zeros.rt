//! The zeros that a log writes ahead of its batches.
ghost use Rattle.std.specs.Prelude.{◌≡◌, IfOk, IfErr, replicate};

use map_types::Refusal;
use std::alloc::Global;
use std::marker::Model;

/// A piece of zeros, which a log writes behind its closed gate ahead of its batches. With none of them
/// it writes nothing ahead.
#[derive(Drop)]
pub struct Zeros {
    bytes: Vec<u8>,
}

impl Model for Zeros {
    ghost use Rattle.std.specs.Prelude.{◌≡◌, ℕ, length, replicate};

    ghost Value = { ℕ };

    ghost view = { λ zeros. length zeros.bytes.items };

    ghost invariant = { λ zeros. zeros.bytes.items ≡ replicate (length zeros.bytes.items) 0 };
}

impl Zeros {
    /// None of them. It takes no memory.
    pub fn none(alloc: Global) -> Zeros
        ensures { result ≡ 0 }
    {
        Zeros {
            bytes: Vec::new(alloc),
        }
    }

    /// `count` zeros. Refused with `NoMemory`.
    pub fn new(alloc: Global, count: usize) -> Result<Zeros, Refusal>
        ensures ok { IfOk result (λ zeros. zeros ≡ count) }
        ensures err { IfErr result (λ refusal. refusal ≡ Refusal.NoMemory) }
    {
        let bytes = vec![in alloc; 0u8; count]?;
        Ok(Zeros { bytes })
    }

    /// How many there are.
    pub fn count(&self) -> usize
        ensures { result ≡ self.now }
    {
        self.bytes.len()
    }

    /// The bytes.
    pub(crate) fn as_slice(&self) -> &[u8]
        ensures { result.now ≡ replicate self.now 0 }
    {
        &self.bytes
    }
}
