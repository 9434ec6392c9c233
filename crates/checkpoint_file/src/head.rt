//! The head of a checkpoint's file.
ghost use Rattle.std.specs.Prelude.{◌≡◌, ◌⊎◌, ◌<◌, Some, true, false, IfOk, IfErr, OnOk, IfSome, IfNone};
ghost use Rattle.disk_model.specs.Calls.{Looks};
ghost use Rattle.disk_model.specs.Files.{now};
ghost use Rattle.file_pieces.specs.Counting.{Made};
ghost use Rattle.log_records.specs.Layout.{layout_of};
ghost use Rattle.store_layout.specs.Checkpoints.{is_sealed};
ghost use Rattle.store_layout.specs.Failures.{IsFileFault};
ghost use Rattle.store_layout.specs.Faults.{head_fault};
ghost use Rattle.store_layout.specs.Logs.{is_read};
ghost use Rattle.checkpoint_file.specs.Heads.{HasFields, IsHead, failed_in};

use byteorder::{BigEndian, ByteOrder};
use disk_model::Disk;
use log_records::Version;
use map_types::Refusal;
use store_layout::{BODY_OFFSET, OPEN_GATE};

/// Where the generation stands, behind the gate and the version.
const GENERATION_OFFSET: usize = 2;

/// Where the low ticket stands, behind the generation.
const LOW_OFFSET: usize = 10;

/// Where the greatest mark stands, behind the low ticket.
pub(crate) const GREATEST_OFFSET: usize = 18;

/// Where the number of stripes stands, behind the greatest mark.
pub(crate) const STRIPES_OFFSET: usize = 26;

/// Where the length of the body stands, behind the number of stripes.
pub(crate) const BODY_LEN_OFFSET: usize = 28;

/// What the header of a sealed checkpoint says.
#[derive(Clone, Copy, Debug, PartialEq, Eq)]
pub struct Head {
    pub version: Version,
    pub generation: u64,
    pub low: u64,
    pub greatest_mark: u64,
    /// How many stripes it has, which may be no number that is allowed.
    pub stripes: u16,
    /// How many bytes its sections take, which may reach past the file.
    pub body_len: u64,
}

/// The version with this byte; `None` if an opening doesn't read it.
fn version_of_file(byte: u8) -> Option<Version>
    ensures some { IfSome result (λ version. ((layout_of version).version ≡ byte)
        × (is_read byte ≡ true)) }
    ensures none { IfNone result (is_read byte ≡ false) }
{
    Version::of(byte)
}

/// The fields in the gate and the header, which are of this version.
fn fields_of(version: Version, bytes: &[u8; BODY_OFFSET]) -> Head
    ensures fields { HasFields result bytes.now }
    ensures version { result.version ≡ version }
{
    Head {
        version,
        generation: BigEndian::read_u64(&bytes[GENERATION_OFFSET..]),
        low: BigEndian::read_u64(&bytes[LOW_OFFSET..]),
        greatest_mark: BigEndian::read_u64(&bytes[GREATEST_OFFSET..]),
        stripes: BigEndian::read_u16(&bytes[STRIPES_OFFSET..]),
        body_len: BigEndian::read_u64(&bytes[BODY_LEN_OFFSET..]),
    }
}

/// Reads the head of the file; `None` if no checkpoint is sealed there.
pub fn read_head<D: Disk>(disk: &mut D, file: usize) -> Result<Option<Head>, Refusal>
    // One of the two files of checkpoints.
    requires { file < 2 }

    // One device call, which only looks.
    ensures looks { Looks D.states D.failures D.honest (failed_in result) disk.old disk.new }
    ensures called { Made D.states 1 disk.old disk.new }

    // If the disk is honest: the head of the sealed checkpoint, or none is sealed.
    ensures some { D.honest disk.new → IfOk result (λ found. IfSome found (λ head.
        IsHead head file (now (D.states disk.old) file).seen)) }
    ensures none { D.honest disk.new → IfOk result (λ found. IfNone found
        (is_sealed (now (D.states disk.old) file).seen ≡ false)) }

    // Refused: the call failed, or the file is at fault; as its head says if honest.
    ensures listed { IfErr result (λ refusal. (refusal ≡ Refusal.Failed)
        ⊎ IsFileFault file refusal) }
    ensures err { IfErr result (λ refusal. (refusal ≡ Refusal.Failed)
        ⊎ (D.honest disk.new
        → head_fault file (now (D.states disk.old) file).seen ≡ Some refusal)) }
{
    let mut bytes = [0; BODY_OFFSET];
    let count = match disk.read(file, 0, &mut bytes) {
        Ok(count) => count,
        Err(_) => return Err(Refusal::Failed),
    };
    if count < BODY_OFFSET || bytes[0] != OPEN_GATE {
        return Ok(None);
    }
    let Some(version) = version_of_file(bytes[1]) else {
        return Err(Refusal::WrongVersion);
    };
    let head = fields_of(version, &bytes);
    if head.generation % 2 != file as u64 {
        return Err(Refusal::Damaged {
            file: file as u8,
            offset: GENERATION_OFFSET as u64,
        });
    }
    Ok(Some(head))
}
