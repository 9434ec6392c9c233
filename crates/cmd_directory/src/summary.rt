//! What `dchm check` finds in a directory.
ghost use Rattle.std.specs.Prelude.{◌≡◌, ◌-◌, ◌^◌, ◌⊎◌, min, sum_by, string_bytes, IfOk, IfErr};
ghost use Rattle.std.specs.FinMap as finite;
ghost use Rattle.disk_model.specs.Calls.{Looks};
ghost use Rattle.gate_log.specs.Scan.{failed_in};
ghost use Rattle.store_layout.specs.Failures.{AreFilesRefused};
ghost use Rattle.store_layout.specs.Opening.{Opened, Holds};
ghost use Rattle.recovery.specs.LogReading.{contents_of};
ghost use Rattle.recovery.specs.Opening.{IsNotOpened};
ghost use Rattle.cmd_directory.specs.Directory.{IsCounted, IsSummed, summary_text};

use atomic_methods::Part;
use checkpoint_file::read_head;
use disk_model::Disk;
use java_hash::StripeCount;
use map_types::Refusal;
use recovery::open_parts_with;
use std::alloc::{AllocError, Global};
use std::thread::Threads;

/// The numbers of a directory.
#[derive(Clone, Copy, Debug, PartialEq, Eq)]
pub struct Summary {
    /// The generation of the checkpoint that was used.
    pub generation: u64,
    /// How many stripes that checkpoint has.
    pub stripes: usize,
    /// How many commands the files stand for.
    pub prefix: u64,
    /// How many entries their map has; the greatest number stands for all that are greater.
    pub entries: usize,
}

impl Summary {
    /// A line for each number.
    pub fn text(&self, alloc: Global) -> Result<String, AllocError>
        ensures { IfOk result (λ text. string_bytes text ≡ summary_text self.now) }
    {
        let Summary {
            generation,
            stripes,
            prefix,
            entries,
        } = *self;
        format!(in alloc;
            "generation {generation}\nstripes {stripes}\nprefix {prefix}\nentries {entries}\n"
        )
    }
}

/// How many entries the parts have together.
fn count_entries(parts: &[Part]) -> usize
    ensures { result ≡ min (sum_by (λ part. finite.len part.map) parts.now) (2 ^ 64 - 1) }
{
    let mut count = 0usize;
    for part in parts {
        count = count.saturating_add(part.len());
    }
    count
}

/// What opening counts.
#[derive(Drop)]
struct Counts {
    generation: u64,
    prefix: u64,
    entries: usize,
}

/// How many stripes the map is divided into while it is counted.
fn sixteen() -> StripeCount
    ensures { result.count ≡ 16 }
{
    let Some(count) = StripeCount::new(16) else {
        unreachable!()
    };
    count
}

/// Opens the disk, and counts what it stands for. The map is given up.
fn count<R: Threads + Sync, D: Disk>(
    rt: &R,
    alloc: Global,
    disk: D,
) -> Result<(D, Counts), (D, Refusal)>
    ensures ok { IfOk result (λ x. IsCounted D.states D.failures D.honest disk x.0 x.1) }
    ensures err { IfErr result (λ x. IsNotOpened D.states D.failures D.honest disk x.0 x.1) }
{
    match open_parts_with(rt, alloc, disk, sixteen()) {
        Ok((keeper, parts, prefix, _limit)) => {
            let counts = Counts {
                generation: keeper.sealed,
                prefix,
                entries: count_entries(&parts),
            };
            let disk = keeper.into_disk();
            Ok((disk, counts))
        }
        Err(refused) => Err(refused),
    }
}

/// The number of stripes of the checkpoint of this generation.
fn stripes_of<D: Disk>(disk: &mut D, generation: u64) -> Result<usize, Refusal>
    ensures looks { Looks D.states D.failures D.honest (failed_in result) disk.old disk.new }
    ensures ok { D.honest disk.new → (found : Opened) → found.checkpoint.generation ≡ generation
        → Holds (contents_of D.states disk.old) found
        → IfOk result (λ stripes. stripes ≡ found.checkpoint.stripes) }
    ensures err { D.honest disk.new → (found : Opened) → found.checkpoint.generation ≡ generation
        → Holds (contents_of D.states disk.old) found
        → IfErr result (λ refusal. (refusal ≡ Refusal.Failed) ⊎ (refusal ≡ Refusal.NoMemory)) }
    ensures listed { IfErr result AreFilesRefused }
{
    let file = (generation % 2) as usize;
    match read_head(disk, file)? {
        Some(head) => Ok(usize::from(head.stripes)),
        None => Err(Refusal::NotFormatted),
    }
}

/// Opens the disk, and sums up what it stands for. It writes nothing. The disk is handed back.
pub fn summarize<R: Threads + Sync, D: Disk>(
    rt: &R,
    alloc: Global,
    disk: D,
) -> Result<(D, Summary), (D, Refusal)>
    ensures ok { IfOk result (λ x. IsSummed D.states D.failures D.honest disk x.0 x.1) }
    ensures err { IfErr result (λ x. IsNotOpened D.states D.failures D.honest disk x.0 x.1) }
{
    let (mut disk, counts) = count(rt, alloc, disk)?;
    match stripes_of(&mut disk, counts.generation) {
        Ok(stripes) => Ok((
            disk,
            Summary {
                generation: counts.generation,
                stripes,
                prefix: counts.prefix,
                entries: counts.entries,
            },
        )),
        Err(refusal) => Err((disk, refusal)),
    }
}
