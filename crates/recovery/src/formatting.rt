//! A directory is made that of an empty map.
ghost use Rattle.std.specs.Prelude.{◌≡◌, ◌≢◌, ◌⊎◌, ◌+◌, ◌||◌, ℕ, true, Err, IfOk, IfErr, OnOk};
ghost use Rattle.java_hash.specs.Stripes.{is_stripe_count};
ghost use Rattle.disk_model.specs.Calls.{Looks};
ghost use Rattle.disk_model.specs.Files.{empty_files, now};
ghost use Rattle.disk_model.specs.Moments.{AtEachMoment};
ghost use Rattle.store_layout.specs.Checkpoints.{checkpoint_bytes, is_sealed};
ghost use Rattle.store_layout.specs.Logs.{new_layout};
ghost use Rattle.log_records.specs.Layout.{layout_of};
ghost use Rattle.store_layout.specs.Opening.{first_checkpoint};
ghost use Rattle.gate_log.specs.Scan.{failed_in};
ghost use Rattle.recovery.specs.LogReading.{contents_of};
ghost use Rattle.recovery.specs.Formatting.{AtStops, IsClear, IsFormatted, IsNew, IsNewOrUnformatted, IsUnformatted, IsWrittenIn};
ghost use Rattle.store_layout.specs.FirstFiles.{files_in, new_files};
ghost use Rattle.recovery.specs.Syncing.{SyncsAndLooks};

use crate::first_bytes::first_bytes;
use crate::new_store::{begin_log, close_gate, has_seal, seal};
use crate::syncing::sync_files;
use disk_model::Disk;
use java_hash::StripeCount;
use log_records::Version;
use map_types::Refusal;
use std::alloc::Global;
use store_layout::NEW_VERSION;

/// Whether a checkpoint is sealed.
fn is_formatted<D: Disk>(disk: &mut D) -> Result<bool, Refusal>
    ensures looks { Looks D.states D.failures D.honest (failed_in result) disk.old disk.new }
    ensures value { D.honest disk.new → IfOk result (λ is. is ≡ is_sealed
        (contents_of D.states disk.old 0) || is_sealed (contents_of D.states disk.old 1)) }
    ensures err { IfErr result (λ refusal. refusal ≡ Refusal.Failed) }
{
    let first = has_seal(disk, 0)?;
    let second = has_seal(disk, 1)?;
    Ok(first || second)
}

/// Makes the files those of a new store of this version, with these bytes behind the gate of its
/// checkpoint.
fn make_store<D: Disk>(disk: &mut D, version: Version, bytes: &[u8]) -> Result<(), Refusal>
    // An honest disk was so before. The only error is one failed call.
    ensures was_honest { D.honest disk.new → D.honest disk.old }
    ensures failed { IfErr result (λ refusal. refusal ≡ Refusal.Failed) }
    ensures failures { D.failures disk.new ≡ D.failures disk.old + failed_in result }

    // On an honest disk without a seal any stop leaves none, or the new store.
    ensures moments { D.honest disk.new → (stripes : ℕ) → is_stripe_count stripes ≡ true
        → bytes.now ≡ checkpoint_bytes (layout_of version) (first_checkpoint stripes)
        → IsClear (now (D.states disk.old))
        → AtEachMoment D.states disk.old disk.new (AtStops (IsNewOrUnformatted stripes)) }

    // On an honest disk the store is then new, also as a stop leaves it.
    ensures ok { OnOk result
        (D.honest disk.new → (stripes : ℕ) → is_stripe_count stripes ≡ true
        → bytes.now ≡ checkpoint_bytes (layout_of version) (first_checkpoint stripes)
        → IsClear (now (D.states disk.old)) → AtStops (IsNew stripes) (now (D.states disk.new))) }
    ensures written { OnOk result
        (D.honest disk.new → (stripes : ℕ) → is_stripe_count stripes ≡ true
        → bytes.now ≡ checkpoint_bytes (layout_of version) (first_checkpoint stripes)
        → IsClear (now (D.states disk.old))
        → AtStops (IsWrittenIn (layout_of version)) (now (D.states disk.new))) }
    ensures files { OnOk result
        (D.honest disk.new → (stripes : ℕ)
        → bytes.now ≡ checkpoint_bytes (layout_of version) (first_checkpoint stripes)
        → now (D.states disk.old) ≡ empty_files
        → now (D.states disk.new) ≡ files_in (layout_of version) stripes) }
{
    close_gate(disk)?;
    begin_log(disk, version)?;
    seal(disk, bytes)
}

/// Makes the directory that of an empty map, divided for `stripes` stripes, if no checkpoint is
/// sealed in it. Its files are of the newest version. All memory is taken before the first write.
pub fn format<D: Disk>(alloc: Global, disk: &mut D, stripes: StripeCount) -> Result<(), Refusal>
    // An honest disk was so before. A call failed exactly if it is `Failed`.
    ensures was_honest { D.honest disk.new → D.honest disk.old }
    ensures failures { D.failures disk.new ≡ D.failures disk.old + failed_in result }

    // Refused by a failed call, or with nothing written: no memory, or a seal.
    ensures refusals { IfErr result (λ refusal. (refusal ≡ Refusal.Failed)
        ⊎ ((refusal ≡ Refusal.NoMemory) ⊎ (refusal ≡ Refusal.AlreadyFormatted))) }
    ensures formatted { IfErr result (λ refusal. refusal ≡ Refusal.AlreadyFormatted
        → D.honest disk.new → IsFormatted (contents_of D.states disk.old)) }
    ensures unformatted { D.honest disk.new → result ≢ Err Refusal.AlreadyFormatted
        → result ≢ Err Refusal.Failed → IsUnformatted (contents_of D.states disk.old) }
    ensures untouched { IfErr result (λ refusal. refusal ≢ Refusal.Failed
        → SyncsAndLooks D.states D.failures D.honest 2 0 disk.old disk.new) }

    // On an honest disk without a seal any stop leaves none, or the new store.
    ensures moments { D.honest disk.new → AtStops IsUnformatted (now (D.states disk.old))
        → AtEachMoment D.states disk.old disk.new (AtStops (IsNewOrUnformatted stripes.count)) }

    // On an honest disk it is then a new store, as read and after a stop.
    ensures ok { OnOk result
        (D.honest disk.new → AtStops (IsNew stripes.count) (now (D.states disk.new))) }
    ensures written { OnOk result
        (D.honest disk.new
        → AtStops (IsWrittenIn new_layout) (now (D.states disk.new))) }
    ensures reads { OnOk result
        (D.honest disk.new → IsNew stripes.count (contents_of D.states disk.new)) }
    ensures read_in { OnOk result
        (D.honest disk.new → IsWrittenIn new_layout (contents_of D.states disk.new)) }
    ensures files { OnOk result
        (D.honest disk.new → now (D.states disk.old) ≡ empty_files
        → now (D.states disk.new) ≡ new_files stripes.count) }
{
    format_as(alloc, disk, stripes, NEW_VERSION)
}

/// Makes the directory that of an empty map in files of this version, and is else as `format`. It is
/// for directories of an earlier version, as schedules begin with and tests need.
pub fn format_as<D: Disk>(
    alloc: Global,
    disk: &mut D,
    stripes: StripeCount,
    version: Version,
) -> Result<(), Refusal>
    // An honest disk was so before. A call failed exactly if it is `Failed`.
    ensures was_honest { D.honest disk.new → D.honest disk.old }
    ensures failures { D.failures disk.new ≡ D.failures disk.old + failed_in result }

    // Refused by a failed call, or with nothing written: no memory, or a seal.
    ensures refusals { IfErr result (λ refusal. (refusal ≡ Refusal.Failed)
        ⊎ ((refusal ≡ Refusal.NoMemory) ⊎ (refusal ≡ Refusal.AlreadyFormatted))) }
    ensures formatted { IfErr result (λ refusal. refusal ≡ Refusal.AlreadyFormatted
        → D.honest disk.new → IsFormatted (contents_of D.states disk.old)) }
    ensures unformatted { D.honest disk.new → result ≢ Err Refusal.AlreadyFormatted
        → result ≢ Err Refusal.Failed → IsUnformatted (contents_of D.states disk.old) }
    ensures untouched { IfErr result (λ refusal. refusal ≢ Refusal.Failed
        → SyncsAndLooks D.states D.failures D.honest 2 0 disk.old disk.new) }

    // On an honest disk without a seal any stop leaves none, or the new store.
    ensures moments { D.honest disk.new → AtStops IsUnformatted (now (D.states disk.old))
        → AtEachMoment D.states disk.old disk.new (AtStops (IsNewOrUnformatted stripes.count)) }

    // On an honest disk it is then a new store, as read and after a stop.
    ensures ok { OnOk result
        (D.honest disk.new → AtStops (IsNew stripes.count) (now (D.states disk.new))) }
    ensures written { OnOk result
        (D.honest disk.new
        → AtStops (IsWrittenIn (layout_of version)) (now (D.states disk.new))) }
    ensures reads { OnOk result
        (D.honest disk.new → IsNew stripes.count (contents_of D.states disk.new)) }
    ensures read_in { OnOk result
        (D.honest disk.new → IsWrittenIn (layout_of version) (contents_of D.states disk.new)) }
    ensures files { OnOk result
        (D.honest disk.new → now (D.states disk.old) ≡ empty_files
        → now (D.states disk.new) ≡ files_in (layout_of version) stripes.count) }
{
    sync_files(disk, 2)?;
    if is_formatted(disk)? {
        return Err(Refusal::AlreadyFormatted);
    }
    let bytes = first_bytes(alloc, stripes, version)?;
    make_store(disk, version, &bytes)
}
