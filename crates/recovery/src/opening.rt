//! The map that a directory stands for.
ghost use Rattle.std.specs.Prelude.{◌≡◌, ◌+◌, [], IfOk, IfErr};
ghost use Rattle.disk_model.specs.Files.{now};
ghost use Rattle.file_pieces.specs.Counting.{Made, MadeAtMost};
ghost use Rattle.log_records.specs.Layout.{layout_of};
ghost use Rattle.store_layout.specs.Calls.{opening_calls};
ghost use Rattle.store_layout.specs.Failures.{AreFilesRefused};
ghost use Rattle.ticket_order.specs.declared.record.Record.{Record};
ghost use Rattle.one_history.specs.Turns.{opening_of};
ghost use Rattle.stripe_locks.specs.Passes.{begun_with, stripe_count};
ghost use Rattle.store_layout.specs.Opening.{Holds, Opened, Refuses, StandsFor};
ghost use Rattle.recovery.specs.Dividing.{ArePartsOf};
ghost use Rattle.recovery.specs.Lanes.{Runs, RunsAll};
ghost use Rattle.recovery.specs.LogReading.{contents_of, RefusesFor};
ghost use Rattle.flusher.specs.Fitting.{Fits, IsUnused};
ghost use Rattle.recovery.specs.Opening.{IsAtStart, IsOpenedAs, OpensWith};
ghost use Rattle.recovery.specs.Syncing.{LeavesOnly, Stopped, SyncsAndLooks};

use crate::lanes::Lane;
use crate::reading::{Restored, open_files};
use crate::running::{run_all, share_all};
use atomic_methods::Part;
use disk_model::Disk;
use flusher::Keeper;
use java_hash::StripeCount;
use map_model::laws;
use map_types::Refusal;
use std::alloc::Global;
use std::thread::Threads;
use stripe_locks::Stripes;

/// Opens the directory as `open_parts` says. What is due in the lanes is made by `run_each`.
fn open_parts_by<D: Disk, F: Fn(&mut [Lane])>(
    run_each: &F,
    alloc: Global,
    mut disk: D,
    stripes: StripeCount,
) -> Result<(Keeper<D>, Vec<Part>, u64, u16), (D, Refusal)>
    requires { Runs F.Fn run_each.now }

    // Four syncs, then looks: `opening_calls` in all, at most that if refused.
    ensures calls { IfOk result (λ x. SyncsAndLooks D.states D.failures D.honest 4 0 disk
        x.0.disk) }
    ensures stopped { IfErr result (λ x. Stopped D.states D.failures D.honest 4 disk x.0 x.1) }
    ensures made { IfOk result (λ x. D.honest x.0.disk → (found : Opened)
        → Holds (contents_of D.states disk) found
        → Made D.states (opening_calls (contents_of D.states disk) found) disk x.0.disk) }
    ensures tried { IfErr result (λ x. D.honest x.0 → (found : Opened)
        → Holds (contents_of D.states disk) found
        → MadeAtMost D.states (opening_calls (contents_of D.states disk) found) disk x.0) }

    // The keeper has done nothing yet, and writes no zeros ahead.
    ensures start { IfOk result (λ x. IsAtStart stripes x.2 x.0) }
    ensures ahead { IfOk result (λ x. x.0.zeros ≡ 0) }

    // The limit is that of the newest log's version.
    ensures limit { IfOk result (λ x. x.3 ≡ (layout_of x.0.log.version).key_limit) }

    // On an honest disk the files give the parts, or the reason of a refusal.
    ensures parts { IfOk result (λ x. ArePartsOf stripes.count x.1.items) }
    ensures ok { IfOk result (λ x. D.honest x.0.disk
        → D.honest disk × IsOpenedAs (contents_of D.states disk) stripes.count x.0 x.1.items x.2
        x.3) }
    ensures err { IfErr result (λ x. D.honest x.0
        → D.honest disk × RefusesFor (Refuses (contents_of D.states disk) x.1) x.1) }

    // Of any disk: a failed call, no memory, no seal, or a fault of one of the files.
    ensures listed { IfErr result (λ x. AreFilesRefused x.1) }

    // A stop now leaves exactly the files as they were read.
    ensures stops { IfOk result (λ x. LeavesOnly (now (D.states x.0.disk))
        (contents_of D.states disk)) }

    // The invariant begins, for a pass that made no call of the keeper.
    ensures fits { IfOk result (λ x. (p : Record) → p.opening ≡ opening_of x.2 x.1.items x.3
        → IsUnused x.2 x.3 p → Fits D.states D.honest stripes.count [] x.0 p) }
{
    laws::laws_of_parts();
    match open_files(run_each, alloc, &mut disk, stripes) {
        Ok((restored, must_close)) => {
            let Restored { parts, sealed, log } = restored;
            let first = log.committed();
            let limit = log.version().key_limit();
            let keeper = Keeper::opened(alloc, disk, stripes, sealed, log, must_close);
            Ok((keeper, parts, first, limit))
        }
        Err(refusal) => Err((disk, refusal)),
    }
}

/// Opens the directory: syncs its files, and restores the map that they stand for, divided for
/// `stripes` stripes. It returns a keeper over the directory, the parts of the map in the order of
/// their stripes, how many commands were made, and the most bytes that the key of a change may have.
/// That is what the version of the newest log allows. It writes nothing. Besides the map it holds one
/// section, or one frame and some thousand changes, at a time. The disk is handed back with a refusal.
pub fn open_parts<D: Disk>(
    alloc: Global,
    disk: D,
    stripes: StripeCount,
) -> Result<(Keeper<D>, Vec<Part>, u64, u16), (D, Refusal)>
    // Four syncs, then looks: `opening_calls` in all, at most that if refused.
    ensures calls { IfOk result (λ x. SyncsAndLooks D.states D.failures D.honest 4 0 disk
        x.0.disk) }
    ensures stopped { IfErr result (λ x. Stopped D.states D.failures D.honest 4 disk x.0 x.1) }
    ensures made { IfOk result (λ x. D.honest x.0.disk → (found : Opened)
        → Holds (contents_of D.states disk) found
        → Made D.states (opening_calls (contents_of D.states disk) found) disk x.0.disk) }
    ensures tried { IfErr result (λ x. D.honest x.0 → (found : Opened)
        → Holds (contents_of D.states disk) found
        → MadeAtMost D.states (opening_calls (contents_of D.states disk) found) disk x.0) }

    // The keeper has done nothing yet, and writes no zeros ahead.
    ensures start { IfOk result (λ x. IsAtStart stripes x.2 x.0) }
    ensures ahead { IfOk result (λ x. x.0.zeros ≡ 0) }

    // The limit is that of the newest log's version.
    ensures limit { IfOk result (λ x. x.3 ≡ (layout_of x.0.log.version).key_limit) }

    // On an honest disk the files give the parts, or the reason of a refusal.
    ensures parts { IfOk result (λ x. ArePartsOf stripes.count x.1.items) }
    ensures ok { IfOk result (λ x. D.honest x.0.disk
        → D.honest disk × IsOpenedAs (contents_of D.states disk) stripes.count x.0 x.1.items x.2
        x.3) }
    ensures err { IfErr result (λ x. D.honest x.0
        → D.honest disk × RefusesFor (Refuses (contents_of D.states disk) x.1) x.1) }

    // Of any disk: a failed call, no memory, no seal, or a fault of one of the files.
    ensures listed { IfErr result (λ x. AreFilesRefused x.1) }

    // A stop now leaves exactly the files as they were read.
    ensures stops { IfOk result (λ x. LeavesOnly (now (D.states x.0.disk))
        (contents_of D.states disk)) }

    // The invariant begins, for a pass that made no call of the keeper.
    ensures fits { IfOk result (λ x. (p : Record) → p.opening ≡ opening_of x.2 x.1.items x.3
        → IsUnused x.2 x.3 p → Fits D.states D.honest stripes.count [] x.0 p) }
{
    let run = |lanes: &mut [Lane]|
        ensures { RunsAll lanes.old lanes.new }
    { run_all(alloc, lanes) };
    open_parts_by(&run, alloc, disk, stripes)
}

/// Opens the directory as `open_parts` does. The sections and changes are shared among as many
/// threads as there are processors, each of which makes those of one stripe after another. Besides
/// the map each thread holds one section at a time.
pub fn open_parts_with<R: Threads + Sync, D: Disk>(
    rt: &R,
    alloc: Global,
    disk: D,
    stripes: StripeCount,
) -> Result<(Keeper<D>, Vec<Part>, u64, u16), (D, Refusal)>
    // Four syncs, then looks: `opening_calls` in all, at most that if refused.
    ensures calls { IfOk result (λ x. SyncsAndLooks D.states D.failures D.honest 4 0 disk
        x.0.disk) }
    ensures stopped { IfErr result (λ x. Stopped D.states D.failures D.honest 4 disk x.0 x.1) }
    ensures made { IfOk result (λ x. D.honest x.0.disk → (found : Opened)
        → Holds (contents_of D.states disk) found
        → Made D.states (opening_calls (contents_of D.states disk) found) disk x.0.disk) }
    ensures tried { IfErr result (λ x. D.honest x.0 → (found : Opened)
        → Holds (contents_of D.states disk) found
        → MadeAtMost D.states (opening_calls (contents_of D.states disk) found) disk x.0) }

    // The keeper has done nothing yet, and writes no zeros ahead.
    ensures start { IfOk result (λ x. IsAtStart stripes x.2 x.0) }
    ensures ahead { IfOk result (λ x. x.0.zeros ≡ 0) }

    // The limit is that of the newest log's version.
    ensures limit { IfOk result (λ x. x.3 ≡ (layout_of x.0.log.version).key_limit) }

    // On an honest disk the files give the parts, or the reason of a refusal.
    ensures parts { IfOk result (λ x. ArePartsOf stripes.count x.1.items) }
    ensures ok { IfOk result (λ x. D.honest x.0.disk
        → D.honest disk × IsOpenedAs (contents_of D.states disk) stripes.count x.0 x.1.items x.2
        x.3) }
    ensures err { IfErr result (λ x. D.honest x.0
        → D.honest disk × RefusesFor (Refuses (contents_of D.states disk) x.1) x.1) }

    // Of any disk: a failed call, no memory, no seal, or a fault of one of the files.
    ensures listed { IfErr result (λ x. AreFilesRefused x.1) }

    // A stop now leaves exactly the files as they were read.
    ensures stops { IfOk result (λ x. LeavesOnly (now (D.states x.0.disk))
        (contents_of D.states disk)) }

    // The invariant begins, for a pass that made no call of the keeper.
    ensures fits { IfOk result (λ x. (p : Record) → p.opening ≡ opening_of x.2 x.1.items x.3
        → IsUnused x.2 x.3 p → Fits D.states D.honest stripes.count [] x.0 p) }
{
    let run = |lanes: &mut [Lane]|
        ensures { RunsAll lanes.old lanes.new }
    { share_all(rt, alloc, lanes) };
    open_parts_by(&run, alloc, disk, stripes)
}

/// Opens the directory, and shares the map that it stands for between the passes of `Stripes`; refused
/// as `open_parts` is.
pub fn open<D: Disk>(
    alloc: Global,
    disk: D,
    stripes: StripeCount,
) -> Result<(Keeper<D>, Stripes), (D, Refusal)>
    // Four syncs, then looks: `opening_calls` in all, at most that if refused.
    ensures calls { IfOk result (λ x. SyncsAndLooks D.states D.failures D.honest 4 0 disk
        x.0.disk) }
    ensures stopped { IfErr result (λ x. Stopped D.states D.failures D.honest 4 disk x.0 x.1) }
    ensures made { IfOk result (λ x. D.honest x.0.disk → (found : Opened)
        → Holds (contents_of D.states disk) found
        → Made D.states (opening_calls (contents_of D.states disk) found) disk x.0.disk) }
    ensures tried { IfErr result (λ x. D.honest x.0 → (found : Opened)
        → Holds (contents_of D.states disk) found
        → MadeAtMost D.states (opening_calls (contents_of D.states disk) found) disk x.0) }

    // The keeper has done nothing yet, and writes no zeros ahead.
    ensures start { IfOk result (λ x. IsAtStart stripes (begun_with x.1).first x.0) }
    ensures ahead { IfOk result (λ x. x.0.zeros ≡ 0) }

    // The limit for keys is that of the newest log's version.
    ensures limit { IfOk result (λ x.
        (begun_with x.1).key_limit ≡ (layout_of x.0.log.version).key_limit) }

    // On an honest disk the files give the map, or the reason of a refusal.
    ensures stripes { IfOk result (λ x. stripe_count x.1 ≡ stripes.count) }
    ensures ok { IfOk result (λ x. D.honest x.0.disk
        → D.honest disk × StandsFor (contents_of D.states disk) (begun_with x.1).first
        (begun_with x.1).map) }
    ensures begins { IfOk result (λ x. D.honest x.0.disk
        → OpensWith (contents_of D.states disk) (begun_with x.1)) }
    ensures err { IfErr result (λ x. D.honest x.0
        → D.honest disk × RefusesFor (Refuses (contents_of D.states disk) x.1) x.1) }

    // Of any disk: a failed call, no memory, no seal, or a fault of one of the files.
    ensures listed { IfErr result (λ x. AreFilesRefused x.1) }

    // A stop now leaves exactly the files as they were read.
    ensures stops { IfOk result (λ x. LeavesOnly (now (D.states x.0.disk))
        (contents_of D.states disk)) }

    // The invariant begins, for a pass that made no call of the keeper.
    ensures fits { IfOk result (λ x. (p : Record) → p.opening ≡ begun_with x.1
        → IsUnused (begun_with x.1).first (begun_with x.1).key_limit p
        → Fits D.states D.honest stripes.count [] x.0 p) }
{
    laws::laws_of_parts();
    let (keeper, parts, first, limit) = open_parts(alloc, disk, stripes)?;
    match Stripes::new(alloc, stripes, parts, first, limit) {
        Ok(shared) => Ok((keeper, shared)),
        Err(refusal) => Err((keeper.into_disk(), refusal)),
    }
}
