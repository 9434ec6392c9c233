//! A directory is brought to the newest version.
ghost use Rattle.std.specs.Prelude.{◌≡◌, ◌≢◌, ◌⊎◌, ◌+◌, ℕ, None, [], true, false, IfOk, IfErr, OnOk};
ghost use Rattle.disk_model.specs.Files.{now};
ghost use Rattle.store_layout.specs.Logs.{new_version};
ghost use Rattle.ticket_order.specs.declared.record.Opening.{Opening};
ghost use Rattle.ticket_order.specs.declared.record.Record.{Record};
ghost use Rattle.one_history.specs.Turns.{opening_of};
ghost use Rattle.store_layout.specs.Opening.{Holds, Opened, map_of, prefix_of};
ghost use Rattle.store_layout.specs.declared.log_phase.Phase.TheVariants as phase;
ghost use Rattle.gate_log.specs.States as log_states;
ghost use Rattle.gate_log.specs.States.{IsResting};
ghost use Rattle.checkpoint_walk.specs.Checkpointing.{MayBegin};
ghost use Rattle.flusher.specs.Fitting.{Fits, IsUnused};
ghost use Rattle.flusher.specs.Rotating.{logs_of};
ghost use Rattle.recovery.specs.Dividing.{ArePartsOf};
ghost use Rattle.recovery.specs.Formatting.{AtStops};
ghost use Rattle.recovery.specs.LogReading.{contents_of};
ghost use Rattle.recovery.specs.Opening.{IsAtStart, IsNotOpened};
ghost use Rattle.recovery.specs.Syncing.{Stopped, SyncsAndLooks};
ghost use Rattle.recovery.specs.Upgrading.{HasRotated, IsLastGeneration, IsNewest, IsRefusedBehind, IsUnmoved, IsUnmovedWith, IsUpgradeRefused, IsUpgraded, SealsOne, StandsThroughout, StaysStanding, UsesStripes, logs_after, sealed_stripes};

use crate::checkpointing::seal_checkpoint;
use crate::opening::open_parts;
use atomic_methods::Part;
use disk_model::Disk;
use flusher::{Keeper, laws as keeper_laws};
use java_hash::StripeCount;
use log_records::Version;
use map_model::laws as map_laws;
use map_types::Refusal;
use plain_words::{At, PlainWords};
use std::alloc::Global;
use store_invariant::laws as store_laws;
use store_layout::{NEW_VERSION, laws as layout_laws};

/// The calls of a rotation: the header of the next log is written and synced, and the end frame of the
/// newest one committed by four.
const ROTATION_CALLS: usize = 6;

/// Makes the next `calls` calls of the logs, or as many as are due.
fn advance<D: Disk>(keeper: &mut Keeper<D>, calls: usize) -> Result<(), Refusal>
    requires { (n : ℕ) × (o : Opening) × (p : Record)
        × IsUnmoved D.states D.honest n o keeper.old p }

    // No stop loses what the opening found, and all is as before but for these calls.
    ensures stands { (n : ℕ) (o : Opening) (p : Record)
        → IsUnmoved D.states D.honest n o keeper.old p
        → StandsThroughout D.states D.honest o.first o.map keeper.old.disk keeper.new.disk }
    ensures unmoved { OnOk result
        ((n : ℕ) (o : Opening) (p : Record) → IsUnmoved D.states D.honest n o keeper.old p
        → IsUnmoved D.states D.honest n o keeper.new p) }
    ensures logs { OnOk result (logs_of keeper.new ≡ logs_after calls (logs_of keeper.old)) }
    ensures checkpoint { keeper.new.checkpoint ≡ keeper.old.checkpoint }
    ensures sealed { keeper.new.sealed ≡ keeper.old.sealed }
    ensures stripes { OnOk result
        (sealed_stripes D.states keeper.new ≡ sealed_stripes D.states keeper.old) }

    // Each call succeeds; or one fails, and it is the last.
    ensures counted { OnOk result (D.failures keeper.new.disk ≡ D.failures keeper.old.disk) }
    ensures err { IfErr result (λ refusal. (refusal ≡ Refusal.Failed)
        × (D.failures keeper.new.disk ≡ D.failures keeper.old.disk + 1)) }
{
    keeper_laws::stops_of_a_keeper(keeper);
    for _ in 0..calls {
        let _phase = keeper.advance()?;
    }
    Ok(())
}

/// Commits a rotation: the next log is begun, and the newest one ends.
fn rotate<D: Disk>(keeper: &mut Keeper<D>) -> Result<(), Refusal>
    requires { (n : ℕ) × (o : Opening) × (p : Record)
        × IsUnmoved D.states D.honest n o keeper.old p }

    // No stop loses what the opening found.
    ensures stands { (n : ℕ) (o : Opening) (p : Record)
        → IsUnmoved D.states D.honest n o keeper.old p
        → StandsThroughout D.states D.honest o.first o.map keeper.old.disk keeper.new.disk }
    ensures unmoved { OnOk result
        ((n : ℕ) (o : Opening) (p : Record) → IsUnmoved D.states D.honest n o keeper.old p
        → IsUnmoved D.states D.honest n o keeper.new p) }

    // If the newest log was that of the sealed checkpoint, the next log is the newest now.
    ensures rotated { OnOk result
        (keeper.old.log.generation ≡ keeper.old.sealed → HasRotated keeper.new) }
    ensures stripes { OnOk result
        (sealed_stripes D.states keeper.new ≡ sealed_stripes D.states keeper.old) }

    // Refused: after the one call that failed, or if no checkpoint may begin.
    ensures counted { OnOk result (D.failures keeper.new.disk ≡ D.failures keeper.old.disk) }
    ensures unfailing { IfErr result (λ refusal. refusal ≢ Refusal.Failed
        → D.failures keeper.new.disk ≡ D.failures keeper.old.disk) }
    ensures err { IfErr result (λ refusal. ((refusal ≡ Refusal.Failed)
        × (D.failures keeper.new.disk ≡ D.failures keeper.old.disk + 1))
        ⊎ ((refusal ≡ Refusal.WrongPhase) × (MayBegin keeper.old → ⊥))) }
{
    keeper_laws::stops_of_a_keeper(keeper);
    checkpoint_walk::begin(keeper)?;
    advance(keeper, ROTATION_CALLS)
}

/// The same, once the checkpoint of the newest log is sealed.
fn rotate_sealed<D: Disk>(keeper: &mut Keeper<D>, steps: &mut At<'_>) -> Result<(), Refusal>
    // No change was made, and neither a rotation nor a checkpoint is begun.
    requires unmoved { (o : Opening)
        × IsUnmovedWith D.states D.honest o keeper.old steps.old.pass
        steps.old.words.now }
    requires none_runs { (keeper.old.next ≡ None) × (keeper.old.checkpoint ≡ None) }

    // No stop loses what the opening found.
    ensures stands { (o : Opening)
        → IsUnmovedWith D.states D.honest o keeper.old steps.old.pass
        steps.old.words.now
        → StandsThroughout D.states D.honest o.first o.map keeper.old.disk keeper.new.disk }

    // If the newest log was that of the sealed checkpoint or of the next, it has rotated.
    ensures rotated { OnOk result
        ((o : Opening)
        → IsUnmovedWith D.states D.honest o keeper.old steps.old.pass
        steps.old.words.now
        → (keeper.old.log.generation ≡ keeper.old.sealed)
        ⊎ (keeper.old.log.generation ≡ keeper.old.sealed + 1)
        → ((n : ℕ) × (p : Record) × IsUnmoved D.states D.honest n o keeper.new p)
        × HasRotated keeper.new) }

    // The sealed checkpoint has its stripes; one that had to be sealed first, the keeper's.
    ensures kept { OnOk result
        (keeper.old.log.generation ≡ keeper.old.sealed
        → sealed_stripes D.states keeper.new ≡ sealed_stripes D.states keeper.old) }
    ensures stripes { OnOk result
        (D.honest keeper.new.disk → keeper.old.log.generation ≢ keeper.old.sealed
        → sealed_stripes D.states keeper.new ≡ keeper.old.stripes.count) }

    // No call fails; or one does, and it is the last.
    ensures counted { OnOk result (D.failures keeper.new.disk ≡ D.failures keeper.old.disk) }
    ensures unfailing { IfErr result (λ refusal. refusal ≢ Refusal.Failed
        → D.failures keeper.new.disk ≡ D.failures keeper.old.disk) }
    ensures err { IfErr result (λ refusal. (o : Opening)
        → IsUnmovedWith D.states D.honest o keeper.old steps.old.pass
        steps.old.words.now
        → IsRefusedBehind (D.failures keeper.new.disk ≡ D.failures keeper.old.disk + 1)
        (IsResting keeper.old.log → (keeper.old.log.generation ≡ keeper.old.sealed)
        ⊎ (keeper.old.log.generation ≡ keeper.old.sealed + 1)
        → IsLastGeneration keeper.old.log.generation)
        keeper.old.stripes.count o.map keeper.old.log.generation keeper.old.sealed refusal) }
{
    if keeper.log.generation() == keeper.sealed {
        return rotate(keeper);
    }
    seal_checkpoint(keeper, steps)?;
    rotate(keeper)
}

/// Brings the directory of this keeper to the newest version, with a pass of its own over the parts.
fn upgrade_keeper<D: Disk>(
    alloc: Global,
    keeper: &mut Keeper<D>,
    parts: Vec<Part>,
    first: u64,
    limit: u16,
) -> Result<(), Refusal>
    // The directory was just opened, and these are the parts of its map.
    requires start { (stripes : StripeCount) × IsAtStart stripes first keeper.old }
    requires parts { ArePartsOf keeper.old.stripes.count parts.items }
    requires fits { (p : Record) → p.opening ≡ opening_of first parts.items limit
        → IsUnused first limit p
        → Fits D.states D.honest keeper.old.stripes.count [] keeper.old p }

    // No stop loses what the opening found.
    ensures stands { StandsThroughout D.states D.honest first
        (opening_of first parts.items limit).map keeper.old.disk keeper.new.disk }
    ensures rotated { OnOk result
        ((keeper.old.log.generation ≡ keeper.old.sealed)
        ⊎ (keeper.old.log.generation ≡ keeper.old.sealed + 1)
        → ((n : ℕ) × (p : Record)
        × IsUnmoved D.states D.honest n (opening_of first parts.items limit) keeper.new p)
        × HasRotated keeper.new) }

    // The sealed checkpoint has its stripes; one that had to be sealed first, the keeper's.
    ensures kept { OnOk result
        (keeper.old.log.generation ≡ keeper.old.sealed
        → sealed_stripes D.states keeper.new ≡ sealed_stripes D.states keeper.old) }
    ensures stripes { OnOk result
        (D.honest keeper.new.disk → keeper.old.log.generation ≢ keeper.old.sealed
        → sealed_stripes D.states keeper.new ≡ keeper.old.stripes.count) }

    // No call fails; or one does, and it is the last.
    ensures counted { OnOk result (D.failures keeper.new.disk ≡ D.failures keeper.old.disk) }
    ensures unfailing { IfErr result (λ refusal. refusal ≢ Refusal.Failed
        → D.failures keeper.new.disk ≡ D.failures keeper.old.disk) }
    ensures err { IfErr result (λ refusal.
        IsRefusedBehind (D.failures keeper.new.disk ≡ D.failures keeper.old.disk + 1)
        ((keeper.old.log.generation ≡ keeper.old.sealed)
        ⊎ (keeper.old.log.generation ≡ keeper.old.sealed + 1)
        → IsLastGeneration keeper.old.log.generation)
        keeper.old.stripes.count (opening_of first parts.items limit).map keeper.old.log.generation
        keeper.old.sealed refusal) }
{
    keeper_laws::stops_of_a_keeper(keeper);
    let mut words = PlainWords::new(alloc, keeper.stripes, parts, first, limit, 0)?;
    let mut steps = At::new(&mut words, 0);
    rotate_sealed(keeper, &mut steps)
}

/// Whether this is the newest version.
fn is_newest(version: Version) -> bool
    ensures newest { result ≡ true → version ≡ new_version }
    ensures earlier { result ≡ false → version ≢ new_version }
{
    version == NEW_VERSION
}

/// Brings the directory to the newest version. It opens it, and if its newest log is of an earlier
/// version, commits a rotation: the next log is in the newest version. If the newest log isn't that of
/// the sealed checkpoint, its own checkpoint is taken and sealed before. Else it writes nothing. It
/// uses the words of one thread, and never waits. The disk is handed back, also with a refusal.
pub fn upgrade<D: Disk>(alloc: Global, disk: D, stripes: StripeCount) -> Result<D, (D, Refusal)>
    // Nothing is written unless the directory opens; then no stop loses what it stands for. No call fails.
    ensures ok { IfOk result (StaysStanding D.states D.failures D.honest disk) }
    ensures unfailing { IfOk result (λ after. D.failures after ≡ D.failures disk) }

    // Refused: its opening, which writes nothing; or behind it, and no stop loses what it stands for.
    ensures refused { IfErr result (λ x.
        IsNotOpened D.states D.failures D.honest disk x.0 x.1
        ⊎ IsUpgradeRefused D.states D.failures D.honest stripes.count disk x.0 x.1) }

    // On an honest disk the newest log is then in the newest version, also after a stop.
    ensures upgraded { IfOk result (λ after. D.honest after → (found : Opened)
        → Holds (contents_of D.states disk) found
        → AtStops (IsUpgraded (prefix_of found) (map_of found)) (now (D.states after))) }
    ensures reads { IfOk result (λ after. D.honest after → (found : Opened)
        → Holds (contents_of D.states disk) found
        → IsUpgraded (prefix_of found) (map_of found) (contents_of D.states after)) }

    // The checkpoint has the stripes that it had; one that it had to seal, those asked for.
    ensures kept { IfOk result (λ after. D.honest after → (found : Opened)
        → Holds (contents_of D.states disk) found
        → (SealsOne (contents_of D.states disk) found → ⊥)
        → AtStops (UsesStripes found.checkpoint.stripes) (now (D.states after))) }
    ensures stripes { IfOk result (λ after. D.honest after → (found : Opened)
        → Holds (contents_of D.states disk) found → SealsOne (contents_of D.states disk) found
        → AtStops (UsesStripes stripes.count) (now (D.states after))) }

    // If it was so before, nothing is written, and no other refusal comes than these two.
    ensures untouched { IfOk result (λ after. D.honest after → (found : Opened)
        → Holds (contents_of D.states disk) found → IsNewest (contents_of D.states disk) found
        → SyncsAndLooks D.states D.failures D.honest 4 0 disk after) }
    ensures unwritten { IfErr result (λ x. D.honest x.0 → (found : Opened)
        → Holds (contents_of D.states disk) found → IsNewest (contents_of D.states disk) found
        → Stopped D.states D.failures D.honest 4 disk x.0 x.1
        × ((x.1 ≡ Refusal.Failed) ⊎ (x.1 ≡ Refusal.NoMemory))) }
{
    map_laws::laws_of_parts();
    layout_laws::laws_of_opening();
    store_laws::stops_of_a_store();
    let (mut keeper, parts, first, limit) = open_parts(alloc, disk, stripes)?;
    if is_newest(keeper.log.version()) {
        return Ok(keeper.into_disk());
    }
    match upgrade_keeper(alloc, &mut keeper, parts, first, limit) {
        Ok(()) => Ok(keeper.into_disk()),
        Err(refusal) => Err((keeper.into_disk(), refusal)),
    }
}
