//! A checkpoint is taken while no change is made.
ghost use Rattle.std.specs.Prelude.{◌≡◌, ◌≢◌, ◌+◌, ◌≤◌, ◌⊎◌, ◌<◌, ℕ, None, Some, IfErr, OnOk};
ghost use Rattle.map_model.specs.Maps.{Map};
ghost use Rattle.ticket_order.specs.declared.record.Opening.{Opening};
ghost use Rattle.ticket_order.specs.declared.record.Record.{Record};
ghost use Rattle.flusher.specs.Rotating.{logs_of};
ghost use Rattle.checkpoint_walk.specs.Checkpointing.{IsNextStripe, checkpoints_of};
ghost use Rattle.recovery.specs.Upgrading.{HasSections, IsCheckpointRefused, IsGivenAt, IsLastGeneration, IsSectionRefused, IsUnmoved, IsUnmovedWith, StandsThroughout, checkpoints_after, sealed_stripes};

use checkpoint_walk::capture_step;
use disk_model::Disk;
use flusher::{Keeper, laws};
use map_types::Refusal;
use plain_words::At;

/// The most calls that a checkpoint makes before its first section: it closes its gate, syncs that, and
/// makes room for its header.
const HEAD_CALLS: usize = 3;
/// The call that writes a section.
const SECTION_CALLS: usize = 1;
/// The calls of a seal: the header is written and synced, the gate opened and synced.
const SEALING_CALLS: usize = 4;

/// Makes the next `calls` calls of the checkpoint, or as many as are due.
fn advance<D: Disk>(keeper: &mut Keeper<D>, calls: usize) -> Result<(), Refusal>
    requires unmoved { (n : ℕ) × (o : Opening) × (p : Record)
        × IsUnmoved D.states D.honest n o keeper.old p }
    requires no_rotation { keeper.old.next ≡ None }

    // No stop loses what the opening found, and all is as before but for these calls.
    ensures stands { (n : ℕ) (o : Opening) (p : Record)
        → IsUnmoved D.states D.honest n o keeper.old p
        → StandsThroughout D.states D.honest o.first o.map keeper.old.disk keeper.new.disk }
    ensures unmoved { OnOk result
        ((n : ℕ) (o : Opening) (p : Record) → IsUnmoved D.states D.honest n o keeper.old p
        → IsUnmoved D.states D.honest n o keeper.new p) }
    ensures checkpoints { OnOk result
        (checkpoints_of keeper.new ≡ checkpoints_after calls (checkpoints_of keeper.old)) }
    ensures logs { logs_of keeper.new ≡ logs_of keeper.old }
    ensures stripes { keeper.new.stripes ≡ keeper.old.stripes }

    // A checkpoint that is sealed by these calls has as many stripes as the keeper.
    ensures seals { OnOk result
        (D.honest keeper.new.disk → keeper.new.sealed ≢ keeper.old.sealed
        → sealed_stripes D.states keeper.new ≡ keeper.old.stripes.count) }

    // Each call succeeds; or one fails, and it is the last.
    ensures counted { OnOk result (D.failures keeper.new.disk ≡ D.failures keeper.old.disk) }
    ensures err { IfErr result (λ refusal. (refusal ≡ Refusal.Failed)
        × (D.failures keeper.new.disk ≡ D.failures keeper.old.disk + 1)) }
{
    laws::stops_of_a_keeper(keeper);
    for _ in 0..calls {
        let _phase = checkpoint_walk::advance(keeper)?;
    }
    Ok(())
}

/// Captures the stripe whose section is the next, by TAKE, LOOK and GIVE. No other pass holds it.
fn capture<D: Disk>(
    keeper: &mut Keeper<D>,
    steps: &mut At<'_>,
    stripe: usize,
) -> Result<(), Refusal>
    requires unmoved { (o : Opening)
        × IsUnmovedWith D.states D.honest o keeper.old steps.old.pass
        steps.old.words.now }
    requires next { IsNextStripe stripe keeper.old.next keeper.old.checkpoint }

    // No call is made. The section is given, at the mark of the opening.
    ensures disk { keeper.new.disk ≡ keeper.old.disk }
    ensures unmoved { OnOk result
        ((o : Opening)
        → IsUnmovedWith D.states D.honest o keeper.old steps.old.pass
        steps.old.words.now
        → IsUnmovedWith D.states D.honest o keeper.new steps.new.pass
        steps.new.words.now) }
    ensures given { OnOk result
        ((o : Opening)
        → IsUnmovedWith D.states D.honest o keeper.old steps.old.pass
        steps.old.words.now
        → IsGivenAt o.first keeper.old.checkpoint keeper.new.checkpoint) }
    ensures same { keeper.new ≡ record keeper.old {
      checkpoint = keeper.new.checkpoint;
      capture = keeper.new.capture;
    } }

    // Refused: for want of memory, or if the stripe has too many entries.
    ensures err { IfErr result (λ refusal. (o : Opening)
        → IsUnmovedWith D.states D.honest o keeper.old steps.old.pass
        steps.old.words.now
        → IsSectionRefused keeper.old.stripes.count o.map refusal) }
{
    let _taken = capture_step(keeper, stripe, steps)?;
    let _looked = capture_step(keeper, stripe, steps)?;
    steps.keeps_one_history();
    let _given = capture_step(keeper, stripe, steps)?;
    Ok(())
}

/// Captures each stripe, and writes its section.
fn capture_all<D: Disk>(keeper: &mut Keeper<D>, steps: &mut At<'_>) -> Result<(), Refusal>
    requires begun { (o : Opening) × (generation : ℕ)
        × IsUnmovedWith D.states D.honest o keeper.old steps.old.pass steps.old.words.now
        × HasSections generation 0 o.first keeper.old.checkpoint }
    requires no_rotation { keeper.old.next ≡ None }

    // No stop loses what the opening found, and the checkpoint has all sections.
    ensures stands { (o : Opening)
        → IsUnmovedWith D.states D.honest o keeper.old steps.old.pass
        steps.old.words.now
        → StandsThroughout D.states D.honest o.first o.map keeper.old.disk keeper.new.disk }
    ensures unmoved { OnOk result
        ((o : Opening)
        → IsUnmovedWith D.states D.honest o keeper.old steps.old.pass
        steps.old.words.now
        → IsUnmovedWith D.states D.honest o keeper.new steps.new.pass
        steps.new.words.now) }
    ensures given { OnOk result
        ((o : Opening) (generation : ℕ)
        → IsUnmovedWith D.states D.honest o keeper.old steps.old.pass
        steps.old.words.now
        → HasSections generation 0 o.first keeper.old.checkpoint
        → HasSections generation keeper.new.stripes.count o.first keeper.new.checkpoint) }
    ensures sealed { OnOk result (keeper.new.sealed ≡ keeper.old.sealed) }
    ensures logs { logs_of keeper.new ≡ logs_of keeper.old }
    ensures stripes { keeper.new.stripes ≡ keeper.old.stripes }

    // Refused: after the one call that failed, or for a section.
    ensures counted { OnOk result (D.failures keeper.new.disk ≡ D.failures keeper.old.disk) }
    ensures unfailing { IfErr result (λ refusal. refusal ≢ Refusal.Failed
        → D.failures keeper.new.disk ≡ D.failures keeper.old.disk) }
    ensures err { IfErr result (λ refusal. (o : Opening)
        → IsUnmovedWith D.states D.honest o keeper.old steps.old.pass
        steps.old.words.now
        → IsCheckpointRefused (D.failures keeper.new.disk ≡ D.failures keeper.old.disk + 1)
        keeper.old.stripes.count o.map refusal) }
{
    laws::stops_of_a_keeper(keeper);
    for stripe in 0..keeper.stripes.get() {
        capture(keeper, steps, stripe)?;
        advance(keeper, SECTION_CALLS)?;
    }
    Ok(())
}

/// Takes the checkpoint that goes with the newest log, and seals it.
pub(crate) fn seal_checkpoint<D: Disk>(
    keeper: &mut Keeper<D>,
    steps: &mut At<'_>,
) -> Result<(), Refusal>
    // No change was made, and neither a rotation nor a checkpoint is begun.
    requires unmoved { (o : Opening)
        × IsUnmovedWith D.states D.honest o keeper.old steps.old.pass
        steps.old.words.now }
    requires none_runs { (keeper.old.next ≡ None) × (keeper.old.checkpoint ≡ None) }
    requires goes_with { keeper.old.log.generation ≢ keeper.old.sealed }

    // No stop loses what the opening found.
    ensures stands { (o : Opening)
        → IsUnmovedWith D.states D.honest o keeper.old steps.old.pass
        steps.old.words.now
        → StandsThroughout D.states D.honest o.first o.map keeper.old.disk keeper.new.disk }
    ensures unmoved { OnOk result
        ((o : Opening)
        → IsUnmovedWith D.states D.honest o keeper.old steps.old.pass
        steps.old.words.now
        → IsUnmovedWith D.states D.honest o keeper.new steps.new.pass
        steps.new.words.now) }

    // The next generation is sealed, for the keeper's stripes, and none is begun.
    ensures sealed { OnOk result
        ((keeper.new.sealed ≡ keeper.old.sealed + 1) × (keeper.new.checkpoint ≡ None)) }
    ensures stripes { OnOk result
        (D.honest keeper.new.disk
        → sealed_stripes D.states keeper.new ≡ keeper.old.stripes.count) }
    ensures logs { logs_of keeper.new ≡ logs_of keeper.old }

    // Refused: after the one call that failed, for a section, or since no generation follows.
    ensures counted { OnOk result (D.failures keeper.new.disk ≡ D.failures keeper.old.disk) }
    ensures unfailing { IfErr result (λ refusal. refusal ≢ Refusal.Failed
        → D.failures keeper.new.disk ≡ D.failures keeper.old.disk) }
    ensures err { IfErr result (λ refusal. (o : Opening)
        → IsUnmovedWith D.states D.honest o keeper.old steps.old.pass
        steps.old.words.now
        → IsCheckpointRefused (D.failures keeper.new.disk ≡ D.failures keeper.old.disk + 1)
        keeper.old.stripes.count o.map refusal
        ⊎ ((refusal ≡ Refusal.WrongPhase) × IsLastGeneration keeper.old.sealed)) }
{
    laws::stops_of_a_keeper(keeper);
    checkpoint_walk::begin(keeper)?;
    advance(keeper, HEAD_CALLS)?;
    capture_all(keeper, steps)?;
    checkpoint_walk::seal(keeper)?;
    advance(keeper, SEALING_CALLS)
}
