//! What commits calls that were begun, and gives their replies out.
ghost use Rattle.std.specs.Prelude.{◌≡◌, ◌≢◌, ◌≤◌, IfOk, IfErr, OnOk, OnErr, None, false, true};
ghost use Rattle.ticket_order.specs.StepRules.{IsOfSamePass};
ghost use Rattle.gate_log.specs.States.{IsResting, log_after};
ghost use Rattle.flusher.specs.Fitting.{HasSeenMore, IsQuiet};
ghost use Rattle.cmd_mem.specs.Served.{AreTaken, CannotCommit, IsCommitted, IsGivenOut, IsIdle, IsWithheld};

use disk_model::Disk;
use gate_log::Phase;
use journal::{Journal, laws};
use map_types::{Refusal, Reply};
use std::sync::Wait;
use ticket_order::{Held, Position, Released, Steps};

/// The longest batch.
const MOST_COMMANDS: u32 = 65_536;

/// Makes the device call that is due in the log.
fn advance<D: Disk, S: Steps>(journal: &mut Journal<D, S>) -> Result<(), Refusal>
    // Nothing has failed, no log follows, and a call is due.
    requires working { journal.old.keeper.is_broken ≡ false }
    requires alone { journal.old.keeper.next ≡ None }
    requires due { journal.old.keeper.log.phase ≢ Phase.Idle }

    // The log goes on by that call, or has failed.
    ensures ok { OnOk result ((journal.new.keeper.log
        ≡ log_after journal.old.keeper.log.phase journal.old.keeper.log)
        × (journal.new.keeper.is_broken ≡ false)) }
    ensures err { OnErr result (journal.new.keeper.log.is_broken ≡ true) }

    // Still no log follows; the note of a FAIL stays, and no step is made.
    ensures alone { journal.new.keeper.next ≡ None }
    ensures has_failed { journal.new.keeper.has_failed ≡ journal.old.keeper.has_failed }
    ensures pass { journal.new.steps ≡ journal.old.steps }
{
    let _phase = journal.advance()?;
    Ok(())
}

/// Makes the four device calls of the batch that is staged.
fn commit_staged<D: Disk, S: Steps>(journal: &mut Journal<D, S>) -> Result<(), Refusal>
    // A batch is staged, and nothing has failed.
    requires staged { journal.old.keeper.log.phase ≡ Phase.Staged }
    requires ends { journal.old.keeper.log.ending ≡ None }
    requires working { journal.old.keeper.is_broken ≡ false }
    requires alone { journal.old.keeper.next ≡ None }

    // The log rests again, or has failed.
    ensures ok { OnOk result (IsResting journal.new.keeper.log
        × (journal.new.keeper.is_broken ≡ false)) }
    ensures err { OnErr result (journal.new.keeper.log.is_broken ≡ true) }

    // Still no log follows; the note of a FAIL stays, and no step is made.
    ensures alone { journal.new.keeper.next ≡ None }
    ensures has_failed { journal.new.keeper.has_failed ≡ journal.old.keeper.has_failed }
    ensures pass { journal.new.steps ≡ journal.old.steps }
{
    advance(journal)?;
    advance(journal)?;
    advance(journal)?;
    advance(journal)
}

/// Commits the longest batch of what is in hand. If there is none, or no memory is found, nothing
/// is committed.
fn commit_some<D: Disk, S: Steps>(journal: &mut Journal<D, S>) -> Result<(), Refusal>
    // The keeper rests between two commits.
    requires idle { IsIdle journal.old.keeper }

    // It rests so again, or the log can take no further batch.
    ensures ok { OnOk result (IsIdle journal.new.keeper) }
    ensures err { OnErr result
        (CannotCommit journal.new.keeper.log (S.recorded journal.new.steps)) }
    ensures pass { journal.new.steps ≡ journal.old.steps }
{
    laws::runs_were_taken(journal);
    match journal.stage_batch(MOST_COMMANDS) {
        Ok(count) => {
            if count == 0 {
                return Ok(());
            }
            commit_staged(journal)
        }
        Err(refusal) => {
            if refusal == Refusal::NoMemory {
                return Ok(());
            }
            Err(refusal)
        }
    }
}

/// Sweeps and commits until all tickets below the position are committed.
fn commit_in_time<D: Disk, S: Steps, R: Wait>(
    rt: &R,
    journal: &mut Journal<D, S>,
    position: Position,
) -> Result<(), Refusal>
    // The keeper rests between two commits.
    requires idle { IsIdle journal.old.keeper }

    // All below the position is committed, or the log can take no more.
    ensures ok { OnOk result (IsIdle journal.new.keeper
        × (position ≤ journal.new.keeper.log.committed)) }
    ensures err { OnErr result
        (CannotCommit journal.new.keeper.log (S.recorded journal.new.steps)) }

    // Calls, the published count and failure stay, in the same pass.
    ensures quiet { IsQuiet (S.recorded journal.old.steps) (S.recorded journal.new.steps) }
    ensures seen { HasSeenMore (S.recorded journal.old.steps) (S.recorded journal.new.steps) }
    ensures pass { IsOfSamePass S.place S.stripe_count journal.old.steps journal.new.steps }
{
    for _turn in rt.forever() {
        if position.number() <= journal.keeper().committed() {
            return Ok(());
        }
        let _swept = journal.sweep(rt);
        commit_some(journal)?;
    }
    unreachable!()
}

/// Commits all tickets below the position, and publishes them. If they can't be committed, the
/// pass makes a FAIL.
fn make_durable<D: Disk, S: Steps, R: Wait>(
    rt: &R,
    journal: &mut Journal<D, S>,
    position: Position,
) -> Result<(), Refusal>
    // The keeper rests between two commits.
    requires idle { IsIdle journal.old.keeper }

    // All below the position was swept, is committed and is published.
    ensures ok { OnOk result (IsIdle journal.new.keeper
        × IsCommitted position (S.recorded journal.old.steps) (S.recorded journal.new.steps)
        journal.new.keeper.log) }
    ensures taken { OnOk result (AreTaken position (S.recorded journal.old.steps)
        (S.recorded journal.new.steps)) }

    // Or it can't be committed, and a FAIL was made.
    ensures err { IfErr result (λ refusal. (refusal ≡ Refusal.Failed)
        × IsWithheld (S.recorded journal.old.steps) (S.recorded journal.new.steps)
        journal.new.keeper.log) }
    ensures pass { IsOfSamePass S.place S.stripe_count journal.old.steps journal.new.steps }
{
    match commit_in_time(rt, journal, position) {
        Ok(()) => {
            laws::journals_rest(journal);
            laws::committed_were_taken(journal);
            journal.publish();
            Ok(())
        }
        Err(_refusal) => {
            journal.fail();
            Err(Refusal::Failed)
        }
    }
}

/// Gives the reply of a call that was made out, once its position is committed and published: a SEE
/// finds no less than what its own pass has published.
pub(crate) fn give_out<D: Disk, S: Steps, R: Wait>(
    rt: &R,
    journal: &mut Journal<D, S>,
    held: Held,
) -> Result<Reply, Refusal>
    // The keeper rests between two commits.
    requires idle { IsIdle journal.old.keeper }

    // The reply is given out, once its position is committed and durable.
    ensures ok { IfOk result (λ reply. (reply ≡ held.reply) × IsIdle journal.new.keeper
        × IsGivenOut held.position (S.recorded journal.old.steps)
        (S.recorded journal.new.steps) journal.new.keeper.log) }

    // Or the position can't be committed, and a FAIL was made.
    ensures err { IfErr result (λ refusal. (refusal ≡ Refusal.Failed)
        × IsWithheld (S.recorded journal.old.steps) (S.recorded journal.new.steps)
        journal.new.keeper.log) }
    ensures pass { IsOfSamePass S.place S.stripe_count journal.old.steps journal.new.steps }
{
    make_durable(rt, journal, held.position())?;
    match journal.release(held) {
        Released::Reply(_, reply) => Ok(reply),
        Released::NotYet(_) | Released::Failed => unreachable!(),
    }
}
