//! What holds of every journal between two of its calls.
ghost use Rattle.std.specs.Prelude.{◌≡◌, ◌<◌, List};
ghost use Rattle.std.specs.List.{Contains};
ghost use Rattle.disk_model.specs.Files.{now};
ghost use Rattle.map_types.specs.declared.commands.Command.{Command};
ghost use Rattle.ticket_order.specs.declared.stripe.Entry.{Entry};
ghost use Rattle.ticket_order.specs.Legality.{entries_from, history_of};
ghost use Rattle.store_layout.specs.Hands.{IsRun};
ghost use Rattle.flusher.specs.Fitting.{Fits, IsTakenFront, StopsFit, WereTaken};
ghost use Rattle.journal.specs.Journals.{Rests};

use crate::owner::Journal;
use disk_model::Disk;
use flusher::laws;
use ticket_order::Steps;

/// A journal's keeper fits its files and the record of its pass, and neither sweeps nor captures.
pub fn journals_rest<D: Disk, S: Steps>(journal: &Journal<D, S>)
    ensures { Rests D.states D.honest S.stripe_count S.recorded journal.now.keeper
        journal.now.steps }
{
    let _keeper = &journal.keeper;
}

/// Whatever a stop leaves of the four files stands for a front of the history that the pass has seen.
/// That front has the committed commands, and no more than the staged ones besides.
pub fn stops_of_a_journal<D: Disk, S: Steps>(journal: &Journal<D, S>)
    ensures { D.honest journal.now.keeper.disk
        → StopsFit (history_of (S.recorded journal.now.steps)) journal.now.keeper
        (now (D.states journal.now.keeper.disk)) }
{
    laws::stops_of_a_keeper(&journal.keeper);
}

/// What is committed was taken by the sweeps of the pass, ticket by ticket, and is the front of the
/// one history.
pub fn committed_were_taken<D: Disk, S: Steps>(journal: &Journal<D, S>)
    ensures front { (done : List Command) → Fits D.states D.honest
        (S.stripe_count journal.now.steps) done journal.now.keeper (S.recorded journal.now.steps)
        → IsTakenFront done journal.now.keeper.log.committed (S.recorded journal.now.steps) }
    ensures each { (e : Entry)
        → Contains (entries_from (S.recorded journal.now.steps).opening.first
        (S.recorded journal.now.steps).seen) e → e.ticket < journal.now.keeper.log.committed
        → Contains (S.recorded journal.now.steps).taken e }
{
    laws::committed_were_taken(&journal.keeper);
}

/// What is in hand begins at the committed count, and was taken by the sweeps of the pass.
pub fn runs_were_taken<D: Disk, S: Steps>(journal: &Journal<D, S>)
    ensures next { journal.now.keeper.sweeper.in_hand.next ≡ journal.now.keeper.log.committed }
    ensures taken { (commands : List Command)
        → IsRun journal.now.keeper.sweeper.in_hand commands
        → WereTaken journal.now.keeper.log.committed commands (S.recorded journal.now.steps) }
{
    laws::runs_were_taken(&journal.keeper);
}
