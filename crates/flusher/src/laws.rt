//! What holds of every keeper between its calls.
ghost use Rattle.std.specs.Prelude.{◌≡◌, ◌<◌, ℕ, List, None, false};
ghost use Rattle.std.specs.List.{Contains};
ghost use Rattle.map_types.specs.declared.commands.Command.{Command};
ghost use Rattle.ticket_order.specs.declared.record.Record.{Record};
ghost use Rattle.ticket_order.specs.declared.stripe.Entry.{Entry};
ghost use Rattle.ticket_order.specs.Legality.{entries_from, history_of};
ghost use Rattle.disk_model.specs.Files.{now};
ghost use Rattle.flusher.specs.Fitting.{Fits, IsBeside, IsTakenFront, StopsFit, WereTaken};
ghost use Rattle.store_layout.specs.Hands.{IsRun};
ghost use Rattle.flusher.specs.KeeperSteps.{is_walking};

use crate::keeper::Keeper;
use disk_model::Disk;
use store_invariant::laws as store_laws;
use store_layout::laws as layout_laws;

/// Whatever a stop leaves of the four files stands for a front of the history that the keeper's
/// pass has seen. That front has the committed commands, and no more than the staged ones besides,
/// also after a device call has failed.
pub fn stops_of_a_keeper<D: Disk>(_keeper: &Keeper<D>)
    ensures { (n : ℕ) (done : List Command) (p : Record)
        → Fits D.states D.honest n done _keeper.now p → D.honest _keeper.now.disk
        → StopsFit (history_of p) _keeper.now (now (D.states _keeper.now.disk)) }
{
    store_laws::stops_of_a_store();
}

/// What is committed was taken by the sweeps of the keeper's pass, ticket by ticket. It is the
/// front of the one history from the pass's opening on: each entry of the history below the
/// committed count was taken.
pub fn committed_were_taken<D: Disk>(_keeper: &Keeper<D>)
    ensures front { (n : ℕ) (done : List Command) (p : Record)
        → Fits D.states D.honest n done _keeper.now p
        → IsTakenFront done _keeper.now.log.committed p }
    ensures each { (n : ℕ) (done : List Command) (p : Record)
        → Fits D.states D.honest n done _keeper.now p → (e : Entry)
        → Contains (entries_from p.opening.first p.seen) e → e.ticket < _keeper.now.log.committed
        → Contains p.taken e }
{}

/// What is in hand was taken by the sweeps of the keeper's pass, and so was what may be the next batch.
pub fn runs_were_taken<D: Disk>(_keeper: &Keeper<D>)
    ensures { (n : ℕ) (done : List Command) (p : Record)
        → Fits D.states D.honest n done _keeper.now p → (commands : List Command)
        → IsRun _keeper.now.sweeper.in_hand commands
        → WereTaken _keeper.now.log.committed commands p }
{}

/// Between its walks the keeper's pass holds no stripe, and may make calls and releases of its own.
pub fn pass_goes_on<D: Disk>(_keeper: &Keeper<D>)
    ensures free { (n : ℕ) (done : List Command) (p : Record)
        → Fits D.states D.honest n done _keeper.now p
        → is_walking _keeper.now.sweeper.walking ≡ false → p.holding ≡ None }
    ensures fits { (n : ℕ) (done : List Command) (p : Record)
        → Fits D.states D.honest n done _keeper.now p
        → is_walking _keeper.now.sweeper.walking ≡ false → (w : Record) → IsBeside p w
        → w.holding ≡ None → Fits D.states D.honest n done _keeper.now w }
{
    store_laws::beginnings_of_stores();
    layout_laws::laws_of_found();
}
