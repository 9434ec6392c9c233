//! Captures, step by step or whole.
ghost use Rattle.std.specs.Prelude.{◌≡◌, ◌≢◌, ◌⊎◌, ◌↔◌, ℕ, List, None, Some, false, true, IfErr, IfOk};
ghost use Rattle.map_types.specs.declared.commands.Command.{Command};
ghost use Rattle.flusher.specs.Fitting.{Fits, FitsOn, IsKept};
ghost use Rattle.flusher.specs.KeeperSteps.{is_walking};
ghost use Rattle.disk_model.specs.Files.{now};
ghost use Rattle.store_layout.specs.Checkpoints.{Section};
ghost use Rattle.ticket_order.specs.Legality.{history_of};
ghost use Rattle.checkpoint_walk.specs.Checkpointing.{HasGiven, IsNextStripe};
ghost use Rattle.ticket_order.specs.declared.record.Record.{Record};
ghost use Rattle.ticket_order.specs.declared.walk.Walk.{Walk as TheWalk};
ghost use Rattle.ticket_order.specs.StepRules.{IsOfSamePass};
ghost use Rattle.ticket_order.specs.Walks.{MakesOne, Take, next_kind};
ghost use Rattle.checkpoint_walk.specs.Capturing.{HasLooked, HasTaken, IsCauseOf};
ghost use Rattle.checkpoint_walk.specs.Walking.{AfterRefusal, AfterStep, AfterTake, AfterWaiting, AfterWalk, FitsWalking, GivesPart, GivesPartIn, GivesSection, GivesWaiting, kind_next};

use crate::capturing::{hold, look};
use crate::sections::{check, give};
use disk_model::Disk;
use flusher::{Keeper, laws as keeper_laws};
use map_types::Refusal;
use std::mem;
use std::sync::Wait;
use store_invariant::laws as store_laws;
use ticket_order::{Stepped, Steps, Walk};

/// Makes exactly one step of a capture: TAKE of the stripe whose section is the next, LOOK, or
/// GIVE. With its GIVE the section is given to the checkpoint, and its mark is returned. Before its
/// first step it may be refused, with `Failed` or `WrongPhase`, and makes no step then. After any
/// other refusal the capture is over. A capture that is under way goes on, whatever stripe is
/// named.
pub fn capture_step<D: Disk, S: Steps>(
    keeper: &mut Keeper<D>,
    stripe: usize,
    steps: &mut S,
) -> Result<Option<u64>, Refusal>
    // The invariant holds, or a capture runs; no sweep is between its steps.
    requires fits { (done : List Command)
        × FitsWalking D.states D.honest (S.stripe_count steps.old) done keeper.old
        (S.recorded steps.old) }
    requires rests { is_walking keeper.old.sweeper.walking ≡ false }

    // Refused at its start: after a failure, or the stripe isn't next. All stays.
    ensures failed { (result ≡ Err Refusal.Failed)
        ↔ ((keeper.old.capture ≡ None) × (keeper.old.is_broken ≡ true)) }
    ensures wrong_phase { (result ≡ Err Refusal.WrongPhase)
        ↔ ((keeper.old.capture ≡ None) × (keeper.old.is_broken ≡ false)
        × (IsNextStripe stripe keeper.old.next keeper.old.checkpoint → ⊥)) }
    ensures first { ((result ≡ Err Refusal.Failed) ⊎ (result ≡ Err Refusal.WrongPhase))
        → (steps.new ≡ steps.old) × (keeper.new ≡ keeper.old) }

    // Else exactly one step: the next of the capture, with what that leaves.
    ensures one { (result ≢ Err Refusal.Failed) → (result ≢ Err Refusal.WrongPhase)
        → MakesOne S.recorded S.moves
        (kind_next (S.stripe_count steps.old) stripe keeper.old.capture) steps.old steps.new }
    ensures after { AfterStep (S.stripe_count steps.old) stripe keeper.old.capture keeper.old
        keeper.new (S.recorded steps.old) (S.recorded steps.new) result }
    ensures cause { (walk : TheWalk) → keeper.old.capture ≡ Some walk
        → IfErr result (IsCauseOf walk) }

    // At its end the checkpoint has the stripe's part as its next section.
    ensures given { (done : List Command) (sections : List Section)
        → FitsWalking D.states D.honest (S.stripe_count steps.old) done keeper.old
        (S.recorded steps.old) → D.honest keeper.old.disk
        → HasGiven keeper.old.checkpoint sections (now (D.states keeper.old.disk))
        → GivesPartIn D.states (S.stripe_count steps.old) (history_of (S.recorded steps.new)) result
        sections keeper.new }

    // That holds again, in the same pass over as many stripes.
    ensures fits { (done : List Command)
        → FitsWalking D.states D.honest (S.stripe_count steps.old) done keeper.old
        (S.recorded steps.old)
        → FitsWalking D.states D.honest (S.stripe_count steps.new) done keeper.new
        (S.recorded steps.new) }
    ensures pass { IsOfSamePass S.place S.stripe_count steps.old steps.new }
{
    store_laws::steps_of_checkpoints();
    keeper_laws::pass_goes_on(keeper);
    match keeper.capture.take() {
        Some(walk) => go_on(keeper, walk, steps),
        None => take(keeper, stripe, steps),
    }
}

/// The walk of a capture is under way, where none was.
fn go_under_way<D: Disk>(keeper: &mut Keeper<D>, walk: Walk)
    ensures { keeper.new ≡ record keeper.old { capture = Some walk } }
{
    drop(mem::replace(&mut keeper.capture, Some(walk)));
}

/// The first step.
fn take<D: Disk, S: Steps>(
    keeper: &mut Keeper<D>,
    stripe: usize,
    steps: &mut S,
) -> Result<Option<u64>, Refusal>
    // The invariant holds; no sweep is between steps, no capture under way.
    requires fits { IsKept D.states D.honest (S.stripe_count steps.old) keeper.old
        (S.recorded steps.old) }
    requires rests { is_walking keeper.old.sweeper.walking ≡ false }
    requires over { keeper.old.capture ≡ None }

    // Refused: after a failure, or if the stripe isn't next; nothing changes.
    ensures failed { (result ≡ Err Refusal.Failed) ↔ (keeper.old.is_broken ≡ true) }
    ensures wrong_phase { (result ≡ Err Refusal.WrongPhase)
        ↔ ((keeper.old.is_broken ≡ false)
        × (IsNextStripe stripe keeper.old.next keeper.old.checkpoint → ⊥)) }
    ensures first { ((result ≡ Err Refusal.Failed) ⊎ (result ≡ Err Refusal.WrongPhase))
        → (steps.new ≡ steps.old) × (keeper.new ≡ keeper.old) }

    // Else one step, a TAKE: the stripe is held now, or another holds it.
    ensures one { (result ≢ Err Refusal.Failed) → (result ≢ Err Refusal.WrongPhase)
        → MakesOne S.recorded S.moves (Take stripe) steps.old steps.new }
    ensures after { AfterTake (S.stripe_count steps.old) stripe keeper.old keeper.new
        (S.recorded steps.old) (S.recorded steps.new) result }

    // The invariant goes on, in the same pass over as many stripes.
    ensures fits { (done : List Command)
        → Fits D.states D.honest (S.stripe_count steps.old) done keeper.old (S.recorded steps.old)
        → FitsWalking D.states D.honest (S.stripe_count steps.new) done keeper.new
        (S.recorded steps.new) }
    ensures pass { IsOfSamePass S.place S.stripe_count steps.old steps.new }
{
    keeper_laws::pass_goes_on(keeper);
    match check(keeper, stripe) {
        Ok(()) => {}
        Err(refusal) => return Err(refusal),
    }
    match hold(stripe, steps) {
        Some(walk) => {
            go_under_way(keeper, walk);
            Ok(None)
        }
        None => Err(Refusal::Busy { stripe }),
    }
}

/// LOOK or GIVE.
fn go_on<D: Disk, S: Steps>(
    keeper: &mut Keeper<D>,
    walk: Walk,
    steps: &mut S,
) -> Result<Option<u64>, Refusal>
    // A section is awaited; the walk has made its TAKE, perhaps its LOOK.
    requires next { (stripe : ℕ) × IsNextStripe stripe keeper.old.next keeper.old.checkpoint }
    requires walked { (b : Record) × (i : ℕ)
        × (HasTaken (S.stripe_count steps.old) b i walk (S.recorded steps.old)
        ⊎ HasLooked (S.stripe_count steps.old) b i walk (S.recorded steps.old)) }
    requires over { keeper.old.capture ≡ None }

    // One step: a LOOK, or the GIVE that gives the section or is refused.
    ensures one { MakesOne S.recorded S.moves (next_kind (S.stripe_count steps.old) walk) steps.old
        steps.new }
    ensures after { AfterWalk (S.stripe_count steps.old) walk keeper.old keeper.new
        (S.recorded steps.old) (S.recorded steps.new) result }
    ensures cause { IfErr result (IsCauseOf walk) }

    // It is the same pass, over as many stripes.
    ensures pass { IsOfSamePass S.place S.stripe_count steps.old steps.new }
{
    let has_looked = walk.captured().is_some();
    if has_looked {
        return match give(keeper, walk, steps) {
            Ok(mark) => Ok(Some(mark)),
            Err(refusal) => Err(refusal),
        };
    }
    match walk.step(steps) {
        Stepped::More(walk) => {
            go_under_way(keeper, walk);
            Ok(None)
        }
        Stepped::Refused(refusal) => Err(refusal),
        Stepped::Held(_) | Stepped::Released(_) | Stepped::Swept(_) | Stepped::Captured(_) =>
            unreachable!(),
    }
}

/// Captures the stripe whose section is the next, by TAKE, LOOK and GIVE. It gives the section to
/// the checkpoint, and returns its mark. It doesn't wait for a stripe that another holds.
pub fn try_capture<D: Disk, S: Steps>(
    keeper: &mut Keeper<D>,
    stripe: usize,
    steps: &mut S,
) -> Result<u64, Refusal>
    // The invariant holds; no sweep is between steps, no capture under way.
    requires fits { IsKept D.states D.honest (S.stripe_count steps.old) keeper.old
        (S.recorded steps.old) }
    requires rests { is_walking keeper.old.sweeper.walking ≡ false }
    requires over { keeper.old.capture ≡ None }

    // Refused: after a failure, or if the stripe isn't next; nothing changes.
    ensures failed { (result ≡ Err Refusal.Failed) ↔ (keeper.old.is_broken ≡ true) }
    ensures wrong_phase { (result ≡ Err Refusal.WrongPhase)
        ↔ ((keeper.old.is_broken ≡ false)
        × (IsNextStripe stripe keeper.old.next keeper.old.checkpoint → ⊥)) }
    ensures first { ((result ≡ Err Refusal.Failed) ⊎ (result ≡ Err Refusal.WrongPhase))
        → (steps.new ≡ steps.old) × (keeper.new ≡ keeper.old) }

    // Else the section is given; or another has the stripe, or it is put back.
    ensures ok { IfOk result (λ mark.
        GivesSection (S.stripe_count steps.old) (S.recorded steps.old) stripe mark keeper.old
        keeper.new (S.recorded steps.new)) }
    ensures err { IfErr result (λ refusal.
        AfterRefusal stripe keeper.old keeper.new (S.recorded steps.old) (S.recorded steps.new)
        refusal) }

    // The section is the stripe's part of the map after `mark` commands.
    ensures given { (done : List Command) (sections : List Section)
        → Fits D.states D.honest (S.stripe_count steps.old) done keeper.old (S.recorded steps.old)
        → D.honest keeper.old.disk
        → HasGiven keeper.old.checkpoint sections (now (D.states keeper.old.disk))
        → IfOk result (λ mark.
        GivesPart D.states (S.stripe_count steps.old) (history_of (S.recorded steps.new)) mark
        sections keeper.new) }

    // The invariant goes on, in the same pass over as many stripes.
    ensures fits { FitsOn D.states D.honest S.stripe_count S.recorded keeper.old steps.old
        keeper.new steps.new }
    ensures pass { IsOfSamePass S.place S.stripe_count steps.old steps.new }
{
    store_laws::steps_of_checkpoints();
    keeper_laws::pass_goes_on(keeper);
    match check(keeper, stripe) {
        Ok(()) => {}
        Err(refusal) => return Err(refusal),
    }
    let Some(walk) = hold(stripe, steps) else {
        return Err(Refusal::Busy { stripe });
    };
    let walk = look(walk, steps);
    give(keeper, walk, steps)
}

/// The same, and tries a stripe that another holds again until it is free.
pub fn capture<D: Disk, R: Wait, S: Steps>(
    keeper: &mut Keeper<D>,
    rt: &R,
    stripe: usize,
    steps: &mut S,
) -> Result<u64, Refusal>
    // The invariant holds; no sweep is between steps, no capture under way.
    requires fits { IsKept D.states D.honest (S.stripe_count steps.old) keeper.old
        (S.recorded steps.old) }
    requires rests { is_walking keeper.old.sweeper.walking ≡ false }
    requires over { keeper.old.capture ≡ None }

    // Refused: after a failure, or if the stripe isn't next; nothing changes.
    ensures failed { (result ≡ Err Refusal.Failed) ↔ (keeper.old.is_broken ≡ true) }
    ensures wrong_phase { (result ≡ Err Refusal.WrongPhase)
        ↔ ((keeper.old.is_broken ≡ false)
        × (IsNextStripe stripe keeper.old.next keeper.old.checkpoint → ⊥)) }
    ensures first { ((result ≡ Err Refusal.Failed) ⊎ (result ≡ Err Refusal.WrongPhase))
        → (steps.new ≡ steps.old) × (keeper.new ≡ keeper.old) }

    // Else, after a wait, the section is given, or the stripe is put back.
    ensures ok { IfOk result (λ mark.
        GivesWaiting (S.stripe_count steps.old) (S.recorded steps.old) stripe mark keeper.old
        keeper.new (S.recorded steps.new)) }
    ensures err { IfErr result (λ refusal.
        AfterWaiting stripe keeper.old keeper.new (S.recorded steps.old) (S.recorded steps.new)
        refusal) }

    // The section is the stripe's part of the map after `mark` commands.
    ensures given { (done : List Command) (sections : List Section)
        → Fits D.states D.honest (S.stripe_count steps.old) done keeper.old (S.recorded steps.old)
        → D.honest keeper.old.disk
        → HasGiven keeper.old.checkpoint sections (now (D.states keeper.old.disk))
        → IfOk result (λ mark.
        GivesPart D.states (S.stripe_count steps.old) (history_of (S.recorded steps.new)) mark
        sections keeper.new) }

    // The invariant goes on, in the same pass over as many stripes.
    ensures fits { FitsOn D.states D.honest S.stripe_count S.recorded keeper.old steps.old
        keeper.new steps.new }
    ensures pass { IsOfSamePass S.place S.stripe_count steps.old steps.new }
{
    for _try in rt.forever() {
        match try_capture(keeper, stripe, steps) {
            Ok(mark) => return Ok(mark),
            Err(refusal) => match refusal {
                Refusal::Busy { .. } => {}
                refusal => return Err(refusal),
            },
        }
    }
    unreachable!()
}
