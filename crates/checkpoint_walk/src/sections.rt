//! The sections of a checkpoint, captured one after another.
ghost use Rattle.std.specs.Prelude.{◌≡◌, ◌⊎◌, ◌↔◌, ℕ, None, true, false, IfErr, IfOk, OnErr, OnOk};
ghost use Rattle.std.specs.FinMap as finite;
ghost use Rattle.ticket_order.specs.declared.record.Record.{Record};
ghost use Rattle.ticket_order.specs.StepRules.{IsOfSamePass};
ghost use Rattle.ticket_order.specs.Walks.{Give, MakesOne};
ghost use Rattle.checkpoint_file.specs.States.{TakesSection, with_section};
ghost use Rattle.checkpoint_walk.specs.Capturing.{HasLooked, IsCauseOf, IsStaged, StandsWith};
ghost use Rattle.checkpoint_walk.specs.Checkpointing.{IsNextStripe};
ghost use Rattle.checkpoint_walk.specs.Walking.{GivesSection, PutsBack};

use crate::capturing::hand_out;
use atomic_methods::Part;
use checkpoint_file::{CheckpointPhase, CheckpointWriter};
use disk_model::Disk;
use flusher::Keeper;
use map_types::Refusal;
use std::alloc::Global;
use ticket_order::{Steps, Walk};

/// Whether the section of this stripe is the next.
pub(crate) fn is_next<D: Disk>(keeper: &Keeper<D>, stripe: usize) -> bool
    ensures { (result ≡ true) ↔ IsNextStripe stripe keeper.now.next keeper.now.checkpoint }
{
    let Some(writer) = &keeper.checkpoint else {
        return false;
    };
    keeper.next.is_none()
        && writer.phase() == CheckpointPhase::Ready
        && (writer.count() as usize) < writer.stripes().get()
        && writer.count() as usize == stripe
}

/// The refusals that come before the first step of a capture.
pub(crate) fn check<D: Disk>(keeper: &Keeper<D>, stripe: usize) -> Result<(), Refusal>
    ensures failed { (result ≡ Err Refusal.Failed) ↔ (keeper.now.is_broken ≡ true) }
    ensures wrong_phase { (result ≡ Err Refusal.WrongPhase)
        ↔ ((keeper.now.is_broken ≡ false)
        × (IsNextStripe stripe keeper.now.next keeper.now.checkpoint → ⊥)) }
    ensures ok { OnOk result
        ((keeper.now.is_broken ≡ false)
        × IsNextStripe stripe keeper.now.next keeper.now.checkpoint) }
    ensures no_other { IfErr result (λ refusal. (refusal ≡ Refusal.Failed)
        ⊎ (refusal ≡ Refusal.WrongPhase)) }
{
    if keeper.is_broken {
        return Err(Refusal::Failed);
    }
    if !is_next(keeper, stripe) {
        return Err(Refusal::WrongPhase);
    }
    Ok(())
}

/// Gives the part to the checkpoint as the section of the next stripe, with this mark. No key and no
/// value is copied but into the bytes of the section.
fn stage_part(
    alloc: Global,
    writer: &mut CheckpointWriter,
    mark: u64,
    part: &Part,
) -> Result<(), Refusal>
    requires { TakesSection writer.old }
    ensures ok { OnOk result
        ((writer.new ≡ with_section mark (finite.entries part.now.map) writer.old)
        × StandsWith writer.old mark (finite.entries part.now.map)) }
    ensures err { OnErr result (writer.new ≡ writer.old) }
{
    let entries = part.lent_sorted(alloc)?;
    writer.section(mark, &entries)
}

/// Gives the part that the walk holds to the checkpoint. If no memory is found for that, the walk puts
/// the stripe back.
fn stage(alloc: Global, writer: &mut CheckpointWriter, walk: Walk) -> Walk
    requires section { TakesSection writer.old }
    requires looked { (n : ℕ) × (b : Record) × (i : ℕ) × (p : Record) × HasLooked n b i walk p }
    ensures { IsStaged writer.old writer.new walk result }
{
    let staged = match walk.captured() {
        Some((captured, part)) => stage_part(alloc, writer, captured.mark, part),
        None => return walk,
    };
    match staged {
        Ok(()) => walk,
        Err(_) => walk.give_back(),
    }
}

/// The section of the stripe is given to the checkpoint, and then GIVE; or the stripe is put back.
pub(crate) fn give<D: Disk, S: Steps>(
    keeper: &mut Keeper<D>,
    walk: Walk,
    steps: &mut S,
) -> Result<u64, Refusal>
    // A section is awaited, and the walk of its capture has looked.
    requires next { (stripe : ℕ) × IsNextStripe stripe keeper.old.next keeper.old.checkpoint }
    requires looked { (b : Record) × (i : ℕ)
        × HasLooked (S.stripe_count steps.old) b i walk (S.recorded steps.old) }
    requires over { keeper.old.capture ≡ None }

    // One step is made, a GIVE of that stripe.
    ensures one { (b : Record) (i : ℕ)
        → HasLooked (S.stripe_count steps.old) b i walk (S.recorded steps.old)
        → MakesOne S.recorded S.moves (Give i) steps.old steps.new }

    // The section is given with its mark, or the stripe is put back.
    ensures given { IfOk result (λ mark. (b : Record) (i : ℕ)
        → HasLooked (S.stripe_count steps.old) b i walk (S.recorded steps.old)
        → GivesSection (S.stripe_count steps.old) b i mark keeper.old keeper.new
        (S.recorded steps.new)) }
    ensures back { IfErr result (λ refusal. (b : Record) (i : ℕ)
        → HasLooked (S.stripe_count steps.old) b i walk (S.recorded steps.old)
        → PutsBack b i refusal keeper.old keeper.new (S.recorded steps.new)) }
    ensures cause { IfErr result (IsCauseOf walk) }

    // It is the same pass, over as many stripes.
    ensures pass { IsOfSamePass S.place S.stripe_count steps.old steps.new }
{
    let alloc = keeper.alloc;
    let Some(writer) = &mut keeper.checkpoint else {
        unreachable!()
    };
    let walk = stage(alloc, writer, walk);
    match hand_out(walk, steps) {
        Ok(captured) => Ok(captured.mark),
        Err(refusal) => Err(refusal),
    }
}
