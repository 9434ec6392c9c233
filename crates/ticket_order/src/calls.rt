//! Whole calls of one pass, which don't wait. They make the steps that their walks make.
ghost use Rattle.std.specs.Prelude.{◌≡◌, None, Err, IfOk, IfErr, OnOk, OnErr, false};
ghost use Rattle.atomic_methods.specs.PartState.{HasGrown};
ghost use Rattle.java_hash.specs.Hash.{hash_of, spread_of};
ghost use Rattle.java_hash.specs.Stripes.{stripe_of};
ghost use Rattle.ticket_order.specs.declared.record.Record.{Record};
ghost use Rattle.ticket_order.specs.Records.{IsWithin, giving, past};
ghost use Rattle.ticket_order.specs.StepRules.{IsOfSamePass, Rises, TakesStripe};
ghost use Rattle.ticket_order.specs.Calls.{FindsAlive, GivesBack, HasFound, IsNotBusy, LeavesRead, MakesCall, MakesRead, ReadsAt, RefusesChange, RefusesRead, Releases, TurnsDown};
ghost use Rattle.ticket_order.specs.Walks.{ToChange, FitsChange, HasContent};

use crate::change_walk::{ChangeStage, NewChange, TICKET_LIMIT};
use crate::held::{Held, Released};
use crate::record::Purpose;
use crate::steps::Steps;
use crate::stripe::Stripe;
use crate::walk::Taken;
use atomic_methods::Prepared;
use java_hash::{spread_of, stripe_of_spread};
use map_types::{Command, Read, Refusal};
use std::alloc::Global;

/// Makes a change: TAKE, ALIVE, LOOK, TICKET, GIVE. It is refused with `KeyTooLong` before its TAKE
/// if the key is above the limit. It is refused with `Busy` if the TAKE found the stripe of the key
/// held, and with `Failed` if the ALIVE said no. It is refused with `TicketsSpent` if the LOOK found
/// 2^62 or more, and with `NoMemory` if memory for the change was refused. If it is refused, no
/// ticket is drawn.
pub fn try_call<S: Steps>(steps: &mut S, alloc: Global, command: Command) -> Result<Held, Refusal>
    requires { (S.recorded steps.old).holding ≡ None }
    ensures made { IfOk result (λ held.
        MakesCall (S.stripe_count steps.old) (S.recorded steps.old) command held.position held.reply
        (S.recorded steps.new)) }
    ensures refused { IfErr result (λ refusal.
        TurnsDown (S.stripe_count steps.old) (S.recorded steps.old) command refusal
        (S.recorded steps.new)) }
    ensures pass { IsOfSamePass S.place S.stripe_count steps.old steps.new }
{
    if command.key.is_above(steps.key_limit()) {
        drop(command);
        return Err(Refusal::KeyTooLong);
    }
    let spread = spread_of(command.key.as_str());
    let stripe = stripe_of_spread(spread, steps.stripes());
    match steps.take(stripe) {
        Some(content) => change_on(
            steps,
            NewChange { alloc, command },
            spread,
            Taken { stripe, content },
        ),
        None => {
            drop(command);
            Err(Refusal::Busy { stripe })
        }
    }
}

/// Makes a read: TAKE, ALIVE, GIVE. It is refused as a change is, but for `TicketsSpent`.
pub fn try_read<S: Steps>(steps: &mut S, read: Read) -> Result<Held, Refusal>
    requires { (S.recorded steps.old).holding ≡ None }
    ensures made { IfOk result (λ held.
        MakesRead (S.stripe_count steps.old) (S.recorded steps.old) read held.position held.reply
        (S.recorded steps.new)) }
    ensures refused { IfErr result (λ refusal.
        RefusesRead (S.recorded steps.old) (stripe_of (S.stripe_count steps.old) read.key) refusal
        (S.recorded steps.new)) }
    ensures pass { IsOfSamePass S.place S.stripe_count steps.old steps.new }
{
    let spread = spread_of(read.key.as_str());
    let stripe = stripe_of_spread(spread, steps.stripes());
    match steps.take(stripe) {
        Some(content) => read_from(steps, read, spread, Taken { stripe, content }),
        None => Err(Refusal::Busy { stripe }),
    }
}

/// Gives the reply out if its position is durable. It makes a SEE. If the durable count is too low,
/// it makes an ALIVE, and if that says no, a SEE once more. It takes no memory.
pub fn release<S: Steps>(steps: &mut S, held: Held) -> Released
    ensures released { Releases held.position held.reply (S.recorded steps.old) result
        (S.recorded steps.new) }
    ensures pass { IsOfSamePass S.place S.stripe_count steps.old steps.new }
{
    if held.position.number() <= steps.see() {
        return Released::Reply(held.position, held.reply);
    }
    if steps.alive() {
        return Released::NotYet(held);
    }
    if held.position.number() <= steps.see() {
        return Released::Reply(held.position, held.reply);
    }
    Released::Failed
}

/// Makes a change on the stripe of its key: ALIVE, LOOK, TICKET, GIVE. The pass has just taken the
/// stripe and found this content in it. `spread` is the spread of the key's hash.
pub fn call_on<S: Steps>(
    steps: &mut S,
    alloc: Global,
    command: Command,
    spread: u32,
    content: Stripe,
) -> Result<Held, Refusal>
    // The spread is the key's, which is within the limit, and whose stripe was taken with this content.
    requires spread { spread ≡ spread_of (hash_of command.key) }
    requires within { IsWithin (S.recorded steps.old).opening.key_limit command }
    requires found { (b : Record) × HasFound b (stripe_of (S.stripe_count steps.old) command.key)
        content (S.recorded steps.old) }

    // The change is made, and the record grows by this call alone.
    ensures made { (b : Record) → HasFound b (stripe_of (S.stripe_count steps.old) command.key)
        content (S.recorded steps.old)
        → IfOk result (λ held.
        MakesCall (S.stripe_count steps.old) b command held.position held.reply
        (S.recorded steps.new)) }

    // Or it is refused, but not as busy, and no call is added. `Failed` tells what the TAKE showed.
    ensures refused { (b : Record) → HasFound b (stripe_of (S.stripe_count steps.old) command.key)
        content (S.recorded steps.old)
        → IfErr result (λ refusal.
        (refusal ≡ Refusal.Failed → Rises b (past content.outbox.items) (S.recorded steps.old))
        → RefusesChange b (stripe_of (S.stripe_count steps.old) command.key) refusal
        (S.recorded steps.new)) }
    ensures failed { (b : Record) → HasFound b (stripe_of (S.stripe_count steps.old) command.key)
        content (S.recorded steps.old) → result ≡ Err Refusal.Failed → GivesBack b (FindsAlive b
        (stripe_of (S.stripe_count steps.old) command.key) false) (S.recorded steps.new) }
    ensures not_busy { IfErr result IsNotBusy }

    // It is the same pass, over as many stripes.
    ensures pass { IsOfSamePass S.place S.stripe_count steps.old steps.new }
{
    let stripe = stripe_of_spread(spread, steps.stripes());
    change_on(
        steps,
        NewChange { alloc, command },
        spread,
        Taken { stripe, content },
    )
}

/// Makes a read of the stripe of its key: ALIVE, GIVE. The pass has just taken the stripe and found
/// this content in it. `spread` is the spread of the key's hash.
pub fn read_on<S: Steps>(
    steps: &mut S,
    read: Read,
    spread: u32,
    content: Stripe,
) -> Result<Held, Refusal>
    // The spread is the key's, whose stripe was taken with this content.
    requires spread { spread ≡ spread_of (hash_of read.key) }
    requires found { (b : Record) × HasFound b (stripe_of (S.stripe_count steps.old) read.key)
        content (S.recorded steps.old) }

    // The read is made, and the record grows by this call alone. Its place is told if it is known
    // what the TAKE showed.
    ensures answered { (b : Record) → HasFound b (stripe_of (S.stripe_count steps.old) read.key)
        content (S.recorded steps.old)
        → IfOk result (λ held.
        ReadsAt (S.stripe_count steps.old) b read held.position held.reply
        (S.recorded steps.new)) }
    ensures made { (b : Record) → TakesStripe (S.stripe_count steps.old) b
        (stripe_of (S.stripe_count steps.old) read.key) content (S.recorded steps.old)
        → IfOk result (λ held.
        MakesRead (S.stripe_count steps.old) b read held.position held.reply
        (S.recorded steps.new)) }

    // Or it is refused, but not as busy, and no call is added.
    ensures left { (b : Record) → HasFound b (stripe_of (S.stripe_count steps.old) read.key)
        content (S.recorded steps.old)
        → IfErr result (λ refusal.
        LeavesRead b (stripe_of (S.stripe_count steps.old) read.key) refusal
        (S.recorded steps.new)) }
    ensures refused { (b : Record) → TakesStripe (S.stripe_count steps.old) b
        (stripe_of (S.stripe_count steps.old) read.key) content (S.recorded steps.old)
        → IfErr result (λ refusal.
        RefusesRead b (stripe_of (S.stripe_count steps.old) read.key) refusal
        (S.recorded steps.new)) }
    ensures not_busy { IfErr result IsNotBusy }

    // It is the same pass, over as many stripes.
    ensures pass { IsOfSamePass S.place S.stripe_count steps.old steps.new }
{
    let stripe = stripe_of_spread(spread, steps.stripes());
    read_from(steps, read, spread, Taken { stripe, content })
}

/// Makes a change on its stripe, of which the TAKE was made: ALIVE, LOOK, TICKET, GIVE.
fn change_on<S: Steps>(
    steps: &mut S,
    new: NewChange,
    spread: u32,
    taken: Taken,
) -> Result<Held, Refusal>
    // The spread is the key's, which is within the limit, and whose stripe was taken with this content.
    requires spread { spread ≡ spread_of (hash_of new.command.key) }
    requires within { IsWithin (S.recorded steps.old).opening.key_limit new.command }
    requires stripe { taken.stripe ≡ stripe_of (S.stripe_count steps.old) new.command.key }
    requires found { (b : Record) × HasFound b taken.stripe taken.content (S.recorded steps.old) }

    // The change is made, and the record grows by this call alone.
    ensures made { (b : Record) → HasFound b taken.stripe taken.content (S.recorded steps.old) →
        IfOk result (λ held. MakesCall (S.stripe_count steps.old) b new.command
        held.position held.reply (S.recorded steps.new)) }

    // Or it is refused, but not as busy, and no call is added. `Failed` tells what the TAKE showed.
    ensures refused { (b : Record) → HasFound b taken.stripe taken.content (S.recorded steps.old)
        → IfErr result (λ refusal.
        (refusal ≡ Refusal.Failed
        → Rises b (past taken.content.outbox.items) (S.recorded steps.old))
        → RefusesChange b (stripe_of (S.stripe_count steps.old) new.command.key) refusal
        (S.recorded steps.new)) }
    ensures failed { (b : Record) → HasFound b taken.stripe taken.content (S.recorded steps.old)
        → result ≡ Err Refusal.Failed
        → GivesBack b (FindsAlive b taken.stripe false) (S.recorded steps.new) }
    ensures not_busy { IfErr result IsNotBusy }

    // It is the same pass, over as many stripes.
    ensures pass { IsOfSamePass S.place S.stripe_count steps.old steps.new }
{
    let (taken, answer) = change_taken(steps, new, spread, taken);
    steps.give(taken.stripe, taken.content, Purpose::Nothing);
    answer
}

/// Makes a change on its stripe, of which the TAKE was made, but for its GIVE: ALIVE, LOOK, TICKET.
/// What it returns is to be given back, also if the change is refused.
fn change_taken<S: Steps>(
    steps: &mut S,
    new: NewChange,
    spread: u32,
    mut taken: Taken,
) -> (Taken, Result<Held, Refusal>)
    // The spread is the key's, which is within the limit, and whose stripe was taken with this content.
    requires spread { spread ≡ spread_of (hash_of new.command.key) }
    requires within { IsWithin (S.recorded steps.old).opening.key_limit new.command }
    requires stripe { taken.stripe ≡ stripe_of (S.stripe_count steps.old) new.command.key }
    requires found { (b : Record) × HasFound b taken.stripe taken.content (S.recorded steps.old) }

    // The stripe is held, and has this to be given back.
    ensures content { HasContent (S.recorded steps.new) result.0 }

    // A growth that was due has begun or is put off, and the one that runs was helped once; if
    // refused, it stays.
    ensures growth { OnOk result.1 (HasGrown taken.content.part result.0.content.part) }
    ensures unchanged { OnErr result.1
        (result.0.content.part.growth ≡ taken.content.part.growth) }

    // With its GIVE the change is made, and the record grows by this call alone.
    ensures made { (b : Record) → HasFound b taken.stripe taken.content (S.recorded steps.old) →
        IfOk result.1 (λ held. MakesCall (S.stripe_count steps.old) b new.command
        held.position held.reply (giving Purpose.Nothing (S.recorded steps.new))) }

    // Or it is refused, but not as busy, and no call is added. `Failed` tells what the TAKE showed.
    ensures refused { (b : Record) → HasFound b taken.stripe taken.content (S.recorded steps.old)
        → IfErr result.1 (λ refusal.
        (refusal ≡ Refusal.Failed
        → Rises b (past taken.content.outbox.items) (S.recorded steps.old))
        → RefusesChange b (stripe_of (S.stripe_count steps.old) new.command.key) refusal
        (giving Purpose.Nothing (S.recorded steps.new))) }
    ensures failed { (b : Record) → HasFound b taken.stripe taken.content (S.recorded steps.old)
        → result.1 ≡ Err Refusal.Failed → GivesBack b (FindsAlive b taken.stripe false)
        (giving Purpose.Nothing (S.recorded steps.new)) }
    ensures not_busy { IfErr result.1 IsNotBusy }

    // It is the same pass, over as many stripes.
    ensures pass { IsOfSamePass S.place S.stripe_count steps.old steps.new }
{
    if !steps.alive() {
        drop(new);
        return (taken, Err(Refusal::Failed));
    }
    if steps.look() >= TICKET_LIMIT {
        drop(new);
        return (taken, Err(Refusal::TicketsSpent));
    }
    match taken.content.prepare(new.alloc, &new.command, spread) {
        Ok(prepared) => {
            let (taken, held) = change_ready(steps, new, taken, prepared);
            (taken, Ok(held))
        }
        Err(refusal) => {
            drop(new);
            (taken, Err(refusal))
        }
    }
}

/// Makes a change that has all its memory, but for its GIVE: TICKET. The growth stays as it is.
fn change_ready<S: Steps>(
    steps: &mut S,
    new: NewChange,
    taken: Taken,
    prepared: Prepared,
) -> (Taken, Held)
    requires { (b : Record) × FitsChange (S.stripe_count steps.old) b (ToChange new.command)
        (ChangeStage.IsReady new taken prepared) (S.recorded steps.old) }
    ensures content { HasContent (S.recorded steps.new) result.0 }
    ensures growth { result.0.content.part.growth ≡ taken.content.part.growth }
    ensures made { (b : Record) → FitsChange (S.stripe_count steps.old) b (ToChange new.command)
        (ChangeStage.IsReady new taken prepared) (S.recorded steps.old) →
        MakesCall (S.stripe_count steps.old) b new.command
        result.1.position result.1.reply (giving Purpose.Nothing (S.recorded steps.new)) }
    ensures pass { IsOfSamePass S.place S.stripe_count steps.old steps.new }
{
    let ticket = steps.ticket(&new.command);
    new.drawn(taken, prepared, ticket)
}

/// Makes a read of its stripe, of which the TAKE was made: ALIVE, GIVE.
fn read_from<S: Steps>(
    steps: &mut S,
    read: Read,
    spread: u32,
    taken: Taken,
) -> Result<Held, Refusal>
    // The spread is the key's, whose stripe was taken with this content.
    requires spread { spread ≡ spread_of (hash_of read.key) }
    requires stripe { taken.stripe ≡ stripe_of (S.stripe_count steps.old) read.key }
    requires found { (b : Record) × HasFound b taken.stripe taken.content (S.recorded steps.old) }

    // The read is made, and the record grows by this call alone. Its place is told if it is known
    // what the TAKE showed.
    ensures answered { (b : Record) → HasFound b taken.stripe taken.content (S.recorded steps.old) →
        IfOk result (λ held. ReadsAt (S.stripe_count steps.old) b read
        held.position held.reply (S.recorded steps.new)) }
    ensures made { (b : Record) → TakesStripe (S.stripe_count steps.old) b taken.stripe
        taken.content (S.recorded steps.old) →
        IfOk result (λ held. MakesRead (S.stripe_count steps.old) b read
        held.position held.reply (S.recorded steps.new)) }

    // Or it is refused, but not as busy, and no call is added.
    ensures left { (b : Record) → HasFound b taken.stripe taken.content (S.recorded steps.old) →
        IfErr result (λ refusal. LeavesRead b
        (stripe_of (S.stripe_count steps.old) read.key) refusal (S.recorded steps.new)) }
    ensures refused { (b : Record) → TakesStripe (S.stripe_count steps.old) b taken.stripe
        taken.content (S.recorded steps.old) →
        IfErr result (λ refusal. RefusesRead b
        (stripe_of (S.stripe_count steps.old) read.key) refusal (S.recorded steps.new)) }
    ensures not_busy { IfErr result IsNotBusy }

    // It is the same pass, over as many stripes.
    ensures pass { IsOfSamePass S.place S.stripe_count steps.old steps.new }
{
    if !steps.alive() {
        drop(read);
        return Err(taken.give_back(Refusal::Failed, steps));
    }
    let position = taken.content.read_position(steps.seen());
    match taken.content.part.read_hashed(&read, spread) {
        Ok(reply) => {
            steps.give(taken.stripe, taken.content, Purpose::Answer(read));
            Ok(Held { position, reply })
        }
        Err(refusal) => {
            drop(read);
            Err(taken.give_back(refusal, steps))
        }
    }
}
