//! The three steps of a capture of one stripe: TAKE, LOOK, GIVE.
ghost use Rattle.std.specs.Prelude.{◌≡◌, ◌<◌, ℕ, Some, None, IfOk, IfErr, IfSome, IfNone};
ghost use Rattle.ticket_order.specs.declared.record.Record.{Record};
ghost use Rattle.ticket_order.specs.Records.{missing};
ghost use Rattle.ticket_order.specs.StepRules.{IsOfSamePass};
ghost use Rattle.ticket_order.specs.Calls.{CapturesStripe, RefusesCapture};
ghost use Rattle.ticket_order.specs.Walks.{Give, Look, MakesOne, Take, captured_of_walk, entries_captured, refusal_of_walk};
ghost use Rattle.checkpoint_walk.specs.Capturing.{HasLooked, HasTaken};

use map_types::Refusal;
use ticket_order::{Captured, Stepped, Steps, Walk};

/// TAKE of the stripe; `None` if another holds it.
pub(crate) fn hold<S: Steps>(stripe: usize, steps: &mut S) -> Option<Walk>
    // The pass holds no stripe, and there is this one.
    requires free { (S.recorded steps.old).holding ≡ None }
    requires within { stripe < S.stripe_count steps.old }

    // One step, a TAKE: the stripe is held now, or another holds it.
    ensures one { MakesOne S.recorded S.moves (Take stripe) steps.old steps.new }
    ensures some { IfSome result (λ walk.
        HasTaken (S.stripe_count steps.old) (S.recorded steps.old) stripe walk
        (S.recorded steps.new)) }
    ensures none { IfNone result (S.recorded steps.new ≡ missing (S.recorded steps.old) stripe) }

    // It is the same pass, over as many stripes.
    ensures pass { IsOfSamePass S.place S.stripe_count steps.old steps.new }
{
    match Walk::capture(stripe).step(steps) {
        Stepped::More(walk) => Some(walk),
        other => {
            drop(other);
            None
        }
    }
}

/// LOOK, and the stripe is held on. The walk has then only its GIVE left, which hands out its mark, or
/// puts the stripe back.
pub(crate) fn look<S: Steps>(walk: Walk, steps: &mut S) -> Walk
    requires { (b : Record) × (i : ℕ)
        × HasTaken (S.stripe_count steps.old) b i walk (S.recorded steps.old) }
    ensures one { MakesOne S.recorded S.moves Look steps.old steps.new }
    ensures looked { (b : Record) (i : ℕ)
        → HasTaken (S.stripe_count steps.old) b i walk (S.recorded steps.old)
        → HasLooked (S.stripe_count steps.old) b i result (S.recorded steps.new) }
    ensures pass { IsOfSamePass S.place S.stripe_count steps.old steps.new }
{
    match walk.step(steps) {
        Stepped::More(walk) => walk,
        Stepped::Held(_)
        | Stepped::Released(_)
        | Stepped::Swept(_)
        | Stepped::Captured(_)
        | Stepped::Refused(_) => unreachable!(),
    }
}

/// GIVE: what was captured, or the refusal for which the stripe is put back.
pub(crate) fn hand_out<S: Steps>(walk: Walk, steps: &mut S) -> Result<Captured, Refusal>
    // The walk of a capture has looked, and has its GIVE left.
    requires { (b : Record) × (i : ℕ)
        × HasLooked (S.stripe_count steps.old) b i walk (S.recorded steps.old) }

    // One step is made, a GIVE of that stripe.
    ensures one { (b : Record) (i : ℕ)
        → HasLooked (S.stripe_count steps.old) b i walk (S.recorded steps.old)
        → MakesOne S.recorded S.moves (Give i) steps.old steps.new }

    // What the walk has captured is handed out, the stripe's part at its mark.
    ensures captured { IfOk result (λ z. (captured_of_walk walk ≡ Some z)
        × (refusal_of_walk walk ≡ None)) }
    ensures ok { IfOk result (λ z. (b : Record) (i : ℕ)
        → HasLooked (S.stripe_count steps.old) b i walk (S.recorded steps.old)
        → CapturesStripe (S.stripe_count steps.old) b i z.mark (entries_captured z)
        (S.recorded steps.new)) }

    // Or its refusal is, and the stripe is back as it was taken.
    ensures refused { IfErr result (λ refusal. refusal_of_walk walk ≡ Some refusal) }
    ensures err { IfErr result (λ refusal. (b : Record) (i : ℕ)
        → HasLooked (S.stripe_count steps.old) b i walk (S.recorded steps.old)
        → RefusesCapture b i refusal (S.recorded steps.new)) }

    // It is the same pass, over as many stripes.
    ensures pass { IsOfSamePass S.place S.stripe_count steps.old steps.new }
{
    match walk.step(steps) {
        Stepped::Captured(captured) => Ok(captured),
        Stepped::Refused(refusal) => Err(refusal),
        Stepped::More(_) | Stepped::Held(_) | Stepped::Released(_) | Stepped::Swept(_) =>
            unreachable!(),
    }
}
