//! The sweep that the keeper keeps.
ghost use Rattle.std.specs.Prelude.{◌≡◌, ◌+◌, ◌<◌, ◌≤◌, ℕ, List, Some, None, [], true, IfOk, IfErr, OnOk, OnErr, IfSome, IfNone};
ghost use Rattle.map_types.specs.declared.commands.Command.{Command};
ghost use Rattle.ticket_order.specs.declared.record.Record.{Record};
ghost use Rattle.ticket_order.specs.Records.{missing};
ghost use Rattle.ticket_order.specs.StepRules.{IsOfSamePass};
ghost use Rattle.ticket_order.specs.Calls.{SweepsStripe, RefusesSweep};
ghost use Rattle.ticket_order.specs.Walks.{MakesOne, Look, Take, Give, entries_of_walk, refusal_of_walk};
ghost use Rattle.flusher.specs.HandSteps.{Gains};
ghost use Rattle.flusher.specs.Gathering.{Collects};
ghost use Rattle.flusher.specs.KeeperSteps.{SweepsOnce};
ghost use Rattle.flusher.specs.Sweeping.{AfterGive, AfterTake, BeginsSweep, HasNone, IsBetween, IsHolding, IsDone, IsReady, IsSwept, Stands, StepsOn, next_kind};

use crate::in_hand::InHand;
use crate::spare::Spare;
use map_types::Refusal;
use std::alloc::Global;
use std::mem;
use ticket_order::{Entry, Stepped, Steps, Walk};

/// A sweep that is begun and not over.
#[derive(Clone, Copy)]
pub struct Sweep {
    /// The count of tickets that its LOOK found.
    pub count: u64,
    /// The stripe that comes next.
    pub stripe: usize,
}

/// The walk that the keeper is in the middle of.
#[derive(Drop)]
pub enum Walking {
    /// None.
    Rests,
    /// A sweep, which takes its next stripe.
    SweepTakes,
    /// A sweep, which gives its stripe back.
    SweepGives(Walk),
}

/// What a step of a sweep leaves.
#[derive(Drop)]
pub enum Swept {
    More,
    /// Another holds this stripe.
    Held(usize),
    /// The sweep is over: every ticket below this count is in hand, or it was and is no longer.
    Done(u64),
}

/// The entries in hand, and the sweep that brings them there.
#[derive(Drop)]
pub struct Sweeper {
    alloc: Global,
    // The next stripe that is swept gets it for its outbox.
    spare: Spare,
    pub in_hand: InHand,
    pub sweep: Option<Sweep>,
    pub walking: Walking,
}

impl Sweeper {
    /// Nothing is in hand, and no sweep is begun. It takes no memory.
    pub fn new(alloc: Global, next: u64) -> Sweeper
        ensures hand { result.in_hand ≡ record { next = next; slots = [] } }
        ensures sweep { (result.sweep ≡ None) × (result.walking ≡ Walking.Rests) }
    {
        Sweeper {
            alloc,
            spare: Spare::new(alloc),
            in_hand: InHand::new(alloc, next),
            sweep: None,
            walking: Walking::Rests,
        }
    }

    /// Makes exactly one step: the LOOK that begins a sweep, or TAKE or GIVE of its next stripe.
    pub fn step<S: Steps>(&mut self, steps: &mut S) -> Result<Swept, Refusal>
        // The sweep stands as the record of its pass says.
        requires { (gone : List Command)
            × Stands (S.stripe_count steps.old) self.old gone (S.recorded steps.old) }

        // Exactly one step: the next of the sweep, with what that leaves.
        ensures one { MakesOne S.recorded S.moves (next_kind self.old.sweep self.old.walking)
            steps.old steps.new }
        ensures steps_on { StepsOn (S.stripe_count steps.old) self.old.sweep self.old.walking
            self.old.in_hand self.new (S.recorded steps.old) (S.recorded steps.new) result }

        // The sweep stands so again; once done, it has gathered its tickets.
        ensures stands { (gone : List Command)
            → Stands (S.stripe_count steps.old) self.old gone (S.recorded steps.old)
            → Stands (S.stripe_count steps.new) self.new gone (S.recorded steps.new) }
        ensures done { (gone : List Command)
            → Stands (S.stripe_count steps.old) self.old gone (S.recorded steps.old)
            → IfOk result (IsDone self.new gone (S.recorded steps.new)) }

        // It is the same pass, over as many stripes.
        ensures pass { IsOfSamePass S.place S.stripe_count steps.old steps.new }
    {
        let Some(sweep) = self.sweep else {
            return self.look(steps);
        };
        match mem::replace(&mut self.walking, Walking::Rests) {
            Walking::SweepGives(walk) => self.give(sweep, walk, steps),
            Walking::Rests | Walking::SweepTakes => self.take(sweep, steps),
        }
    }

    /// Sweeps one stripe, and leaves the sweep that is begun where it is.
    pub fn sweep_stripe<S: Steps>(&mut self, stripe: usize, steps: &mut S) -> Result<(), Refusal>
        // The keeper's pass holds no stripe, and there is this one.
        requires free { (S.recorded steps.old).holding ≡ None }
        requires within { stripe < S.stripe_count steps.old }
        requires keeper { (S.recorded steps.old).keeper ≡ true }

        // The entries of the stripe's outbox are in hand.
        ensures ok { OnOk result
            (SweepsOnce (S.stripe_count steps.old) stripe self.old.in_hand self.new.in_hand
            (S.recorded steps.old) (S.recorded steps.new)) }

        // Refused: another has it, or no memory; the same tickets are in hand.
        ensures err { IfErr result (λ refusal.
            RefusesSweep (S.recorded steps.old) stripe refusal (S.recorded steps.new)) }
        ensures kept { OnErr result (Collects self.old.in_hand [] self.new.in_hand) }

        // Only the hand changes, in the same pass over as many stripes.
        ensures same { self.new ≡ record self.old { in_hand = self.new.in_hand } }
        ensures pass { IsOfSamePass S.place S.stripe_count steps.old steps.new }
    {
        let spare = self.spare.take(self.alloc);
        let Some(walk) = hold(spare, stripe, steps) else {
            return Err(Refusal::Busy { stripe });
        };
        let walk = with_room(&mut self.in_hand, walk);
        match hand_out(walk, steps) {
            Some(entries) => {
                self.keep_in_hand(entries);
                Ok(())
            }
            None => Err(Refusal::NoMemory),
        }
    }

    /// Puts the entries in hand, and keeps their vector for a stripe that is swept later.
    fn keep_in_hand(&mut self, entries: Vec<Entry>)
        ensures hand { Gains self.old.in_hand entries.items self.new.in_hand }
        ensures same { self.new ≡ record self.old { in_hand = self.new.in_hand } }
    {
        let mut entries = entries;
        self.in_hand.append(&mut entries);
        self.spare.keep(entries);
    }

    fn set_walking(&mut self, walking: Walking)
        ensures { self.new ≡ record self.old { walking = walking } }
    {
        drop(mem::replace(&mut self.walking, walking));
    }

    fn look<S: Steps>(&mut self, steps: &mut S) -> Result<Swept, Refusal>
        ensures one { MakesOne S.recorded S.moves Look steps.old steps.new }
        ensures begins { BeginsSweep self.old.in_hand self.new (S.recorded steps.old)
            (S.recorded steps.new) result }
        ensures stands { (gone : List Command)
            → HasNone self.old.in_hand gone (S.recorded steps.old)
            → Stands (S.stripe_count steps.new) self.new gone (S.recorded steps.new) }
        ensures pass { IsOfSamePass S.place S.stripe_count steps.old steps.new }
    {
        let _stripes = steps.stripes().get();
        let count = steps.look();
        self.sweep = Some(Sweep { count, stripe: 0 });
        self.set_walking(Walking::SweepTakes);
        Ok(Swept::More)
    }

    fn take<S: Steps>(&mut self, sweep: Sweep, steps: &mut S) -> Result<Swept, Refusal>
        // A sweep is begun, and holds no stripe.
        requires stands { (gone : List Command)
            × IsBetween (S.stripe_count steps.old) sweep self.old.in_hand gone
            (S.recorded steps.old) }
        requires sweep { self.old.sweep ≡ Some sweep }

        // One step, a TAKE: the stripe is held now, or another holds it.
        ensures one { MakesOne S.recorded S.moves (Take sweep.stripe) steps.old steps.new }
        ensures after { AfterTake (S.stripe_count steps.old) sweep self.old.in_hand self.new
            (S.recorded steps.old) (S.recorded steps.new) result }

        // The sweep stands as recorded, in the same pass over as many stripes.
        ensures stands { (gone : List Command)
            → IsBetween (S.stripe_count steps.old) sweep self.old.in_hand gone
            (S.recorded steps.old)
            → Stands (S.stripe_count steps.new) self.new gone (S.recorded steps.new) }
        ensures pass { IsOfSamePass S.place S.stripe_count steps.old steps.new }
    {
        let spare = self.spare.take(self.alloc);
        match hold(spare, sweep.stripe, steps) {
            Some(walk) => {
                self.set_walking(Walking::SweepGives(walk));
                Ok(Swept::More)
            }
            None => {
                self.set_walking(Walking::Rests);
                Ok(Swept::Held(sweep.stripe))
            }
        }
    }

    fn give<S: Steps>(&mut self, sweep: Sweep, walk: Walk, steps: &mut S) -> Result<Swept, Refusal>
        // A sweep is begun, and holds its stripe since a TAKE.
        requires stands { (gone : List Command)
            × IsHolding (S.stripe_count steps.old) sweep walk self.old.in_hand gone
            (S.recorded steps.old) }
        requires sweep { self.old.sweep ≡ Some sweep }

        // One step, a GIVE: the outbox is in hand, or the stripe is put back.
        ensures one { MakesOne S.recorded S.moves (Give sweep.stripe) steps.old steps.new }
        ensures after { AfterGive (S.stripe_count steps.old) sweep walk self.old.in_hand self.new
            (S.recorded steps.old) (S.recorded steps.new) result }

        // The sweep stands as recorded; once done, it has gathered its tickets.
        ensures stands { (gone : List Command)
            → IsHolding (S.stripe_count steps.old) sweep walk self.old.in_hand gone
            (S.recorded steps.old)
            → Stands (S.stripe_count steps.new) self.new gone (S.recorded steps.new) }
        ensures done { (gone : List Command)
            → IsHolding (S.stripe_count steps.old) sweep walk self.old.in_hand gone
            (S.recorded steps.old) → IfOk result (IsDone self.new gone (S.recorded steps.new)) }

        // It is the same pass, over as many stripes.
        ensures pass { IsOfSamePass S.place S.stripe_count steps.old steps.new }
    {
        self.set_walking(Walking::Rests);
        let walk = with_room(&mut self.in_hand, walk);
        match hand_out(walk, steps) {
            Some(entries) => {
                self.keep_in_hand(entries);
                Ok(self.go_on(sweep, steps.stripes().get()))
            }
            None => Err(Refusal::NoMemory),
        }
    }

    /// The stripe is done.
    fn go_on(&mut self, sweep: Sweep, stripes: usize) -> Swept
        requires { sweep.stripe < stripes }
        ensures more { sweep.stripe + 1 < stripes
            → (result ≡ Swept.More)
            × (self.new
            ≡ record self.old {
              sweep = Some (record sweep { stripe = sweep.stripe + 1 });
              walking = Walking.SweepTakes;
            }) }
        ensures last { stripes ≤ sweep.stripe + 1
            → (result ≡ Swept.Done sweep.count)
            × (self.new ≡ record self.old { sweep = None; walking = Walking.Rests }) }
    {
        if sweep.stripe + 1 < stripes {
            self.sweep = Some(Sweep {
                count: sweep.count,
                stripe: sweep.stripe + 1,
            });
            self.set_walking(Walking::SweepTakes);
            Swept::More
        } else {
            self.sweep = None;
            self.set_walking(Walking::Rests);
            Swept::Done(sweep.count)
        }
    }
}

/// The walk, once there is a place for each entry that it hands out. If no memory is found, it puts
/// the stripe back.
fn with_room(in_hand: &mut InHand, walk: Walk) -> Walk
    ensures { IsReady in_hand.old in_hand.new walk result }
{
    match in_hand.make_room(walk.entries()) {
        Ok(()) => walk,
        Err(_) => walk.give_back(),
    }
}

/// TAKE of a stripe for a sweep; `None` if another holds it. The sweep has then only its GIVE left,
/// and gives the stripe this vector for its outbox.
fn hold<S: Steps>(spare: Vec<Entry>, stripe: usize, steps: &mut S) -> Option<Walk>
    // The keeper's pass holds no stripe, and there is this one.
    requires free { (S.recorded steps.old).holding ≡ None }
    requires within { stripe < S.stripe_count steps.old }
    requires keeper { (S.recorded steps.old).keeper ≡ true }

    // One step, a TAKE: the stripe is held now, or another holds it.
    ensures one { MakesOne S.recorded S.moves (Take stripe) steps.old steps.new }
    ensures some { IfSome result (λ walk.
        IsSwept (S.stripe_count steps.old) (S.recorded steps.old) stripe walk
        (S.recorded steps.new)) }
    ensures none { IfNone result (S.recorded steps.new ≡ missing (S.recorded steps.old) stripe) }

    // It is the same pass, over as many stripes.
    ensures pass { IsOfSamePass S.place S.stripe_count steps.old steps.new }
{
    match Walk::sweep(spare, stripe).step(steps) {
        Stepped::More(walk) => Some(walk),
        other => {
            drop(other);
            None
        }
    }
}

/// GIVE of that stripe: the entries that were in its outbox, or `None` if it is put back as it was
/// taken.
fn hand_out<S: Steps>(walk: Walk, steps: &mut S) -> Option<Vec<Entry>>
    // The walk of a sweep holds its stripe, and has its GIVE left.
    requires { (b : Record) × (i : ℕ)
        × IsSwept (S.stripe_count steps.old) b i walk (S.recorded steps.old) }

    // One step is made, a GIVE of that stripe.
    ensures one { (b : Record) (i : ℕ)
        → IsSwept (S.stripe_count steps.old) b i walk (S.recorded steps.old)
        → MakesOne S.recorded S.moves (Give i) steps.old steps.new }

    // The outbox is handed out, or the stripe is put back for want of memory.
    ensures entries { IfSome result (λ entries. (entries.items ≡ entries_of_walk walk)
        × (refusal_of_walk walk ≡ None)) }
    ensures some { IfSome result (λ entries. (b : Record) (i : ℕ)
        → IsSwept (S.stripe_count steps.old) b i walk (S.recorded steps.old)
        → SweepsStripe (S.stripe_count steps.old) b i entries.items (S.recorded steps.new)) }
    ensures none { IfNone result
        ((b : Record) (i : ℕ) → IsSwept (S.stripe_count steps.old) b i walk (S.recorded steps.old)
        → RefusesSweep b i Refusal.NoMemory (S.recorded steps.new)) }

    // It is the same pass, over as many stripes.
    ensures pass { IsOfSamePass S.place S.stripe_count steps.old steps.new }
{
    match walk.step(steps) {
        Stepped::Swept(entries) => Some(entries),
        other => {
            drop(other);
            None
        }
    }
}
