//! The walk over the parts of all stripes, and what a step leaves of it.
ghost use Rattle.std.specs.Prelude.{◌≡◌, ◌<◌, ◌++◌, ℕ, List, [], None};
ghost use Rattle.std.specs.Option.{option_map};
ghost use Rattle.ticket_order.specs.declared.record.Record.{Record};
ghost use Rattle.ticket_order.specs.declared.record.Section.{Section};
ghost use Rattle.ticket_order.specs.StepRules.{IsOfSamePass};
ghost use Rattle.ticket_order.specs.Walks.{MakesOne};
ghost use Rattle.view_walk.specs.Walking.{Fits, Next, given_back, given_back_at, lent_part, lent_sections, mark_awaited, next_kind, stripe_of_take};

use crate::awaiting;
use crate::awaiting::Awaiting;
use atomic_methods::Part;
use map_types::Refusal;
use ticket_order::{Position, Purpose, Steps, Stripe};

/// A walk over the parts of all stripes that is under way. Behind the LOOK at a stripe it lends the
/// stripe's part, until the step that follows gives it back.
#[derive(Drop)]
pub struct PartsWalk {
    // How many stripes were given back.
    pub(crate) count: usize,
    // The greatest of their marks, or 0 if there is none.
    pub(crate) greatest: u64,
    pub(crate) stage: Stage,
}

#[derive(Drop)]
pub(crate) enum Stage {
    /// The stripe that follows is to be taken.
    Taking,
    HasTaken(Stripe),
    /// Its part is lent, with this mark, and the stripe is to be given back.
    Lending(Stripe, u64),
    /// The stripe is to be given back as it was taken, for want of memory.
    GivingBack(Stripe),
    /// All stripes were given back.
    Awaiting(Awaiting),
}

impl Stage {
    /// The same, but a stripe whose part is lent is to go back as it was taken.
    fn given_back(self) -> Stage
        ensures { result ≡ given_back_at self }
    {
        match self {
            Stage::Lending(content, _mark) => Stage::GivingBack(content),
            before => before,
        }
    }
}

/// What a step leaves of a walk over the parts.
#[derive(Drop)]
pub enum PartsWalked {
    More(PartsWalk),
    /// Each part was lent, and the greatest mark is durable.
    Done,
}

fn more(count: usize, greatest: u64, stage: Stage) -> Result<PartsWalked, Refusal>
    ensures { result ≡ Ok (PartsWalked.More
        (record { count = count; greatest = greatest; stage = stage })) }
{
    Ok(PartsWalked::More(PartsWalk {
        count,
        greatest,
        stage,
    }))
}

impl PartsWalk {
    /// A walk that has made no step.
    pub fn new() -> PartsWalk
        ensures fits { (n : ℕ) (b : Record) → 0 < n → b.holding ≡ None → Fits n b [] result b }
        ensures lends { lent_sections result ≡ [] }
    {
        PartsWalk {
            count: 0,
            greatest: 0,
            stage: Stage::Taking,
        }
    }

    /// The part that is lent, with its mark, if one is.
    pub fn lent(&self) -> Option<(u64, &Part)>
        ensures { option_map (λ found. (found.0, found.1.now)) result ≡ lent_part self.now }
    {
        match &self.stage {
            Stage::Lending(content, mark) => Some((*mark, &content.part)),
            _ => None,
        }
    }

    /// A walk that lends a part will give the stripe back as it was taken, and end with `NoMemory`.
    /// This is for a caller that finds no memory for what it makes of the part. Any other walk stays
    /// as it is.
    pub fn give_back(self) -> PartsWalk
        ensures is { result ≡ given_back self }
        ensures fits { (n : ℕ) (b : Record) (xs : List Section) (p : Record)
            → Fits n b xs self p → Fits n b xs result p }
        ensures lends { lent_sections result ≡ [] }
    {
        let PartsWalk {
            count,
            greatest,
            stage,
        } = self;
        PartsWalk {
            count,
            greatest,
            stage: stage.given_back(),
        }
    }

    /// The stripe that the next step takes, if it takes one.
    pub fn stripe_to_take(&self) -> Option<usize>
        ensures { result ≡ stripe_of_take (next_kind self.now) }
    {
        match self.stage {
            Stage::Taking => Some(self.count),
            _ => None,
        }
    }

    /// The greatest mark, if it was found not to be durable yet.
    pub fn position_awaited(&self) -> Option<Position>
        ensures { result ≡ mark_awaited self.now }
    {
        match self.stage {
            Stage::Awaiting(Awaiting::HasMissed) => Some(Position::new(self.greatest)),
            _ => None,
        }
    }

    /// Makes exactly one step. Refused with `NoMemory` once a stripe that was to go back as it was
    /// taken is given back, and with `Failed` if the store has failed before the greatest mark became
    /// durable.
    pub fn step<S: Steps>(self, steps: &mut S) -> Result<PartsWalked, Refusal>
        requires { (b : Record) × (xs : List Section)
            × Fits (S.stripe_count steps.old) b xs self (S.recorded steps.old) }

        // One step is made, of the kind that is next, and the walk stands as it says. The stripe
        // whose part is lent is given back by it.
        ensures one { MakesOne S.recorded S.moves (next_kind self) steps.old steps.new }
        ensures next { (b : Record) (xs : List Section)
            → Fits (S.stripe_count steps.old) b xs self (S.recorded steps.old)
            → Next (S.stripe_count steps.old) b (xs ++ lent_sections self) result
            (S.recorded steps.new) }

        // The step is made on the same words, by the same pass.
        ensures pass { IsOfSamePass S.place S.stripe_count steps.old steps.new }
    {
        let PartsWalk {
            count,
            greatest,
            stage,
        } = self;
        match stage {
            Stage::Taking => match steps.take(count) {
                Some(content) => more(count, greatest, Stage::HasTaken(content)),
                None => more(count, greatest, Stage::Taking),
            },
            Stage::HasTaken(content) => {
                let mark = steps.look();
                more(count, greatest, Stage::Lending(content, mark))
            }
            Stage::Lending(content, mark) => {
                let stripes = steps.stripes().get();
                steps.give(count, content, Purpose::Capture);
                let count = count + 1;
                let greatest = greatest.max(mark);
                if count < stripes {
                    more(count, greatest, Stage::Taking)
                } else {
                    more(count, greatest, Stage::Awaiting(Awaiting::Seeing))
                }
            }
            Stage::GivingBack(content) => {
                steps.give(count, content, Purpose::Nothing);
                Err(Refusal::NoMemory)
            }
            Stage::Awaiting(awaiting) => awaiting::step(count, greatest, awaiting, steps),
        }
    }
}
