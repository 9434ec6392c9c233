//! Whole schedules.
ghost use Rattle.std.specs.Prelude.{◌≡◌, drop, IfOk};
ghost use Rattle.sim_rules.specs.Runs.{IsRun, IsRunFrom, is_old};
ghost use Rattle.sim_rules.specs.World.{World};
ghost use Rattle.schedule_sim.specs.Storing.{IsBeginning};

use crate::beginning::{formatted, old_directory};
use crate::store::Store;
use sim_rules::{Event, Outcome, laws};
use std::alloc::{AllocError, Global};

/// What came of a schedule: the outcome of each event.
#[derive(Drop)]
pub struct Trace {
    pub outcomes: Vec<Outcome>,
}

/// Plays these events on the store: the outcome of each.
fn play(alloc: Global, mut store: Store, events: &[Event]) -> Result<Vec<Outcome>, AllocError>
    requires { (from : World) × IsBeginning from store }
    ensures { IfOk result (λ outcomes. (from : World) → IsBeginning from store
        → IsRunFrom from events.now outcomes.items) }
{
    laws::laws_of_runs();
    laws::steps_of_a_life();
    laws::steps_between_lives();
    laws::ends_of_runs();
    let mut outcomes = Vec::new(alloc);
    for event in events {
        let (next, outcome) = store.happen(alloc, event)?;
        if next.is_short() {
            return Err(AllocError);
        }
        next.stands_for_a_front();
        outcomes.push(outcome)?;
        store = next;
    }
    Ok(outcomes)
}

/// Whether the schedule begins with an Old.
fn begins_old(events: &[Event]) -> bool
    ensures { result ≡ is_old events.now }
{
    matches!(events.first(), Some(Event::Old))
}

/// The events behind the first.
fn behind_first(events: &[Event]) -> &[Event]
    ensures { result.now ≡ drop 1 events.now }
{
    match events {
        [_, more @ ..] => more,
        [] => events,
    }
}

/// Plays the schedule on a new store of 16 stripes, with 64 workers; or on a directory of version
/// 01, if its first event is an Old. It ends with an error if memory is missing for a device call,
/// or for what is told of an event.
pub fn run(alloc: Global, events: &[Event]) -> Result<Trace, AllocError>
    ensures { IfOk result (λ trace. IsRun events.now trace.outcomes.items) }
{
    laws::steps_between_lives();
    laws::ends_of_runs();
    if !begins_old(events) {
        let outcomes = play(alloc, formatted(alloc)?, events)?;
        return Ok(Trace { outcomes });
    }
    let mut outcomes = play(alloc, old_directory(alloc)?, behind_first(events))?;
    outcomes.insert(0, Outcome::Old)?;
    Ok(Trace { outcomes })
}
