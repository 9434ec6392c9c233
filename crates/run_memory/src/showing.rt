//! What stands: the tickets, each stripe with its entries, and the keeper. And what was answered.
ghost use Rattle.std.specs.Prelude.{◌≡◌, ◌<◌, None};
ghost use Rattle.ticket_order.specs.StepRules.{IsOfSamePass};

use crate::keeping::Answer;
use crate::steps::MOST;
use atomic_methods::Part;
use call_text::{reply_text, value_word};
use disk_model::Disk;
use flusher::Keeper;
use map_types::{Refusal, Reply};
use std::alloc::{AllocError, Global};
use stripe_locks::Stripes;
use ticket_order::{Purpose, Steps, Stripe};

/// Tells this sign between what was told and what is told next.
pub(crate) fn tell_next(sign: &str, told: &mut String) -> Result<(), AllocError> {
    if told.is_empty() {
        return Ok(());
    }
    told.push_str(sign)
}

/// Tells what was answered: this word and the number, or the refusal.
pub(crate) fn tell_answer(word: &str, answer: Answer, told: &mut String) -> Result<(), AllocError> {
    match answer {
        Ok(number) => write!(told, "{word}{number}"),
        Err(refusal) => write!(told, "refused {refusal}"),
    }
}

/// Tells the reply of a call with its position.
pub(crate) fn tell_reply(
    alloc: Global,
    position: u64,
    reply: &Reply,
    told: &mut String,
) -> Result<(), AllocError> {
    let text = reply_text(alloc, reply)?;
    write!(told, "reply {position} {text}")
}

/// Tells the entries of a part.
pub(crate) fn tell_part(alloc: Global, part: &Part, told: &mut String) -> Result<(), Refusal> {
    for (key, value) in part.entries_sorted(alloc)? {
        let key = key.as_str();
        let word = value_word(alloc, &Some(value))?;
        write!(told, " {key}={word}")?;
    }
    Ok(())
}

/// Tells how many entries wait in the stripe's outbox, and its part of the map.
fn show_content(
    alloc: Global,
    stripe: usize,
    content: &Stripe,
    told: &mut String,
) -> Result<(), Refusal> {
    let waiting = content.outbox.len();
    write!(told, "  stripe {stripe} waiting {waiting}:")?;
    tell_part(alloc, &content.part, told)?;
    Ok(told.push_str("\n")?)
}

/// Tells what lies in a stripe, or that it isn't free.
fn show_stripe<S: Steps>(
    alloc: Global,
    steps: &mut S,
    stripe: usize,
    told: &mut String,
) -> Result<(), Refusal>
    requires idle { (S.recorded steps.old).holding ≡ None }
    requires within { stripe < S.stripe_count steps.old }
    ensures idle { (S.recorded steps.new).holding ≡ None }
    ensures pass { IsOfSamePass S.place S.stripe_count steps.old steps.new }
{
    let Some(content) = steps.take(stripe) else {
        return Ok(writeln!(told, "  stripe {stripe} held")?);
    };
    let shown = show_content(alloc, stripe, &content, told);
    steps.give(stripe, content, Purpose::Nothing);
    shown
}

/// Tells how many tickets are drawn, and what lies in each stripe.
fn show_all<S: Steps>(alloc: Global, steps: &mut S, told: &mut String) -> Result<(), Refusal>
    requires idle { (S.recorded steps.old).holding ≡ None }
{
    let tickets = steps.look();
    writeln!(told, "  tickets {tickets}")?;
    for stripe in 0..steps.stripes().get() {
        show_stripe(alloc, steps, stripe, told)?;
    }
    Ok(())
}

/// The same, by a new pass.
pub(crate) fn show_stripes(
    alloc: Global,
    stripes: &Stripes,
    told: &mut String,
) -> Result<(), Refusal> {
    let mut pass = stripes.pass()?;
    let mut board = stripes.at(&mut pass);
    show_all(alloc, &mut board, told)
}

/// Tells how many commands are in hand in a row, staged and committed, the phase of the log, and
/// that of the checkpoint with how many sections it was given.
pub(crate) fn show_keeper<D: Disk>(
    keeper: &Keeper<D>,
    told: &mut String,
) -> Result<(), AllocError> {
    let in_hand = &keeper.sweeper.in_hand;
    let run = in_hand.longest_run(keeper.log.version(), MOST).count;
    let staged = keeper.staged.len();
    let committed = keeper.committed();
    let phase = keeper.log.phase();
    writeln!(
        told,
        "  in hand {run}, staged {staged}, committed {committed}, log {phase:?}"
    )?;
    match &keeper.checkpoint {
        Some(writer) => {
            let phase = writer.phase();
            let count = writer.count();
            writeln!(told, "  checkpoint {phase:?}, sections {count}")
        }
        None => Ok(()),
    }
}
