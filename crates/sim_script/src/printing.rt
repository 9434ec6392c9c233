//! What came of a script, as text.
ghost use Rattle.std.specs.Prelude.{◌≡◌, IfOk, string_bytes};
ghost use Rattle.sim_script.specs.Spans.{told_by};
ghost use Rattle.sim_script.specs.Texts.{made_text, phase_name, IsCaptureText, IsEndText, IsLineText, IsOutcomeText, IsScriptText, IsStartText, IsStepText, IsToldText, IsWorkerText};

use crate::line::Form;
use crate::script::{Span, telling};
use call_text::{refusal_text, reply_text};
use map_types::Refusal;
use sim_rules::{End, Made, Outcome};
use std::alloc::{AllocError, Global};
use store_layout::Phase;

/// The name of a phase of the log.
fn phase_name(phase: Phase) -> &'static str
    ensures { result.now ≡ phase_name phase }
{
    match phase {
        Phase::Idle => "Idle",
        Phase::Header => "Header",
        Phase::HeaderWritten => "HeaderWritten",
        Phase::Staged => "Staged",
        Phase::Written => "Written",
        Phase::Synced => "Synced",
        Phase::Opened => "Opened",
    }
}

/// A step, and what it found.
fn made_text(alloc: Global, made: Made) -> Result<String, AllocError>
    ensures { IfOk result (λ text. string_bytes text ≡ made_text made) }
{
    match made {
        Made::Took(_) => String::from_str(alloc, "TAKE"),
        Made::FoundHeld(_) => String::from_str(alloc, "TAKE held"),
        Made::Gave(_) => String::from_str(alloc, "GIVE"),
        Made::Drew(ticket) => format!(in alloc; "TICKET {ticket}"),
        Made::Looked(count) => format!(in alloc; "LOOK {count}"),
        Made::Saw(count) => format!(in alloc; "SEE {count}"),
        Made::FoundAlive(true) => String::from_str(alloc, "ALIVE yes"),
        Made::FoundAlive(false) => String::from_str(alloc, "ALIVE no"),
    }
}

/// How a walk ended.
fn end_text(alloc: Global, end: &End) -> Result<String, AllocError>
    ensures { IfOk result (λ text. IsEndText end.now (string_bytes text)) }
{
    match end {
        End::Goes => String::from_str(alloc, "goes"),
        End::Held(position) => format!(in alloc; "held {position}"),
        End::Replied { position, reply } => {
            let reply = reply_text(alloc, reply)?;
            format!(in alloc; "reply {position} {reply}")
        }
        End::NotYet => String::from_str(alloc, "notyet"),
        End::Failed => String::from_str(alloc, "failed"),
        End::Swept(count) => format!(in alloc; "sweep {count}"),
        End::SweepHeld(stripe) => format!(in alloc; "sweep held {stripe}"),
        End::Captured(mark) => format!(in alloc; "mark {mark}"),
        End::Refused(refusal) => refusal_text(alloc, *refusal),
    }
}

/// What came of an event.
fn outcome_text(alloc: Global, outcome: &Outcome) -> Result<String, AllocError>
    ensures { IfOk result (λ text. IsOutcomeText outcome.now (string_bytes text)) }
{
    match outcome {
        Outcome::Old => String::from_str(alloc, "old"),
        Outcome::Skipped => String::from_str(alloc, "skipped"),
        Outcome::Refused(refusal) | Outcome::NotOpened { refusal, .. } => {
            refusal_text(alloc, *refusal)
        }
        Outcome::Opened {
            prefix,
            entries,
            ..
        } => {
            let count = entries.len();
            format!(in alloc; "open {prefix} {count}")
        }
        Outcome::Started => String::from_str(alloc, "start"),
        Outcome::Stepped { end, .. } => end_text(alloc, end),
        Outcome::Staged(count) => format!(in alloc; "staged {count}"),
        Outcome::Logged { phase, .. } => {
            let phase = phase_name(*phase);
            format!(in alloc; "log {phase}")
        }
        Outcome::Checkpointed { .. } => String::from_str(alloc, "ckpt"),
        Outcome::CallFailed { .. } => refusal_text(alloc, Refusal::Failed),
        Outcome::Published(count) => format!(in alloc; "durable {count}"),
        Outcome::FailMade => String::from_str(alloc, "fail"),
        Outcome::Begun => String::from_str(alloc, "begin"),
        Outcome::Sealing => String::from_str(alloc, "seal"),
        Outcome::Stopped { .. } => String::from_str(alloc, "stop"),
        Outcome::Left => String::from_str(alloc, "leave"),
    }
}

/// What came of a worker's line.
fn worker_text(alloc: Global, worker: usize, outcome: &Outcome) -> Result<String, AllocError>
    ensures { IfOk result (λ text. IsWorkerText worker outcome.now (string_bytes text)) }
{
    let text = outcome_text(alloc, outcome)?;
    format!(in alloc; "{worker} {text}")
}

/// What came of the beginning of a change or a read.
fn start_text(alloc: Global, worker: usize, outcome: &Outcome) -> Result<String, AllocError>
    ensures { IfOk result (λ text. IsStartText worker outcome.now (string_bytes text)) }
{
    match outcome {
        Outcome::Started => format!(in alloc; "start {worker}"),
        _ => worker_text(alloc, worker, outcome),
    }
}

/// What came of one step.
fn step_text(alloc: Global, worker: usize, outcome: &Outcome) -> Result<String, AllocError>
    ensures { IfOk result (λ text. IsStepText worker outcome.now (string_bytes text)) }
{
    match outcome {
        Outcome::Stepped { made, .. } => {
            let made = made_text(alloc, *made)?;
            format!(in alloc; "{worker} {made}")
        }
        _ => worker_text(alloc, worker, outcome),
    }
}

/// What came of a capture.
fn capture_text(alloc: Global, outcome: &Outcome) -> Result<String, AllocError>
    ensures { IfOk result (λ text. IsCaptureText outcome.now (string_bytes text)) }
{
    match outcome {
        Outcome::Stepped {
            made: Made::FoundHeld(_),
            ..
        } => String::from_str(alloc, "held"),
        _ => outcome_text(alloc, outcome),
    }
}

/// What came of a line, by what tells it.
fn line_text(alloc: Global, form: Form, outcome: &Outcome) -> Result<String, AllocError>
    ensures { IfOk result (λ text. IsLineText form outcome.now (string_bytes text)) }
{
    match form {
        Form::Single | Form::Sweep => outcome_text(alloc, outcome),
        Form::Start { worker } => start_text(alloc, worker, outcome),
        Form::Step { worker } => step_text(alloc, worker, outcome),
        Form::Go { worker } | Form::Release { worker } => worker_text(alloc, worker, outcome),
        Form::Capture => capture_text(alloc, outcome),
    }
}

/// What came of a line, by its outcomes: the last that isn't skipped tells it.
fn told_text(alloc: Global, form: Form, outcomes: &[Outcome]) -> Result<String, AllocError>
    ensures { IfOk result (λ text. IsToldText form (told_by outcomes.now) (string_bytes text)) }
{
    match telling(outcomes) {
        Some(outcome) => line_text(alloc, form, outcome),
        None => String::from_str(alloc, "skipped"),
    }
}

/// A line for each line of the script: its number, and what came of it. The spans divide the outcomes.
pub fn text_of(alloc: Global, spans: &[Span], outcomes: &[Outcome]) -> Result<String, AllocError>
    ensures { IfOk result (λ text. IsScriptText 1 spans.now outcomes.now (string_bytes text)) }
{
    let mut text = String::new(alloc);
    let mut rest = outcomes;
    'spans: for (index, span) in spans.iter().enumerate() {
        let (of_line, behind) = rest.split_at(span.events.min(rest.len()));
        rest = behind;
        let line = told_text(alloc, span.form, of_line)?;
        let number = index + 1;
        let line = format!(in alloc; "{number} {line}\n")?;
        text.push_str(line.as_str())?;
    }
    Ok(text)
}
