//! The events of whole scripts.
ghost use Rattle.std.specs.Prelude.{◌≡◌, ◌+◌, ◌<◌, [], ◌∷◌, ◌++◌, map, length, replicate, IfOk, OnOk, option_copied, slice_set, vec_len};
ghost use Rattle.std.specs.List.{flat_map};
ghost use Rattle.sim_script.specs.Spans.{events_of, is_stray, more_of, most_stripes, next_of, span_of, stray_steps, stripes_in, told_by, TakesBack};

use crate::line::{Form, Line};
use sim_rules::{Event, Outcome};
use std::alloc::{AllocError, Global};

/// How many events one line has. They follow those of the line before it.
#[derive(Clone, Copy, Debug, PartialEq, Eq)]
pub struct Span {
    pub form: Form,
    pub events: usize,
}

/// A script as a schedule.
///
/// A line that makes a walk has as many events as the walk has steps at most. An event behind the end
/// of the walk doesn't fit, and so changes nothing.
#[derive(Drop)]
pub struct Script {
    pub spans: Vec<Span>,
    pub events: Vec<Event>,
}

/// The most steps that a change makes: TAKE, ALIVE, LOOK, TICKET, GIVE.
const STEPS_OF_CALL: usize = 5;

/// The most steps that a release makes: SEE, ALIVE, SEE.
const STEPS_OF_RELEASE: usize = 3;

/// The steps of a capture: TAKE, LOOK, GIVE.
const STEPS_OF_CAPTURE: usize = 3;

/// No worker has this number.
const NOBODY: usize = 64;

/// How many stripes the store is opened for.
fn stripes_in(event: &Event) -> u16
    ensures { result ≡ stripes_in event.now }
{
    match event {
        Event::Open { stripes, .. } => stripes.count,
        _ => 0,
    }
}

/// The most stripes that the store is opened for.
fn most_stripes(lines: &[Line]) -> u16
    ensures { result ≡ most_stripes lines.now }
{
    let mut most = 0u16;
    'lines: for line in lines {
        most = most.max(stripes_in(&line.event));
    }
    most
}

/// How many events a line has behind its first. A sweep of `stripes` stripes makes LOOK, and TAKE
/// and GIVE on each.
fn more_of(form: Form, stripes: u16) -> usize
    ensures { result ≡ more_of stripes form }
{
    match form {
        Form::Single | Form::Start { .. } | Form::Step { .. } => 0,
        Form::Go { .. } => STEPS_OF_CALL - 1,
        Form::Release { .. } => STEPS_OF_RELEASE,
        Form::Sweep => 2 * usize::from(stripes),
        Form::Capture => STEPS_OF_CAPTURE - 1,
    }
}

/// What each of them is.
fn next_of(form: Form) -> Event
    ensures { result ≡ next_of form }
{
    match form {
        Form::Start { worker }
        | Form::Step { worker }
        | Form::Go { worker }
        | Form::Release { worker } => Event::Step { worker },
        Form::Single | Form::Sweep | Form::Capture => Event::KeeperStep,
    }
}

/// What tells what came of a line: the last of its outcomes that isn't skipped.
pub(crate) fn telling(outcomes: &[Outcome]) -> Option<&Outcome>
    ensures { option_copied result ≡ told_by outcomes.now }
{
    let mut told = None;
    'outcomes: for outcome in outcomes {
        if !matches!(outcome, Outcome::Skipped) {
            told = Some(outcome);
        }
    }
    told
}

/// Whether these are the outcomes of a release that doesn't fit, and of steps that do.
fn is_stray(form: Form, outcomes: &[Outcome]) -> bool
    ensures { result ≡ is_stray form outcomes.now }
{
    matches!(form, Form::Release { .. })
        && matches!(outcomes.first(), Some(Outcome::Skipped))
        && telling(outcomes).is_some()
}

/// Where the events are that follow the first stray release: from the one place up to the other.
fn stray_steps(spans: &[Span], outcomes: &[Outcome]) -> Option<(usize, usize)>
    ensures { result ≡ stray_steps 0 spans.now outcomes.now }
{
    let mut rest = outcomes;
    let mut at = 0usize;
    'spans: for span in spans {
        let (of_line, behind) = rest.split_at(span.events.min(rest.len()));
        if is_stray(span.form, of_line) {
            return Some((at + 1, at + of_line.len()));
        }
        at += of_line.len();
        rest = behind;
    }
    None
}

/// Adds `more` of the events that a line of this form has behind its first.
fn add_more(events: &mut Vec<Event>, form: Form, more: usize) -> Result<(), AllocError>
    ensures { OnOk result (events.new.items ≡ events.old.items ++ replicate more (next_of form)) }
{
    'more: for _ in 0..more {
        events.push(next_of(form))?;
    }
    Ok(())
}

/// Puts a step of nobody in the place of an event.
fn take_back(events: &mut Vec<Event>, place: usize)
    requires { place < vec_len events.old }
    ensures { events.new.items ≡ slice_set events.old.items place (Event.Step 64) }
{
    events[place] = Event::Step { worker: NOBODY };
}

impl Script {
    fn add(&mut self, line: Line, stripes: u16) -> Result<(), AllocError>
        ensures events { OnOk result
            (self.new.events.items ≡ self.old.events.items ++ events_of stripes line) }
        ensures spans { OnOk result
            (self.new.spans.items ≡ self.old.spans.items ++ span_of stripes line ∷ []) }
    {
        let Line { form, event } = line;
        let more = more_of(form, stripes);
        self.events.push(event)?;
        add_more(&mut self.events, form, more)?;
        let events = 1 + more;
        self.spans.push(Span { form, events })?;
        Ok(())
    }

    /// The script of these lines.
    pub fn of(alloc: Global, lines: Vec<Line>) -> Result<Script, AllocError>
        ensures events { IfOk result (λ script.
            script.events.items ≡ flat_map (events_of (most_stripes lines.items)) lines.items) }
        ensures spans { IfOk result (λ script.
            script.spans.items ≡ map (span_of (most_stripes lines.items)) lines.items) }
    {
        let stripes = most_stripes(lines.as_slice());
        let mut script = Script {
            spans: Vec::new(alloc),
            events: Vec::new(alloc),
        };
        'lines: for line in lines {
            script.add(line, stripes)?;
        }
        Ok(script)
    }

    /// A release doesn't fit while another walk of its worker is under way, and then no step
    /// belongs to its line. If these outcomes show that such steps were made, those of the first
    /// such line become steps of nobody, which don't fit. Then it returns true: the script is to be
    /// played again.
    pub fn take_back_steps(&mut self, outcomes: &[Outcome]) -> bool
        ensures events { TakesBack (stray_steps 0 self.old.spans.items outcomes.now)
            self.old.events.items self.new.events.items result }
        ensures spans { self.new.spans ≡ self.old.spans }
    {
        let Some((first, behind)) = stray_steps(self.spans.as_slice(), outcomes) else {
            return false;
        };
        'places: for place in first..behind {
            if place < self.events.len() {
                take_back(&mut self.events, place);
            }
        }
        true
    }
}
