//! What replies, refusals and outcomes print: each stands beside its text.
use call_text::{refusal_text, reply_text};
use checkpoint_file::CheckpointPhase;
use gate_log::Phase;
use map_types::{FuncError, Key, Refusal, Reply, Value};
use sim_rules::{DeviceCall, End, Made, MapEntry, Outcome};
use sim_script::{Form, Span, text_of};
use std::alloc::{AllocError, Global};

const DAMAGED: Refusal = Refusal::Damaged {
    file: 2,
    offset: 17,
};

fn printed(alloc: Global, form: Form, outcome: Outcome) -> Result<String, AllocError> {
    let mut outcomes = Vec::new(alloc);
    outcomes.push(outcome)?;
    let span = Span { form, events: 1 };
    text_of(alloc, &[span], outcomes.as_slice())
}

/// The line of a text that is wanted.
fn compared(alloc: Global, found: &str, wanted: &str) -> Result<String, AllocError> {
    if found == wanted {
        format!(in alloc; "{wanted}\n")
    } else {
        format!(in alloc; "{wanted} came out as {found}\n")
    }
}

/// An opening that finds one entry.
fn opened(alloc: Global, prefix: u64) -> Result<Outcome, Refusal> {
    let mut entries = Vec::new(alloc);
    entries.push(MapEntry {
        key: Key::new(alloc, "a")?,
        value: Value::Int(1),
    })?;
    Ok(Outcome::Opened {
        calls: 20,
        prefix,
        entries,
    })
}

/// The texts that are wanted, line by line; behind one that doesn't come stands what came.
#[derive(Drop)]
struct Report {
    alloc: Global,
    text: String,
}

impl Report {
    fn compare(&mut self, found: &str, wanted: &str) -> Result<(), AllocError> {
        let line = compared(self.alloc, found, wanted)?;
        self.text.push_str(line.as_str())
    }

    fn reply(&mut self, reply: Reply, wanted: &str) -> Result<(), AllocError> {
        let found = reply_text(self.alloc, &reply)?;
        self.compare(found.as_str(), wanted)
    }

    fn refusal(&mut self, refusal: Refusal, wanted: &str) -> Result<(), AllocError> {
        let found = refusal_text(self.alloc, refusal)?;
        self.compare(found.as_str(), wanted)
    }

    /// The outcome of a line of this form, which is the first of its script.
    fn outcome(&mut self, form: Form, outcome: Outcome, wanted: &str) -> Result<(), AllocError> {
        let found = printed(self.alloc, form, outcome)?;
        let line = found.as_str().strip_prefix("1 ").unwrap_or("no first line");
        self.compare(line.strip_suffix('\n').unwrap_or("no line feed"), wanted)
    }

    fn step(&mut self, made: Made, wanted: &str) -> Result<(), AllocError> {
        let end = End::Held(1);
        let form = Form::Step { worker: 5 };
        self.outcome(form, Outcome::Stepped { made, end }, wanted)
    }

    fn end(&mut self, form: Form, end: End, wanted: &str) -> Result<(), AllocError> {
        let made = Made::Gave(0);
        self.outcome(form, Outcome::Stepped { made, end }, wanted)
    }

    fn single(&mut self, outcome: Outcome, wanted: &str) -> Result<(), AllocError> {
        self.outcome(Form::Single, outcome, wanted)
    }

    fn released(&mut self, position: u64, reply: Reply, wanted: &str) -> Result<(), AllocError> {
        let form = Form::Release { worker: 0 };
        self.end(form, End::Replied { position, reply }, wanted)
    }

    fn logged(&mut self, phase: Phase, wanted: &str) -> Result<(), AllocError> {
        let call = DeviceCall::Sync { file: 2 };
        self.single(Outcome::Logged { call, phase }, wanted)
    }

    fn add_replies(&mut self) -> Result<(), AllocError> {
        self.reply(Reply::Was(None), "was _")?;
        self.reply(Reply::Was(Some(Value::Int(-12))), "was i-12")?;
        self.reply(Reply::Now(None), "now _")?;
        self.reply(Reply::Did(true), "did yes")?;
        self.reply(Reply::Did(false), "did no")?;
        self.reply(Reply::Fault(FuncError::WrongKind), "fault 1 WrongKind")?;
        self.reply(Reply::Fault(FuncError::TooLong), "fault 2 TooLong")?;
        self.reply(Reply::Fault(FuncError::Overflow), "fault 3 Overflow")
    }

    fn add_text_reply(&mut self) -> Result<(), AllocError> {
        match Value::text(self.alloc, "abc") {
            Ok(text) => self.reply(Reply::Now(Some(text)), "now tabc"),
            Err(_) => self.text.push_str("abc is no text\n"),
        }
    }

    fn add_refusals(&mut self) -> Result<(), AllocError> {
        self.refusal(Refusal::NoMemory, "refused 7 NoMemory")?;
        self.refusal(Refusal::Busy { stripe: 3 }, "refused 8 Busy 3")?;
        self.refusal(DAMAGED, "refused 12 Damaged 2 17")?;
        self.refusal(Refusal::AlreadyFormatted, "refused 15 AlreadyFormatted")
    }

    fn add_starts(&mut self) -> Result<(), AllocError> {
        let start = Form::Start { worker: 5 };
        self.outcome(start, Outcome::Started, "start 5")?;
        self.outcome(start, Outcome::Skipped, "skipped")?;
        self.outcome(
            start,
            Outcome::Refused(Refusal::KeyTooLong),
            "5 refused 2 KeyTooLong",
        )
    }

    fn add_steps(&mut self) -> Result<(), AllocError> {
        self.step(Made::Took(3), "5 TAKE")?;
        self.step(Made::FoundHeld(3), "5 TAKE held")?;
        self.step(Made::Gave(3), "5 GIVE")?;
        self.step(Made::Drew(7), "5 TICKET 7")?;
        self.step(Made::Looked(0), "5 LOOK 0")?;
        self.step(Made::Saw(u64::MAX), "5 SEE 18446744073709551615")?;
        self.step(Made::FoundAlive(true), "5 ALIVE yes")?;
        self.step(Made::FoundAlive(false), "5 ALIVE no")?;
        self.outcome(Form::Step { worker: 5 }, Outcome::Skipped, "skipped")
    }

    fn add_walks(&mut self) -> Result<(), AllocError> {
        let go = Form::Go { worker: 63 };
        self.end(go, End::Held(12), "63 held 12")?;
        self.end(
            go,
            End::Refused(Refusal::Busy { stripe: 3 }),
            "63 refused 8 Busy 3",
        )?;
        self.outcome(go, Outcome::Skipped, "skipped")
    }

    fn add_releases(&mut self) -> Result<(), AllocError> {
        let release = Form::Release { worker: 0 };
        self.end(release, End::NotYet, "0 notyet")?;
        self.end(release, End::Failed, "0 failed")?;
        self.released(4, Reply::Was(Some(Value::Int(-1))), "0 reply 4 was i-1")?;
        self.released(
            1,
            Reply::Fault(FuncError::WrongKind),
            "0 reply 1 fault 1 WrongKind",
        )
    }

    fn add_sweeps(&mut self) -> Result<(), AllocError> {
        self.end(Form::Sweep, End::Swept(9), "sweep 9")?;
        self.end(Form::Sweep, End::SweepHeld(2), "sweep held 2")?;
        self.end(
            Form::Sweep,
            End::Refused(Refusal::NoMemory),
            "refused 7 NoMemory",
        )
    }

    fn add_captures(&mut self) -> Result<(), AllocError> {
        let made = Made::FoundHeld(1);
        let busy = End::Refused(Refusal::Busy { stripe: 1 });
        self.outcome(Form::Capture, Outcome::Stepped { made, end: busy }, "held")?;
        self.end(Form::Capture, End::Captured(4), "mark 4")?;
        self.end(
            Form::Capture,
            End::Refused(Refusal::LogFull),
            "refused 14 LogFull",
        )?;
        self.outcome(
            Form::Capture,
            Outcome::Refused(Refusal::WrongPhase),
            "refused 16 WrongPhase",
        )
    }

    fn add_phases(&mut self) -> Result<(), AllocError> {
        self.logged(Phase::Idle, "log Idle")?;
        self.logged(Phase::Header, "log Header")?;
        self.logged(Phase::HeaderWritten, "log HeaderWritten")?;
        self.logged(Phase::Staged, "log Staged")?;
        self.logged(Phase::Written, "log Written")?;
        self.logged(Phase::Synced, "log Synced")?;
        self.logged(Phase::Opened, "log Opened")
    }

    fn add_calls(&mut self) -> Result<(), AllocError> {
        let call = DeviceCall::Sync { file: 1 };
        let phase = CheckpointPhase::Idle;
        self.single(Outcome::Checkpointed { call, phase }, "ckpt")?;
        let call = DeviceCall::Sync { file: 1 };
        self.single(Outcome::CallFailed { call }, "refused 9 Failed")
    }

    fn add_keepers(&mut self) -> Result<(), AllocError> {
        self.single(Outcome::Staged(3), "staged 3")?;
        self.single(Outcome::Published(8), "durable 8")?;
        self.single(Outcome::FailMade, "fail")?;
        self.single(Outcome::Begun, "begin")?;
        self.single(Outcome::Sealing, "seal")
    }

    fn add_opening(&mut self) -> Result<(), AllocError> {
        match opened(self.alloc, 30) {
            Ok(found) => self.single(found, "open 30 1"),
            Err(_) => self.text.push_str("there is no opening\n"),
        }
    }

    fn add_lives(&mut self) -> Result<(), AllocError> {
        let damaged = Outcome::NotOpened {
            calls: 20,
            refusal: DAMAGED,
        };
        self.single(Outcome::Old, "old")?;
        self.single(damaged, "refused 12 Damaged 2 17")?;
        self.single(Outcome::Stopped { within: None }, "stop")?;
        let within = Some(DeviceCall::Sync { file: 0 });
        self.single(Outcome::Stopped { within }, "stop")?;
        self.single(Outcome::Left, "leave")?;
        self.single(Outcome::Skipped, "skipped")
    }
}

/// The texts of replies, refusals and outcomes.
pub(crate) fn all_texts(alloc: Global) -> Result<String, AllocError> {
    let text = String::new(alloc);
    let mut report = Report { alloc, text };
    report.add_replies()?;
    report.add_text_reply()?;
    report.add_refusals()?;
    report.add_starts()?;
    report.add_steps()?;
    report.add_walks()?;
    report.add_releases()?;
    report.add_sweeps()?;
    report.add_captures()?;
    report.add_phases()?;
    report.add_calls()?;
    report.add_keepers()?;
    report.add_opening()?;
    report.add_lives()?;
    let Report { text, .. } = report;
    Ok(text)
}
