//! What is done in a case, by its kind.
use crate::checkpoint_writing::{checkpoint_left, checkpoint_written, seal_left};
use crate::checkpoints::{fronts_loaded, loaded};
use crate::directories::{formatted, opened, store_left};
use crate::disk_steps::stepped;
use crate::functions::applied;
use crate::log_writing::{log_ended, log_resumed, log_written};
use crate::logs::scanned;
use crate::maps::calls;
use crate::records::{fields, read_record, record};
use crate::replies::{answer, reply};
use crate::requests::{messages, request};
use log_records::Version;
use map_types::Refusal;
use run_cases::{Names, Plays};
use std::alloc::Global;
use store_layout::NEW_VERSION;

/// What comes of a case of maps, records and frames, whose input has these words.
fn come_of_calls(
    alloc: Global,
    kind: &str,
    names: &Names,
    input: &str,
    words: &[&str],
) -> Result<String, Refusal> {
    match kind {
        "functions" => applied(alloc, words),
        "calls" => calls(alloc, input),
        "records" => record(Version::First, alloc, words),
        "records_of_the_second_version" => record(Version::Second, alloc, words),
        "refused_records" => read_record(Version::First, alloc, names, words),
        "refused_records_of_the_second_version" => {
            read_record(Version::Second, alloc, names, words)
        }
        "fields" => fields(Version::First, alloc, words),
        "fields_of_the_second_version" => fields(Version::Second, alloc, words),
        "requests" => request(alloc, words),
        "messages" => messages(alloc, names, words),
        "replies" => reply(alloc, names, words),
        "answers" => answer(alloc, names, words),
        _ => Err(Refusal::WrongPhase),
    }
}

/// What comes of a case of disks, logs, checkpoints and directories, or of another one.
fn come_of(
    alloc: Global,
    kind: &str,
    names: &Names,
    input: &str,
    words: &[&str],
) -> Result<String, Refusal> {
    match kind {
        "disks" => stepped(alloc, names, input),
        "logs" => scanned(alloc, names, words),
        "written_logs" => log_written(alloc, words),
        "ended_logs" => log_ended(alloc),
        "resumed_logs" => log_resumed(alloc, words),
        "checkpoints" => loaded(alloc, names, words),
        "checkpoint_fronts" => fronts_loaded(alloc, names, words),
        "written_checkpoints" => checkpoint_written(alloc, words),
        "left_checkpoints" => checkpoint_left(alloc, words),
        "left_seals" => seal_left(alloc, words),
        "directories" => opened(alloc, names, words),
        "formatting" => formatted(alloc, names, NEW_VERSION, words),
        "formatting_of_the_first_version" => formatted(alloc, names, Version::First, words),
        "left_stores" => store_left(alloc, words),
        _ => come_of_calls(alloc, kind, names, input, words),
    }
}

/// The cases of files whose lines have a name, an input, and what is to come.
#[derive(Clone, Copy)]
pub(crate) struct NamedCases;

impl Plays for NamedCases {
    fn play(
        &self,
        alloc: Global,
        kind: &str,
        names: &Names,
        input: &str,
    ) -> Result<String, Refusal> {
        let words: Vec<&str> = input.split(' ').collect(alloc)?;
        come_of(alloc, kind, names, input, &words)
    }
}
