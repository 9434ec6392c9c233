//! The words of a server's command line, and the settings that they name.
ghost use Rattle.std.specs.Prelude.{IfOk, IfErr};
ghost use Rattle.call_text.specs.Naming.{IsNamed};
ghost use Rattle.cmd_serve.specs.Settings.{AreNamed, ArePlacesOf, IsConnectionCount, IsReportInterval, IsReportOf, IsWorkerCount};
ghost use Rattle.cmd_serve.specs.declared.listening.Places.{Places};

use crate::listening::Places;
use call_text::{port_named, stripes_named};
use java_hash::StripeCount;
use socket_file::{is_socket_path, mode_named};

/// The words of a server's command line.
#[derive(Clone, Copy)]
pub struct ServerWords<'a> {
    pub directory: &'a str,
    pub standby: bool,
    /// At least one of the port and the path of a Unix socket is wanted.
    pub port: Option<&'a str>,
    pub socket: Option<&'a str>,
    /// The rights of the socket's file.
    pub mode: &'a str,
    pub stripes: &'a str,
    pub workers: &'a str,
    pub connections: &'a str,
    pub checkpoint_bytes: &'a str,
    pub idle_seconds: &'a str,
    pub log_ahead: &'a str,
    /// Left out there are no records of its work.
    pub report_seconds: Option<&'a str>,
}

/// What a server is to do.
#[derive(Clone, Copy)]
pub(crate) struct Settings<'a> {
    /// It waits for a directory that another holds.
    pub stands_by: bool,
    pub places: Places<'a>,
    /// The rights of the socket's file.
    pub mode: u32,
    /// How many stripes the map is divided into.
    pub stripes: StripeCount,
    /// How many threads serve connections.
    pub workers: usize,
    /// How many connections are served at a time.
    pub connections: u32,
    /// The length of the log that begins a checkpoint.
    pub checkpoint_bytes: u64,
    /// For how many seconds a client may be idle; 0 is for ever.
    pub idle_seconds: u32,
    /// How many zeros are written ahead of a batch in a long log; with 0 none are.
    pub log_ahead: u32,
    /// How many seconds lie between two records of its work; nothing if there are none.
    pub report_seconds: Option<u32>,
}

fn workers_named(word: &str) -> Option<usize>
    ensures { IsNamed IsWorkerCount word.now result }
{
    match word.parse::<usize>() {
        Ok(count) if count > 0 && count <= 64 => Some(count),
        _ => None,
    }
}

fn connections_named(word: &str) -> Option<u32>
    ensures { IsNamed IsConnectionCount word.now result }
{
    match word.parse::<u32>() {
        Ok(count) if count > 0 => Some(count),
        _ => None,
    }
}

fn interval_named(word: &str) -> Option<u32>
    ensures { IsNamed IsReportInterval word.now result }
{
    match word.parse::<u32>() {
        Ok(seconds) if seconds > 0 => Some(seconds),
        _ => None,
    }
}

/// The seconds between two records, if a word names them; else a text that says what is wrong with it.
fn report_named(word: Option<&str>) -> Result<Option<u32>, &'static str>
    ensures ok { IfOk result (IsReportOf word.entry) }
    ensures err { IfErr result (λ _. (report : _) → IsReportOf word.entry report → ⊥) }
{
    match word {
        None => Ok(None),
        Some(word) => match interval_named(word) {
            Some(seconds) => Ok(Some(seconds)),
            None => Err("N of --report-seconds is a number from 1 to 4294967295\n"),
        },
    }
}

/// What is said of a word that names no port.
const NO_PORT: &str = "P is a number from 1 to 65535\n";

/// What is said of a path for which the address of a Unix socket has no room.
const NO_SOCKET: &str = "PATH has from 1 to 107 bytes\n";

/// The places that the words name; else a text that says what is wrong with them.
fn places_named<'a>(words: &ServerWords<'a>) -> Result<Places<'a>, &'static str>
    ensures ok { IfOk result (λ places. ArePlacesOf words.now.port words.now.socket places) }
    ensures err { IfErr result (λ _. (places : Places)
        → ArePlacesOf words.now.port words.now.socket places → ⊥) }
{
    match (words.port, words.socket) {
        (Some(word), None) => match port_named(word) {
            Some(port) => Ok(Places::Port(port)),
            None => Err(NO_PORT),
        },
        (None, Some(path)) if is_socket_path(path) => Ok(Places::Socket(path)),
        (Some(word), Some(path)) if is_socket_path(path) => match port_named(word) {
            Some(port) => Ok(Places::Both(port, path)),
            None => Err(NO_PORT),
        },
        (_, Some(_)) => Err(NO_SOCKET),
        (None, None) => Err("--port P or --socket PATH is wanted, or both\n"),
    }
}

/// The settings that the words name; else a text that says what is wrong with them.
pub(crate) fn settings_named<'a>(words: &ServerWords<'a>) -> Result<Settings<'a>, &'static str>
    ensures ok { IfOk result (λ settings. AreNamed words.now settings) }
    ensures err { IfErr result (λ _. (settings : Settings) → AreNamed words.now settings → ⊥) }
{
    let places = places_named(words)?;
    let Some(mode) = mode_named(words.mode) else {
        return Err("a socket's mode is an octal number from 0 to 777\n");
    };
    let Some(stripes) = stripes_named(words.stripes) else {
        return Err("S is a power of two from 1 to 256\n");
    };
    let Some(workers) = workers_named(words.workers) else {
        return Err("W is a number from 1 to 64\n");
    };
    let Some(connections) = connections_named(words.connections) else {
        return Err("C is a number from 1 to 4294967295\n");
    };
    let Ok(checkpoint_bytes) = words.checkpoint_bytes.parse::<u64>() else {
        return Err("B is a number from 0 to 18446744073709551615\n");
    };
    let Ok(idle_seconds) = words.idle_seconds.parse::<u32>() else {
        return Err("N is a number from 0 to 4294967295\n");
    };
    let Ok(log_ahead) = words.log_ahead.parse::<u32>() else {
        return Err("A is a number from 0 to 4294967295\n");
    };
    let report_seconds = report_named(words.report_seconds)?;
    Ok(Settings {
        stands_by: words.standby,
        places,
        mode,
        stripes,
        workers,
        connections,
        checkpoint_bytes,
        idle_seconds,
        log_ahead,
        report_seconds,
    })
}
