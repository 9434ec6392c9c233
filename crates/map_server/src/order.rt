//! What the words of the command line ask for.
ghost use Rattle.std.specs.Prelude.{◌≡◌, map, option_map, string_bytes, IfOk};
ghost use Rattle.clap.specs.Words.{first_of, found_of, rows_of, subcommand_rows_of, FailsBy};
ghost use Rattle.map_server.specs.CommandLine.{faults, named_by, word_of, word_or, call_in, Asks, GivesFlag, GivesPlace, GivesServer};

use crate::grammar::known_lines;
use clap::{ArgMatches, Error};
use cmd_call::PlaceWords;
use cmd_serve::ServerWords;
use std::alloc::{AllocError, Global};

/// What a command line asks for.
#[derive(Drop)]
pub enum Order<'a> {
    /// Serve the map in memory on the standard streams.
    Mem,
    /// Make the directory that of an empty map.
    Init {
        directory: &'a str,
        stripes: &'a str,
    },
    /// Print what the directory stands for.
    Check {
        directory: &'a str,
    },
    /// Serve the map of a directory.
    Serve(ServerWords<'a>),
    /// Make the call of these words, or those of the input.
    Call {
        at: PlaceWords<'a>,
        words: Vec<&'a str>,
    },
    /// Play the script of the file.
    Sim {
        file: &'a str,
    },
}

/// The number of stripes if no other is asked for.
const STRIPES: &str = "16";

/// The number of workers if no other is asked for.
const WORKERS: &str = "4";

/// How many connections are served at a time if no other number is asked for.
const CONNECTIONS: &str = "10000";

/// The length of the log that begins a checkpoint if no other is asked for.
const BYTES: &str = "67108864";

/// For how many milliseconds a server is waited for if no other number is asked for.
const TIMEOUT: &str = "10000";

/// The rights of the file of a server's Unix socket if no others are asked for: its user's alone.
const MODE: &str = "600";

/// For how many seconds a client may be idle if no other number is asked for: for ever.
const IDLE: &str = "0";

/// How many zeros are written ahead of a batch in a long log if no other number is asked for.
const AHEAD: &str = "1048576";

/// The subcommand that the words name, with what they give its arguments.
fn line_in<'m, 'a>(matches: &'m ArgMatches<'a>) -> Option<(&'a str, &'m ArgMatches<'a>)>
    ensures { option_map (λ line. (line.0.now, rows_of (found_of line.1.now))) result
        ≡ subcommand_rows_of matches.now }
{
    matches.subcommand()
}

/// The word that is given for an argument, or another if none is.
fn word_or<'a>(matches: &ArgMatches<'a>, id: &str, other: &'a str) -> &'a str
    ensures { result.now ≡ word_or other.now id.now (rows_of (found_of matches.now)) }
{
    matches.get_str(id).unwrap_or(other)
}

/// The word that is given for an argument, if one is.
fn word_in<'a>(matches: &ArgMatches<'a>, id: &str) -> Option<&'a str>
    ensures { word_of result ≡ first_of id.now (rows_of (found_of matches.now)) }
{
    matches.get_str(id)
}

/// Whether an option that takes no value is given.
fn is_given<'a>(matches: &ArgMatches<'a>, id: &str) -> bool
    ensures { GivesFlag id.now (rows_of (found_of matches.now)) result }
{
    matches.get_flag(id)
}

/// The words of a call.
fn words_in<'a>(alloc: Global, matches: &ArgMatches<'a>) -> Result<Vec<&'a str>, AllocError>
    ensures { IfOk result (λ words.
        map (λ word. word.now) words.items ≡ call_in (rows_of (found_of matches.now))) }
{
    let mut words = Vec::new(alloc);
    words.extend_from_slice(matches.get_strs("METHOD").unwrap_or(&[]))?;
    Ok(words)
}

/// The words that say where a server is, and for how long it is waited for.
fn place_in<'a>(matches: &ArgMatches<'a>) -> PlaceWords<'a>
    ensures { GivesPlace (rows_of (found_of matches.now)) result }
{
    PlaceWords {
        port: word_in(matches, "port"),
        socket: word_in(matches, "socket"),
        timeout_ms: word_or(matches, "timeout-ms", TIMEOUT),
    }
}

/// What the words of `dchm serve` ask for.
fn server_in<'a>(matches: &ArgMatches<'a>) -> ServerWords<'a>
    ensures { GivesServer (rows_of (found_of matches.now)) result }
{
    let at = place_in(matches);
    ServerWords {
        directory: word_or(matches, "DIR", ""),
        standby: is_given(matches, "standby"),
        port: at.port,
        socket: at.socket,
        mode: word_or(matches, "socket-mode", MODE),
        stripes: word_or(matches, "stripes", STRIPES),
        workers: word_or(matches, "workers", WORKERS),
        connections: word_or(matches, "connections", CONNECTIONS),
        checkpoint_bytes: word_or(matches, "checkpoint-bytes", BYTES),
        idle_seconds: word_or(matches, "idle-seconds", IDLE),
        log_ahead: word_or(matches, "log-ahead", AHEAD),
        report_seconds: word_in(matches, "report-seconds"),
    }
}

/// What the words that were read ask for.
fn order_in<'a>(alloc: Global, matches: &ArgMatches<'a>) -> Result<Order<'a>, AllocError>
    ensures { IfOk result (Asks (subcommand_rows_of matches.now)) }
{
    match line_in(matches) {
        Some(("init", found)) => Ok(Order::Init {
            directory: word_or(found, "DIR", ""),
            stripes: word_or(found, "stripes", STRIPES),
        }),
        Some(("check", found)) => Ok(Order::Check {
            directory: word_or(found, "DIR", ""),
        }),
        Some(("serve", found)) => Ok(Order::Serve(server_in(found))),
        Some(("call", found)) => Ok(Order::Call {
            at: place_in(found),
            words: words_in(alloc, found)?,
        }),
        Some(("sim", found)) => Ok(Order::Sim {
            file: word_or(found, "FILE", ""),
        }),
        Some(("mem", _)) => Ok(Order::Mem),
        // The lines that are known have no other name, and want one.
        _ => Err(AllocError),
    }
}

/// What the words, the program's name first, ask for; else the text that says how to call it.
pub fn order_of<'a>(alloc: Global, words: &'a [String]) -> Result<Order<'a>, Error>
    ensures known { FailsBy (faults (map string_bytes words.now)) result }
    ensures asks { IfOk result (Asks (named_by (map string_bytes words.now))) }
{
    let command = known_lines(alloc)?;
    let matches = command.try_get_matches_from(words)?;
    Ok(order_in(alloc, &matches)?)
}
