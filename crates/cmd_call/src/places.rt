//! The words that say where a server is, and for how long it is waited for.
ghost use Rattle.std.specs.Prelude.{IfErr, IfOk};
ghost use Rattle.call_text.specs.Naming.{IsNamed};
ghost use Rattle.cmd_call.specs.declared.servers.Place.{Place};
ghost use Rattle.cmd_call.specs.declared.servers.Server.{Server};
ghost use Rattle.cmd_call.specs.Places.{IsTimeout, NamesPlace, NamesServer};

use crate::servers::{Place, Server};
use call_text::port_named;
use socket_file::is_socket_path;

/// The words that say where a server is, a port or a path, one of them, and for how many
/// milliseconds it is waited for.
#[derive(Clone, Copy)]
pub struct PlaceWords<'a> {
    pub port: Option<&'a str>,
    pub socket: Option<&'a str>,
    pub timeout_ms: &'a str,
}

/// The most milliseconds for which a server is waited for: some 25 days.
const MOST_MILLISECONDS: u32 = 2_147_483_648;

/// What is said of words that name both, or neither.
const NOT_ONE: &str = "one of --port P and --socket PATH is wanted\n";

/// What is said of a word that names no port.
const NO_PORT: &str = "a port is a number from 1 to 65535\n";

/// What is said of a path for which the address of a Unix socket has no room.
const NO_SOCKET: &str = "PATH has from 1 to 107 bytes\n";

/// What is said of a word that names no time.
const NO_TIMEOUT: &str = "N is a number of milliseconds from 1 to 2147483648\n";

/// The place that the words name; else a text that says what is wrong with them.
fn place_named<'a>(words: &PlaceWords<'a>) -> Result<Place<'a>, &'static str>
    ensures ok { IfOk result (λ place. NamesPlace words.now place) }
    ensures err { IfErr result (λ _. (place : Place) → NamesPlace words.now place → ⊥) }
{
    match (words.port, words.socket) {
        (Some(word), None) => match port_named(word) {
            Some(port) => Ok(Place::Port(port)),
            None => Err(NO_PORT),
        },
        (None, Some(path)) if is_socket_path(path) => Ok(Place::Socket(path)),
        (None, Some(_)) => Err(NO_SOCKET),
        _ => Err(NOT_ONE),
    }
}

/// The milliseconds that the word names.
fn timeout_named(word: &str) -> Option<u32>
    ensures { IsNamed IsTimeout word.now result }
{
    match word.parse::<u32>() {
        Ok(number) if number > 0 && number <= MOST_MILLISECONDS => Some(number),
        _ => None,
    }
}

/// The server that the words name; else a text that says what is wrong with them.
pub fn server_named<'a>(words: &PlaceWords<'a>) -> Result<Server<'a>, &'static str>
    ensures ok { IfOk result (λ server. NamesServer words.now server) }
    ensures err { IfErr result (λ _. (server : Server) → NamesServer words.now server → ⊥) }
{
    let place = place_named(words)?;
    match timeout_named(words.timeout_ms) {
        Some(timeout_ms) => Ok(Server { place, timeout_ms }),
        None => Err(NO_TIMEOUT),
    }
}
