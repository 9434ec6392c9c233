//! Calls of a server, and what is printed of their answers.
use crate::checks::assert_same;
use cmd_call::{PlaceWords, Servers, ask, call, server_named};
use log::Log;
use map_types::{Key, Question, Read, Refusal};
use std::alloc::Global;
use wire_frames::Request;

fn get_a(alloc: Global) -> Result<Request, Refusal> {
    let key = Key::new(alloc, "a")?;
    Ok(Request::Read(Read {
        key,
        question: Question::Get,
    }))
}

/// Whether the request asks for `a`, and this is printed if it's answered with these bytes.
fn is_asked<L: Log>(
    rt: &L,
    alloc: Global,
    request: &Request,
    answer: &[u8],
    printed: (u8, &[u8], &[u8]),
) -> bool {
    let mut reader = answer;
    let mut writer = Vec::new(alloc);
    let mut output = Vec::new(alloc);
    let mut error = Vec::new(alloc);
    let status = ask(
        rt,
        alloc,
        &mut reader,
        &mut writer,
        request,
        &mut output,
        &mut error,
    );
    writer.as_slice() == b"\x00\x04\x01\x00\x01a".as_slice()
        && (status, output.as_slice(), error.as_slice()) == printed
}

/// Answers, and what is printed of them: the status, the output and what is said on the error
/// output.
static ANSWERS: [(&[u8], (u8, &[u8], &[u8])); 5] = [
    (
        b"\x00\x0A\x01\x01\x00\x00\x00\x00\x00\x00\x00\x05",
        (0, b"now i5\n", b""),
    ),
    (
        b"\x00\x0A\x02\x01\x00\x00\x00\x00\x00\x00\x00\x01",
        (0, b"did yes\n", b""),
    ),
    (
        b"\x00\x0A\x03\x01\x00\x00\x00\x00\x00\x00\x00\x01",
        (0, b"fault 1 WrongKind\n", b""),
    ),
    (b"\x00\x02\x84\x00", (1, b"", b"refused 4 UnknownMethod\n")),
    (b"\x00\x0A\x01\x01\x00", (1, b"", b"no reply\n")),
];

/// The number of the first of these answers that is printed otherwise, if any.
fn first_misprinted<L: Log>(rt: &L, alloc: Global, request: &Request) -> Option<usize> {
    for number in 0..ANSWERS.len() {
        let (answer, printed) = ANSWERS[number];
        if !is_asked(rt, alloc, request, answer, printed) {
            return Some(number);
        }
    }
    None
}

/// The same for a get of `a`.
fn first_misprinted_get<L: Log>(rt: &L, alloc: Global) -> Result<Option<usize>, Refusal> {
    let request = get_a(alloc)?;
    let misprinted = first_misprinted(rt, alloc, &request);
    drop(request);
    Ok(misprinted)
}

#[test]
fn answers_as_they_are_printed(rt: HostRuntime) {
    assert_same(&rt, &first_misprinted_get(&rt, rt.alloc()), &Ok(None));
}

/// Whether a call of these words at this place has no answer, and this is said of it.
fn is_unanswered<M: Servers + Log>(
    machine: &M,
    alloc: Global,
    at: &PlaceWords<'_>,
    words: &[&str],
    status: u8,
    said: &[u8],
) -> bool {
    let mut output = Vec::new(alloc);
    let mut error = Vec::new(alloc);
    let printed = call(machine, machine, alloc, at, words, &mut output, &mut error);
    printed == status && output.is_empty() && error.as_slice() == said
}

/// What is said of a word that is no threshold.
const NO_THRESHOLD: &[u8] = b"a threshold is a number from 0 to 18446744073709551615\n";

/// What is said of words that name a port and a path, or neither.
const NOT_ONE: &[u8] = b"one of --port P and --socket PATH is wanted\n";

/// What is said of a path that is too long, or empty.
const NO_SOCKET: &[u8] = b"PATH has from 1 to 107 bytes\n";

/// A path that is absent, of the most bytes.
const LONGEST: &str =
    "absent/absent/absent/absent/absent/absent/absent/absent/absent/absent/absent/absent/absent/absent/absent/ab";

/// One byte more.
const TOO_LONG: &str =
    "absent/absent/absent/absent/absent/absent/absent/absent/absent/absent/absent/absent/absent/absent/absent/abs";

/// The words of a get.
const GET: &[&str] = &["get", "a"];

/// Ports, paths and words, and what is said.
static CALLS: [(Option<&str>, Option<&str>, &[&str], u8, &[u8]); 19] = [
    (
        Some("7000"),
        None,
        &["get"],
        2,
        b"too few words, or too many\n",
    ),
    (Some("7000"), None, &["size"], 2, b"no such method\n"),
    (
        Some("7000"),
        None,
        &["count", "a"],
        2,
        b"too few words, or too many\n",
    ),
    (
        Some("7000"),
        None,
        &["reduce", "SUM"],
        2,
        b"too few words, or too many\n",
    ),
    (
        Some("7000"),
        None,
        &["reduce", "CONCAT", "-1"],
        2,
        b"no such function\n",
    ),
    (
        Some("7000"),
        None,
        &["reduce", "sum", "1"],
        2,
        b"no such function\n",
    ),
    (
        Some("7000"),
        None,
        &["reduce", "MIN", "-1"],
        2,
        NO_THRESHOLD,
    ),
    (
        Some("7000"),
        None,
        &["search", "18446744073709551616", "_"],
        2,
        NO_THRESHOLD,
    ),
    (
        Some("7000"),
        None,
        &["search", "1", "_"],
        2,
        b"a value is needed\n",
    ),
    (
        Some("7000"),
        None,
        &["search", "1", "5"],
        2,
        b"no such value\n",
    ),
    (
        Some("1"),
        None,
        &["search", "18446744073709551615", "i5"],
        1,
        b"no reply\n",
    ),
    (
        Some("0"),
        None,
        GET,
        2,
        b"a port is a number from 1 to 65535\n",
    ),
    (Some("1"), None, GET, 1, b"no reply\n"),
    (None, None, GET, 2, NOT_ONE),
    (Some("1"), Some("absent"), GET, 2, NOT_ONE),
    (None, Some(""), GET, 2, NO_SOCKET),
    (None, Some(TOO_LONG), GET, 2, NO_SOCKET),
    (None, Some(LONGEST), GET, 1, b"no reply\n"),
    (None, Some("absent"), GET, 1, b"no reply\n"),
];

/// The number of the first of these calls that comes out otherwise, if any.
fn first_answered<M: Servers + Log>(machine: &M, alloc: Global) -> Option<usize> {
    for number in 0..CALLS.len() {
        let (port, socket, words, status, error) = CALLS[number];
        let at = PlaceWords {
            port,
            socket,
            timeout_ms: "10000",
        };
        if !is_unanswered(machine, alloc, &at, words, status, error) {
            return Some(number);
        }
    }
    None
}

#[test]
fn calls_without_an_answer(rt: HostRuntime) {
    assert_same(&rt, &first_answered(&rt, rt.alloc()), &None);
}

/// Words for how long a server is waited for, and the milliseconds that they name.
static TIMES: [(&str, Option<u32>); 6] = [
    ("1", Some(1)),
    ("10000", Some(10_000)),
    ("2147483648", Some(2_147_483_648)),
    ("0", None),
    ("2147483649", None),
    ("1.5", None),
];

/// The number of the first of these words that names another time, if any.
fn first_misnamed() -> Option<usize> {
    for number in 0..TIMES.len() {
        let (timeout_ms, named) = TIMES[number];
        let at = PlaceWords {
            port: Some("7000"),
            socket: None,
            timeout_ms,
        };
        let found = match server_named(&at) {
            Ok(server) => Some(server.timeout_ms),
            Err(_) => None,
        };
        if found != named {
            return Some(number);
        }
    }
    None
}

#[test]
fn times_that_a_server_is_waited_for(rt: HostRuntime) {
    assert_same(&rt, &first_misnamed(), &None);
}
