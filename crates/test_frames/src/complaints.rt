//! What is printed, and the numbers that words name.
use crate::checks::assert_same;
use call_text::{break_off, cannot_open, port_named, print, refuse, stripes_named};
use log::Log;
use map_types::Refusal;
use std::alloc::Global;
use std::io;
use std::io::ErrorKind;

/// Whether a printed line is all that there is.
fn is_printed_alone<L: Log>(rt: &L, alloc: Global) -> bool {
    let mut output = Vec::new(alloc);
    let mut error = Vec::new(alloc);
    let status = print(rt, "did yes\n", &mut output, &mut error);
    status == 0 && output.as_slice() == b"did yes\n".as_slice() && error.is_empty()
}

/// The statuses of a refusal, of a text that breaks off, and of three files that cannot be opened.
fn complaints(alloc: Global, error: &mut Vec<u8>) -> [u8; 5] {
    [
        refuse(alloc, Refusal::Failed, error),
        break_off(error),
        cannot_open(alloc, &io::Error::from(ErrorKind::NotFound), error),
        cannot_open(alloc, &io::Error::from(ErrorKind::OutOfMemory), error),
        cannot_open(alloc, &io::Error::from(ErrorKind::WouldBlock), error),
    ]
}

/// What is said of them.
const COMPLAINTS: &[u8] = b"refused 9 Failed\nunreadable\nunreadable\nrefused 7 NoMemory\n\
    in use by another process\n";

#[test]
fn what_is_said(rt: HostRuntime) {
    let alloc = rt.alloc();
    assert_same(&rt, &is_printed_alone(&rt, alloc), &true);
    let mut error = Vec::new(alloc);
    let statuses = complaints(alloc, &mut error);
    assert_same(&rt, &(statuses, error.as_slice()), &([1; 5], COMPLAINTS));
    drop(error);
}

/// The status of a line that is too long for an output of five bytes, and what comes there.
fn cut_short<L: Log>(rt: &L, error: &mut Vec<u8>) -> (u8, [u8; 5]) {
    let mut room = [0u8; 5];
    let mut output = room.as_mut_slice();
    let status = print(rt, "formatted 16\n", &mut output, error);
    (status, room)
}

#[test]
fn an_output_that_fails(rt: HostRuntime) {
    let mut error = Vec::new(rt.alloc());
    let printed = cut_short(&rt, &mut error);
    let wanted = (1, *b"forma");
    assert_same(
        &rt,
        &(printed, error.as_slice()),
        &(wanted, b"unreadable\n".as_slice()),
    );
    drop(error);
}

/// Words, and the port and the count of stripes that each of them names.
static WORDS: [(&str, Option<u16>, Option<usize>); 15] = [
    ("65535", Some(65535), None),
    ("+1", Some(1), Some(1)),
    ("0", None, None),
    ("65536", None, None),
    ("", None, None),
    ("-1", None, None),
    (" 7", None, None),
    ("port", None, None),
    ("1", Some(1), Some(1)),
    ("16", Some(16), Some(16)),
    ("256", Some(256), Some(256)),
    ("3", Some(3), None),
    ("512", Some(512), None),
    ("16 ", None, None),
    ("-2", None, None),
];

/// Whether the word names this port, and this count of stripes.
fn names(word: &str, port: Option<u16>, count: Option<usize>) -> bool {
    let stripes = match stripes_named(word) {
        Some(stripes) => Some(stripes.get()),
        None => None,
    };
    port_named(word) == port && stripes == count
}

/// The first word that names something else, if any.
fn first_misread() -> Option<&'static str> {
    for (word, port, count) in &WORDS {
        if !names(word, *port, *count) {
            return Some(*word);
        }
    }
    None
}

#[test]
fn words_that_name_numbers(rt: HostRuntime) {
    assert_same(&rt, &first_misread(), &None);
}
