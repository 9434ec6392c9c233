//! The program `dchm`.
#![tactic(auto)]

use call_text::{MISUSED, cannot_open, say};
use log::{LevelFilter, Logged};
use map_server::{dchm, hold_streams};
use record_queue::{AfterRecords, RecordQueue};
use std::io::ErrorKind;
use std::net::{TcpListener, TcpStream};
use std::process::ExitCode;
use std::{env, io};

/// The words that the program was given.
fn given_words(rt: &HostRuntime) -> io::Result<Vec<String>> {
    let mut words = Vec::new(rt.alloc());
    for word in env::args(rt)? {
        words.push(word)?;
    }
    Ok(words)
}

fn main(rt: HostRuntime) -> io::Result<ExitCode> {
    let mut error = rt.stderr();
    // The first file that is opened.
    let streams = match hold_streams(&rt, &rt, rt.alloc(), &mut error) {
        Ok(streams) => streams,
        Err(status) => return Ok(ExitCode::from(status)),
    };
    let words = match given_words(&rt) {
        Ok(words) => words,
        Err(cause) if cause.kind() == ErrorKind::InvalidData => {
            say(&mut error, "the words have to be UTF-8\n");
            return Ok(ExitCode::from(MISUSED));
        }
        Err(cause) => {
            let status = cannot_open(rt.alloc(), &cause, &mut error);
            return Ok(ExitCode::from(status));
        }
    };
    // The check of `main` covers only types that it names, and the runtime's sockets are among them.
    let _listener: Option<TcpListener> = None;
    let _stream: Option<TcpStream> = None;
    let mut input = rt.reader();
    let records = RecordQueue::new(rt, rt.alloc(), error);
    // The records of a server's start stand before it is said that it listens.
    let mut output = AfterRecords::on_another(&records, io::writer(&rt));
    let status = dchm(
        &Logged::new(rt, LevelFilter::Info, &records),
        &rt,
        &streams,
        rt.alloc(),
        &words,
        &mut input,
        &mut output,
        &mut AfterRecords::on_their_stream(&records, error),
    );
    records.settle();
    Ok(ExitCode::from(status))
}
