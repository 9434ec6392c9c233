//! Requests as frames.

ghost use Rattle.std.specs.Prelude.{◌≡◌, ◌≤◌, ◌+◌, ◌*◌, ◌++◌, length, OnOk, IfOk, IfErr};
ghost use Rattle.map_types.specs.declared.refusals.Refusal.TheVariants.{NoMemory};
ghost use Rattle.log_records.specs.Layout.{most_value_bytes};
ghost use Rattle.wire_frames.specs.Messages.{frame};
ghost use Rattle.wire_frames.specs.Requests.{argument_bytes, question_number, request_bytes, wire_layout};

use crate::requests::{
    Bulk, CONTAINS_KEY, COUNT, GET, GET_OR_DEFAULT, REDUCE, Request, SEARCH, THRESHOLD_WIDTH,
};
use log_records::{Version, encode, put_key, put_number, put_value, record_len};
use map_types::{Question, Read, Refusal};
use std::alloc::Global;

fn number_of(question: &Question) -> u8
    ensures { result ≡ question_number question.now }
{
    match question {
        Question::Get => GET,
        Question::GetOrDefault(_) => GET_OR_DEFAULT,
        Question::ContainsKey => CONTAINS_KEY,
    }
}

/// Puts what a question takes at the end.
fn put_argument(question: &Question, out: &mut Vec<u8>) -> Result<(), Refusal>
    ensures ok { OnOk result (out.new.items ≡ out.old.items ++ argument_bytes question.now) }
    ensures bound { OnOk result (length (argument_bytes question.now) ≤ most_value_bytes) }
    ensures err { IfErr result (λ refusal. refusal ≡ NoMemory) }
{
    match question {
        Question::Get => Ok(()),
        Question::GetOrDefault(value) => put_value(value, out),
        Question::ContainsKey => Ok(()),
    }
}

/// Puts a question about a key at the end.
fn put_read(read: &Read, out: &mut Vec<u8>) -> Result<(), Refusal>
    ensures ok { OnOk result
        (out.new.items ≡ out.old.items ++ request_bytes (Request.Read read.now)) }
    ensures bound { OnOk result (length (request_bytes (Request.Read read.now))
        ≤ 1 + wire_layout.key_width + wire_layout.key_limit + most_value_bytes) }
    ensures err { IfErr result (λ refusal. refusal ≡ NoMemory) }
{
    // Each key is within the limit of requests.
    let _key = read.key.as_str();
    out.push(number_of(&read.question))?;
    put_key(Version::Second, &read.key, out)?;
    put_argument(&read.question, out)
}

/// Puts a call of the whole map at the end.
fn put_bulk(bulk: &Bulk, out: &mut Vec<u8>) -> Result<(), Refusal>
    ensures ok { OnOk result
        (out.new.items ≡ out.old.items ++ request_bytes (Request.Bulk bulk.now)) }
    ensures bound { OnOk result
        (length (request_bytes (Request.Bulk bulk.now)) ≤ 9 + most_value_bytes) }
    ensures err { IfErr result (λ refusal. refusal ≡ NoMemory) }
{
    match bulk {
        Bulk::Count => Ok(out.push(COUNT)?),
        Bulk::Reduce(func, threshold) => {
            out.push(REDUCE)?;
            out.push(func.number())?;
            Ok(put_number(THRESHOLD_WIDTH, *threshold, out)?)
        }
        Bulk::Search(threshold, value) => {
            out.push(SEARCH)?;
            put_number(THRESHOLD_WIDTH, *threshold, out)?;
            put_value(value, out)
        }
    }
}

/// Puts a request at the end.
fn put_request(request: &Request, out: &mut Vec<u8>) -> Result<(), Refusal>
    ensures ok { OnOk result (out.new.items ≡ out.old.items ++ request_bytes request.now) }
    ensures bound { OnOk result (length (request_bytes request.now)
        ≤ 1 + wire_layout.key_width + wire_layout.key_limit + 2 * most_value_bytes) }
    ensures err { IfErr result (λ refusal. refusal ≡ NoMemory) }
{
    match request {
        Request::Read(read) => put_read(read, out),
        Request::Change(command) => {
            let _key = command.key.as_str();
            let _len = record_len(Version::Second, command);
            encode(Version::Second, command, out)
        }
        Request::Bulk(bulk) => put_bulk(bulk, out),
    }
}

/// The whole frame of a request: its length in two bytes, and its one spelling. It is refused only
/// if no memory is found.
pub fn request_frame(alloc: Global, request: &Request) -> Result<Vec<u8>, Refusal>
    ensures ok { IfOk result (λ bytes. bytes.items ≡ frame (request_bytes request.now)) }
    ensures err { IfErr result (λ refusal. refusal ≡ NoMemory) }
{
    let mut bytes = Vec::new(alloc);
    bytes.extend_from_slice(&[0, 0])?;
    put_request(request, &mut bytes)?;
    let len = (bytes.len() - 2) as u16;
    let [high, low] = len.to_be_bytes();
    bytes[0] = high;
    bytes[1] = low;
    Ok(bytes)
}
