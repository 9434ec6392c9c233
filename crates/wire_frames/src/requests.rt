//! Requests out of the bytes of a frame.

ghost use Rattle.std.specs.Prelude.{◌≡◌, ◌↔◌, IsTrue};
ghost use Rattle.log_records.specs.Reading.{Gives, Reads};
ghost use Rattle.wire_frames.specs.Requests.{HasBulkMethod, HasCountMethod, IsBulkMethod, ReadIsSpelled, SpelledIsRead, change_at, get_or_default_at, question_at, reduce_at, reduces, reducing_at, request_at, request_of, search_at};

use log_records::{Version, func_at, key_at, laws, number_at, record_at, some_value_at};
use map_types::{Command, Func, Question, Read, Refusal, Value};
use std::alloc::Global;

/// How many bytes a threshold takes: it has 64 bits.
pub(crate) const THRESHOLD_WIDTH: usize = 8;

/// The method that asks for a key's value. The methods of a question have numbers below those of a
/// record.
pub(crate) const GET: u8 = 1;

/// The method that asks for a key's value, or for a default value if the key is absent.
pub(crate) const GET_OR_DEFAULT: u8 = 2;

/// The method that asks whether a key is mapped.
pub(crate) const CONTAINS_KEY: u8 = 3;

/// The method that counts. The methods of the whole map have numbers from 32 on, above those of a
/// record.
pub(crate) const COUNT: u8 = 32;

/// The method that reduces.
pub(crate) const REDUCE: u8 = 33;

/// The method that searches.
pub(crate) const SEARCH: u8 = 34;

/// What a peer asks of the whole map. The number is a threshold: on a map with fewer entries one
/// thread works. The threshold never changes the result.
#[derive(Debug, Drop)]
pub enum Bulk {
    /// The count of the entries.
    Count,
    /// The values, folded by the function. A function that was read is `Sum`, `Max` or `Min`.
    Reduce(Func, u64),
    /// The least key with this value.
    Search(u64, Value),
}

/// What a peer asks.
#[derive(Debug, Drop)]
pub enum Request {
    Change(Command),
    Read(Read),
    Bulk(Bulk),
}

/// A key and a default value.
#[tactic(auto, unfolding(crate::specs::Requests::get_or_default_at))]
fn get_or_default_at(alloc: Global, bytes: &[u8]) -> Result<(Request, &[u8]), Refusal>
    ensures { Gives (λ x. (x.0, x.1.now)) result (get_or_default_at bytes.now) }
{
    let (key, rest) = key_at(Version::Second, alloc, bytes)?;
    let (value, rest) = some_value_at(alloc, rest)?;
    let question = Question::GetOrDefault(value);
    Ok((Request::Read(Read { key, question }), rest))
}

/// A key alone.
#[tactic(auto, unfolding(crate::specs::Requests::question_at))]
fn question_at(alloc: Global, question: Question, bytes: &[u8]) -> Result<(Request, &[u8]), Refusal>
    ensures { Gives (λ x. (x.0, x.1.now)) result (question_at question bytes.now) }
{
    let (key, rest) = key_at(Version::Second, alloc, bytes)?;
    Ok((Request::Read(Read { key, question }), rest))
}

/// A record.
#[tactic(auto, unfolding(crate::specs::Requests::change_at))]
fn change_at(alloc: Global, bytes: &[u8]) -> Result<(Request, &[u8]), Refusal>
    ensures { Gives (λ x. (x.0, x.1.now)) result (change_at bytes.now) }
{
    let (command, rest) = record_at(Version::Second, alloc, bytes)?;
    Ok((Request::Change(command), rest))
}

/// Whether a map is reduced by the function.
fn reduces(func: Func) -> bool
    ensures { result ≡ reduces func }
{
    matches!(func, Func::Sum | Func::Max | Func::Min)
}

/// A function that a map is reduced by; `UnknownFunction` for each other.
#[tactic(auto, unfolding(crate::specs::Requests::reducing_at))]
fn reducing_at(bytes: &[u8]) -> Result<(Func, &[u8]), Refusal>
    ensures { Reads (λ x. (x.0, x.1.now)) result (reducing_at bytes.now) }
{
    let (func, rest) = func_at(bytes)?;
    if !reduces(func) {
        return Err(Refusal::UnknownFunction);
    }
    Ok((func, rest))
}

/// A function and a threshold.
#[tactic(auto, unfolding(crate::specs::Requests::reduce_at))]
fn reduce_at(bytes: &[u8]) -> Result<(Request, &[u8]), Refusal>
    ensures { Reads (λ x. (x.0, x.1.now)) result (reduce_at bytes.now) }
{
    let (func, rest) = reducing_at(bytes)?;
    let (threshold, rest) = number_at(THRESHOLD_WIDTH, rest)?;
    Ok((Request::Bulk(Bulk::Reduce(func, threshold)), rest))
}

/// A threshold and a value.
#[tactic(auto, unfolding(crate::specs::Requests::search_at))]
fn search_at(alloc: Global, bytes: &[u8]) -> Result<(Request, &[u8]), Refusal>
    ensures { Gives (λ x. (x.0, x.1.now)) result (search_at bytes.now) }
{
    let (threshold, rest) = number_at(THRESHOLD_WIDTH, bytes)?;
    let (value, rest) = some_value_at(alloc, rest)?;
    Ok((Request::Bulk(Bulk::Search(threshold, value)), rest))
}

/// A method and its arguments.
#[tactic(auto, unfolding(crate::specs::Requests::request_at))]
fn request_at(alloc: Global, bytes: &[u8]) -> Result<(Request, &[u8]), Refusal>
    ensures { Gives (λ x. (x.0, x.1.now)) result (request_at bytes.now) }
{
    let Some((method, rest)) = bytes.split_first() else {
        return Err(Refusal::BadFrame);
    };
    match *method {
        GET => question_at(alloc, Question::Get, rest),
        GET_OR_DEFAULT => get_or_default_at(alloc, rest),
        CONTAINS_KEY => question_at(alloc, Question::ContainsKey, rest),
        COUNT => Ok((Request::Bulk(Bulk::Count), rest)),
        REDUCE => reduce_at(rest),
        SEARCH => search_at(alloc, rest),
        _ => change_at(alloc, bytes),
    }
}

/// Whether it is the method of a request of the whole map.
#[tactic(auto, using(crate::proofs::BulkFrames::bulk_methods, crate::proofs::BulkFrames::is_count, crate::proofs::BulkFrames::is_reduce, crate::proofs::BulkFrames::is_search))]
fn is_bulk_method(method: u8) -> bool
    ensures { IsTrue result ↔ IsBulkMethod method }
{
    method == COUNT || method == REDUCE || method == SEARCH
}

/// Whether the bytes of a frame behind its length begin with the method of a request of the whole
/// map.
pub(crate) fn has_bulk_method(body: &[u8]) -> bool
    ensures { IsTrue result ↔ HasBulkMethod body.now }
{
    let Some((method, _)) = body.split_first() else {
        return false;
    };
    is_bulk_method(*method)
}

/// Whether the bytes of a frame behind its length begin with the method of a count.
pub(crate) fn has_count_method(body: &[u8]) -> bool
    ensures { IsTrue result ↔ HasCountMethod body.now }
{
    let Some((method, _)) = body.split_first() else {
        return false;
    };
    *method == COUNT
}

/// The request that the bytes of a frame behind its length say, or the first refusal that is met
/// from left to right. It is `NoMemory` if no memory is found for the request.
#[tactic(auto, unfolding(crate::specs::Requests::request_of))]
pub fn read_request(alloc: Global, bytes: &[u8]) -> Result<Request, Refusal>
    ensures { Gives (λ request. request) result (request_of bytes.now) }
{
    let (request, rest) = request_at(alloc, bytes)?;
    if !rest.is_empty() {
        return Err(Refusal::BadFrame);
    }
    Ok(request)
}

/// What is read is spelled so, and what is spelled so is read: a request has one spelling, and no
/// bytes are two requests.
pub fn requests_agree()
    ensures read { ReadIsSpelled }
    ensures spelled { SpelledIsRead }
{
    laws::fields_agree();
    laws::record_agrees();
}
