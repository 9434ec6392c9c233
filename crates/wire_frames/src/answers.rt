//! Replies out of the bytes of a frame.

ghost use Rattle.std.specs.Prelude.{◌≡◌, ◌≢◌, Bool, pos, IfSome, IfOk, Some, MatchResult, Option, List, ℕ};
ghost use Rattle.std.specs.Int.{from_bool};
ghost use Rattle.map_types.specs.declared.refusals.Refusal.{Refusal};
ghost use Rattle.map_types.specs.declared.refusals.Refusal.TheVariants as refusal_type;
ghost use Rattle.map_types.specs.declared.texts.Value.{Value};
ghost use Rattle.map_types.specs.declared.texts.Value.TheVariants.{Int};
ghost use Rattle.map_types.specs.declared.commands.FuncError.{FuncError};
ghost use Rattle.map_types.specs.Numbers.{fault_number};
ghost use Rattle.map_types.specs.Refusals.{refusal_number};
ghost use Rattle.log_records.specs.Spelling.{IsArgument, value_bytes};
ghost use Rattle.wire_frames.specs.declared.answers.AnswerError.TheVariants.{NoMemory, NotAReply};
ghost use Rattle.wire_frames.specs.Answers.{Answer, AreParts, IsPlain, IsReply};

use crate::replies::{DID, FAULT, NOW, REFUSED, WAS};
use log_records::{laws, value_at};
use map_types::{FuncError, Refusal, Reply, Value};
use std::alloc::Global;
use thiserror::Error;

/// Why bytes are not read as a reply.
#[derive(Clone, Copy, Debug, PartialEq, Eq, Error)]
pub enum AnswerError {
    #[error("not a reply")]
    NotAReply,
    #[error("no memory was found for the reply")]
    NoMemory,
}

/// Why a value that was refused so is not read.
fn unread(refusal: Refusal) -> AnswerError
    ensures memory { refusal ≡ refusal_type.NoMemory → result ≡ NoMemory }
    ensures other { refusal ≢ refusal_type.NoMemory → result ≡ NotAReply }
{
    match refusal {
        Refusal::NoMemory => AnswerError::NoMemory,
        _ => AnswerError::NotAReply,
    }
}

/// A value or absent, and nothing behind it.
fn value_of(alloc: Global, bytes: &[u8]) -> Result<Option<Value>, AnswerError>
    ensures fits { IfOk result IsArgument }
    ensures found { IfOk result (λ value. bytes.now ≡ value_bytes value) }
    ensures only { (value : Option Value) → IsArgument value → bytes.now ≡ value_bytes value →
        MatchResult result (λ found. found ≡ value) (λ error. error ≡ NoMemory) }
{
    laws::fields_agree();
    match value_at(alloc, bytes) {
        Ok((value, [])) => Ok(value),
        Ok(_) => Err(AnswerError::NotAReply),
        Err(refusal) => Err(unread(refusal)),
    }
}

/// What `Did` says.
fn done_of(value: &Option<Value>) -> Option<bool>
    ensures found { IfSome result (λ done. value.now ≡ Some (Int (pos (from_bool done)))) }
    ensures only { (done : Bool) → value.now ≡ Some (Int (pos (from_bool done)))
        → result ≡ Some done }
{
    match value {
        Some(Value::Int(0)) => Some(false),
        Some(Value::Int(1)) => Some(true),
        _ => None,
    }
}

/// What `Fault` says.
fn fault_of(value: &Option<Value>) -> Option<FuncError>
    ensures found { IfSome result (λ fault. value.now ≡ Some (Int (pos (fault_number fault)))) }
    ensures only { (fault : FuncError) → value.now ≡ Some (Int (pos (fault_number fault)))
        → result ≡ Some fault }
{
    match value {
        Some(Value::Int(1)) => Some(FuncError::WrongKind),
        Some(Value::Int(2)) => Some(FuncError::TooLong),
        Some(Value::Int(3)) => Some(FuncError::Overflow),
        _ => None,
    }
}

/// The refusal of a number. Those that name a stripe or a file have none: a reply doesn't say which.
fn refusal_of(number: u8) -> Option<Refusal>
    ensures found { IfSome result (λ refusal. number ≡ refusal_number refusal) }
    ensures plain { IfSome result IsPlain }
    ensures only { (refusal : Refusal) → IsPlain refusal → number ≡ refusal_number refusal
        → result ≡ Some refusal }
{
    match number {
        1 => Some(Refusal::NullValue),
        2 => Some(Refusal::KeyTooLong),
        3 => Some(Refusal::ValueTooLong),
        4 => Some(Refusal::UnknownMethod),
        5 => Some(Refusal::UnknownFunction),
        6 => Some(Refusal::BadFrame),
        7 => Some(Refusal::NoMemory),
        9 => Some(Refusal::Failed),
        10 => Some(Refusal::TicketsSpent),
        11 => Some(Refusal::NotFormatted),
        13 => Some(Refusal::WrongVersion),
        14 => Some(Refusal::LogFull),
        15 => Some(Refusal::AlreadyFormatted),
        16 => Some(Refusal::WrongPhase),
        17 => Some(Refusal::TooEarly),
        18 => Some(Refusal::NotText),
        19 => Some(Refusal::SeatsSpent),
        _ => None,
    }
}

/// The refusal of a status; its value is absent.
fn refused_of(status: u8, value: &Option<Value>) -> Option<Refusal>
    ensures found { IfSome result (λ refusal. AreParts status value.now (Err refusal)) }
    ensures only { (refusal : Refusal) → AreParts status value.now (Err refusal)
        → result ≡ Some refusal }
{
    if value.is_some() || status < REFUSED {
        return None;
    }
    refusal_of(status - REFUSED)
}

/// The answer of a status and a value.
fn answer_of(status: u8, value: Option<Value>) -> Option<Result<Reply, Refusal>>
    requires { IsArgument value }
    ensures found { IfSome result (λ answer. AreParts status value answer) }
    ensures only { (answer : Answer) → AreParts status value answer → result ≡ Some answer }
{
    match status {
        WAS => Some(Ok(Reply::Was(value))),
        NOW => Some(Ok(Reply::Now(value))),
        DID => Some(Ok(Reply::Did(done_of(&value)?))),
        FAULT => Some(Ok(Reply::Fault(fault_of(&value)?))),
        _ => Some(Err(refused_of(status, &value)?)),
    }
}

/// The reply or the refusal that the bytes of a frame behind its length say. A refusal that names a
/// stripe or a file is none, since a reply doesn't say which.
pub fn read_answer(alloc: Global, body: &[u8]) -> Result<Result<Reply, Refusal>, AnswerError>
    ensures found { IfOk result (λ answer. IsReply body.now answer) }
    ensures only { (answer : Answer) → IsReply body.now answer
        → MatchResult result (λ found. found ≡ answer) (λ error. error ≡ NoMemory) }
{
    let Some((status, rest)) = body.split_first() else {
        return Err(AnswerError::NotAReply);
    };
    let value = value_of(alloc, rest)?;
    match answer_of(*status, value) {
        Some(answer) => Ok(answer),
        None => Err(AnswerError::NotAReply),
    }
}
