//! What a change does to the value of its key, and what a read returns of it.
ghost use Rattle.std.specs.Prelude.{◌≡◌, IfOk, IfErr};
ghost use Rattle.std.specs.Option.{option_copied};
ghost use Rattle.named_functions.specs.Functions.{apply};
ghost use Rattle.map_model.specs.Steps.{outcome, computed, is_value, answer_at};

use map_types::{Change, Func, Question, Refusal, Reply, Value};
use named_functions::{apply, copied};
use std::alloc::Global;

/// The key's value after a change, or absent, and the reply.
#[derive(Debug, Drop)]
pub struct Outcome {
    pub value: Option<Value>,
    pub reply: Reply,
}

impl Outcome {
    /// What the change makes of the old value of its key, or absent. Refuses with `NoMemory` alone.
    pub fn of(alloc: Global, old: Option<&Value>, change: &Change) -> Result<Outcome, Refusal>
        ensures ok { IfOk result (λ after. after ≡ outcome (option_copied old.entry) change.now) }
        ensures err { IfErr result (λ refusal. refusal ≡ Refusal.NoMemory) }
    {
        match change {
            Change::Put(value) => Outcome::was(old, Some(value)),
            Change::PutIfAbsent(value) => match old {
                None => Outcome::was(old, Some(value)),
                Some(_) => Outcome::was(old, old),
            },
            Change::Remove => Outcome::was(old, None),
            Change::RemoveIf(value) => {
                let done = is_value(old, value);
                Outcome::did(done, if done { None } else { old })
            }
            Change::Replace(value) => match old {
                None => Outcome::was(old, None),
                Some(_) => Outcome::was(old, Some(value)),
            },
            Change::ReplaceIf { old: expected, new } => {
                let done = is_value(old, expected);
                Outcome::did(done, if done { Some(new) } else { old })
            }
            Change::Compute(func, arg) => Outcome::computed(alloc, *func, old, arg.as_ref()),
            Change::ComputeIfAbsent(func, arg) => match old {
                None => Outcome::computed(alloc, *func, None, arg.as_ref()),
                Some(_) => Outcome::now(old),
            },
            Change::ComputeIfPresent(func, arg) => match old {
                None => Outcome::now(None),
                Some(_) => Outcome::computed(alloc, *func, old, arg.as_ref()),
            },
            Change::Merge(func, value) => match old {
                None => Outcome::now(Some(value)),
                Some(_) => Outcome::computed(alloc, *func, old, Some(value)),
            },
        }
    }

    /// The value becomes `value`, and the reply is the old one.
    fn was(old: Option<&Value>, value: Option<&Value>) -> Result<Outcome, Refusal>
        ensures ok { IfOk result (λ after.
            after ≡ record {
              value = option_copied value.entry;
              reply = Reply.Was (option_copied old.entry);
            }) }
        ensures err { IfErr result (λ refusal. refusal ≡ Refusal.NoMemory) }
    {
        Ok(Outcome {
            value: copied(value)?,
            reply: Reply::Was(copied(old)?),
        })
    }

    /// The value becomes `value`, and is the reply.
    fn now(value: Option<&Value>) -> Result<Outcome, Refusal>
        ensures ok { IfOk result (λ after.
            after ≡ record {
              value = option_copied value.entry;
              reply = Reply.Now (option_copied value.entry);
            }) }
        ensures err { IfErr result (λ refusal. refusal ≡ Refusal.NoMemory) }
    {
        Ok(Outcome {
            value: copied(value)?,
            reply: Reply::Now(copied(value)?),
        })
    }

    /// The value becomes `value`, and the reply is whether the change was made.
    fn did(done: bool, value: Option<&Value>) -> Result<Outcome, Refusal>
        ensures ok { IfOk result (λ after.
            after ≡ record { value = option_copied value.entry; reply = Reply.Did done }) }
        ensures err { IfErr result (λ refusal. refusal ≡ Refusal.NoMemory) }
    {
        Ok(Outcome {
            value: copied(value)?,
            reply: Reply::Did(done),
        })
    }

    /// The value becomes what the function gives, and is the reply; at a fault it stays.
    fn computed(
        alloc: Global,
        func: Func,
        old: Option<&Value>,
        arg: Option<&Value>,
    ) -> Result<Outcome, Refusal>
        ensures ok { IfOk result (λ after.
            after ≡ computed (option_copied old.entry) (apply func (option_copied old.entry)
            (option_copied arg.entry))) }
        ensures err { IfErr result (λ refusal. refusal ≡ Refusal.NoMemory) }
    {
        match apply(alloc, func, old, arg)? {
            Ok(value) => Outcome::now(value.as_ref()),
            Err(fault) => Ok(Outcome {
                value: copied(old)?,
                reply: Reply::Fault(fault),
            }),
        }
    }
}

/// The reply to a read of a key with this value, or with none. Refuses with `NoMemory` alone.
pub fn answer_at(value: Option<&Value>, question: &Question) -> Result<Reply, Refusal>
    ensures ok { IfOk result (λ reply. reply ≡ answer_at (option_copied value.entry) question.now) }
    ensures err { IfErr result (λ refusal. refusal ≡ Refusal.NoMemory) }
{
    match question {
        Question::Get => Ok(Reply::Now(copied(value)?)),
        Question::GetOrDefault(default) => match value {
            None => Ok(Reply::Now(copied(Some(default))?)),
            Some(_) => Ok(Reply::Now(copied(value)?)),
        },
        Question::ContainsKey => Ok(Reply::Did(value.is_some())),
    }
}

/// Whether there is a value, and it equals `value`.
fn is_value(old: Option<&Value>, value: &Value) -> bool
    ensures { result ≡ is_value (option_copied old.entry) value.now }
{
    match old {
        None => false,
        Some(old) => old.is_same(value),
    }
}
