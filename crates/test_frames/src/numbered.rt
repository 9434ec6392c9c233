//! Calls that are numbered.
use connections::Calls;
use map_types::{Change, Refusal, Reply, Value};
use std::alloc::Global;
use wire_frames::Request;

/// A put that was begun: the number of its call, and the number that it puts.
#[derive(Drop)]
pub(crate) struct Begun {
    call: u64,
    value: i64,
}

/// Calls that are numbered as they are begun, may be finished up to a number, and answer each put
/// with its own value.
#[derive(Drop)]
pub(crate) struct Numbered {
    pub(crate) begun: u64,
    pub(crate) settled: u64,
    pub(crate) given_up: Vec<u64>,
}

impl Numbered {
    pub(crate) fn new(alloc: Global) -> Numbered {
        Numbered {
            begun: 0,
            settled: 0,
            given_up: Vec::new(alloc),
        }
    }
}

/// The number that a request puts; nothing of any other request.
pub(crate) fn number_put(request: &Request) -> Option<i64> {
    match request {
        Request::Change(command) => match &command.change {
            Change::Put(Value::Int(number)) => Some(*number),
            _ => None,
        },
        _ => None,
    }
}

impl Calls for Numbered {
    type Held = Begun;

    ghost began = { λ _ _ _ _. Unit {0} };

    ghost finished = { λ _ _ _ _. Unit {0} };

    ghost gave_up = { λ _ _ _. Unit {0} };

    ghost owns = { λ _ _. Unit {0} };

    fn begin(&mut self, request: Request) -> Result<Begun, Refusal> {
        let put = number_put(&request);
        drop(request);
        let Some(value) = put else {
            return Err(Refusal::UnknownMethod);
        };
        self.begun = self.begun.wrapping_add(1);
        Ok(Begun {
            call: self.begun,
            value,
        })
    }

    fn may_finish(&self, held: &Begun) -> bool {
        held.call <= self.settled
    }

    fn awaits(&self, held: &Begun) -> Option<u64> {
        Some(held.call)
    }

    fn finish(&mut self, held: Begun) -> Result<Reply, Refusal> {
        Ok(Reply::Was(Some(Value::Int(held.value))))
    }

    fn give_up(&mut self, held: Begun) {
        let _noted = self.given_up.push(held.call);
    }
}
