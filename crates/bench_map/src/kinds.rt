//! The kinds of calls that are measured by keys.

use crate::rates::rate;
use map_types::{Change, Value};
use std::time::Duration;

/// A kind of call.
#[derive(Clone, Copy)]
pub(crate) enum Kind {
    /// A `Put` of a key that isn't there.
    PutNew,
    /// A `Put` of a key that is there.
    PutOld,
    Get,
    Remove,
}

impl Kind {
    /// All kinds, in the order in which they are made: they leave the map empty.
    pub(crate) const ALL: [Kind; 4] = [Kind::PutNew, Kind::PutOld, Kind::Get, Kind::Remove];

    /// The name that its line begins with.
    pub(crate) fn name(self) -> &'static str {
        match self {
            Kind::PutNew => "put-new",
            Kind::PutOld => "put-old",
            Kind::Get => "get",
            Kind::Remove => "remove",
        }
    }

    /// What a call of this kind does to the key of this number, or none if it is a read.
    pub(crate) fn change(self, number: u32) -> Option<Change> {
        match self {
            Kind::PutNew => Some(Change::Put(Value::Int(i64::from(number)))),
            Kind::PutOld => Some(Change::Put(Value::Int(i64::from(number) + 1))),
            Kind::Get => None,
            Kind::Remove => Some(Change::Remove),
        }
    }
}

/// How long one thread took for its calls of each kind.
#[derive(Clone, Copy)]
pub(crate) struct Times {
    put_new: Duration,
    put_old: Duration,
    get: Duration,
    remove: Duration,
}

impl Times {
    /// No time.
    pub(crate) const NONE: Times = Times {
        put_new: Duration::ZERO,
        put_old: Duration::ZERO,
        get: Duration::ZERO,
        remove: Duration::ZERO,
    };

    /// Adds what calls of this kind took.
    pub(crate) fn add(&mut self, kind: Kind, spent: Duration) {
        match kind {
            Kind::PutNew => self.put_new = self.put_new.saturating_add(spent),
            Kind::PutOld => self.put_old = self.put_old.saturating_add(spent),
            Kind::Get => self.get = self.get.saturating_add(spent),
            Kind::Remove => self.remove = self.remove.saturating_add(spent),
        }
    }

    /// The rates, if `calls` calls of each kind were made.
    pub(crate) fn rates(self, calls: u64) -> Rates {
        Rates {
            put_new: rate(calls, self.put_new),
            put_old: rate(calls, self.put_old),
            get: rate(calls, self.get),
            remove: rate(calls, self.remove),
        }
    }
}

/// How many calls of each kind a second.
#[derive(Clone, Copy)]
pub(crate) struct Rates {
    put_new: u128,
    put_old: u128,
    get: u128,
    remove: u128,
}

impl Rates {
    /// No calls.
    pub(crate) const NONE: Rates = Rates {
        put_new: 0,
        put_old: 0,
        get: 0,
        remove: 0,
    };

    /// The rate of this kind.
    pub(crate) fn of(self, kind: Kind) -> u128 {
        match kind {
            Kind::PutNew => self.put_new,
            Kind::PutOld => self.put_old,
            Kind::Get => self.get,
            Kind::Remove => self.remove,
        }
    }

    /// What two threads reach together.
    pub(crate) fn plus(self, other: Rates) -> Rates {
        Rates {
            put_new: self.put_new.saturating_add(other.put_new),
            put_old: self.put_old.saturating_add(other.put_old),
            get: self.get.saturating_add(other.get),
            remove: self.remove.saturating_add(other.remove),
        }
    }

    /// The better of two rounds, kind by kind.
    pub(crate) fn best(self, other: Rates) -> Rates {
        Rates {
            put_new: self.put_new.max(other.put_new),
            put_old: self.put_old.max(other.put_old),
            get: self.get.max(other.get),
            remove: self.remove.max(other.remove),
        }
    }
}
