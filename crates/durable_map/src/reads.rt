//! The three reads of Java 17's `ConcurrentMap`; each returns once what it has seen is durable.
//! What they are refused for is told at `read`.
ghost use Rattle.std.specs.Prelude.{◌≡◌};
ghost use Rattle.map_types.specs.declared.commands.Question.TheVariants.{Get, GetOrDefault, ContainsKey};
ghost use Rattle.ticket_order.specs.declared.record.Asked.TheVariants.{Reading};
ghost use Rattle.stripe_locks.specs.Passes.{recorded, IsSamePass};
ghost use Rattle.durable_map.specs.Durable.{Completes};
ghost use Rattle.durable_map.specs.Maps.{IsReady, stripe_count};

use crate::map::DurableMap;
use disk_model::Disk;
use map_types::{Key, Question, Read, Refusal, Reply, Value};
use std::sync::Wait;
use stripe_locks::Pass;

impl<D: Disk + Drop> DurableMap<D> {
    /// Java's `get`: the value now, or absent.
    pub fn get<R: Wait>(&self, rt: &R, pass: &mut Pass, key: Key) -> Result<Reply, Refusal>
        requires { IsReady self.now pass.old }
        ensures completes { Completes (stripe_count self.now) (recorded pass.old)
            (Reading (record { key = key; question = Get })) result (recorded pass.new) }
        ensures ready { IsReady self.now pass.new }
        ensures same { IsSamePass pass.old pass.new }
    {
        let question = Question::Get;
        self.read(rt, pass, Read { key, question })
    }

    /// Java's `getOrDefault`: the value now, or the default.
    pub fn get_or_default<R: Wait>(
        &self,
        rt: &R,
        pass: &mut Pass,
        key: Key,
        default: Value,
    ) -> Result<Reply, Refusal>
        requires { IsReady self.now pass.old }
        ensures completes { Completes (stripe_count self.now) (recorded pass.old)
            (Reading (record { key = key; question = GetOrDefault default })) result
            (recorded pass.new) }
        ensures ready { IsReady self.now pass.new }
        ensures same { IsSamePass pass.old pass.new }
    {
        let question = Question::GetOrDefault(default);
        self.read(rt, pass, Read { key, question })
    }

    /// Java's `containsKey`: whether the key is mapped.
    pub fn contains_key<R: Wait>(&self, rt: &R, pass: &mut Pass, key: Key) -> Result<Reply, Refusal>
        requires { IsReady self.now pass.old }
        ensures completes { Completes (stripe_count self.now) (recorded pass.old)
            (Reading (record { key = key; question = ContainsKey })) result (recorded pass.new) }
        ensures ready { IsReady self.now pass.new }
        ensures same { IsSamePass pass.old pass.new }
    {
        let question = Question::ContainsKey;
        self.read(rt, pass, Read { key, question })
    }
}
