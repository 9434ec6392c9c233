//! The ten changes of Java 17's `ConcurrentMap`; each returns once it is durable. What they are
//! refused for is told at `change`.
ghost use Rattle.std.specs.Prelude.{◌≡◌};
ghost use Rattle.map_types.specs.declared.commands.Change.TheVariants.{Put, PutIfAbsent, Remove, RemoveIf, Replace, ReplaceIf, Compute, ComputeIfAbsent, ComputeIfPresent, Merge};
ghost use Rattle.ticket_order.specs.declared.record.Asked.TheVariants.{Changing};
ghost use Rattle.stripe_locks.specs.Passes.{recorded, IsSamePass};
ghost use Rattle.durable_map.specs.Durable.{Completes};
ghost use Rattle.durable_map.specs.Maps.{IsReady, stripe_count};

use crate::map::DurableMap;
use disk_model::Disk;
use map_types::{Change, Command, Func, Key, Refusal, Reply, Value};
use std::sync::Wait;
use stripe_locks::Pass;

impl<D: Disk + Drop> DurableMap<D> {
    /// Java's `put`: the value before, or absent.
    pub fn put<R: Wait>(
        &self,
        rt: &R,
        pass: &mut Pass,
        key: Key,
        value: Value,
    ) -> Result<Reply, Refusal>
        requires { IsReady self.now pass.old }
        ensures completes { Completes (stripe_count self.now) (recorded pass.old)
            (Changing (record { key = key; change = Put value })) result (recorded pass.new) }
        ensures ready { IsReady self.now pass.new }
        ensures same { IsSamePass pass.old pass.new }
    {
        let change = Change::Put(value);
        self.change(rt, pass, Command { key, change })
    }

    /// Java's `putIfAbsent`: the value before, or absent.
    pub fn put_if_absent<R: Wait>(
        &self,
        rt: &R,
        pass: &mut Pass,
        key: Key,
        value: Value,
    ) -> Result<Reply, Refusal>
        requires { IsReady self.now pass.old }
        ensures completes { Completes (stripe_count self.now) (recorded pass.old)
            (Changing (record { key = key; change = PutIfAbsent value })) result
            (recorded pass.new) }
        ensures ready { IsReady self.now pass.new }
        ensures same { IsSamePass pass.old pass.new }
    {
        let change = Change::PutIfAbsent(value);
        self.change(rt, pass, Command { key, change })
    }

    /// Java's `remove(key)`: the value before, or absent.
    pub fn remove<R: Wait>(&self, rt: &R, pass: &mut Pass, key: Key) -> Result<Reply, Refusal>
        requires { IsReady self.now pass.old }
        ensures completes { Completes (stripe_count self.now) (recorded pass.old)
            (Changing (record { key = key; change = Remove })) result (recorded pass.new) }
        ensures ready { IsReady self.now pass.new }
        ensures same { IsSamePass pass.old pass.new }
    {
        let change = Change::Remove;
        self.change(rt, pass, Command { key, change })
    }

    /// Java's `remove(key, value)`: whether it was removed.
    pub fn remove_if<R: Wait>(
        &self,
        rt: &R,
        pass: &mut Pass,
        key: Key,
        value: Value,
    ) -> Result<Reply, Refusal>
        requires { IsReady self.now pass.old }
        ensures completes { Completes (stripe_count self.now) (recorded pass.old)
            (Changing (record { key = key; change = RemoveIf value })) result (recorded pass.new) }
        ensures ready { IsReady self.now pass.new }
        ensures same { IsSamePass pass.old pass.new }
    {
        let change = Change::RemoveIf(value);
        self.change(rt, pass, Command { key, change })
    }

    /// Java's `replace(key, value)`: the value before, or absent.
    pub fn replace<R: Wait>(
        &self,
        rt: &R,
        pass: &mut Pass,
        key: Key,
        value: Value,
    ) -> Result<Reply, Refusal>
        requires { IsReady self.now pass.old }
        ensures completes { Completes (stripe_count self.now) (recorded pass.old)
            (Changing (record { key = key; change = Replace value })) result (recorded pass.new) }
        ensures ready { IsReady self.now pass.new }
        ensures same { IsSamePass pass.old pass.new }
    {
        let change = Change::Replace(value);
        self.change(rt, pass, Command { key, change })
    }

    /// Java's `replace(key, oldValue, newValue)`: whether it was replaced.
    pub fn replace_if<R: Wait>(
        &self,
        rt: &R,
        pass: &mut Pass,
        key: Key,
        old: Value,
        new: Value,
    ) -> Result<Reply, Refusal>
        requires { IsReady self.now pass.old }
        ensures completes { Completes (stripe_count self.now) (recorded pass.old)
            (Changing (record { key = key; change = ReplaceIf old new })) result
            (recorded pass.new) }
        ensures ready { IsReady self.now pass.new }
        ensures same { IsSamePass pass.old pass.new }
    {
        let change = Change::ReplaceIf { old, new };
        self.change(rt, pass, Command { key, change })
    }

    /// Java's `compute`: the value now, or absent.
    pub fn compute<R: Wait>(
        &self,
        rt: &R,
        pass: &mut Pass,
        key: Key,
        func: Func,
        argument: Option<Value>,
    ) -> Result<Reply, Refusal>
        requires { IsReady self.now pass.old }
        ensures completes { Completes (stripe_count self.now) (recorded pass.old)
            (Changing (record { key = key; change = Compute func argument })) result
            (recorded pass.new) }
        ensures ready { IsReady self.now pass.new }
        ensures same { IsSamePass pass.old pass.new }
    {
        let change = Change::Compute(func, argument);
        self.change(rt, pass, Command { key, change })
    }

    /// Java's `computeIfAbsent`: the value now, or absent.
    pub fn compute_if_absent<R: Wait>(
        &self,
        rt: &R,
        pass: &mut Pass,
        key: Key,
        func: Func,
        argument: Option<Value>,
    ) -> Result<Reply, Refusal>
        requires { IsReady self.now pass.old }
        ensures completes { Completes (stripe_count self.now) (recorded pass.old)
            (Changing (record { key = key; change = ComputeIfAbsent func argument })) result
            (recorded pass.new) }
        ensures ready { IsReady self.now pass.new }
        ensures same { IsSamePass pass.old pass.new }
    {
        let change = Change::ComputeIfAbsent(func, argument);
        self.change(rt, pass, Command { key, change })
    }

    /// Java's `computeIfPresent`: the value now, or absent.
    pub fn compute_if_present<R: Wait>(
        &self,
        rt: &R,
        pass: &mut Pass,
        key: Key,
        func: Func,
        argument: Option<Value>,
    ) -> Result<Reply, Refusal>
        requires { IsReady self.now pass.old }
        ensures completes { Completes (stripe_count self.now) (recorded pass.old)
            (Changing (record { key = key; change = ComputeIfPresent func argument })) result
            (recorded pass.new) }
        ensures ready { IsReady self.now pass.new }
        ensures same { IsSamePass pass.old pass.new }
    {
        let change = Change::ComputeIfPresent(func, argument);
        self.change(rt, pass, Command { key, change })
    }

    /// Java's `merge`: the value now, or absent.
    pub fn merge<R: Wait>(
        &self,
        rt: &R,
        pass: &mut Pass,
        key: Key,
        func: Func,
        value: Value,
    ) -> Result<Reply, Refusal>
        requires { IsReady self.now pass.old }
        ensures completes { Completes (stripe_count self.now) (recorded pass.old)
            (Changing (record { key = key; change = Merge func value })) result
            (recorded pass.new) }
        ensures ready { IsReady self.now pass.new }
        ensures same { IsSamePass pass.old pass.new }
    {
        let change = Change::Merge(func, value);
        self.change(rt, pass, Command { key, change })
    }
}
