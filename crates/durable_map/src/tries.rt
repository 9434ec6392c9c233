//! Calls that don't wait, neither for their stripe nor for their position: the reply is held until
//! `release` gives it out.
ghost use Rattle.std.specs.Prelude.{◌≡◌};
ghost use Rattle.map_types.specs.declared.commands.Change.TheVariants.{Put, PutIfAbsent, Remove, RemoveIf, Replace, ReplaceIf, Compute, ComputeIfAbsent, ComputeIfPresent, Merge};
ghost use Rattle.map_types.specs.declared.commands.Question.TheVariants.{Get, GetOrDefault, ContainsKey};
ghost use Rattle.ticket_order.specs.declared.record.Asked.TheVariants.{Changing, Reading};
ghost use Rattle.stripe_locks.specs.Passes.{recorded, IsSamePass};
ghost use Rattle.durable_map.specs.Durable.{Tries};
ghost use Rattle.durable_map.specs.Maps.{IsReady};

use crate::map::DurableMap;
use disk_model::Disk;
use map_types::{Change, Command, Func, Key, Question, Read, Refusal, Value};
use stripe_locks::{Held, Pass};

impl<D: Disk + Drop> DurableMap<D> {
    /// Makes a change, unless another pass holds the stripe of its key (`Busy`), or the key is above
    /// the limit (`KeyTooLong`). `Failed` if the
    /// store has failed, `TicketsSpent` if 2^62 changes were made, and `NoMemory`: then nothing was
    /// changed.
    pub fn try_change(&self, pass: &mut Pass, command: Command) -> Result<Held, Refusal>
        requires { IsReady self.now pass.old }
        ensures tries { Tries self.now (recorded pass.old) (Changing command) result
            (recorded pass.new) }
        ensures ready { IsReady self.now pass.new }
        ensures same { IsSamePass pass.old pass.new }
    {
        let tried = self.stripes.try_call(pass, command);
        self.stripes.wake_keeper();
        tried
    }

    /// Makes a read, unless another pass holds the stripe of its key (`Busy`). `Failed` if the
    /// store has failed, and `NoMemory`.
    pub fn try_read(&self, pass: &mut Pass, read: Read) -> Result<Held, Refusal>
        requires { IsReady self.now pass.old }
        ensures tries { Tries self.now (recorded pass.old) (Reading read) result
            (recorded pass.new) }
        ensures ready { IsReady self.now pass.new }
        ensures same { IsSamePass pass.old pass.new }
    {
        self.stripes.try_read(pass, read)
    }

    /// `put`, held until it is released.
    pub fn try_put(&self, pass: &mut Pass, key: Key, value: Value) -> Result<Held, Refusal>
        requires { IsReady self.now pass.old }
        ensures tries { Tries self.now (recorded pass.old)
            (Changing (record { key = key; change = Put value })) result (recorded pass.new) }
        ensures ready { IsReady self.now pass.new }
        ensures same { IsSamePass pass.old pass.new }
    {
        let change = Change::Put(value);
        self.try_change(pass, Command { key, change })
    }

    /// `put_if_absent`, held until it is released.
    pub fn try_put_if_absent(
        &self,
        pass: &mut Pass,
        key: Key,
        value: Value,
    ) -> Result<Held, Refusal>
        requires { IsReady self.now pass.old }
        ensures tries { Tries self.now (recorded pass.old)
            (Changing (record { key = key; change = PutIfAbsent value })) result
            (recorded pass.new) }
        ensures ready { IsReady self.now pass.new }
        ensures same { IsSamePass pass.old pass.new }
    {
        let change = Change::PutIfAbsent(value);
        self.try_change(pass, Command { key, change })
    }

    /// `remove`, held until it is released.
    pub fn try_remove(&self, pass: &mut Pass, key: Key) -> Result<Held, Refusal>
        requires { IsReady self.now pass.old }
        ensures tries { Tries self.now (recorded pass.old)
            (Changing (record { key = key; change = Remove })) result (recorded pass.new) }
        ensures ready { IsReady self.now pass.new }
        ensures same { IsSamePass pass.old pass.new }
    {
        let change = Change::Remove;
        self.try_change(pass, Command { key, change })
    }

    /// `remove_if`, held until it is released.
    pub fn try_remove_if(&self, pass: &mut Pass, key: Key, value: Value) -> Result<Held, Refusal>
        requires { IsReady self.now pass.old }
        ensures tries { Tries self.now (recorded pass.old)
            (Changing (record { key = key; change = RemoveIf value })) result (recorded pass.new) }
        ensures ready { IsReady self.now pass.new }
        ensures same { IsSamePass pass.old pass.new }
    {
        let change = Change::RemoveIf(value);
        self.try_change(pass, Command { key, change })
    }

    /// `replace`, held until it is released.
    pub fn try_replace(&self, pass: &mut Pass, key: Key, value: Value) -> Result<Held, Refusal>
        requires { IsReady self.now pass.old }
        ensures tries { Tries self.now (recorded pass.old)
            (Changing (record { key = key; change = Replace value })) result (recorded pass.new) }
        ensures ready { IsReady self.now pass.new }
        ensures same { IsSamePass pass.old pass.new }
    {
        let change = Change::Replace(value);
        self.try_change(pass, Command { key, change })
    }

    /// `replace_if`, held until it is released.
    pub fn try_replace_if(
        &self,
        pass: &mut Pass,
        key: Key,
        old: Value,
        new: Value,
    ) -> Result<Held, Refusal>
        requires { IsReady self.now pass.old }
        ensures tries { Tries self.now (recorded pass.old)
            (Changing (record { key = key; change = ReplaceIf old new })) result
            (recorded pass.new) }
        ensures ready { IsReady self.now pass.new }
        ensures same { IsSamePass pass.old pass.new }
    {
        let change = Change::ReplaceIf { old, new };
        self.try_change(pass, Command { key, change })
    }

    /// `compute`, held until it is released.
    pub fn try_compute(
        &self,
        pass: &mut Pass,
        key: Key,
        func: Func,
        argument: Option<Value>,
    ) -> Result<Held, Refusal>
        requires { IsReady self.now pass.old }
        ensures tries { Tries self.now (recorded pass.old)
            (Changing (record { key = key; change = Compute func argument })) result
            (recorded pass.new) }
        ensures ready { IsReady self.now pass.new }
        ensures same { IsSamePass pass.old pass.new }
    {
        let change = Change::Compute(func, argument);
        self.try_change(pass, Command { key, change })
    }

    /// `compute_if_absent`, held until it is released.
    pub fn try_compute_if_absent(
        &self,
        pass: &mut Pass,
        key: Key,
        func: Func,
        argument: Option<Value>,
    ) -> Result<Held, Refusal>
        requires { IsReady self.now pass.old }
        ensures tries { Tries self.now (recorded pass.old)
            (Changing (record { key = key; change = ComputeIfAbsent func argument })) result
            (recorded pass.new) }
        ensures ready { IsReady self.now pass.new }
        ensures same { IsSamePass pass.old pass.new }
    {
        let change = Change::ComputeIfAbsent(func, argument);
        self.try_change(pass, Command { key, change })
    }

    /// `compute_if_present`, held until it is released.
    pub fn try_compute_if_present(
        &self,
        pass: &mut Pass,
        key: Key,
        func: Func,
        argument: Option<Value>,
    ) -> Result<Held, Refusal>
        requires { IsReady self.now pass.old }
        ensures tries { Tries self.now (recorded pass.old)
            (Changing (record { key = key; change = ComputeIfPresent func argument })) result
            (recorded pass.new) }
        ensures ready { IsReady self.now pass.new }
        ensures same { IsSamePass pass.old pass.new }
    {
        let change = Change::ComputeIfPresent(func, argument);
        self.try_change(pass, Command { key, change })
    }

    /// `merge`, held until it is released.
    pub fn try_merge(
        &self,
        pass: &mut Pass,
        key: Key,
        func: Func,
        value: Value,
    ) -> Result<Held, Refusal>
        requires { IsReady self.now pass.old }
        ensures tries { Tries self.now (recorded pass.old)
            (Changing (record { key = key; change = Merge func value })) result
            (recorded pass.new) }
        ensures ready { IsReady self.now pass.new }
        ensures same { IsSamePass pass.old pass.new }
    {
        let change = Change::Merge(func, value);
        self.try_change(pass, Command { key, change })
    }

    /// `get`, held until it is released.
    pub fn try_get(&self, pass: &mut Pass, key: Key) -> Result<Held, Refusal>
        requires { IsReady self.now pass.old }
        ensures tries { Tries self.now (recorded pass.old)
            (Reading (record { key = key; question = Get })) result (recorded pass.new) }
        ensures ready { IsReady self.now pass.new }
        ensures same { IsSamePass pass.old pass.new }
    {
        let question = Question::Get;
        self.try_read(pass, Read { key, question })
    }

    /// `get_or_default`, held until it is released.
    pub fn try_get_or_default(
        &self,
        pass: &mut Pass,
        key: Key,
        default: Value,
    ) -> Result<Held, Refusal>
        requires { IsReady self.now pass.old }
        ensures tries { Tries self.now (recorded pass.old)
            (Reading (record { key = key; question = GetOrDefault default })) result
            (recorded pass.new) }
        ensures ready { IsReady self.now pass.new }
        ensures same { IsSamePass pass.old pass.new }
    {
        let question = Question::GetOrDefault(default);
        self.try_read(pass, Read { key, question })
    }

    /// `contains_key`, held until it is released.
    pub fn try_contains_key(&self, pass: &mut Pass, key: Key) -> Result<Held, Refusal>
        requires { IsReady self.now pass.old }
        ensures tries { Tries self.now (recorded pass.old)
            (Reading (record { key = key; question = ContainsKey })) result (recorded pass.new) }
        ensures ready { IsReady self.now pass.new }
        ensures same { IsSamePass pass.old pass.new }
    {
        let question = Question::ContainsKey;
        self.try_read(pass, Read { key, question })
    }
}
