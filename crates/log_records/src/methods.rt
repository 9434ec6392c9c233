//! The methods that change the map, by their numbers.
ghost use Rattle.std.specs.Prelude.{◌≡◌, ◌<◌, ◌⊎◌, IfSome, IfNone};
ghost use Rattle.log_records.specs.Methods.{method_number, method_of};

use map_types::Change;

/// A method that changes the map.
#[derive(Clone, Copy, Debug, PartialEq, Eq)]
pub enum Method {
    Put,
    PutIfAbsent,
    Remove,
    RemoveIf,
    Replace,
    ReplaceIf,
    Compute,
    ComputeIfAbsent,
    ComputeIfPresent,
    Merge,
}

impl Method {
    /// The method with this number, from 16 to 25.
    pub fn with_number(number: u8) -> Option<Method>
        ensures found { IfSome result (λ method. method_number method ≡ number) }
        ensures unknown { IfNone result ((number < 16) ⊎ (25 < number)) }
    {
        match number {
            16 => Some(Method::Put),
            17 => Some(Method::PutIfAbsent),
            18 => Some(Method::Remove),
            19 => Some(Method::RemoveIf),
            20 => Some(Method::Replace),
            21 => Some(Method::ReplaceIf),
            22 => Some(Method::Compute),
            23 => Some(Method::ComputeIfAbsent),
            24 => Some(Method::ComputeIfPresent),
            25 => Some(Method::Merge),
            _ => None,
        }
    }

    pub fn number(self) -> u8
        ensures { result ≡ method_number self }
    {
        match self {
            Method::Put => 16,
            Method::PutIfAbsent => 17,
            Method::Remove => 18,
            Method::RemoveIf => 19,
            Method::Replace => 20,
            Method::ReplaceIf => 21,
            Method::Compute => 22,
            Method::ComputeIfAbsent => 23,
            Method::ComputeIfPresent => 24,
            Method::Merge => 25,
        }
    }

    /// The method that a change calls.
    pub fn of(change: &Change) -> Method
        ensures { result ≡ method_of change.now }
    {
        match change {
            Change::Put(_) => Method::Put,
            Change::PutIfAbsent(_) => Method::PutIfAbsent,
            Change::Remove => Method::Remove,
            Change::RemoveIf(_) => Method::RemoveIf,
            Change::Replace(_) => Method::Replace,
            Change::ReplaceIf { .. } => Method::ReplaceIf,
            Change::Compute(..) => Method::Compute,
            Change::ComputeIfAbsent(..) => Method::ComputeIfAbsent,
            Change::ComputeIfPresent(..) => Method::ComputeIfPresent,
            Change::Merge(..) => Method::Merge,
        }
    }
}
