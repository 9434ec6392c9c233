//! The names of the methods and of the functions.
ghost use Rattle.std.specs.Prelude.{◌≡◌};
ghost use Rattle.call_text.specs.Names.{bulk_named, func_named, method_named};

use map_types::Func;

/// A method that asks.
#[derive(Clone, Copy, Debug, PartialEq, Eq)]
pub(crate) enum ReadMethod {
    Get,
    GetOrDefault,
    ContainsKey,
}

/// A method that changes.
#[derive(Clone, Copy, Debug, PartialEq, Eq)]
pub(crate) enum ChangeMethod {
    Put,
    PutIfAbsent,
    Remove,
    RemoveIf,
    Replace,
    ReplaceIf,
    Compute,
    ComputeIfAbsent,
    ComputeIfPresent,
    Merge,
}

/// A method of the whole map.
#[derive(Clone, Copy, Debug, PartialEq, Eq)]
pub(crate) enum BulkMethod {
    Count,
    Reduce,
    Search,
}

impl BulkMethod {
    /// The method of the whole map that has this name.
    pub(crate) fn named(name: &str) -> Option<BulkMethod>
        ensures { result ≡ bulk_named name.now }
    {
        match name {
            "count" => Some(BulkMethod::Count),
            "reduce" => Some(BulkMethod::Reduce),
            "search" => Some(BulkMethod::Search),
            _ => None,
        }
    }
}

/// A method.
#[derive(Clone, Copy, Debug, PartialEq, Eq)]
pub(crate) enum Method {
    Read(ReadMethod),
    Change(ChangeMethod),
}

impl Method {
    /// The method of this name.
    pub(crate) fn named(name: &str) -> Option<Method>
        ensures { result ≡ method_named name.now }
    {
        match name {
            "get" => Some(Method::Read(ReadMethod::Get)),
            "getOrDefault" => Some(Method::Read(ReadMethod::GetOrDefault)),
            "containsKey" => Some(Method::Read(ReadMethod::ContainsKey)),
            "put" => Some(Method::Change(ChangeMethod::Put)),
            "putIfAbsent" => Some(Method::Change(ChangeMethod::PutIfAbsent)),
            "remove" => Some(Method::Change(ChangeMethod::Remove)),
            "removeIf" => Some(Method::Change(ChangeMethod::RemoveIf)),
            "replace" => Some(Method::Change(ChangeMethod::Replace)),
            "replaceIf" => Some(Method::Change(ChangeMethod::ReplaceIf)),
            "compute" => Some(Method::Change(ChangeMethod::Compute)),
            "computeIfAbsent" => Some(Method::Change(ChangeMethod::ComputeIfAbsent)),
            "computeIfPresent" => Some(Method::Change(ChangeMethod::ComputeIfPresent)),
            "merge" => Some(Method::Change(ChangeMethod::Merge)),
            _ => None,
        }
    }
}

/// The function of this name.
pub(crate) fn func_named(name: &str) -> Option<Func>
    ensures { result ≡ func_named name.now }
{
    match name {
        "CONST" => Some(Func::Const),
        "DROP" => Some(Func::Drop),
        "KEEP" => Some(Func::Keep),
        "SUM" => Some(Func::Sum),
        "MAX" => Some(Func::Max),
        "MIN" => Some(Func::Min),
        "CONCAT" => Some(Func::Concat),
        "SUM_NONZERO" => Some(Func::SumNonzero),
        "SUM_EXACT" => Some(Func::SumExact),
        _ => None,
    }
}
