//! What reductions come to.

use bulk_tasks::View;
use map_types::{Func, FuncError, Refusal, Value};
use std::thread::Threads;

/// The number that a reduction came to, or none if there is no entry. None at all if it was refused, or
/// if a value is a text.
pub(crate) fn number_in(
    reduced: &Result<Result<Option<Value>, FuncError>, Refusal>,
) -> Option<Option<i64>> {
    match reduced {
        Ok(Ok(Some(Value::Int(number)))) => Some(Some(*number)),
        Ok(Ok(None)) => Some(None),
        _ => None,
    }
}

/// The sum of the values of a view, as `number_in` says it.
pub(crate) fn sum_of_view<R: Threads + Sync>(
    rt: &R,
    view: &View,
    threshold: u64,
) -> Option<Option<i64>> {
    number_in(&view.reduce(rt, Func::Sum, threshold))
}
