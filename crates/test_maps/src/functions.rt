//! Texts that are joined, at their limit.
use crate::checks::assert_same;
use crate::parts::text_of;
use map_types::{Func, FuncError, Refusal};
use named_functions::apply;
use std::alloc::Global;

/// Whether CONCAT of texts of these lengths is too long.
fn is_too_long(alloc: Global, old: usize, arg: usize) -> Result<bool, Refusal> {
    let old = text_of(alloc, old)?;
    let arg = text_of(alloc, arg)?;
    let joined = apply(alloc, Func::Concat, Some(&old), Some(&arg))?;
    Ok(matches!(joined, Err(FuncError::TooLong)))
}

/// The lengths of texts, and whether they are too long together.
static TEXTS: [(usize, usize, bool); 4] = [
    (4096, 1, true),
    (1, 4096, true),
    (4095, 1, false),
    (4096, 0, false),
];

/// The first of these lengths that come out otherwise, if any.
fn first_wrong(alloc: Global) -> Result<Option<(usize, usize)>, Refusal> {
    for (old, arg, is_long) in &TEXTS {
        if is_too_long(alloc, *old, *arg)? != *is_long {
            return Ok(Some((*old, *arg)));
        }
    }
    Ok(None)
}

#[test]
fn texts_up_to_their_limit(rt: HostRuntime) {
    assert_same(&rt, &first_wrong(rt.alloc()), &Ok(None));
}
