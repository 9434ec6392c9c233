//! Views of a running map, and bulk answers over them: how many entries, a fold of the values, a search
//! for a value.
//!
//! A view has the entries stripe by stripe, and keys of the stripes interleave in byte order. The order
//! doesn't matter for these answers: SUM, MAX and MIN, and the lesser of two keys, are associative and
//! commutative, and no key stands twice. So each answer is the plain one over all keys in byte order, in
//! one thread or in many.
#![tactic(auto)]

mod contents;
mod counting;
mod gathering;
pub mod laws;
mod nearest;
mod reducing;
mod searching;
mod tally;
mod walking;

pub use contents::View;
pub use counting::count;
pub use reducing::reduce;
pub use searching::search;
pub use walking::view;
