//! The bins of one stripe while keys are added to it.
ghost use Rattle.std.specs.Prelude.{◌≡◌};
ghost use Rattle.bin_table.specs.Tables.{spread_of_key};

use crate::cases::Case;
use crate::marks::Marks;
use crate::steps::asked_in;
use bin_table::Node;
use bin_transfer::Growing;
use call_text::Asked;
use java_hash::{hash, spread};
use map_types::{Change, Command, Key, Refusal};
use std::alloc::Global;

fn spread_of(key: &Key) -> u32
    ensures { result ≡ spread_of_key key.now }
{
    spread(hash(key.as_str()))
}

/// The entry of a put.
fn node_in(alloc: Global, text: &str) -> Result<Box<Node>, Refusal> {
    let Asked::Change(command) = asked_in(alloc, text)? else {
        return Err(Refusal::WrongPhase);
    };
    let Command { key, change } = command;
    match change {
        Change::Put(value) => Ok(Node::new(alloc, key, value)?),
        _ => Err(Refusal::WrongPhase),
    }
}

/// Makes the growth that is due, as a change does before it adds its key. Then adds an entry, and
/// tells how many bins there are.
fn add<R: AllocGlobal + Print>(
    rt: &R,
    table: &mut Growing,
    node: Box<Node>,
    marks: Marks,
    told: &mut String,
) -> Result<(), Refusal> {
    marks.begin(rt, told)?;
    let is_put_off = table.grow(rt.alloc());
    marks.end(rt)?;
    if is_put_off {
        told.push_str("put off\n")?;
    }
    let spread = spread_of(&node.key);
    drop(table.set(spread, node));
    let bins = table.bins();
    let entries = table.len();
    Ok(writeln!(told, "  entries {entries}, bins {bins}")?)
}

/// Adds the keys of the texts, one after another.
fn add_each<R: AllocGlobal + Print>(
    rt: &R,
    table: &mut Growing,
    texts: &[&str],
    marks: Marks,
    told: &mut String,
) -> Result<(), Refusal> {
    for text in texts {
        add(rt, table, node_in(rt.alloc(), text)?, marks, told)?;
    }
    Ok(())
}

/// Adds the keys of a case to one stripe.
pub(crate) fn play_growing<R: AllocGlobal + Print>(
    rt: &R,
    case: &Case<'_>,
    told: &mut String,
) -> Result<(), Refusal> {
    let mut table = Growing::new(rt.alloc(), case.stripes)?;
    add_each(rt, &mut table, case.state.as_slice(), Marks::None, told)?;
    add_each(rt, &mut table, case.called.as_slice(), Marks::Both, told)
}
