//! How the changes of a part grow its table.
use crate::checks::assert_same;
use crate::parts::{Step, changed, command, empty_part};
use atomic_methods::Part;
use map_types::Refusal;
use std::alloc::Global;

/// What is done behind the new keys, to the key of a number.
#[derive(Clone, Copy)]
enum Then {
    Nothing,
    Remove(u32),
    PutAgain(u32),
}

fn make(alloc: Global, part: &mut Part, number: u32, step: &Step) -> Result<(), Refusal> {
    let key = format!(in alloc; "k{number:05}")?;
    let command = command(alloc, key.as_str(), step)?;
    let reply = changed(part, alloc, &command);
    drop(command);
    drop(reply?);
    Ok(())
}

/// How many new keys were put, how many bins there are after what is done then, and whether a growth
/// runs.
type Seen = (u32, usize, bool);

/// Puts so many new keys, one after another, and does the other thing.
fn seen(alloc: Global, part: &mut Part, keys: u32, then: Then) -> Result<Seen, Refusal> {
    for number in 0..keys {
        make(alloc, part, number, &Step::Put(5))?;
    }
    match then {
        Then::Nothing => {}
        Then::Remove(number) => make(alloc, part, number, &Step::Remove)?,
        Then::PutAgain(number) => make(alloc, part, number, &Step::Put(6))?,
    }
    Ok((keys, part.bins(), part.is_growing()))
}

/// What is done, and what is seen then. A key that isn't mapped may be removed: that too begins a
/// growth that is due, and helps it.
static GROWTHS: [(Then, Seen); 18] = [
    (Then::Nothing, (1, 1, false)),
    (Then::Nothing, (2, 2, false)),
    (Then::Nothing, (3, 4, false)),
    (Then::Nothing, (4, 8, false)),
    (Then::Nothing, (6, 8, false)),
    (Then::Nothing, (7, 16, false)),
    (Then::Nothing, (12, 16, false)),
    (Then::Nothing, (13, 32, false)),
    (Then::Nothing, (24, 32, false)),
    (Then::Remove(24), (24, 32, true)),
    (Then::Nothing, (25, 32, true)),
    (Then::Remove(7), (25, 64, false)),
    (Then::Remove(25), (25, 64, false)),
    (Then::PutAgain(7), (25, 64, false)),
    (Then::Nothing, (26, 64, false)),
    (Then::Nothing, (49, 64, true)),
    (Then::Nothing, (51, 64, true)),
    (Then::Nothing, (52, 128, false)),
];

#[test]
fn changes_grow_a_part(rt: HostRuntime) {
    for (then, wanted) in &GROWTHS {
        let mut part = empty_part(rt.alloc()).expect(&rt, "a part");
        let found = seen(rt.alloc(), &mut part, wanted.0, *then);
        drop(part);
        assert_same(&rt, &found, &Ok(*wanted));
    }
}
