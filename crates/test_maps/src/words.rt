//! Whole calls over plain words.
ghost use Rattle.std.specs.Prelude.{◌≡◌, None, false, true};

use crate::callers::{get, put};
use crate::checks::assert_same;
use crate::stripes::sixteen;
use java_hash::StripeCount;
use map_types::{Refusal, Reply, Value};
use plain_words::{At, PlainWords};
use std::alloc::Global;
use ticket_order::{Held, Released, Steps, release, try_call, try_read};

fn position_of(held: &Held) -> u64
    ensures { result ≡ held.now.position }
{
    held.position().number()
}

/// Whether the number 1 is there at position 1.
fn is_one_at_one(released: &Released) -> bool {
    match released {
        Released::Reply(position, Reply::Now(Some(Value::Int(number)))) => {
            *number == 1 && position.number() == 1
        }
        _ => false,
    }
}

/// Makes a put whose reply is given up, and a read that is published. Their positions, and whether
/// the number 1 is read at position 1.
fn put_and_read<S: Steps>(steps: &mut S, alloc: Global) -> Result<(u64, u64, bool), Refusal>
    requires empty_handed { (S.recorded steps.old).holding ≡ None }
    requires by_keeper { (S.recorded steps.old).keeper ≡ true }
    requires unfailed { (S.recorded steps.old).failed ≡ false }
{
    let put = try_call(steps, alloc, put(alloc, "k", 1)?)?;
    let changed = position_of(&put);
    put.give_up();
    let held = try_read(steps, get(alloc, "k")?)?;
    let read = position_of(&held);
    steps.durable(read);
    let released = release(steps, held);
    let is_one = is_one_at_one(&released);
    drop(released);
    Ok((changed, read, is_one))
}

#[test]
fn one_pass_puts_and_reads(rt: HostRuntime) {
    let alloc = rt.alloc();
    let mut words = PlainWords::empty(alloc, sixteen(&rt), 0).expect(&rt, "words");
    let made = put_and_read(&mut At::new(&mut words, 0), alloc);
    drop(words);
    assert_same(&rt, &made, &Ok((1, 1, true)));
}

/// Makes a put. Whether its reply has to wait.
fn waits<S: Steps>(steps: &mut S, alloc: Global) -> Result<bool, Refusal>
    requires { (S.recorded steps.old).holding ≡ None }
{
    let changed = try_call(steps, alloc, put(alloc, "k", 1)?)?;
    let released = release(steps, changed);
    let waits = matches!(released, Released::NotYet(_));
    drop(released);
    Ok(waits)
}

#[test]
fn a_reply_waits_until_its_position_is_durable(rt: HostRuntime) {
    let alloc = rt.alloc();
    let mut words = PlainWords::empty(alloc, sixteen(&rt), 0).expect(&rt, "words");
    let waits = waits(&mut At::new(&mut words, 0), alloc);
    drop(words);
    assert_same(&rt, &waits, &Ok(true));
}

/// How many stripes there are, whether pass 0 is alive before the keeper fails and behind it, and
/// whether it gets stripe 3 then, and pass 1 too.
fn shared(alloc: Global, count: StripeCount) -> Result<(usize, [bool; 4]), Refusal>
    requires { count.count ≡ 16 }
{
    let mut words = PlainWords::empty(alloc, count, 2)?;
    let stripes = words.stripes().get();
    let before = At::new(&mut words, 0).alive();
    At::new(&mut words, 2).fail();
    let behind = At::new(&mut words, 0).alive();
    let is_got = At::new(&mut words, 0).take(3).is_some();
    let is_got_twice = At::new(&mut words, 1).take(3).is_some();
    words.keeps_one_history();
    drop(words);
    Ok((stripes, [before, behind, is_got, is_got_twice]))
}

#[test]
fn passes_share_the_words(rt: HostRuntime) {
    let shared = shared(rt.alloc(), sixteen(&rt));
    assert_same(&rt, &shared, &Ok((16, [true, false, true, false])));
}
