//! How a running map is told to stand, and a checkpoint that was sealed.
ghost use Rattle.durable_map.specs.Maps.{IsReady};

use crate::calls::{key, position};
use crate::maps::open;
use disk_model::MemDisk;
use durable_map::{DurableMap, Ends, SealedCheckpoint, checkpoint_loop, flush_loop};
use map_types::{Refusal, Value};
use std::alloc::Global;
use std::sync::atomic::{AtomicU64, Ordering};
use std::thread::join;
use stripe_locks::Pass;

/// The log of the three changes is longer, so that they begin a checkpoint.
const LOG_BYTES: u64 = 60;

/// Ends the loops once a checkpoint is sealed, and keeps what is told of it.
#[derive(Drop)]
struct UntilSealed {
    generation: AtomicU64,
    entries: AtomicU64,
}

impl Ends for UntilSealed {
    fn has_ended(&self) -> bool {
        self.generation.load(Ordering::SeqCst) != 0
    }

    fn checkpoint_sealed(&self, sealed: &SealedCheckpoint) {
        self.entries.store(sealed.entries, Ordering::SeqCst);
        self.generation.store(sealed.generation, Ordering::SeqCst);
    }
}

/// Puts two keys, and removes one of them.
fn change(map: &DurableMap<MemDisk>, pass: &mut Pass, alloc: Global) -> Result<u64, Refusal>
    requires { IsReady map.now pass.old }
    ensures { IsReady map.now pass.new }
{
    let _first = position(map.try_put(pass, key(alloc, "a")?, Value::Int(1))?);
    let _second = position(map.try_put(pass, key(alloc, "b")?, Value::Int(2))?);
    Ok(position(map.try_remove(pass, key(alloc, "a")?)?))
}

#[test]
fn a_sealed_checkpoint_is_told(rt: HostRuntime) -> Result<(), Refusal> {
    let alloc = rt.alloc();
    let map = open(alloc, 16)?;
    let mut pass = map.pass()?;
    assert_eq!(rt; change(&map, &mut pass, alloc)?, 3);
    let ends = UntilSealed {
        generation: AtomicU64::new(0),
        entries: AtomicU64::new(0),
    };
    let ended = join(
        &rt,
        || flush_loop(&rt, &map, &ends),
        || checkpoint_loop(&rt, &map, LOG_BYTES, &ends),
    );
    assert_eq!(rt; ended, (Ok(()), Ok(())));
    assert_eq!(rt; ends.generation.load(Ordering::SeqCst), 1);
    assert_eq!(rt; ends.entries.load(Ordering::SeqCst), 1);
    let standing = map.standing(&rt);
    assert_eq!(rt; (standing.tickets, standing.durable), (3, 3));
    assert_eq!(rt; (standing.batches, standing.generation), (1, 1));
    Ok(())
}
