//! A device that fails under a server.
use crate::clients::{PUT, formatted, map_over, repeated, served, sixteen};
use cmd_serve::NoObserver;
use disk_model::{Failure, Fill};
use recovery::open_parts;
use std::alloc::Global;
use std::test::Fail;

/// An opening makes fewer device calls.
const MOST_CALLS: u64 = 1_000;

/// What is answered to three clients after a device failure.
const ALL_FAILED: &[u8] = b"\x00\x02\x89\x00\x00\x02\x89\x00\x00\x02\x89\x00";

/// How many device calls an opening makes.
fn calls_of_opening(alloc: Global) -> Result<u64, Fail> {
    for after in 0..MOST_CALLS {
        let fill = Fill::Old;
        let mut disk = formatted(alloc)?;
        disk.plan(Some(Failure { after, fill }));
        let opened = open_parts(alloc, disk, sixteen()?);
        let is_opened = opened.is_ok();
        drop(opened);
        if is_opened {
            return Ok(after);
        }
    }
    Err(Fail::from("it is opened"))
}

/// The first batch fails as its gate is opened: no put of it is answered.
#[test]
fn after_a_device_failure_each_call_fails(rt: HostRuntime) -> Result<(), Fail> {
    let fill = Fill::Old;
    let after = calls_of_opening(rt.alloc())?.wrapping_add(2);
    let puts = repeated(rt.alloc(), PUT, 30)?;
    let map = map_over(rt.alloc(), Some(Failure { after, fill }))?;
    let sent = served(&rt, rt.alloc(), &map, &NoObserver, &[puts.as_slice(); 3], 1);
    drop(map);
    assert_eq!(rt; sent?.as_slice(), ALL_FAILED);
    Ok(())
}
