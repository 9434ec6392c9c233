//! Clients that share a map: one that is held, and one that breaks off.
use crate::clients::{
    MOST_TURNS, PUT, connected, map_over, received, send_each, serve_listed, served,
};
use cmd_serve::{Figures, NoObserver, Observer};
use disk_model::MemDisk;
use durable_map::DurableMap;
use log::Log;
use std::alloc::Global;
use std::io::Write;
use std::net::{Net, TcpListener, TcpStream};
use std::sync::Wait;
use std::sync::atomic::{AtomicBool, AtomicU64, Ordering};
use std::test::Fail;
use std::thread;
use std::thread::Threads;
use std::time::{Clock, Duration};

/// The replies to two clients.
const ABSENT_AND_5: &[u8] = b"\x00\x02\x00\x00\x00\x0A\x00\x01\x00\x00\x00\x00\x00\x00\x00\x05";

const FIVE_AND_ABSENT: &[u8] = b"\x00\x0A\x00\x01\x00\x00\x00\x00\x00\x00\x00\x05\x00\x02\x00\x00";

/// What is answered to a refused length, and what is to another client.
const BAD_FRAME_AND_5: &[u8] = b"\x00\x02\x86\x00\x00\x0A\x00\x01\x00\x00\x00\x00\x00\x00\x00\x05";

/// Holds the first request until the second was answered.
#[derive(Drop)]
struct HoldsFirst {
    taken_up: AtomicU64,
    has_answered: AtomicBool,
    was_in_time: AtomicBool,
}

impl HoldsFirst {
    fn hold<R: Clock>(&self, rt: &R) {
        for _ in 0..MOST_TURNS {
            if self.has_answered.load(Ordering::SeqCst) {
                self.was_in_time.store(true, Ordering::SeqCst);
                return;
            }
            thread::sleep(rt, Duration::from_millis(1));
        }
    }
}

impl Observer for HoldsFirst {
    /// The mark is the number of the request.
    fn request_begins<R: Clock>(&self, rt: &R, _worker: usize) -> Option<u64> {
        let n = self.taken_up.fetch_add(1, Ordering::SeqCst);
        if n == 0 {
            self.hold(rt);
        }
        Some(n)
    }

    fn request_ended<R: Clock>(&self, _rt: &R, _worker: usize, n: u64) {
        if n == 1 {
            self.has_answered.store(true, Ordering::SeqCst);
        }
    }

    fn may_hold_up(&self) -> bool {
        true
    }
}

#[test]
fn a_request_that_is_held_holds_up_no_other(rt: HostRuntime) -> Result<(), Fail> {
    let map = map_over(rt.alloc(), None)?;
    let observer = HoldsFirst {
        taken_up: AtomicU64::new(0),
        has_answered: AtomicBool::new(false),
        was_in_time: AtomicBool::new(false),
    };
    let sent = served(&rt, rt.alloc(), &map, &observer, &[PUT, PUT], 2);
    drop(map);
    assert!(rt;
        observer.was_in_time.load(Ordering::SeqCst),
        "the other request was not answered in time"
    );
    let sent = sent?;
    assert!(rt;
        [ABSENT_AND_5, FIVE_AND_ABSENT].contains(&sent.as_slice()),
        "{sent:?}"
    );
    Ok(())
}

/// The client before the last makes two puts, and goes without a reply.
fn leave_before_last(clients: &mut Vec<TcpStream>) -> Result<(), Fail> {
    let last = clients.pop().ok_or("there is a last")?;
    let mut gone = clients.pop().ok_or("there is one before")?;
    gone.write_all(PUT)?;
    gone.write_all(PUT)?;
    clients.push(last)?;
    Ok(())
}

/// What five clients are sent: one goes without a reply, and the others send nothing, a part of a put,
/// a refused length, and a put.
fn sent_beside_broken<
    R: Net<Listener = TcpListener, Stream = TcpStream>
        + Clock
        + Figures
        + Log
        + Threads
        + Wait
        + Sync,
>(rt: &R, alloc: Global, map: &DurableMap<MemDisk>) -> Result<Vec<u8>, Fail> {
    let (mut clients, mut listed) = connected(rt, alloc, 5)?;
    leave_before_last(&mut clients)?;
    let long = b"\x00\x00\x00\x04\x01\x00\x01a";
    send_each(clients.as_slice(), &[b"", &PUT[..9], long, PUT])?;
    serve_listed(rt, alloc, map, &NoObserver, &mut listed, 1)?;
    Ok(received(alloc, clients.as_slice()))
}

#[test]
fn a_connection_breaks_off_alone(rt: HostRuntime) -> Result<(), Fail> {
    let map = map_over(rt.alloc(), None)?;
    let sent = sent_beside_broken(&rt, rt.alloc(), &map);
    drop(map);
    assert_eq!(rt; sent?.as_slice(), BAD_FRAME_AND_5);
    Ok(())
}
