//! Maps that are served, and clients of them.
use cmd_serve::{Arrivals, Figures, Observer, Service, Stream, serve_map};
use disk_model::{Disk, Failure, FirstError, MemDisk};
use durable_map::DurableMap;
use java_hash::StripeCount;
use log::Log;
use recovery::{format, open_parts};
use std::alloc::Global;
use std::io::{Read, Write};
use std::net::{Net, Shutdown, TcpListener, TcpStream};
use std::sync::Wait;
use std::sync::atomic::AtomicUsize;
use std::test::Fail;
use std::thread::Threads;
use std::time::Clock;

/// How many turns are waited at most, each of a millisecond.
pub(crate) const MOST_TURNS: u32 = 10_000;

/// No test has so many clients.
const MOST_CLIENTS: usize = 64;

/// No log of a test grows so long.
const NO_CHECKPOINT: u64 = 1_000_000;

/// A put of 5 at `a`, and its reply at first.
pub(crate) const PUT: &[u8] = b"\x00\x0D\x10\x00\x01a\x01\x00\x00\x00\x00\x00\x00\x00\x05";

pub(crate) const WAS_ABSENT: &[u8] = b"\x00\x02\x00\x00";

pub(crate) fn sixteen() -> Result<StripeCount, Fail> {
    Ok(StripeCount::new(16).ok_or("16 is allowed")?)
}

/// A formatted disk.
pub(crate) fn formatted(alloc: Global) -> Result<MemDisk, Fail> {
    let mut disk = MemDisk::new(alloc);
    format(alloc, &mut disk, sixteen()?).map_err(|_| "it is formatted")?;
    Ok(disk)
}

/// The map of the disk.
pub(crate) fn map_of<D: Disk + Drop>(alloc: Global, disk: D) -> Result<DurableMap<D>, Fail> {
    let Ok((keeper, parts, first, limit)) = open_parts(alloc, disk, sixteen()?) else {
        return Err(Fail::from("it is opened"));
    };
    match DurableMap::new(alloc, keeper, parts, first, limit) {
        Ok(map) => Ok(map),
        Err((_disk, refusal)) => Err(Fail::from(refusal)),
    }
}

/// An empty map, whose disk fails as planned.
pub(crate) fn map_over(
    alloc: Global,
    failure: Option<Failure>,
) -> Result<DurableMap<MemDisk>, Fail> {
    let mut disk = formatted(alloc)?;
    disk.plan(failure);
    map_of(alloc, disk)
}

/// The two ends of `count` connections: those of the clients, and those of the server, which come
/// in their order.
pub(crate) fn connected<R: Net<Listener = TcpListener, Stream = TcpStream>>(
    rt: &R,
    alloc: Global,
    count: usize,
) -> Result<(Vec<TcpStream>, Listed), Fail> {
    let listener = TcpListener::bind(rt, ("127.0.0.1", 0u16))?;
    let address = listener.local_addr()?;
    let mut clients = Vec::new(alloc);
    let mut streams = Vec::new(alloc);
    for _ in 0..count {
        clients.push(TcpStream::connect(rt, address)?)?;
        let (stream, _) = listener.accept()?;
        streams.push(Stream::of_port(stream)?)?;
    }
    streams.reverse();
    Ok((clients, Listed { streams }))
}

/// Connections that were made beforehand; the last of the list comes first.
#[derive(Drop)]
pub(crate) struct Listed {
    pub(crate) streams: Vec<Stream>,
}

impl Arrivals for Listed {
    fn next(&mut self) -> Option<Stream> {
        self.streams.pop()
    }
}

/// Each client sends its bytes, and says that no more come.
pub(crate) fn send_each(clients: &[TcpStream], requests: &[&[u8]]) -> Result<(), Fail> {
    for (client, bytes) in clients.iter().zip(requests) {
        let mut client = client;
        client.write_all(bytes)?;
        client.shutdown(Shutdown::Write)?;
    }
    Ok(())
}

/// What the clients were sent, one behind another. A connection that is broken off ends there.
pub(crate) fn received(alloc: Global, clients: &[TcpStream]) -> Vec<u8> {
    let mut sent = Vec::new(alloc);
    for client in clients {
        let mut client = client;
        let _end = client.read_to_end(&mut sent);
    }
    sent
}

/// Serves the connections with this many workers, until no more come.
pub(crate) fn serve_listed<
    D: Disk + Drop + Send,
    O: Observer + Sync,
    C: Arrivals,
    R: Clock + Figures + Log + Net + Threads + Wait + Sync,
>(
    rt: &R,
    alloc: Global,
    map: &DurableMap<D>,
    observer: &O,
    arrivals: &mut C,
    workers: usize,
) -> Result<(), Fail> {
    let first_error = FirstError::new(alloc)?;
    let count = AtomicUsize::new(0);
    let service = Service {
        alloc,
        map,
        first_error: &first_error,
        checkpoint_bytes: NO_CHECKPOINT,
        workers,
        connections: MOST_CLIENTS,
        idle_seconds: 0,
        open: &count,
    };
    serve_map(rt, &service, observer, arrivals).map_err(|_| "threads start")?;
    Ok(())
}

/// Serves clients that send these bytes, one each, and returns what they were sent.
pub(crate) fn served<
    D: Disk + Drop + Send,
    O: Observer + Sync,
    R: Net<Listener = TcpListener, Stream = TcpStream>
        + Clock
        + Figures
        + Log
        + Threads
        + Wait
        + Sync,
>(
    rt: &R,
    alloc: Global,
    map: &DurableMap<D>,
    observer: &O,
    requests: &[&[u8]],
    workers: usize,
) -> Result<Vec<u8>, Fail> {
    let (clients, mut listed) = connected(rt, alloc, requests.len())?;
    send_each(clients.as_slice(), requests)?;
    serve_listed(rt, alloc, map, observer, &mut listed, workers)?;
    Ok(received(alloc, clients.as_slice()))
}

/// These bytes, `count` times.
pub(crate) fn repeated(alloc: Global, bytes: &[u8], count: usize) -> Result<Vec<u8>, Fail> {
    let mut all = Vec::new(alloc);
    for _ in 0..count {
        all.extend_from_slice(bytes)?;
    }
    Ok(all)
}
