//! Puts of one connection that are sent in one piece, over a directory.
use crate::clients::{WAS_ABSENT, map_of, served, sixteen};
use cmd_serve::NoObserver;
use disk_model::{DirDisk, Unknown};
use durable_map::DurableMap;
use recovery::format;
use std::alloc::Global;
use std::fs;
use std::fs::File;
use std::io::Read;
use std::rt::Files;
use std::test::Fail;

/// How many puts are sent in one piece.
const PUTS: u64 = 64;

/// The bytes of a log before its first batch, with the gate.
const LOG_HEAD: u64 = 18;

/// The bytes of a batch besides its changes, with the gate behind it.
const BATCH_HEAD: u64 = 18;

/// The bytes of a put of a number at a key of one byte.
const PUT_BYTES: u64 = 13;

/// Puts of the numbers from 1 to 64 at `a`.
fn numbered_puts(alloc: Global) -> Result<Vec<u8>, Fail> {
    let mut requests = Vec::new(alloc);
    for n in 1..=PUTS {
        requests.extend_from_slice(b"\x00\x0D\x10\x00\x01a\x01")?;
        requests.extend_from_slice(&n.to_be_bytes())?;
    }
    Ok(requests)
}

/// The replies to them: the number before, and at first that the key was absent.
fn numbers_before(alloc: Global) -> Result<Vec<u8>, Fail> {
    let mut replies = Vec::new(alloc);
    replies.extend_from_slice(WAS_ABSENT)?;
    for n in 1..PUTS {
        replies.extend_from_slice(b"\x00\x0A\x00\x01")?;
        replies.extend_from_slice(&n.to_be_bytes())?;
    }
    Ok(replies)
}

/// The empty map of a directory.
fn map_over(rt: &HostRuntime, directory: &str) -> Result<DurableMap<DirDisk<Unknown>>, Fail> {
    let alloc = rt.alloc();
    let mut disk = DirDisk::create(rt, alloc, directory, Unknown)?;
    format(alloc, &mut disk, sixteen()?).map_err(|_| "it is formatted")?;
    map_of(alloc, disk)
}

/// How many batches a log has that holds the puts and nothing else.
fn batches_of<R: Files<File = File>>(rt: &R, alloc: Global, path: &str) -> Result<u64, Fail> {
    let mut bytes = Vec::new(alloc);
    File::open(rt, path)?.read_to_end(&mut bytes)?;
    let heads = (bytes.len() as u64).saturating_sub(LOG_HEAD + PUTS * PUT_BYTES);
    if heads % BATCH_HEAD != 0 {
        return Err(Fail::from("each put is in the log once"));
    }
    Ok(heads / BATCH_HEAD)
}

#[test]
fn puts_in_one_piece_share_batches(rt: HostRuntime) -> Result<(), Fail> {
    let alloc = rt.alloc();
    let _ = fs::remove_dir_all(&rt, "pipeline");
    fs::create_dir(&rt, "pipeline")?;
    let puts = numbered_puts(alloc)?;
    let replies = numbers_before(alloc)?;
    let map = map_over(&rt, "pipeline")?;
    let sent = served(&rt, alloc, &map, &NoObserver, &[puts.as_slice()], 1);
    drop(map);
    assert_eq!(rt; sent?.as_slice(), replies.as_slice());
    let batches = batches_of(&rt, alloc, "pipeline/log-a")?;
    assert!(rt; batches > 0 && batches < PUTS, "{batches}");
    fs::remove_dir_all(&rt, "pipeline")?;
    Ok(())
}
