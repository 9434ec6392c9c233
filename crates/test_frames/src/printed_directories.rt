//! What is printed of a directory that is formatted, or checked.
use crate::checks::assert_same;
use cmd_directory::{check_disk, init_disk};
use disk_model::{Failure, Fill, MemDisk};
use java_hash::StripeCount;
use log::Log;
use std::alloc::Global;
use std::io::Write;
use std::thread::Threads;

/// The statuses of a disk that is formatted with eight stripes, and of its check.
fn format_and_check<L: Log + Threads + Sync>(
    rt: &L,
    alloc: Global,
    stripes: StripeCount,
    output: &mut Vec<u8>,
    error: &mut Vec<u8>,
) -> [u8; 2] {
    let mut disk = MemDisk::new(alloc);
    let formatted = init_disk(rt, alloc, &mut disk, None, stripes, output, error);
    let (_disk, checked) = check_disk(rt, alloc, disk, None, output, error);
    [formatted, checked]
}

#[test]
fn a_disk_is_formatted_and_checked(rt: HostRuntime) {
    let alloc = rt.alloc();
    let stripes = StripeCount::new(8).expect(&rt, "8 is allowed");
    let mut output = Vec::new(alloc);
    let mut error = Vec::new(alloc);
    let statuses = format_and_check(&rt, alloc, stripes, &mut output, &mut error);
    assert_same(
        &rt,
        &(statuses, output.as_slice(), error.as_slice()),
        &(
            [0, 0],
            b"formatted 8\ngeneration 0\nstripes 8\nprefix 0\nentries 0\n".as_slice(),
            b"".as_slice(),
        ),
    );
    drop(output);
    drop(error);
}

/// The status of a disk that is formatted with 16 stripes and has this failure, if any.
fn format<L: Log, W: Write>(
    rt: &L,
    alloc: Global,
    failure: Option<Failure>,
    output: &mut W,
    error: &mut Vec<u8>,
) -> Option<u8> {
    let stripes = StripeCount::new(16)?;
    let mut disk = MemDisk::new(alloc);
    disk.plan(failure);
    Some(init_disk(rt, alloc, &mut disk, None, stripes, output, error))
}

#[test]
fn a_device_that_fails(rt: HostRuntime) {
    let alloc = rt.alloc();
    let failure = Failure {
        after: 5,
        fill: Fill::Old,
    };
    let mut output = Vec::new(alloc);
    let mut error = Vec::new(alloc);
    let status = format(&rt, alloc, Some(failure), &mut output, &mut error);
    assert_same(
        &rt,
        &(status, output.as_slice(), error.as_slice()),
        &(Some(1), b"".as_slice(), b"refused 9 Failed\n".as_slice()),
    );
    drop(output);
    drop(error);
}

#[test]
fn an_output_that_fails(rt: HostRuntime) {
    let alloc = rt.alloc();
    let mut room = [0u8; 5];
    let mut output = room.as_mut_slice();
    let mut error = Vec::new(alloc);
    let status = format(&rt, alloc, None, &mut output, &mut error);
    assert_same(
        &rt,
        &(status, room, error.as_slice()),
        &(Some(1), *b"forma", b"unreadable\n".as_slice()),
    );
    drop(error);
}
