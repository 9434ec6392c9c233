//! Which file has the log, and which the checkpoint, of a generation.
use crate::checks::assert_same;
use store_layout::{checkpoint_file, log_file};

#[test]
fn files_take_turns(rt: HostRuntime) {
    assert_same(&rt, &[log_file(0), log_file(7)], &[2, 3]);
    assert_same(&rt, &[checkpoint_file(0), checkpoint_file(7)], &[0, 1]);
}
