//! What is printed for bundles whose reader or writer fails, for folders, inputs and outputs. Whole bundles stand in `tests/rows` and
//! `tests/test_bundles.py`, and the built program replays them.
mod advice;
mod distribution;
mod folders;
mod inputs;
mod lines;
mod memory;
mod reader;
mod streams;

use std::io::Read;
use std::process::Abort;
use up_disk::replay::replay;
use up_print::Noted;

/// Compares what is printed and the status. A failure is told by the name and the place of the case.
pub(crate) fn check_printed(
    rt: &impl Abort,
    made: (&[u8], u8),
    (printed, status): (&str, u8),
    (name, place): (&str, usize),
) {
    assert_eq!(rt; made, (printed.as_bytes(), status), "at {place} of {name}");
}

/// Replays what a reader gives.
pub(crate) fn check<R: Read>(
    rt: &(impl Abort + AllocGlobal),
    reader: &mut R,
    wanted: (&str, u8),
    of: (&str, usize),
) {
    let mut written: Vec<u8> = Vec::new(rt.alloc());
    let status = replay(
        rt.alloc(),
        &mut Noted::new(reader),
        &mut Noted::new(&mut written),
    );
    check_printed(rt, (written.as_slice(), status), wanted, of);
}
