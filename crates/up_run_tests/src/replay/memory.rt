//! A replay of which a request for memory may be refused: it prints what it prints with ample memory, or its status is 4 and it prints
//! nothing.
//!
//! `rt try --test --fail-alloc N -- replay::memory` refuses the Nth request; `bench/faults` goes through all of them with the built program.
use crate::replay::streams::{PRINTED, STARTUP};
use std::alloc::Global;
use std::io;
use std::io::Write;
use up_disk::replay::replay;
use up_print::Noted;

// Takes what is wanted, and no memory.
#[derive(Drop)]
struct Wanted {
    left: &'static [u8],
    is_other: bool,
}

impl Write for Wanted {
    fn write(&mut self, buf: &[u8]) -> io::Result<usize> {
        match self.left.split_at_checked(buf.len()) {
            Some((front, left)) if front == buf => self.left = left,
            _ => self.is_other = true,
        }
        Ok(buf.len())
    }

    fn flush(&mut self) -> io::Result<()> {
        Ok(())
    }
}

// The status of a replay, how many bytes of what is wanted were not printed, and whether anything else was.
fn replayed(alloc: Global) -> (u8, usize, bool) {
    let mut reader: &[u8] = STARTUP;
    let mut writer = Wanted {
        left: PRINTED.as_bytes(),
        is_other: false,
    };
    let status = replay(
        alloc,
        &mut Noted::new(&mut reader),
        &mut Noted::new(&mut writer),
    );
    (status, writer.left.len(), writer.is_other)
}

#[test]
fn memory_refused(rt: HostRuntime) {
    let came = replayed(rt.alloc());
    let is_refused = came == (4, PRINTED.len(), false);
    assert!(rt; is_refused || came == (0, 0, false), "{came:?}");
}
