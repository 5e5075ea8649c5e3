//! Streams that fail.
use crate::replay::check;
use std::alloc::Global;
use std::io;
use std::io::{ErrorKind, Read, Write};
use std::process::Abort;
use up_disk::replay::replay;
use up_print::Noted;

pub(crate) const STARTUP: &'static [u8] =
    b"%file a.conf\nstart on startup\nexec /bin/true x\n%script\nemit startup\nturn\nturn\nturn\nspawned a \"\" main 100\nturn\nturn 2\n";

pub(crate) const PRINTED: &'static str =
    "event starting JOB=\"a\" INSTANCE=\"\"\nspawn a main \"/bin/true\" \"x\"\n  UPSTART_EVENTS=\"startup\"\n  UPSTART_JOB=\"a\"\n  UPSTART_INSTANCE=\"\"\nevent started JOB=\"a\" INSTANCE=\"\"\n";

const UNREADABLE: &str = "initd: cannot use -\n";

// Gives at most one byte a call, and fails for good after `before` bytes.
#[derive(Drop)]
struct Broken {
    bytes: &'static [u8],
    before: usize,
    kind: ErrorKind,
}

impl Read for Broken {
    fn read(&mut self, buf: &mut [u8]) -> io::Result<usize> {
        if self.before == 0 {
            return Err(self.kind.into());
        }
        if self.bytes.is_empty() || buf.is_empty() {
            return Ok(0);
        }
        self.before = self.before.saturating_sub(1);
        buf[0] = self.bytes[0];
        self.bytes = &self.bytes[1..];
        Ok(1)
    }
}

// Takes at most three bytes a call, and fails for good if it holds `room` bytes.
#[derive(Drop)]
struct Full {
    got: Vec<u8>,
    room: usize,
}

impl Write for Full {
    fn write(&mut self, buf: &[u8]) -> io::Result<usize> {
        let left = self.room.saturating_sub(self.got.len());
        if left == 0 {
            return Err(ErrorKind::Other.into());
        }
        let most = buf.len().min(3).min(left);
        self.got.extend_from_slice(&buf[..most])?;
        Ok(most)
    }

    fn flush(&mut self) -> io::Result<()> {
        Ok(())
    }
}

// A case, how many bytes come before the failure, its kind, what is printed, and the status.
static READERS: [(&str, usize, ErrorKind, &str, u8); 2] = [
    ("reader_wants_memory", 10, ErrorKind::OutOfMemory, "", 4),
    (
        "reader_gives_single_bytes",
        1000,
        ErrorKind::Other,
        PRINTED,
        0,
    ),
];

fn check_reader(
    rt: &(impl Abort + AllocGlobal),
    before: usize,
    kind: ErrorKind,
    wanted: (&str, u8),
    name: &str,
) {
    let mut reader = Broken {
        bytes: STARTUP,
        before,
        kind,
    };
    check(rt, &mut reader, wanted, (name, before));
}

#[test]
fn reader_fails(rt: HostRuntime) {
    for before in 0..STARTUP.len() {
        check_reader(
            &rt,
            before,
            ErrorKind::Other,
            (UNREADABLE, 3),
            "reader_fails",
        );
    }
}

#[test]
fn readers(rt: HostRuntime) {
    for (name, before, kind, printed, status) in &READERS {
        check_reader(&rt, *before, *kind, (printed, *status), name);
    }
}

// Whether a writer with this room gets the first bytes that it has room for.
fn is_cut(alloc: Global, room: usize) -> bool {
    let mut reader: &[u8] = STARTUP;
    let mut writer = Full {
        got: Vec::new(alloc),
        room,
    };
    let status = replay(
        alloc,
        &mut Noted::new(&mut reader),
        &mut Noted::new(&mut writer),
    );
    status == 3 && PRINTED.as_bytes().get(..room) == Some(writer.got.as_slice())
}

#[test]
fn writer_fails(rt: HostRuntime) {
    for room in 0..PRINTED.len() {
        assert!(rt; is_cut(rt.alloc(), room), "with room for {room} bytes");
    }
}
