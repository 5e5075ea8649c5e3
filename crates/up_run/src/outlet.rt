//! Writes to standard output without waiting for its reader.
ghost use Rattle.std.specs.Prelude.{◌≡◌, ◌⊎◌, ◌<◌, ◌+◌, ◌++◌, [], drop, length};
ghost use Rattle.up_run.specs.Outlets.{is_feed, lines_in, more_by};
ghost use Rattle.up_run.specs.declared.outlet.TheConstants.{MOST_UNREAD};

use mio::unix::SourceFd;
use mio::{Events, Interest, Poll, Token};
use std::alloc::Global;
use std::fs::{File, OpenOptions, metadata};
use std::io;
use std::io::{ErrorKind, Write};
use std::net::Net;
use std::os::fd::OwnedFd;
use std::os::unix::fs::{FileTypeExt, MetadataExt};
use std::os::unix::net::UnixStream;
use std::rt::Files;
use std::time::Duration;

/// The descriptor of standard output.
const OUTPUT: i32 = 1;

/// The path by which it is opened again (proc(5)).
const OUTPUT_PATH: &str = "/proc/self/fd/1";

/// The maximum number of bytes in one write. A pipe that takes any takes this many (pipe(7), PIPE_BUF).
const MOST_AT_ONCE: usize = 4_096;

/// The maximum number of bytes that wait while nobody reads.
const MOST_UNREAD: usize = 1_048_576;

/// The maximum number of writes in one flush: enough for all bytes that may wait.
const MOST_WRITES: usize = 257;

/// The first and the last major device number of pseudo-terminals (pts(4)), from the kernel's list of devices.
const PLAYED_FIRST: u64 = 136;

const PLAYED_LAST: u64 = 143;

// Reports whether standard output takes bytes now.
#[derive(Drop)]
struct Watch {
    poll: Poll,
    events: Events,
}

// The way to write to standard output without waiting.
#[derive(Drop)]
enum Way {
    // standard output opened again; a write to it that would wait is refused
    Anew(File),
    // standard output itself, when it takes bytes
    Watched(Watch),
    // a file, which always takes bytes
    Plain,
}

/// Standard output, which gets lines as far as it takes them at once. The others wait, and past a limit they are lost.
#[derive(Drop)]
pub(crate) struct Outlet {
    way: Way,
    waiting: Vec<u8>,
    // how many of the waiting bytes are written
    written: usize,
    // how many lines were lost
    lost: u64,
}

// The major number of a device (makedev(3)).
fn major_of(device: u64) -> u64 {
    (device >> 8) % 4_096
}

// Opens a pipe for writing. That would wait for a reader, so the pipe is opened for reading as well for a moment.
fn open_pipe<R: Files<File = File>>(rt: &R) -> io::Result<File> {
    let both = OpenOptions::new()
        .read(true)
        .write(true)
        .open(rt, OUTPUT_PATH)?;
    let opened = OpenOptions::new().write(true).open(rt, OUTPUT_PATH);
    drop(both);
    opened
}

// Standard output opened again, if that is sure not to wait: a pipe, or a pseudo-terminal.
fn open_output<R: Files<File = File>>(rt: &R) -> io::Result<File> {
    let found = metadata(rt, OUTPUT_PATH)?;
    let kind = found.file_type();
    let major = major_of(found.rdev());
    if kind.is_fifo() {
        open_pipe(rt)
    } else if kind.is_char_device() && PLAYED_FIRST <= major && major <= PLAYED_LAST {
        OpenOptions::new().write(true).open(rt, OUTPUT_PATH)
    } else {
        Err(io::Error::from(ErrorKind::Unsupported))
    }
}

// The same, so that a write that would wait is refused. Only the file opened here is affected: services keep an output that waits.
fn open_anew<R: Files<File = File>>(rt: &R) -> io::Result<File> {
    let output = open_output(rt)?;
    let same = UnixStream::from(OwnedFd::from(output.try_clone()?));
    same.set_nonblocking(true)?;
    Ok(output)
}

// A watch over standard output, if the system can watch it.
fn watched<R: Net>(rt: &R, alloc: Global) -> Option<Watch> {
    let poll = Poll::new(rt).ok()?;
    let mut output = SourceFd(&OUTPUT);
    poll.registry()
        .register(&mut output, Token(0), Interest::WRITABLE)
        .ok()?;
    let events = Events::with_capacity(alloc, 1).ok()?;
    Some(Watch { poll, events })
}

fn way_of<R: Files<File = File> + Net>(rt: &R, alloc: Global) -> Way {
    if let Ok(output) = open_anew(rt) {
        return Way::Anew(output);
    }
    match watched(rt, alloc) {
        Some(watch) => Way::Watched(watch),
        None => Way::Plain,
    }
}

fn is_feed(byte: u8) -> bool
    ensures { result ≡ is_feed byte }
{
    byte == b'\n'
}

// How many line feeds a text contains.
fn lines_in(text: &[u8]) -> u64
    ensures { result ≡ lines_in text.now }
{
    text.iter().filter(|byte| is_feed(**byte)).count() as u64
}

impl Watch {
    // Whether standard output takes bytes now: the watch is renewed, and reports the present state.
    fn takes(&mut self) -> bool {
        let mut output = SourceFd(&OUTPUT);
        let again = self
            .poll
            .registry()
            .reregister(&mut output, Token(0), Interest::WRITABLE);
        if again.is_err() {
            return true;
        }
        match self.poll.poll(&mut self.events, Some(Duration::ZERO)) {
            Ok(()) => !self.events.is_empty(),
            Err(_) => false,
        }
    }
}

// Writes to an output that refuses what would wait; returns how many bytes it took.
fn write_some(output: &mut File, bytes: &[u8]) -> io::Result<usize> {
    match output.write(bytes) {
        Err(error) if matches!(error.kind(), ErrorKind::WouldBlock | ErrorKind::Interrupted) => {
            Ok(0)
        }
        written => written,
    }
}

fn write_all<R: Print>(rt: &R, bytes: &[u8]) -> io::Result<usize> {
    let mut writer = io::writer(rt);
    writer.write_all(bytes)?;
    writer.flush()?;
    Ok(bytes.len())
}

impl Way {
    // Writes to standard output; returns how many bytes it took, 0 if it takes none now.
    fn write<R: Print>(&mut self, rt: &R, bytes: &[u8]) -> io::Result<usize> {
        match self {
            Way::Anew(output) => write_some(output, bytes),
            Way::Watched(watch) => {
                if watch.takes() {
                    write_all(rt, bytes)
                } else {
                    Ok(0)
                }
            }
            Way::Plain => write_all(rt, bytes),
        }
    }
}

impl Outlet {
    /// Standard output before the first line.
    pub(crate) fn new<R: Files<File = File> + Net>(rt: &R, alloc: Global) -> Self {
        Outlet {
            way: way_of(rt, alloc),
            waiting: Vec::new(alloc),
            written: 0,
            lost: 0,
        }
    }

    // Writes the next of the waiting bytes, and returns how many. At their end nothing waits any more.
    fn write_next<R: Print>(&mut self, rt: &R) -> io::Result<usize> {
        let left = self.waiting.get(self.written..).unwrap_or(&[]);
        let next = left.get(..MOST_AT_ONCE).unwrap_or(left);
        let count = self.way.write(rt, next)?;
        self.written = self.written.saturating_add(count);
        if self.written >= self.waiting.len() {
            self.waiting.clear();
            self.written = 0;
        }
        Ok(count)
    }

    /// Writes the waiting bytes, as far as standard output takes them at once.
    pub(crate) fn flush<R: Print>(&mut self, rt: &R) -> io::Result<()> {
        for _ in 0..MOST_WRITES {
            if self.waiting.is_empty() || self.write_next(rt)? == 0 {
                return Ok(());
            }
        }
        Ok(())
    }

    // Puts lines after those that wait. They are lost if too many wait, or out of memory.
    fn keep(&mut self, text: &[u8])
        ensures whole { ((self.new.waiting.items ≡ self.old.waiting.items ++ text.now) × (self.new.lost ≡ self.old.lost))
            ⊎ ((self.new.waiting.items ≡ self.old.waiting.items) × (self.new.lost ≡ more_by (lines_in text.now) self.old.lost)) }
        ensures many { MOST_UNREAD < length self.old.waiting.items + length text.now
            → self.new.waiting.items ≡ self.old.waiting.items }
        ensures written { self.new.written ≡ self.old.written }
    {
        let room = MOST_UNREAD.saturating_sub(self.waiting.len());
        if text.len() > room || self.waiting.extend_from_slice(text).is_err() {
            self.lost = self.lost.saturating_add(lines_in(text));
        }
    }

    /// Writes lines, or lets them wait.
    pub(crate) fn write_lines<R: Print>(&mut self, rt: &R, text: &[u8]) -> io::Result<()> {
        self.flush(rt)?;
        self.keep(text);
        self.flush(rt)
    }

    /// How many lines were lost since the last call, if none wait any more.
    pub(crate) fn take_lost(&mut self) -> u64
        ensures none { self.old.waiting.items ≡ [] → (result ≡ self.old.lost) × (self.new.lost ≡ 0) }
        ensures later { 0 < length self.old.waiting.items → (result ≡ 0) × (self.new.lost ≡ self.old.lost) }
        ensures waiting { self.new.waiting ≡ self.old.waiting }
        ensures written { self.new.written ≡ self.old.written }
    {
        if !self.waiting.is_empty() {
            return 0;
        }
        let lost = self.lost;
        self.lost = 0;
        lost
    }

    /// How many lines were lost or still wait.
    pub(crate) fn unread(&self) -> u64
        ensures { result ≡ more_by (lines_in (drop self.now.written self.now.waiting.items)) self.now.lost }
    {
        let left = self.waiting.get(self.written..).unwrap_or(&[]);
        self.lost.saturating_add(lines_in(left))
    }
}
