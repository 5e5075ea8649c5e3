//! A stream that keeps whether and why a call of it failed.
ghost use Rattle.std.specs.Prelude.{◌≡◌, true, false};
ghost use Rattle.up_print.specs.Noting.{has_failed, inner_of};

use std::io;
use std::io::{ErrorKind, Read, Write};

/// A reader or a writer, with the number of bytes that were read or written, and its last error. It has failed if a call of it returned an
/// error, except that it was interrupted, or took none of some bytes.
#[derive(Drop)]
pub struct Noted<T> {
    inner: T,
    count: u64,
    error: Option<io::Error>,
    failed: bool,
}

impl<T> Noted<T> {
    pub fn new(inner: T) -> Self
        ensures failed { has_failed result ≡ false }
        ensures inner { inner_of result ≡ inner }
    {
        Noted {
            inner,
            count: 0,
            error: None,
            failed: false,
        }
    }

    pub fn has_failed(&self) -> bool
        ensures { result ≡ has_failed self.now }
    {
        let failed = self.failed;
        failed
    }

    /// How many bytes were read or written.
    pub fn count(&self) -> u64 {
        self.count
    }

    /// The last error of a call, other than that it was interrupted.
    pub fn error(&self) -> Option<io::Error> {
        self.error
    }

    // Takes no more.
    pub(crate) fn give_up(&mut self)
        ensures failed { has_failed self.new ≡ true }
        ensures inner { inner_of self.new ≡ inner_of self.old }
    {
        self.failed = true;
    }

    fn note(&mut self, error: &io::Error)
        ensures failed { has_failed self.old ≡ true → has_failed self.new ≡ true }
        ensures inner { inner_of self.new ≡ inner_of self.old }
    {
        // The caller goes on after it.
        if error.kind() != ErrorKind::Interrupted {
            self.error = Some(*error);
            self.failed = true;
        }
    }
}

impl<R: Read> Read for Noted<R> {
    ghost remaining = { λ noted. R.remaining noted.inner };

    fn read(&mut self, buf: &mut [u8]) -> io::Result<usize> {
        match self.inner.read(buf) {
            Ok(count) => {
                self.count = self.count.saturating_add(count as u64);
                Ok(count)
            }
            Err(error) => {
                self.note(&error);
                Err(error)
            }
        }
    }
}

impl<W: Write> Write for Noted<W> {
    ghost contents = { λ noted. W.contents noted.inner };

    fn write(&mut self, buf: &[u8]) -> io::Result<usize> {
        match self.inner.write(buf) {
            Ok(count) => {
                self.count = self.count.saturating_add(count as u64);
                Ok(count)
            }
            Err(error) => {
                self.note(&error);
                Err(error)
            }
        }
    }

    fn flush(&mut self) -> io::Result<()> {
        match self.inner.flush() {
            Ok(()) => Ok(()),
            Err(error) => {
                self.note(&error);
                Err(error)
            }
        }
    }
}
