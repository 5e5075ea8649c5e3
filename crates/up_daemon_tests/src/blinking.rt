//! The real system, which may tell nothing of a process at the first look at it.
use std::alloc::Allocator;
use std::io;
use std::process::{Child, Command, ExitStatus, OpenProcess, Processes, Stdio};
use std::rt::Clock;
use std::time::Duration;

/// A system whose processes are real.
#[derive(Drop)]
pub(crate) struct Blinking {
    pub(crate) system: HostRuntime,
    /// Whether the first look at each process fails.
    pub(crate) blinks: bool,
}

type Real = <HostRuntime as Processes>::Started;

/// A real process.
#[derive(Drop)]
pub(crate) struct Seen {
    child: Child<Real>,
    blinks: bool,
}

impl OpenProcess for Seen {
    type Stdin = io::Sink;

    type Stdout = io::Empty;

    type Stderr = io::Empty;

    fn id(&self) -> u32 {
        self.child.id()
    }

    fn wait(&mut self) -> io::Result<ExitStatus> {
        self.child.wait()
    }

    fn try_wait(&mut self) -> io::Result<Option<ExitStatus>> {
        if self.blinks {
            self.blinks = false;
            return Err(io::Error::from(io::ErrorKind::Other));
        }
        self.child.try_wait()
    }

    fn kill(&mut self) -> io::Result<()> {
        self.child.kill()
    }
}

impl Processes for Blinking {
    type Started = Seen;

    fn spawn<B: Allocator + Clone>(
        &self,
        command: &Command<B>,
        stdin: &Stdio,
        stdout: &Stdio,
        stderr: &Stdio,
    ) -> io::Result<Child<Seen>> {
        let child = self.system.spawn(command, stdin, stdout, stderr)?;
        let seen = Seen {
            child,
            blinks: self.blinks,
        };
        Ok(Child::from_parts(seen, None, None, None))
    }
}

impl Clock for Blinking {
    fn monotonic(&self) -> io::Result<Duration> {
        self.system.monotonic()
    }

    fn since_1970(&self) -> io::Result<Duration> {
        self.system.since_1970()
    }

    fn sleep(&self, time: Duration) {
        self.system.sleep(time)
    }
}
