//! A system whose processes end strangely, and which refuses what the real one can't be made to refuse.
use crate::edge::calls::play;
use std::alloc::Allocator;
use std::cell::Cell;
use std::io;
use std::os::unix::process::ExitStatusExt;
use std::process::{Child, Command, ExitStatus, OpenProcess, Processes, Stdio};
use std::rt::Clock;
use std::test::Fail;
use std::time::Duration;
use up_edge::RealHost;

#[derive(Drop)]
enum FakeProcess {
    // It goes on until it is waited for.
    Living,
    // Its status is that of a process that was stopped, which is neither an exit nor a signal.
    Stopped,
    // The system doesn't tell of it.
    Lost,
    Exited,
}

impl OpenProcess for FakeProcess {
    type Stdin = io::Sink;

    type Stdout = io::Empty;

    type Stderr = io::Empty;

    fn id(&self) -> u32 {
        7
    }

    fn wait(&mut self) -> io::Result<ExitStatus> {
        Ok(ExitStatus::from_raw(0))
    }

    fn try_wait(&mut self) -> io::Result<Option<ExitStatus>> {
        match self {
            FakeProcess::Living => Ok(None),
            FakeProcess::Stopped => Ok(Some(ExitStatus::from_raw(0x7f))),
            FakeProcess::Lost => Err(io::Error::from(io::ErrorKind::Other)),
            FakeProcess::Exited => Ok(Some(ExitStatus::from_raw(5 * 256))),
        }
    }
}

#[derive(Drop)]
struct FakeSystem {
    // How often its clock can be read.
    readings: Cell<u32>,
}

impl Processes for FakeSystem {
    type Started = FakeProcess;

    fn spawn<B: Allocator + Clone>(
        &self,
        command: &Command<B>,
        _stdin: &Stdio,
        _stdout: &Stdio,
        _stderr: &Stdio,
    ) -> io::Result<Child<FakeProcess>> {
        let process = match command.get_program() {
            "/refused" => return Err(io::Error::from(io::ErrorKind::Other)),
            "/living" => FakeProcess::Living,
            "/stopped" => FakeProcess::Stopped,
            "/lost" => FakeProcess::Lost,
            _ => FakeProcess::Exited,
        };
        Ok(Child::from_parts(process, None, None, None))
    }
}

impl Clock for FakeSystem {
    fn monotonic(&self) -> io::Result<Duration> {
        let Some(left) = self.readings.get().checked_sub(1) else {
            return Err(io::Error::from(io::ErrorKind::Other));
        };
        self.readings.set(left);
        Ok(Duration::from_millis(1))
    }

    fn since_1970(&self) -> io::Result<Duration> {
        Ok(Duration::from_millis(1))
    }

    fn sleep(&self, _time: Duration) {}
}

type System = RealHost<FakeSystem>;

// A host over a system whose clock can be read so often.
fn host_of(rt: &HostRuntime, readings: u32) -> io::Result<System> {
    let readings = Cell::new(readings);
    RealHost::new(rt.alloc(), FakeSystem { readings })
}

// Plays a script with such a host.
fn with_host(rt: &HostRuntime, readings: u32, script: &'static str) -> Result<(), Fail> {
    let mut host = host_of(rt, readings)?;
    let played = play(rt, &mut host, script);
    drop(host);
    played
}

const STOPPED: &str = "\
spawn / /stopped|7
poll|signal 0
";

#[test]
fn an_unknown_status_is_signal_0(rt: HostRuntime) -> Result<(), Fail> {
    with_host(&rt, 1, STOPPED)
}

const LOST: &str = "\
spawn / /lost|7
spawn / /exited|7
poll|fault
poll|exit 5
poll|nothing
entries|4
faults|1
";

#[test]
fn a_child_of_which_nothing_is_told_hides_no_other(rt: HostRuntime) -> Result<(), Fail> {
    with_host(&rt, 1, LOST)
}

const LIVING: &str = "\
spawn / /living|7
spawn / /exited|7
poll|exit 5
poll|nothing
poll|nothing
entries|5
faults|0
";

#[test]
fn a_child_that_lives_is_not_waited_for(rt: HostRuntime) -> Result<(), Fail> {
    with_host(&rt, 1, LIVING)
}

const REFUSALS: &str = "\
spawn / /refused|fault
spawn / /living|7
signal 9|fault
clock|0
clock|fault
entries|2
faults|3
";

#[test]
fn what_the_system_refuses_is_a_fault(rt: HostRuntime) -> Result<(), Fail> {
    if host_of(&rt, 0).is_ok() {
        return Err(Fail::from("a host without a clock"));
    }
    with_host(&rt, 2, REFUSALS)
}
