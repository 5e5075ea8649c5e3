//! The names of processes, and how one ends.
ghost use Rattle.std.specs.Prelude.{◌≡◌};
ghost use Rattle.up_model.specs.Events as events;

use up_conf::Process;

/// How a process ended: by its own exit status, or by a signal's number.
#[derive(Clone, Copy, Debug, PartialEq, Eq, Hash)]
pub enum How {
    Exit(u8),
    Signal(u8),
}

/// A process as events and orders name it (stopping(7)).
pub fn process_name(process: Process) -> &'static str
    ensures { result.now ≡ events.process_name process }
{
    match process {
        Process::Main => "main",
        Process::PreStart => "pre-start",
        Process::PostStart => "post-start",
        Process::PreStop => "pre-stop",
        Process::PostStop => "post-stop",
    }
}
