//! The ways in which a process may end.
ghost use Rattle.std.specs.Prelude.{◌≡◌};
ghost use Rattle.up_stanza.specs.Exits.{same_exit};

use crate::signal::Signal;

/// An end of the main process that counts as normal (init(5), `normal exit`).
#[derive(Clone, Copy, Debug)]
pub enum Exit {
    Status(u8),
    Signal(Signal),
}

impl Exit {
    pub fn is(self, other: Exit) -> bool
        ensures { result ≡ same_exit self other }
    {
        match self {
            Exit::Status(status) => match other {
                Exit::Status(second) => status == second,
                Exit::Signal(_) => false,
            },
            Exit::Signal(signal) => match other {
                Exit::Status(_) => false,
                Exit::Signal(second) => signal.number() == second.number(),
            },
        }
    }
}
