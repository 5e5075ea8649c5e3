//! The inputs of an engine, one for each step.
ghost use Rattle.std.specs.Prelude.{◌≡◌, IfOk};

use crate::event::Event;
use crate::loaded::Loaded;
use crate::process::How;
use crate::request::Request;
use crate::who::Who;
use std::alloc::{AllocError, Global};
use up_conf::Process;

/// One input: what a client, a child or the clock did, or a turn of the event queue.
#[derive(Drop)]
pub enum Input {
    /// An event from outside.
    Emit(Event),
    /// A client's request, with the number of its answer.
    Request {
        id: u64,
        request: Request,
    },
    /// An ordered process runs.
    Spawned {
        who: Who,
        process: Process,
        pid: u32,
    },
    /// An ordered process couldn't be started.
    Refused {
        who: Who,
        process: Process,
    },
    /// A process ended.
    Ended {
        who: Who,
        process: Process,
        how: How,
    },
    /// A reading of the clock, in milliseconds.
    Clock(u64),
    /// One event is handled or finished.
    Turn,
    /// The configuration was read again for a client, with the number of its answer.
    Load {
        id: u64,
        loaded: Loaded,
    },
}

impl Input {
    pub fn copy(&self, alloc: Global) -> Result<Self, AllocError>
        ensures { IfOk result (λ input. input ≡ self.now) }
    {
        match self {
            Input::Emit(event) => {
                let event = event.copy()?;
                Ok(Input::Emit(event))
            }
            Input::Request { id, request } => {
                let request = request.copy()?;
                Ok(Input::Request { id: *id, request })
            }
            Input::Spawned { who, process, pid } => {
                let who = who.copy()?;
                Ok(Input::Spawned {
                    who,
                    process: *process,
                    pid: *pid,
                })
            }
            Input::Refused { who, process } => {
                let who = who.copy()?;
                Ok(Input::Refused {
                    who,
                    process: *process,
                })
            }
            Input::Ended { who, process, how } => {
                let who = who.copy()?;
                Ok(Input::Ended {
                    who,
                    process: *process,
                    how: *how,
                })
            }
            Input::Clock(reading) => Ok(Input::Clock(*reading)),
            Input::Turn => Ok(Input::Turn),
            Input::Load { id, loaded } => {
                let loaded = loaded.copy(alloc)?;
                Ok(Input::Load { id: *id, loaded })
            }
        }
    }
}
