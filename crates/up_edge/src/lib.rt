//! The edge: access to the system, and scripts that replace it.
//!
//! [`Host`] is the contract of a host of processes, [`RealHost`] starts real ones, and [`ScriptHost`] plays a script. [`Door`] is the
//! contract of a door to clients, [`UnixDoor`] is one over a socket, and [`ScriptDoor`] plays a script. [`Source`] is the contract of a
//! source of configurations, and [`ScriptSource`] plays a script.
#![tactic(auto)]

mod buffer;
mod child;
mod command;
mod door;
mod door_call;
mod door_fault;
mod failure;
mod happened;
mod host;
mod host_fault;
mod journal;
mod passed;
mod real_host;
mod script_door;
mod script_host;
mod script_source;
mod socket;
mod source;
mod source_fault;
mod unix_door;
mod visitor;

pub use door::Door;
pub use door_call::DoorCall;
pub use door_fault::DoorFault;
pub use failure::{Failure, Failures};
pub use happened::Happened;
pub use host::Host;
pub use host_fault::HostFault;
pub use journal::Journal;
pub use passed::Passed;
pub use real_host::{RealHost, Refusal};
pub use script_door::ScriptDoor;
pub use script_host::{Script, ScriptHost};
pub use script_source::ScriptSource;
pub use socket::SocketFault;
pub use source::{Source, report_load};
pub use source_fault::SourceFault;
pub use unix_door::UnixDoor;
pub use visitor::Visitor;
