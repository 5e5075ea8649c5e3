//! The daemon: an engine in rounds between a host, a door and a source of configurations.
#![tactic(auto)]

mod clients;
mod copies;
mod daemon;
mod error;
mod laws;
mod log;
mod parts;
mod work;

pub use daemon::Daemon;
pub use error::DaemonError;
pub use laws::{
    begins_at_rest, closes_for_cause, counts_calls, loses_nothing, numbers_requests, stays_at_rest,
};
pub use log::Round;
