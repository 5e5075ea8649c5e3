//! The cascade: the effects of a step, until nothing is due.
#![tactic(auto)]

mod environment;
mod events;
mod hear;
mod life;
mod moves;
mod offers;
mod settle;
mod setup;

pub use environment::request_start_env;
pub use events::{event_of, failure_of_event};
pub use hear::hear_all;
pub use offers::{has_room, start_called, stop_of};
pub use settle::{settle_alone, settle_jobs};
pub use setup::Setup;
