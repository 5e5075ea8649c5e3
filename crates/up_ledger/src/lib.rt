//! A book that forgets: of the past it keeps what can still matter.
#![tactic(auto)]

mod hearing;
mod holders;
mod holding;
mod ledger;
mod offers;
mod past;
mod readings;
mod replies;
mod step;
mod telling;

pub use ledger::Ledger;
pub use past::Past;
pub use step::{ActedOn, Asked, Step};
