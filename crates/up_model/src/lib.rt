//! What should have happened: the values that all crates share, and the definitions of a run over its history.
//!
//! `specs/` defines what a run means; the crates above cite it and add nothing.
#![tactic(auto)]

pub mod event;
pub mod event_id;
pub mod exit_status;
pub mod failure;
pub mod input;
pub mod laws;
pub mod life;
pub mod loaded;
pub mod output;
pub mod process;
pub mod request;
pub mod state;
pub mod status;
pub mod step;
pub mod who;

pub use event::Event;
pub use event_id::EventId;
pub use exit_status::ExitStatus;
pub use failure::{Cause, End, EndRules, Failure, Verdict};
pub use input::Input;
pub use life::{EntryActions, JobEvent};
pub use loaded::Loaded;
pub use output::{Order, Output};
pub use process::{How, process_name};
pub use request::{Answer, Command, Request};
pub use state::{Goal, State};
pub use status::{push_who, status_text};
pub use step::Step;
pub use up_conf::{JobDef, Process};
pub use who::Who;
