//! The contents of one job file: its stanzas (init(5)).
#![tactic(auto)]

pub mod action;
mod argument;
mod command;
pub mod conf;
pub mod exit;
mod expression;
pub mod fault;
mod kind;
pub mod laws;
pub mod limit;
mod listed;
pub mod number;
pub mod process;
mod reader;
mod running;
pub mod setting;
pub mod signal;
pub mod stanza;
mod statement;

pub use action::Action;
pub use command::{has_shell, is_shell};
pub use conf::{read_bytes, read_conf};
pub use exit::Exit;
pub use fault::{ConfFault, FaultCode};
pub use limit::Limit;
pub use number::number_in;
pub use process::Process;
pub use setting::Setting;
pub use signal::{KILL, Signal, signal_name};
pub use stanza::{Console, Stanza, Stanzas};
