//! The requests of command lines, and their exit status.
#![tactic(auto)]

mod arguments;
pub mod command;
pub mod run_command;

pub use command::{Invocation, parse_args, print_refusal};
pub use up_run::{ReportOptions, Rounds};
pub use up_tools::{Kind, View};
