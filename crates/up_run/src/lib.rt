//! Runs the jobs of a folder or an image with the system's processes, and reports what happens.
#![tactic(auto)]

mod failures;
mod faults;
mod files;
mod head;
mod jobs;
mod outlet;
pub mod pace;
mod record;
pub mod reporter;
pub mod rounds;
pub mod run;
pub mod silence;
mod socket;
mod source;
mod start;
mod unsaid;

pub use reporter::ReportOptions;
pub use rounds::Rounds;
pub use run::run_source;
