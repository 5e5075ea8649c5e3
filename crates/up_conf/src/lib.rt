//! The jobs that the files of a folder define, with their overrides, and the faults of the rest (init(5)).
//!
//! Everything above this crate takes the stanzas of a file from here too.
#![tactic(auto)]

mod both;
mod copies;
pub mod ending;
pub mod files;
pub mod folder;
pub mod folder_index;
mod gathered;
pub mod job;
pub mod meaning;
mod order;
mod outcome;
mod outline;
mod parsed;
pub mod report;

pub use ending::{job_name, overridden_name};
pub use files::read_folder;
pub use folder::{File, Folder};
pub use folder_index::FolderIndex;
pub use job::JobDef;
pub use meaning::{apply_override, job_of};
pub use report::{Fault, Report};
pub use up_stanza::{
    Action, ConfFault, Console, Exit, FaultCode, Limit, Process, Setting, Signal, Stanza, Stanzas,
    number_in, read_conf, signal_name,
};
