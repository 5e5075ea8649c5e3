//! How the jobs of a folder are kept: their table, and its image in bytes.
#![tactic(auto)]

mod bytes;
pub mod compiling;
mod definable;
mod definable_events;
mod definable_texts;
mod files;
mod fits;
mod image;
pub mod image_error;
pub mod index;
pub mod job_file;
mod job_parts;
mod job_text;
pub mod laws;
pub mod limits;
mod put_job;
mod put_lists;
mod put_nodes;
mod read_fault;
mod read_image;
pub mod refusal;
mod same_image;
mod stanza_text;
pub mod table;
mod take;
mod take_job;
mod take_lists;
mod take_nodes;
mod twice;
pub mod version;

pub use compiling::compile;
pub use files::job_files;
pub use image_error::ImageError;
pub use index::{Place, add_stops, places_of_files, sort_places};
pub use job_file::JobFile;
pub use limits::MAX_JOBS;
pub use refusal::CompileError;
pub use table::Table;
pub use version::Version;
