//! The output for a folder of job files, or the folders of a bundle, and a script of what happens to their jobs; and for folders, scripts and images
//! on the disk.
#![tactic(auto)]

mod bundle;
mod compiled;
pub mod disk;
pub mod image;
pub mod print;
pub mod replay;
mod reread;
mod running;
pub mod source;
pub mod walk;
pub mod why;

pub use bundle::{BundleRun, compile_bundle};
pub use disk::{check_dir, explain_dir, graph_dir, replay_dir, replay_file};
pub use image::{bundle_files, compile_dir, read_bytes, show_image};
pub use replay::{play_bundle, play_run, render_bundle, render_folder};
pub use source::{replay_image, replay_source};
pub use walk::{WalkError, read_file};
