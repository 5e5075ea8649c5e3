//! Replay scripts, and bundles of a folder and a script, read and written.
#![tactic(auto)]

pub mod bundle;
pub mod inputs;
mod push;
mod requests;
mod same;
pub mod script;
pub mod scripted;
mod variables;
mod words;

pub use bundle::{Bundle, read_bundle};
pub use inputs::script_lines;
pub use script::{read_inputs, read_inputs_with, script_inputs};
pub use scripted::ScriptInputs;
