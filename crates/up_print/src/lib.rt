//! The output for a folder of job files, with what it says of a fault, and for the steps of a run.
#![tactic(auto)]

pub mod advice;
pub mod check;
pub mod graph;
pub mod lines;
pub mod noted;
pub mod printed;
mod push;
mod sentence;
pub mod writes;

pub use advice::push_advice;
pub use lines::{push_bad_step, push_output, push_outputs, push_step};
pub use noted::Noted;
pub use printed::{Printed, cannot_use, image_refused};
pub use writes::write_printed;
