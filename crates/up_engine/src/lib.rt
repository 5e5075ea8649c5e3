//! The engine: what to do now. Its contract is the model's run.
#![tactic(auto)]

mod due;
mod engine;
mod fault;
mod judgement;
mod laws;
mod load;
mod requests;
mod run;
mod status;
mod step;
mod target;
mod texts;
mod time;

pub use engine::Engine;
pub use fault::StepError;
pub use laws::{idle_turns, left_as_told, one_main};
pub use run::Run;
