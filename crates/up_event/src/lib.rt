//! The live events, by age: which of them a turn takes up or finishes next, how often each is held, and which client waits for it.
#![tactic(auto)]

mod events;
mod live;
mod nodes;
mod queue;

pub use events::Events;
pub use live::{Finished, LiveEvent, TurnKind};
