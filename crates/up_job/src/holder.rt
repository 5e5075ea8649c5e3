//! What an instance holds.

use up_model::{Command, EventId};

/// What an instance holds until its goal is reached: a live event, or a waiting client with the number of its answer and its command.
#[derive(Clone, Copy)]
pub enum Holder {
    Event(EventId),
    Client { id: u64, command: Command },
}
