//! The entries of a host's record.
use up_model::{How, Order, Process, Who};

/// One call of a host that succeeded, with its arguments and its answer.
#[derive(Drop)]
pub enum Happened {
    /// The order's process was started with this process number.
    Spawned(Order, u32),
    /// The end that was found, if there was one.
    Polled(Option<(Who, Process, How)>),
    /// The signal was sent to the process.
    Signalled(Who, u32, u8),
    /// The clock's reading, in milliseconds.
    Now(u64),
}
