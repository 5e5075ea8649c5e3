//! The id of a live event in memory.

/// A live event. Once it has finished, another event may get the same id.
#[derive(Clone, Copy, Debug, PartialEq, Eq)]
pub struct EventId {
    /// The place of the event, for the crate that keeps the live events: no other makes an id or looks inside.
    pub key: usize,
}
