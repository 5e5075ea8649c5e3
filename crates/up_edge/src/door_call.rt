//! The calls of a door that may fail.

/// A call of a door, or why the door itself refused one.
#[derive(Clone, Copy, PartialEq, Eq)]
pub enum DoorCall {
    Accept,
    Read,
    Write,
    Close,
    /// A read of a client that was silent for too long.
    Silence,
}
