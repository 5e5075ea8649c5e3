//! The entries of a door's record.
use up_text::Items;

/// One call of a door that succeeded, with its arguments and its answer.
#[derive(Drop)]
pub enum Passed {
    /// The client that was accepted, if one waited.
    Accepted(Option<u32>),
    /// The bytes that were read from the client, if it sent any; an empty piece means that it sends no more.
    Read(u32, Option<Items<u8>>),
    /// The bytes that were taken from the caller for the client.
    Wrote(u32, Items<u8>),
    /// The client was closed.
    Closed(u32),
}
