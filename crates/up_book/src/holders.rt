//! Who holds an instance.
use up_model::EventId;
use up_text::Items;

/// Who holds an instance after a start, a stop or a restart.
#[derive(Drop)]
pub enum Holders {
    /// The events that an expression took, from left to right.
    Taken(Items<EventId>),
    /// The client of this step's request, if it waits.
    Client,
    Nobody,
}
