//! The parts of a picture.
use crate::moment::Sign;
use up_model::State;
use up_text::Text;

/// The name of a row.
#[derive(Drop)]
pub struct Label {
    pub place: u64,
    pub name: Text,
}

/// A state of an instance, with its beginning and end in milliseconds.
#[derive(Clone, Copy)]
pub struct Span {
    pub place: u64,
    pub state: State,
    pub begin: u64,
    pub end: u64,
}

/// An event that started an instance.
#[derive(Clone, Copy)]
pub struct Arrow {
    /// The row of the instance to whose life it belongs; `None` for an event from outside.
    pub from: Option<u64>,
    /// The time at which it occurred.
    pub came: u64,
    /// The row of the instance that it started.
    pub place: u64,
    /// The time at which the life of that instance began.
    pub life_began: u64,
}

/// A sign of an instance, at a time.
#[derive(Drop)]
pub struct Mark {
    pub place: u64,
    pub time: u64,
    pub sign: Sign,
}

/// A completed start: its beginning and its duration in milliseconds.
#[derive(Drop)]
pub struct Start {
    pub name: Text,
    pub began: u64,
    pub took: u64,
}
