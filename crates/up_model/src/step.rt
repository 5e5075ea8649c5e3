//! The answer of an engine to one input.
use crate::output::Output;
use up_text::Items;

/// The answer to one input.
#[derive(Drop)]
pub enum Step {
    /// The outputs of the step, in order.
    Gave(Items<Output>),
    /// The input wasn't expected: the answer for a process that wasn't ordered, or the end of one that doesn't live.
    NotExpected,
}
