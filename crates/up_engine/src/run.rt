//! A run over a list of inputs.
use up_model::Step;
use up_text::Items;

/// The answers of a run: one step for each input, in order. If `down`, the input after the last step ran out of memory, and the
/// engine is down.
#[derive(Drop)]
pub struct Run {
    pub steps: Items<Step>,
    pub down: bool,
}
