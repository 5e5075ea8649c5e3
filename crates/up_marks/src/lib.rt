//! What the expressions of jobs remember: for each leaf the first event that it matches, and which of their
//! nodes are true by that.
#![tactic(auto)]

pub mod finder;
pub mod index;
mod joining;
mod keeping;
pub mod laws;
pub mod leaves;
pub mod mark;
pub mod marks;
mod matching;
mod offers;
mod reset;
pub mod ruling;
mod taking;
pub mod trigger;
pub mod wanted;

pub use finder::{Finder, lesser_of};
pub use index::{Index, stop_leaves};
pub use leaves::Leaves;
pub use mark::Mark;
pub use marks::{Marks, Offer};
pub use ruling::{admits, may_start, may_stop, rules_out};
pub use trigger::{Firing, Trigger};
pub use up_image::Place;
