//! A run as a picture, and the duration of each start in it.
#![tactic(auto)]

mod arrow;
pub mod blame;
pub mod chart;
mod clock;
mod label;
mod moment;
mod push;
mod row;
mod rows;
mod scale;
mod seen;
pub mod svg;
mod times;

pub use chart::{Chart, chart_of};
pub use clock::Clock;
pub use label::{Arrow, Label, Mark, Span, Start};
pub use moment::{Moment, Sign, push_step};
