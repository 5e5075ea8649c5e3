//! Finds what is allowed in a folder of job files but is most likely a mistake: warnings, each with its file and line.
#![tactic(auto)]

mod circle;
mod commands;
mod exports;
mod gather;
mod head;
mod job;
mod lint;
mod names;
mod next;
mod order;
mod pieces;
mod push;
mod question;
mod sheet;
mod stop;
mod warning;
mod world;

pub use lint::push_lint;
pub use warning::{Kind, kind_named};
