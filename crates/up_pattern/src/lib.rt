//! Patterns: which bytes they match, by fnmatch(3).
#![tactic(auto)]

pub mod pattern;

pub use pattern::{glob, supported};
