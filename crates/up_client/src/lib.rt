//! The client `initctl`: it sends the request of its command line, and prints the answer.
#![tactic(auto)]

pub mod client;
pub mod talk;

pub use client::run;
