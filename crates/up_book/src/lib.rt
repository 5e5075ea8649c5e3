//! A book: what an engine keeps of the past, and how it reads and changes that.
#![tactic(auto)]

mod book;
mod hearers;
mod holders;
mod orders;

pub use book::Book;
pub use hearers::{is_hearer, next_other};
pub use holders::Holders;
pub use orders::{action_of, order_of, signal_of};
