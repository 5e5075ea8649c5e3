//! Texts, names, environments and lists: the values that everything above uses.
//!
//! A text is held as [`Text`], a name as [`Name`] and a list as [`Items`], which contracts see as the list of their bytes or items,
//! without their addresses in memory.
#![tactic(auto)]

mod chars;
pub mod env;
pub mod fault;
pub mod items;
pub mod name;
mod pairs;
pub mod text;

pub use env::Env;
pub use fault::TextFault;
pub use items::Items;
pub use name::{Name, is_name};
pub use text::{Text, as_text, copy_texts};
