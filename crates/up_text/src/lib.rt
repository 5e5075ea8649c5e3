//! The meaning of the bytes of a job file, a script or a request: tokens, the texts of commands, scripts, and expansions.
//!
//! Everything above this crate takes its texts, names, environments and lists from here too, and its patterns.
#![tactic(auto)]

pub mod expansion;
pub mod lexer;
pub mod token;

pub use expansion::{Expanded, expand, is_expandable};
pub use lexer::{Lexer, next_word, without_comments};
pub use token::Token;
pub use up_pattern::{glob, supported};
pub use up_value::{Env, Items, Name, Text, TextFault, as_text, copy_texts, env, is_name};
