//! A token of a job file or a script.

use up_value::Text;

/// A token of init(5), without its quoting.
#[derive(Debug, Drop)]
pub struct Token {
    /// The line of its first byte; lines count from 1.
    pub line: u32,
    /// The text without quoting.
    pub text: Text,
    /// Whether it is spelled without quotes and backslashes.
    pub plain: bool,
}
