//! The tests of the libraries that read texts and expressions, over their public interfaces: `up_value`, `up_pattern`, `up_text` and `up_expr`; and
//! what tables of cases share, here and in `up_file_tests`.
#![tactic(auto)]

#[cfg(test)]
mod expr;
pub mod tables;
#[cfg(test)]
mod text;
pub mod written;
