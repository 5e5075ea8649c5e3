//! The tests of the libraries that run jobs and print runs, over their public interfaces: `up_engine`, `up_script`, `up_print`, and `up_disk`.
#![tactic(auto)]

#[cfg(test)]
mod disk;
#[cfg(test)]
mod engine;
#[cfg(test)]
mod replay;
