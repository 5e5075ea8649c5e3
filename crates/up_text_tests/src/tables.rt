//! What tables of cases share.
//!
//! Most tables are texts: the prover goes through each string of an array, and through none of a text.
use std::alloc::{AllocError, Global};
use std::fmt::Display;
use up_text::{Env, TextFault};

/// The three fields of a row, between which are `|`.
pub fn fields(row: &str) -> Option<(&str, &str, &str)> {
    match row.split_once('|') {
        Some((first, rest)) => match rest.split_once('|') {
            Some((second, third)) => Some((first, second, third)),
            None => None,
        },
        None => None,
    }
}

/// Whether a text is a number.
pub fn is_number(text: &str, number: u32) -> bool {
    match text.parse::<u32>() {
        Ok(found) => found == number,
        Err(_) => false,
    }
}

/// Whether a value is printed so.
pub fn is_printed<D: Display>(alloc: Global, value: &D, text: &str) -> Result<bool, AllocError> {
    let printed = format!(in alloc; "{value}")?;
    Ok(printed.as_str() == text)
}

/// A head, a piece and how often it is repeated, an end, and how many parentheses close it.
pub type Long = (&'static str, &'static str, usize, &'static str, usize);

fn push_times(text: &mut String, piece: &str, times: usize) -> Result<(), AllocError> {
    for _ in 0..times {
        text.push_str(piece)?;
    }
    Ok(())
}

fn push(text: &mut String, long: &Long) -> Result<(), AllocError> {
    text.push_str(long.0)?;
    push_times(text, long.1, long.2)?;
    text.push_str(long.3)?;
    push_times(text, ")", long.4)
}

/// The text that is described.
pub fn long_text(alloc: Global, long: &Long) -> Result<String, AllocError> {
    let mut text = String::new(alloc);
    match push(&mut text, long) {
        Ok(()) => Ok(text),
        Err(refused) => {
            drop(text);
            Err(refused)
        }
    }
}

/// A key and its value.
pub type Pair = (&'static str, &'static str);

fn set_all(env: &mut Env, pairs: &[Pair]) -> Result<(), TextFault> {
    for pair in pairs {
        env.set(pair.0, pair.1)?;
    }
    Ok(())
}

/// The environment if these keys are set, one after the other.
pub fn env_of(alloc: Global, pairs: &[Pair]) -> Result<Env, TextFault> {
    let mut env = Env::new(alloc);
    match set_all(&mut env, pairs) {
        Ok(()) => Ok(env),
        Err(fault) => {
            drop(env);
            Err(fault)
        }
    }
}
