//! Makes requests from words.
ghost use Rattle.std.specs.Prelude.{◌≡◌, [], map, false};
ghost use Rattle.clap.specs.Words.{found_of, rows_of, subcommand_rows_of};
ghost use Rattle.up_wire.specs.Words.{with_binding, with_word, with_words, request_with, is_set, text_in, request_in, request_matched, Makes, Sets};

use crate::fault::WireFault;
use clap::ArgMatches;
use std::alloc::Global;
use up_model::{Command, Request};
use up_text::env::split_pair;
use up_text::{Env, Text, TextFault};

fn set(vars: &mut Env, key: &str, value: &str) -> Result<(), WireFault>
    ensures { Sets result vars.new (with_binding key.now value.now vars.old) }
{
    match vars.set(key, value) {
        Ok(()) => Ok(()),
        Err(TextFault::Memory) => Err(WireFault::Memory),
        Err(_) => Err(WireFault::BadWord),
    }
}

// Fails with `BadWord` if the word isn't a valid `KEY=VALUE`.
fn set_word(vars: &mut Env, word: &str) -> Result<(), WireFault>
    ensures { Sets result vars.new (with_word word.now vars.old) }
{
    match split_pair(word) {
        Some((key, value)) => set(vars, key, value),
        None => Err(WireFault::BadWord),
    }
}

// For a repeated key the later value counts.
#[tactic(auto, using(crate::proofs::Cutting::words_left))]
fn with_words(alloc: Global, words: &[&str]) -> Result<Env, WireFault>
    ensures { Makes result (with_words [] (map (λ word. word.now) words.now)) }
{
    let mut vars = Env::new(alloc);
    for word in words {
        if let Err(fault) = set_word(&mut vars, word) {
            return Err(fault);
        }
    }
    Ok(vars)
}

fn request_with(
    alloc: Global,
    command: Command,
    wait: bool,
    name: &str,
    words: &[&str],
) -> Result<Request, WireFault>
    ensures { Makes result (request_with command wait name.now (map (λ word. word.now) words.now)) }
{
    let vars = with_words(alloc, words)?;
    let name = Text::from_str(alloc, name)?;
    match Request::new(command, wait, name, vars) {
        Some(request) => Ok(request),
        None => Err(WireFault::BadWord),
    }
}

fn is_set(given: &ArgMatches, flag: &str) -> bool
    ensures { result ≡ is_set flag.now (rows_of (found_of given.now)) }
{
    match given.get_one::<bool>(flag) {
        Some(set) => set,
        None => false,
    }
}

fn text_in<'a>(given: &ArgMatches<'a>, argument: &str) -> &'a str
    ensures { result.now ≡ text_in argument.now (rows_of (found_of given.now)) }
{
    match given.get_str(argument) {
        Some(text) => text,
        None => "",
    }
}

// The request of a command with these arguments.
fn request_in(alloc: Global, command: Command, given: &ArgMatches) -> Result<Request, WireFault>
    ensures { Makes result (request_in (rows_of (found_of given.now)) command) }
{
    let wait = !is_set(given, "no-wait");
    let name = text_in(given, "NAME");
    let words = given.get_strs("VARS").unwrap_or(&[]);
    request_with(alloc, command, wait, name, words)
}

/// The request of a parsed command line; for a repeated key the later value counts. Fails with `BadWord` if a word isn't a valid name or
/// `KEY=VALUE`.
pub fn request_of(alloc: Global, matches: &ArgMatches) -> Result<Request, WireFault>
    ensures { Makes result (request_matched (subcommand_rows_of matches.now)) }
{
    let Some((word, given)) = matches.subcommand() else {
        return Err(WireFault::BadWord);
    };
    match Command::from_name(word) {
        Some(command) => request_in(alloc, command, given),
        None => Err(WireFault::BadWord),
    }
}
