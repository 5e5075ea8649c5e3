//! Reads names and variables.
ghost use Rattle.std.specs.Prelude.{◌≡◌, true, false, [], is_some, IfOk, OnErr};
ghost use Rattle.up_script.specs.Variables.{name_in, with_binding, with_word, vars_of, TakesWord};

use std::alloc::{AllocError, Global};
use up_text::env::split_pair;
use up_text::{Env, Name, Text, TextFault};

/// The name of these bytes; none if they aren't a valid name.
pub(crate) fn name_of(alloc: Global, text: &str) -> Result<Option<Name>, AllocError>
    ensures name { IfOk result (λ name. name ≡ name_in text.now) }
    ensures memory { OnErr result (is_some (name_in text.now) ≡ true) }
{
    match Name::new(alloc, text) {
        Ok(name) => Ok(Some(name)),
        Err(TextFault::Memory) => Err(AllocError),
        Err(_) => Ok(None),
    }
}

// Sets a key. False if the key or the value isn't valid.
fn set(vars: &mut Env, key: &str, value: &str) -> Result<bool, AllocError>
    ensures taken { IfOk result (λ taken. TakesWord
        (with_binding key.now value.now vars.old) taken vars.new) }
    ensures memory { OnErr result (is_some (with_binding key.now value.now vars.old) ≡ true) }
{
    match vars.set(key, value) {
        Ok(()) => Ok(true),
        Err(TextFault::Memory) => Err(AllocError),
        Err(_) => Ok(false),
    }
}

// Sets the variable of a word. False if the word contains none.
fn set_word(vars: &mut Env, word: &str) -> Result<bool, AllocError>
    ensures taken { IfOk result (λ taken. TakesWord (with_word word.now vars.old) taken vars.new) }
    ensures memory { OnErr result (is_some (with_word word.now vars.old) ≡ true) }
{
    match split_pair(word) {
        Some((key, value)) => set(vars, key, value),
        None => Ok(false),
    }
}

/// The variables of words KEY=VALUE; if a key occurs twice, the later value counts.
#[tactic(auto, using(crate::proofs::Cutting::vars_left))]
pub(crate) fn vars_of(alloc: Global, words: &[Text]) -> Result<Option<Env>, AllocError>
    ensures { IfOk result (λ vars. vars ≡ vars_of [] words.now) }
{
    let mut vars = Env::new(alloc);
    for word in words {
        if !set_word(&mut vars, word.as_str())? {
            return Ok(None);
        }
    }
    Ok(Some(vars))
}
