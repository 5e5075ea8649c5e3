//! Reads the text of a command.
ghost use Rattle.std.specs.Prelude.{◌≡◌, ◌<◌, ◌++◌, IfOk, OnErr, length, codes};
ghost use Rattle.std.specs.List.{list_any};
ghost use Rattle.std.specs.Result.{result_ok};
ghost use Rattle.up_text.specs.Scripts.{words_in};
ghost use Rattle.up_stanza.specs.Actions.{is_shell, words_action, action_of};
ghost use Rattle.up_stanza.specs.declared.action.Action.TheVariants.{Shell};

use crate::action::Action;
use crate::fault::FaultCode;
use std::alloc::{AllocError, Global};
use up_text::{Items, Text, next_word};

/// The greatest number of words of a command.
const MAX_WORDS: usize = 65_535;

/// Whether the byte is special to a shell.
#[tactic(auto, unfolding(crate::specs::Actions::is_shell))]
pub fn is_shell(byte: u8) -> bool
    ensures { result ≡ is_shell byte }
{
    matches!(
        byte,
        b'~' | b'`'
            | b'!'
            | b'$'
            | b'^'
            | b'&'
            | b'*'
            | b'('
            | b')'
            | b'='
            | b'|'
            | b'\\'
            | b'{'
            | b'}'
            | b'['
            | b']'
            | b';'
            | b'"'
            | b'\''
            | b'<'
            | b'>'
            | b'?'
    )
}

/// Whether one of the bytes is special to a shell.
pub fn has_shell(bytes: &[u8]) -> bool
    ensures { result ≡ list_any is_shell bytes.now }
{
    bytes.iter().any(|byte| is_shell(*byte))
}

#[tactic(auto, using(crate::proofs::Words::words_more, crate::proofs::Words::words_end))]
fn split_words(alloc: Global, text: &str) -> Result<Items<Text>, AllocError>
    ensures { IfOk result (λ words. words ≡ words_in text.now) }
{
    let mut words: Vec<Text> = Vec::new(alloc);
    let mut rest = text;
    'words: loop {
        let (word, after) = next_word(rest);
        if word.is_empty() {
            break;
        }
        words.push(Text::from_str(alloc, word)?)?;
        rest = after;
    }
    Ok(Items::new(words))
}

fn as_command(words: Items<Text>) -> Result<Action, FaultCode>
    ensures { result_ok result ≡ words_action words }
{
    if words.as_slice().len() > MAX_WORDS {
        return Err(FaultCode::TooLarge);
    }
    Ok(Action::Words(words))
}

// The shell runs `exec TEXT`.
fn by_shell(alloc: Global, text: &str) -> Result<Action, AllocError>
    ensures { IfOk result (λ action. action ≡ Shell (codes "exec " ++ text.now)) }
{
    let mut shell = String::from_str(alloc, "exec ")?;
    shell.push_str(text)?;
    Ok(Action::Shell(Text::new(shell)))
}

/// Reads the text of a command. The shell runs it if it contains a byte that is special to a shell.
#[tactic(auto, unfolding(crate::specs::Actions::action_of))]
pub(crate) fn read_command(
    alloc: Global,
    text: &str,
) -> Result<Result<Action, FaultCode>, AllocError>
    ensures read { IfOk result (λ read. result_ok read ≡ action_of text.now) }
    ensures memory { OnErr result (0 < length text.now) }
{
    if text.is_empty() {
        return Ok(Err(FaultCode::ExpectedToken));
    }
    if has_shell(text.as_bytes()) {
        let action = by_shell(alloc, text)?;
        return Ok(Ok(action));
    }
    let words = split_words(alloc, text)?;
    Ok(as_command(words))
}
