//! Checks whether files can define a text.
ghost use Rattle.std.specs.Prelude.{◌≡◌, ◌≤◌, IfOk, length};
ghost use Rattle.std.specs.List.{list_all};
ghost use Rattle.std.specs.Str.{is_utf8};
ghost use Rattle.up_stanza.specs.Actions.{is_shell};
ghost use Rattle.up_text.specs.Names.{is_name};
ghost use Rattle.up_image.specs.declared.limits.TheConstants.{MAX_IMAGE};
ghost use Rattle.up_image.specs.Definable as definable;

use crate::limits::MAX_IMAGE;
use std::alloc::{AllocError, Global};
use up_stanza::{has_shell, is_shell};
use up_text::env::is_value;
use up_text::{Lexer, Name, TextFault};

// Always true: a `str` is UTF-8.
fn is_utf8(text: &str) -> bool
    ensures { result ≡ is_utf8 text.now }
{
    let _text = text;
    true
}

/// Always true: a `Name` is valid.
pub(crate) fn is_name(name: &Name) -> bool
    ensures { result ≡ is_name name.now }
{
    let _text = name.as_str();
    true
}

fn are_token_bytes(bytes: &[u8]) -> bool
    ensures { result ≡ list_all definable.is_token_byte bytes.now }
{
    bytes.iter().all(|byte| *byte != 0 && *byte != b'\n')
}

/// Whether a text can be one token.
pub(crate) fn is_token(text: &str) -> bool
    ensures { result ≡ definable.is_token text.now }
{
    is_utf8(text) && are_token_bytes(text.as_bytes())
}

#[tactic(auto, unfolding(crate::specs::Definable::is_word_byte, up_text::specs::Tokens::is_line_feed, up_text::specs::Tokens::is_blank, up_text::specs::Tokens::is_hash))]
fn is_word_byte(byte: u8) -> bool
    ensures { result ≡ definable.is_word_byte byte }
{
    !(matches!(byte, 0 | b'\n' | b' ' | b'\t' | b'#') || is_shell(byte))
}

fn are_word_bytes(bytes: &[u8]) -> bool
    ensures { result ≡ list_all definable.is_word_byte bytes.now }
{
    bytes.iter().all(|byte| is_word_byte(*byte))
}

/// Whether a text is a word of a command that needs no shell.
pub(crate) fn is_word(text: &str) -> bool
    ensures { result ≡ definable.is_word text.now }
{
    !text.is_empty() && is_utf8(text) && are_word_bytes(text.as_bytes())
}

// Whether a text is a script: the first end line that the lexer finds is after it.
#[tactic(auto, unfolding(crate::specs::Definable::is_script))]
fn is_script(alloc: Global, text: &str) -> Result<bool, AllocError>
    requires { length text.now ≤ MAX_IMAGE }
    ensures { IfOk result (λ script. script ≡ definable.is_script text.now) }
{
    let mut whole = String::with_capacity(alloc, text.len() + 10)?;
    whole.push_str(text)?;
    whole.push_str("end script")?;
    let mut lexer = Lexer::new(whole.as_str());
    match lexer.script_lines(alloc) {
        Ok(Some(lines)) => Ok(lines.is(text)),
        Ok(None) => Ok(false),
        Err(_) => Err(AllocError),
    }
}

// Whether a text is a command: the lexer reads it unchanged.
#[tactic(auto, unfolding(crate::specs::Definable::is_command))]
fn is_command(alloc: Global, text: &str) -> Result<bool, AllocError>
    requires { length text.now ≤ MAX_IMAGE }
    ensures { IfOk result (λ command. command ≡ definable.is_command text.now) }
{
    let mut lexer = Lexer::new(text);
    match lexer.command_text(alloc) {
        Ok(read) => Ok(read.is(text)),
        Err(TextFault::Memory) => Err(AllocError),
        Err(_) => Ok(false),
    }
}

// Whether a text is a command that needs a shell.
fn is_shell_command(alloc: Global, text: &str) -> Result<bool, AllocError>
    requires { length text.now ≤ MAX_IMAGE }
    ensures { IfOk result (λ command. command ≡ definable.is_shell_command text.now) }
{
    if !has_shell(text.as_bytes()) {
        return Ok(false);
    }
    is_command(alloc, text)
}

// Whether a text is what `exec` makes of a command.
fn is_exec(alloc: Global, text: &str) -> Result<bool, AllocError>
    requires { length text.now ≤ MAX_IMAGE }
    ensures { IfOk result (λ exec. exec ≡ definable.is_exec text.now) }
{
    match text.strip_prefix("exec ") {
        Some(command) => is_shell_command(alloc, command),
        None => Ok(false),
    }
}

// Whether a text is a script or what `exec` makes of a command. The check for a script takes longer.
fn is_for_shell(alloc: Global, text: &str) -> Result<bool, AllocError>
    requires { length text.now ≤ MAX_IMAGE }
    ensures { IfOk result (λ shell. shell ≡ definable.is_for_shell text.now) }
{
    if is_exec(alloc, text)? {
        return Ok(true);
    }
    is_script(alloc, text)
}

/// Whether files can define a text for the shell.
pub(crate) fn is_shell_text(alloc: Global, text: &str) -> Result<bool, AllocError>
    ensures { IfOk result (λ shell. shell ≡ definable.is_shell_text text.now) }
{
    if text.len() > MAX_IMAGE || !is_utf8(text) || !is_value(text) {
        return Ok(false);
    }
    is_for_shell(alloc, text)
}
