//! The stanzas of a file as written: the line on which each begins, and its words.
ghost use Rattle.std.specs.Prelude.{◌≡◌, ◌<◌, ◌++◌, IfOk, OnOk, length};
ghost use Rattle.std.specs.List.{list_any};
ghost use Rattle.std.specs.Str.{bytes_eq};
ghost use Rattle.up_stanza.specs.Stanzas.{texts_at};
ghost use Rattle.up_lint.specs.Heads.{after_word, after_words, begins, head_at, heads_of, is_process, IsFound, opens_script, says, takes_parens, words_at};

use crate::next::{Next, next_token, read_texts};
use std::alloc::{AllocError, Global};
use up_text::{Items, Lexer, Text};

/// A stanza as written in its file.
#[derive(Drop)]
pub struct Head {
    /// Whether the file is the job's override.
    pub over: bool,
    /// The line on which it begins, counted from 1.
    pub line: u32,
    /// Its words; for a script only those before it.
    pub words: Items<Text>,
}

// Whether parentheses after a stanza's first word are words of their own.
fn takes_parens(word: &Text) -> bool
    ensures { result ≡ takes_parens word.now }
{
    word.is("start") || word.is("stop")
}

// Whether this word begins a stanza of a process other than the main one.
fn is_process(word: &Text) -> bool
    ensures { result ≡ is_process word.now }
{
    word.is("pre-start") || word.is("post-start") || word.is("pre-stop") || word.is("post-stop")
}

// Whether a script begins on the next line.
fn opens_script(words: &[Text]) -> bool
    ensures { result ≡ opens_script words.now }
{
    match words {
        [word] => word.is("script"),
        [word, second] => is_process(word) && second.is("script"),
        _ => false,
    }
}

// Puts this word before those up to the stanza's end.
fn read_others(
    alloc: Global,
    word: Text,
    lexer: &mut Lexer,
) -> Result<Option<Items<Text>>, AllocError>
    ensures { IfOk result (λ words. IsFound (after_word word (texts_at lexer.old)) words lexer.new) }
{
    match read_texts(alloc, lexer)? {
        Some(texts) => {
            lexer.parens(false);
            let mut words = texts.into_vec();
            words.insert(0, word)?;
            Ok(Some(Items::new(words)))
        }
        None => Ok(None),
    }
}

// The words of the next stanza, `None` if one has a fault; the lexer's position is then after the stanza.
fn read_words(alloc: Global, lexer: &mut Lexer) -> Result<Option<Items<Text>>, AllocError>
    ensures { IfOk result (λ words. IsFound (words_at lexer.old) words lexer.new) }
{
    match next_token(alloc, lexer)? {
        Next::Token(token) => {
            lexer.parens(takes_parens(&token.text));
            read_others(alloc, token.text, lexer)
        }
        Next::End | Next::Refused => Ok(None),
    }
}

// Passes the script on the next lines, if these words open one.
fn pass_script(alloc: Global, words: &[Text], lexer: &mut Lexer) -> Result<(), AllocError>
    ensures { OnOk result (lexer.new ≡ after_words words.now lexer.old) }
{
    if !opens_script(words) {
        return Ok(());
    }
    match lexer.script_lines(alloc) {
        Ok(_) => Ok(()),
        Err(_) => Err(AllocError),
    }
}

// The next stanza, `None` if it has a fault; the lexer's position is then after it, and after its script.
fn read_head(alloc: Global, over: bool, lexer: &mut Lexer) -> Result<Option<Head>, AllocError>
    ensures { IfOk result (λ head. IsFound (head_at over lexer.old) head lexer.new) }
{
    let line = lexer.line();
    let Some(words) = read_words(alloc, lexer)? else {
        return Ok(None);
    };
    pass_script(alloc, words.as_slice(), lexer)?;
    Ok(Some(Head { over, line, words }))
}

/// Appends the stanzas of a text, up to the first one with a faulty word.
pub(crate) fn push_heads(heads: &mut Vec<Head>, over: bool, text: &str) -> Result<(), AllocError>
    requires { length text.now < 4294967295 }
    ensures { OnOk result (heads.new.items ≡ heads.old.items ++ heads_of over text.now) }
{
    let alloc = *heads.allocator();
    let mut lexer = Lexer::new(text);
    let mut left = text.len();
    'heads: while left > 0 {
        if lexer.at_end() {
            return Ok(());
        }
        match read_head(alloc, over, &mut lexer)? {
            Some(head) => heads.push(head)?,
            None => return Ok(()),
        }
        left -= 1;
    }
    Ok(())
}

pub(crate) fn has_text(texts: &[Text], wanted: &str) -> bool
    ensures { result ≡ list_any (bytes_eq wanted.now) texts.now }
{
    texts.iter().any(|text| wanted == text.as_str())
}

pub(crate) fn begins(head: &Head, word: &str) -> bool
    ensures { result ≡ begins word.now head.now }
{
    match head.words.as_slice() {
        [first, ..] => first.is(word),
        [] => false,
    }
}

/// Whether a stanza begins with the word `first` and contains this word after it.
pub(crate) fn says(head: &Head, first: &str, word: &str) -> bool
    ensures { result ≡ says first.now word.now head.now }
{
    match head.words.as_slice() {
        [begin, others @ ..] => begin.is(first) && has_text(others, word),
        [] => false,
    }
}
