//! The spelling of a token, and of the words between the blanks of a command.
ghost use Rattle.std.specs.Prelude.{◌≡◌, ◌+◌, ◌<◌, ◌≤◌, ◌^◌, ◌++◌, ℕ, Bool, true, false, length, IfOk, MatchOption, MatchResult};
ghost use Rattle.std.specs.List.{list_all};
ghost use Rattle.up_text.specs.Tokens.{Outside, is_quote};
ghost use Rattle.up_pattern.specs.Lists.{begins};
ghost use Rattle.up_text.specs.Places.{token_of};
ghost use Rattle.up_text.specs.Lexer.{is_byte, is_ordinary, is_line_end, ends_token, begins_gap, place, Run, Broken, GivesToken, GivesFault, open_at};

use crate::lexer::bytes::{
    begins_backslash, begins_paren, begins_quote, ends_token, split_first, split_ordinary,
};
use crate::lexer::draft::{Draft, push_quoting};
use crate::lexer::quoted::{push_escape, push_quoted};
use crate::token::Token;
use std::alloc::{AllocError, Global};
use up_value::{Text, TextFault};

// The quote that the text begins with, if any.
fn first_quote(text: &str) -> Option<u8>
    ensures { MatchOption result (begins is_quote text.now ≡ false) (λ quote. (is_quote quote ≡ true)
        × (begins (is_byte quote) text.now ≡ true)) }
{
    match text.as_bytes().first() {
        Some(byte) => {
            if begins_quote(text) {
                Some(*byte)
            } else {
                None
            }
        }
        None => None,
    }
}

// Appends one part of a spelling: a character after a backslash, a quoted piece, or ordinary bytes.
fn push_piece<'a>(
    out: &mut Draft,
    text: &'a str,
    line: u32,
    parens: bool,
    keep: bool,
) -> Result<(u32, &'a str), TextFault>
    requires begins { ends_token parens text.now ≡ false }
    requires in_range { line + length text.now < 2 ^ 32 }
    ensures { MatchResult result
        (λ read. Run parens keep (Outside false) text.now line
        (Outside false) read.1.now read.0 out.old out.new × (length read.1.now < length text.now))
        (Broken parens (Outside false) text.now) }
{
    if begins_backslash(text) {
        return match push_escape(out, text, keep) {
            Some(rest) => Ok((line, rest)),
            None => Err(TextFault::TrailingBackslash),
        };
    }
    match first_quote(text) {
        Some(quote) => {
            let (opening, rest) = split_first(text);
            push_quoting(out, opening, keep);
            push_quoted(out, rest, line, quote, keep)
        }
        None => {
            let (ordinary, rest) = split_ordinary(text, parens);
            out.push(ordinary);
            Ok((line, rest))
        }
    }
}

/// Appends the rest of a spelling, and returns the line and the text after it. With `keep` its quotes and backslashes stay.
pub(crate) fn push_spelling<'a>(
    out: &mut Draft,
    text: &'a str,
    line: u32,
    parens: bool,
    keep: bool,
) -> Result<(u32, &'a str), TextFault>
    requires { line + length text.now < 2 ^ 32 }
    ensures means { MatchResult result
        (λ read. Run parens keep (Outside false) text.now line
        (Outside false) read.1.now read.0 out.old out.new)
        (Broken parens (Outside false) text.now) }
    ensures ends { IfOk result (λ read. ends_token parens read.1.now ≡ true) }
{
    let mut rest = text;
    let mut line = line;
    'pieces: while !ends_token(rest, parens) {
        let (reached, after) = push_piece(out, rest, line, parens, keep)?;
        line = reached;
        rest = after;
    }
    Ok((line, rest))
}

fn make_token(alloc: Global, line: u32, text: &str) -> Result<Token, AllocError>
    ensures { IfOk result (λ token. token ≡ token_of line text.now true) }
{
    let text = Text::from_str(alloc, text)?;
    Ok(Token {
        line,
        text,
        plain: true,
    })
}

// The token whose spelling begins with ordinary bytes and continues with a quote or a backslash.
fn spell<'a>(
    alloc: Global,
    ordinary: &str,
    text: &'a str,
    line: u32,
    parens: bool,
) -> Result<(Token, u32, &'a str), TextFault>
    requires ordinary { list_all (is_ordinary parens) ordinary.now ≡ true }
    requires begins { ends_token parens text.now ≡ false }
    requires quotes { begins (is_ordinary parens) text.now ≡ false }
    requires in_range { line + length text.now < 2 ^ 32 }
    ensures gives { (inside : Bool) (depth : ℕ) → let at =
        place (ordinary.now ++ text.now) line inside parens depth in
        MatchResult result (λ read. GivesToken at read.0 (place read.2.now read.1 true parens depth)) (GivesFault at) }
    ensures in_range { IfOk result (λ read. (read.1 + length read.2.now ≤ line + length text.now)
        × (length read.2.now ≤ length text.now)) }
{
    let mut out = Draft::new(alloc);
    out.push(ordinary);
    let (reached, rest) = push_spelling(&mut out, text, line, parens, false)?;
    let text = out.finish()?;
    let token = Token {
        line,
        text,
        plain: false,
    };
    Ok((token, reached, rest))
}

// The token that the text begins with, which isn't a parenthesis, and the line and the text after it.
fn read_word<'a>(
    alloc: Global,
    text: &'a str,
    line: u32,
    parens: bool,
) -> Result<(Token, u32, &'a str), TextFault>
    requires begins { ends_token parens text.now ≡ false }
    requires in_range { line + length text.now < 2 ^ 32 }
    ensures gives { (inside : Bool) (depth : ℕ) → let at = place text.now line inside parens depth in
        MatchResult result (λ read. GivesToken at read.0 (place read.2.now read.1 true parens depth)) (GivesFault at) }
    ensures in_range { IfOk result (λ read. (read.1 + length read.2.now ≤ line + length text.now)
        × (length read.2.now ≤ length text.now)) }
{
    let (ordinary, rest) = split_ordinary(text, parens);
    if !ends_token(rest, parens) {
        return spell(alloc, ordinary, rest, line, parens);
    }
    let token = make_token(alloc, line, ordinary)?;
    Ok((token, line, rest))
}

// The number of parentheses that are open after this one.
fn open_after_paren(text: &str, depth: u32) -> u32
    requires { depth + length text.now < 2 ^ 32 }
    ensures { result ≡ open_at text.now depth }
{
    if text.as_bytes().first() == Some(&b'(') {
        depth + 1
    } else {
        depth.saturating_sub(1)
    }
}

/// The token that the text begins with, the line and the text after it, and the number of parentheses that are open there.
pub(crate) fn read_token<'a>(
    alloc: Global,
    text: &'a str,
    line: u32,
    parens: bool,
    depth: u32,
) -> Result<(Token, u32, &'a str, u32), TextFault>
    requires within { is_line_end text.now ≡ false }
    requires after_gap { (passes : Bool) × (begins_gap passes text.now ≡ false) }
    requires lines { line + length text.now < 2 ^ 32 }
    requires parens { depth + length text.now < 2 ^ 32 }
    ensures gives { (inside : Bool) → let at = place text.now line inside parens depth in
        MatchResult result (λ read. GivesToken at read.0 (place read.2.now read.1 true parens read.3)) (GivesFault at) }
    ensures lines { IfOk result (λ read. read.1 + length read.2.now ≤ line + length text.now) }
    ensures depths { IfOk result (λ read. read.3 + length read.2.now ≤ depth + length text.now) }
{
    if parens && begins_paren(text) {
        let (paren, rest) = split_first(text);
        let token = make_token(alloc, line, paren)?;
        let after = open_after_paren(text, depth);
        return Ok((token, line, rest, after));
    }
    let (token, reached, rest) = read_word(alloc, text, line, parens)?;
    Ok((token, reached, rest, depth))
}
