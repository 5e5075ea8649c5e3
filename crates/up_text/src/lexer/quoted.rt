//! A quoted piece of a token or a command.
ghost use Rattle.std.specs.Prelude.{◌≡◌, ◌+◌, ◌<◌, ◌≤◌, ◌^◌, ◌==◌, ◌++◌, ◌∷◌, ℕ, Bool, true, false, if◌then◌else◌, List, [], length, IfOk, MatchResult};
ghost use Rattle.up_value.specs.Values.{Bytes};
ghost use Rattle.up_text.specs.Tokens.{Outside, Quoted, is_quote, is_backslash, is_blank};
ghost use Rattle.up_pattern.specs.Lists.{begins};
ghost use Rattle.up_text.specs.Lexer.{is_byte, begins_fold, Holds, IsEscape, Run, Broken};

use crate::lexer::bytes::{
    begins_backslash, begins_blank, begins_feed, begins_joint, split_blanks, split_char,
    split_first, split_literal,
};
use crate::lexer::draft::{Draft, push_quoting};
use up_value::TextFault;

fn begins_byte(text: &str, byte: u8) -> bool
    ensures { result ≡ begins (is_byte byte) text.now }
{
    match text.as_bytes().first() {
        Some(first) => *first == byte,
        None => false,
    }
}

// Whether the text begins with a line end, escaped or not.
fn begins_fold(text: &str) -> bool
    ensures { result ≡ begins_fold text.now }
{
    begins_feed(text) || begins_joint(text)
}

/// Appends the character after a backslash, and returns the rest after it, or `None` if the text ends at the backslash.
pub(crate) fn push_escape<'a>(out: &mut Draft, text: &'a str, keep: bool) -> Option<&'a str>
    requires { begins is_backslash text.now ≡ true }
    ensures { IsEscape keep text.now out.old out.new result }
{
    let (backslash, escaped) = split_first(text);
    if escaped.is_empty() {
        return None;
    }
    let (character, rest) = split_char(escaped);
    push_quoting(out, backslash, keep);
    out.push(character);
    Some(rest)
}

// Appends blanks, unless they are joined with a line end to one space.
fn push_blanks<'a>(out: &mut Draft, text: &'a str, joined: bool) -> &'a str
    requires { begins is_blank text.now ≡ true }
    ensures run { (parens keep : Bool) (quote line : ℕ) → is_quote quote ≡ true
        → Run parens keep (Quoted quote joined) text.now line
        (Quoted quote joined) result.now line out.old out.new }
    ensures shorter { length result.now < length text.now }
{
    let (blanks, rest) = split_blanks(text);
    if !joined && !begins_fold(rest) {
        out.push(blanks);
    }
    rest
}

// Appends a space, unless the space of this run was already appended.
fn push_space(out: &mut Draft, joined: bool)
    ensures { (bytes : Bytes) → Holds out.old bytes
        → Holds out.new (bytes ++ (if joined then [] else 32 ∷ [])) }
{
    if !joined {
        out.push(" ");
    }
}

// Passes a line end, which becomes one space unless it is joined with one before.
fn push_line_end<'a>(out: &mut Draft, text: &'a str, joined: bool) -> &'a str
    requires { begins_fold text.now ≡ true }
    ensures run { (parens keep : Bool) (quote line : ℕ) → is_quote quote ≡ true
        → Run parens keep (Quoted quote joined) text.now line (Quoted quote true) result.now
        (line + 1) out.old out.new }
    ensures shorter { length result.now < length text.now }
{
    push_space(out, joined);
    if begins_feed(text) {
        split_first(text).1
    } else {
        split_first(split_first(text).1).1
    }
}

// Appends one part of a quoted piece. Returns the line and the text after it, and whether blanks there are joined with a line end.
fn push_part<'a>(
    out: &mut Draft,
    text: &'a str,
    line: u32,
    quote: u8,
    joined: bool,
    keep: bool,
) -> Result<(u32, &'a str, bool), TextFault>
    requires quoting { is_quote quote ≡ true }
    requires filled { 0 < length text.now }
    requires within { begins (is_byte quote) text.now ≡ false }
    requires in_range { line + length text.now < 2 ^ 32 }
    ensures means { (parens : Bool) → MatchResult result
        (λ read. Run parens keep (Quoted quote joined) text.now line
        (Quoted quote read.2) read.1.now read.0 out.old out.new)
        (Broken parens (Quoted quote joined) text.now) }
    ensures shorter { IfOk result (λ read. length read.1.now < length text.now) }
{
    if begins_fold(text) {
        let rest = push_line_end(out, text, joined);
        return Ok((line + 1, rest, true));
    }
    if begins_blank(text) {
        let rest = push_blanks(out, text, joined);
        return Ok((line, rest, joined));
    }
    if begins_backslash(text) {
        return match push_escape(out, text, keep) {
            Some(rest) => Ok((line, rest, false)),
            None => Err(TextFault::UnterminatedQuote),
        };
    }
    let (literal, rest) = split_literal(text, quote);
    out.push(literal);
    Ok((line, rest, false))
}

/// Appends a quoted piece from after its opening quote on, and returns the line and the text after its closing quote.
pub(crate) fn push_quoted<'a>(
    out: &mut Draft,
    text: &'a str,
    line: u32,
    quote: u8,
    keep: bool,
) -> Result<(u32, &'a str), TextFault>
    requires quoting { is_quote quote ≡ true }
    requires in_range { line + length text.now < 2 ^ 32 }
    ensures { (parens : Bool) → MatchResult result
        (λ read. Run parens keep (Quoted quote false) text.now line
        (Outside false) read.1.now read.0 out.old out.new)
        (Broken parens (Quoted quote false) text.now) }
{
    let mut rest = text;
    let mut line = line;
    let mut joined = false;
    'parts: while !begins_byte(rest, quote) {
        if rest.is_empty() {
            return Err(TextFault::UnterminatedQuote);
        }
        let (reached, after, still) = push_part(out, rest, line, quote, joined, keep)?;
        line = reached;
        rest = after;
        joined = still;
    }
    let (closing, after) = split_first(rest);
    push_quoting(out, closing, keep);
    Ok((line, after))
}
