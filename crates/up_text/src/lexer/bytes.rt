//! The classes of bytes in the lexer, and where a text is cut.
ghost use Rattle.std.specs.Prelude.{◌≡◌, ◌<◌, Bool, true, false, length, drop, take};
ghost use Rattle.std.specs.List.{prefix_len, position_or_len};
ghost use Rattle.up_text.specs.Tokens.{is_line_feed, is_blank, is_hash, is_quote, is_backslash, is_paren};
ghost use Rattle.up_pattern.specs.Lists.{begins};
ghost use Rattle.up_text.specs.Lexer.{is_ordinary, is_literal, is_high, is_low, is_in_line, is_line_end, begins_joint, begins_gap, ends_token, Splits, SplitsChar};

use memchr::memchr;

#[tactic(auto, unfolding(crate::specs::Tokens::is_blank))]
pub(crate) fn is_blank(byte: u8) -> bool
    ensures { result ≡ is_blank byte }
{
    byte == b' ' || byte == b'\t'
}

#[tactic(auto, unfolding(crate::specs::Tokens::is_quote))]
pub(crate) fn is_quote(byte: u8) -> bool
    ensures { result ≡ is_quote byte }
{
    byte == b'"' || byte == b'\''
}

#[tactic(auto, unfolding(crate::specs::Tokens::is_paren))]
fn is_paren(byte: u8) -> bool
    ensures { result ≡ is_paren byte }
{
    byte == b'(' || byte == b')'
}

// Whether the byte is ordinary outside quotes.
#[tactic(auto, unfolding(crate::specs::Lexer::is_ordinary, crate::specs::Tokens::is_line_feed, crate::specs::Tokens::is_hash, crate::specs::Tokens::is_backslash))]
fn is_ordinary(byte: u8, parens: bool) -> bool
    ensures { result ≡ is_ordinary parens byte }
{
    !(byte == b'\n'
        || is_blank(byte)
        || byte == b'#'
        || byte == b'\\'
        || is_quote(byte)
        || (parens && is_paren(byte)))
}

// Whether the byte, which isn't a blank, is ordinary in a piece quoted by `quote`.
#[tactic(auto, unfolding(crate::specs::Lexer::is_literal, crate::specs::Tokens::is_line_feed, crate::specs::Tokens::is_backslash))]
fn is_literal(byte: u8, quote: u8) -> bool
    ensures { result ≡ is_literal quote byte }
{
    !(byte == quote || byte == b'\n' || is_blank(byte) || byte == b'\\')
}

// Whether the byte isn't ASCII.
#[tactic(auto, unfolding(crate::specs::Lexer::is_high))]
fn is_high(byte: u8) -> bool
    ensures { result ≡ is_high byte }
{
    byte >= 128
}

pub(crate) fn blanks_len(bytes: &[u8]) -> usize
    ensures { result ≡ prefix_len is_blank bytes.now }
{
    bytes.iter().take_while(|byte| is_blank(**byte)).count()
}

fn ordinary_len(bytes: &[u8], parens: bool) -> usize
    ensures { result ≡ prefix_len (is_ordinary parens) bytes.now }
{
    bytes
        .iter()
        .take_while(|byte| is_ordinary(**byte, parens))
        .count()
}

fn literal_len(bytes: &[u8], quote: u8) -> usize
    ensures { result ≡ prefix_len (is_literal quote) bytes.now }
{
    bytes
        .iter()
        .take_while(|byte| is_literal(**byte, quote))
        .count()
}

fn high_len(bytes: &[u8]) -> usize
    ensures { result ≡ prefix_len is_high bytes.now }
{
    bytes.iter().take_while(|byte| is_high(**byte)).count()
}

// The number of bytes before the first line feed.
pub(crate) fn line_len(bytes: &[u8]) -> usize
    ensures { result ≡ prefix_len is_in_line bytes.now }
{
    memchr(b'\n', bytes).unwrap_or(bytes.len())
}

#[tactic(auto, unfolding(crate::specs::Tokens::is_hash))]
pub(crate) fn begins_comment(text: &str) -> bool
    ensures { result ≡ begins is_hash text.now }
{
    text.as_bytes().first() == Some(&b'#')
}

#[tactic(auto, unfolding(crate::specs::Tokens::is_line_feed))]
pub(crate) fn begins_feed(text: &str) -> bool
    ensures { result ≡ begins is_line_feed text.now }
{
    text.as_bytes().first() == Some(&b'\n')
}

#[tactic(auto, unfolding(crate::specs::Tokens::is_backslash))]
pub(crate) fn begins_backslash(text: &str) -> bool
    ensures { result ≡ begins is_backslash text.now }
{
    text.as_bytes().first() == Some(&b'\\')
}

pub(crate) fn begins_blank(text: &str) -> bool
    ensures { result ≡ begins is_blank text.now }
{
    match text.as_bytes().first() {
        Some(byte) => is_blank(*byte),
        None => false,
    }
}

pub(crate) fn begins_quote(text: &str) -> bool
    ensures { result ≡ begins is_quote text.now }
{
    match text.as_bytes().first() {
        Some(byte) => is_quote(*byte),
        None => false,
    }
}

pub(crate) fn begins_paren(text: &str) -> bool
    ensures { result ≡ begins is_paren text.now }
{
    match text.as_bytes().first() {
        Some(byte) => is_paren(*byte),
        None => false,
    }
}

pub(crate) fn is_line_end(text: &str) -> bool
    ensures { result ≡ is_line_end text.now }
{
    text.is_empty() || begins_feed(text)
}

// Whether the text begins with an escaped line end, which counts as a blank.
#[tactic(auto, unfolding(crate::specs::Tokens::is_backslash, crate::specs::Tokens::is_line_feed))]
pub(crate) fn begins_joint(text: &str) -> bool
    ensures { result ≡ begins_joint text.now }
{
    match text.as_bytes().split_first() {
        Some((first, rest)) => *first == b'\\' && rest.first() == Some(&b'\n'),
        None => false,
    }
}

// Whether the text begins with part of a gap between two tokens.
pub(crate) fn begins_gap(text: &str, passes: bool) -> bool
    ensures { result ≡ begins_gap passes text.now }
{
    begins_blank(text)
        || begins_comment(text)
        || begins_joint(text)
        || (passes && begins_feed(text))
}

// Whether a token ends before this text.
pub(crate) fn ends_token(text: &str, parens: bool) -> bool
    ensures { result ≡ ends_token parens text.now }
{
    is_line_end(text)
        || begins_blank(text)
        || begins_comment(text)
        || begins_joint(text)
        || (parens && begins_paren(text))
}

/// The blanks that the text begins with, and the rest after them.
pub(crate) fn split_blanks(text: &str) -> (&str, &str)
    ensures { Splits is_blank text.now result.0.now result.1.now }
{
    text.split_at(blanks_len(text.as_bytes()))
}

/// The bytes that are ordinary outside quotes, and the rest after them.
pub(crate) fn split_ordinary(text: &str, parens: bool) -> (&str, &str)
    ensures { Splits (is_ordinary parens) text.now result.0.now result.1.now }
{
    text.split_at(ordinary_len(text.as_bytes(), parens))
}

/// The bytes that are ordinary in a quoted piece and aren't blanks, and the rest after them.
pub(crate) fn split_literal(text: &str, quote: u8) -> (&str, &str)
    requires { is_quote quote ≡ true }
    ensures { Splits (is_literal quote) text.now result.0.now result.1.now }
{
    text.split_at(literal_len(text.as_bytes(), quote))
}

/// The line without its line feed, and the rest from the line feed on.
pub(crate) fn split_line(text: &str) -> (&str, &str)
    ensures { Splits is_in_line text.now result.0.now result.1.now }
{
    text.split_at(line_len(text.as_bytes()))
}

/// The first byte, which is ASCII, and the rest after it.
pub(crate) fn split_first(text: &str) -> (&str, &str)
    requires { begins is_low text.now ≡ true }
    ensures front { result.0.now ≡ take 1 text.now }
    ensures rest { result.1.now ≡ drop 1 text.now }
{
    text.split_at(1)
}

/// The first character with the non-ASCII ones right after it, and the rest after them.
pub(crate) fn split_char(text: &str) -> (&str, &str)
    requires { 0 < length text.now }
    ensures { SplitsChar text.now result.0.now result.1.now }
{
    text.split_at(1 + high_len(&text.as_bytes()[1..]))
}
