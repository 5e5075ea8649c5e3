//! Removes the comments from a text, whose bytes need not be valid characters.
ghost use Rattle.std.specs.Prelude.{◌≡◌, ◌++◌, false, IfOk, OnOk};
ghost use Rattle.up_text.specs.Tokens.{is_line_feed, is_quote, mode_after, mode_outside, mode_quoted};
ghost use Rattle.up_pattern.specs.Lists.{begins};
ghost use Rattle.up_text.specs.Comments.{is_comment, unless_comment, mode_of, without_joining, without_comments};

use crate::lexer::bytes::{is_blank, is_quote};
use std::alloc::{AllocError, Global};

/// The context of a byte: outside quotes and comments; in a comment; after a backslash; between a backslash and a line end; in a piece
/// quoted by this byte; after a backslash there.
#[derive(Clone, Copy)]
enum Standing {
    Outside,
    Comment,
    Escaped,
    Continued,
    Quoted(u8),
    QuotedEscape(u8),
}

#[tactic(auto, unfolding(crate::specs::Tokens::is_line_feed))]
fn begins_feed(bytes: &[u8]) -> bool
    ensures { result ≡ begins is_line_feed bytes.now }
{
    bytes.first() == Some(&b'\n')
}

// The context after a byte outside quotes and comments.
#[tactic(auto, unfolding(crate::specs::Tokens::is_hash, crate::specs::Tokens::is_backslash))]
fn after_outside(byte: u8, rest: &[u8]) -> Standing
    ensures { mode_of result ≡ without_joining (mode_outside false byte rest.now) }
{
    if is_blank(byte) {
        Standing::Outside
    } else if byte == b'#' {
        Standing::Comment
    } else if byte == b'\\' {
        if begins_feed(rest) {
            Standing::Continued
        } else {
            Standing::Escaped
        }
    } else if is_quote(byte) {
        Standing::Quoted(byte)
    } else {
        Standing::Outside
    }
}

// The context after a byte in a piece quoted by `quote`.
#[tactic(auto, unfolding(crate::specs::Tokens::is_line_feed, crate::specs::Tokens::is_backslash))]
fn after_quoted(quote: u8, byte: u8, rest: &[u8]) -> Standing
    ensures { mode_of result ≡ without_joining (mode_quoted quote false byte rest.now) }
{
    if byte == quote {
        Standing::Outside
    } else if byte == b'\n' || is_blank(byte) {
        Standing::Quoted(quote)
    } else if byte == b'\\' {
        if begins_feed(rest) {
            Standing::Quoted(quote)
        } else {
            Standing::QuotedEscape(quote)
        }
    } else {
        Standing::Quoted(quote)
    }
}

// The context of the next byte.
#[tactic(auto, unfolding(crate::specs::Tokens::is_line_feed))]
fn after(standing: Standing, byte: u8, rest: &[u8]) -> Standing
    ensures { mode_of result ≡ without_joining (mode_after (mode_of standing) byte rest.now) }
{
    match standing {
        Standing::Outside => after_outside(byte, rest),
        Standing::Comment => {
            if byte == b'\n' {
                Standing::Outside
            } else {
                Standing::Comment
            }
        }
        Standing::Escaped => Standing::Outside,
        Standing::Continued => Standing::Outside,
        Standing::Quoted(quote) => after_quoted(quote, byte, rest),
        Standing::QuotedEscape(quote) => Standing::Quoted(quote),
    }
}

#[tactic(auto, unfolding(crate::specs::Tokens::is_line_feed, crate::specs::Tokens::is_hash))]
fn is_comment(standing: Standing, byte: u8) -> bool
    ensures { result ≡ is_comment (mode_of standing) byte }
{
    match standing {
        Standing::Outside => byte == b'#',
        Standing::Comment => byte != b'\n',
        _ => false,
    }
}

// Appends the byte unless it belongs to a comment.
fn keep(bytes: &mut Vec<u8>, standing: Standing, byte: u8) -> Result<(), AllocError>
    ensures { OnOk result (bytes.new.items ≡ bytes.old.items ++ unless_comment (mode_of standing) byte) }
{
    if is_comment(standing, byte) {
        return Ok(());
    }
    bytes.push(byte)?;
    Ok(())
}

/// The text without its comments. The line ends after them stay.
#[tactic(auto, unfolding(crate::specs::Comments::without_comments), using(crate::proofs::Comments::one_byte))]
pub fn without_comments(alloc: Global, text: &[u8]) -> Result<Vec<u8>, AllocError>
    ensures { IfOk result (λ bytes. bytes.items ≡ without_comments text.now) }
{
    let mut bytes: Vec<u8> = Vec::new(alloc);
    let mut standing = Standing::Outside;
    let mut rest = text;
    'bytes: while let Some((byte, others)) = rest.split_first() {
        keep(&mut bytes, standing, *byte)?;
        standing = after(standing, *byte, others);
        rest = others;
    }
    Ok(bytes)
}
