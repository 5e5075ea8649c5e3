//! The lines of a script.
ghost use Rattle.std.specs.Prelude.{◌≡◌, ◌+◌, ◌<◌, ◌≤◌, ◌^◌, codes, length, MatchOption, None};
ghost use Rattle.std.specs.Str.{bytes_eq};
ghost use Rattle.up_text.specs.Scripts.{lines_of, is_end_line, may_follow, script_in};
ghost use Rattle.up_text.specs.Lexer.{BeginsLine, EndsScript};

use crate::lexer::bytes::{line_len, split_line as before_feed};
use crate::lexer::words::next_word;

fn is_end(word: &str) -> bool
    ensures { result ≡ bytes_eq word.now (codes "end") }
{
    word == "end"
}

fn is_script(word: &str) -> bool
    ensures { result ≡ bytes_eq word.now (codes "script") }
{
    word == "script"
}

// Whether this may follow `end script`: no word, or one that begins a comment.
#[tactic(auto, unfolding(crate::specs::Tokens::is_hash))]
fn may_follow(word: &str) -> bool
    ensures { result ≡ may_follow word.now }
{
    match word.as_bytes().first() {
        Some(byte) => *byte == b'#',
        None => true,
    }
}

// Whether the line ends a script: `end script`.
fn is_end_line(line: &str) -> bool
    ensures { result ≡ is_end_line line.now }
{
    let (words, _) = before_feed(line);
    let (first, rest) = next_word(words);
    let (second, rest) = next_word(rest);
    let (third, _) = next_word(rest);
    if !is_end(first) {
        return false;
    }
    if !is_script(second) {
        return false;
    }
    may_follow(third)
}

// The first line with its line feed, the rest after it, and the number of its line feeds, 0 or 1.
fn split_line(text: &str) -> (&str, &str, u32)
    requires { 0 < length text.now }
    ensures { BeginsLine text.now result.0.now result.1.now result.2 }
{
    let end = line_len(text.as_bytes());
    if end < text.len() {
        let (line, rest) = text.split_at(end + 1);
        (line, rest, 1)
    } else {
        (text, "", 0)
    }
}

/// The script's lines, and the text and the line after its end line, or `None` if there is no end line.
pub(crate) fn find_end(text: &str, line: u32) -> Option<(&str, &str, u32)>
    requires { line + length text.now < 2 ^ 32 }
    ensures { MatchOption result (script_in (lines_of text.now)
        ≡ None) (λ end. EndsScript text.now line end.0.now end.1.now end.2) }
{
    let mut rest = text;
    let mut line = line;
    'lines: while !rest.is_empty() {
        let (first, after, feeds) = split_line(rest);
        if is_end_line(first) {
            let (script, _) = text.split_at(text.len() - rest.len());
            return Some((script, after, line + feeds));
        }
        rest = after;
        line += feeds;
    }
    None
}
