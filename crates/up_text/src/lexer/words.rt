//! Words, separated by blanks.
ghost use Rattle.std.specs.Prelude.{◌≡◌, ◌<◌, drop, length};
ghost use Rattle.std.specs.List.{prefix_len};
ghost use Rattle.up_text.specs.Lexer.{is_in_word, BeginsWord, Splits};
ghost use Rattle.up_text.specs.Tokens.{is_blank};

use crate::lexer::bytes::{is_blank, split_blanks};

#[tactic(auto, unfolding(crate::specs::Lexer::is_in_word))]
fn is_in_word(byte: u8) -> bool
    ensures { result ≡ is_in_word byte }
{
    !is_blank(byte)
}

// The length of the first word, in bytes.
fn word_len(bytes: &[u8]) -> usize
    ensures { result ≡ prefix_len is_in_word bytes.now }
{
    bytes.iter().take_while(|byte| is_in_word(**byte)).count()
}

/// The first word of the text, which is empty if there is none, and the rest after it. Spaces and tabs separate words; a quote or a
/// backslash is an ordinary byte, as in the line `end script` and in a command that needs no shell (init(5)).
pub fn next_word(text: &str) -> (&str, &str)
    ensures begins { BeginsWord text.now result.0.now result.1.now }
    ensures after { Splits is_in_word (drop
        (prefix_len is_blank text.now) text.now) result.0.now result.1.now }
    ensures shorter { 0 < length result.0.now → length result.1.now < length text.now }
{
    let (_, words) = split_blanks(text);
    words.split_at(word_len(words.as_bytes()))
}
