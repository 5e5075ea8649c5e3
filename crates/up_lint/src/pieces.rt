//! Cuts texts into pieces.
ghost use Rattle.std.specs.Prelude.{◌≡◌, ◌+◌, ◌<◌, drop, length, IfSome, option_copied};
ghost use Rattle.std.specs.List.{position_or_len, slice_split};
ghost use Rattle.up_lint.specs.Pieces.{is_between_words, is_cut, pieces_by};

use up_text::env::is_key_byte;

/// The bytes at which a text is cut.
#[derive(Clone, Copy)]
pub(crate) enum Cut {
    /// Those that separate the words of a script.
    Words,
    /// Those that a key can't contain.
    Keys,
}

#[tactic(auto, unfolding(crate::specs::Pieces::is_between_words))]
fn is_between_words(byte: u8) -> bool
    ensures { result ≡ is_between_words byte }
{
    matches!(
        byte,
        b' ' | b'\t' | b'\n' | b';' | b'&' | b'|' | b'(' | b')' | b'`' | b'"' | b'\''
    )
}

fn is_cut(cut: Cut, byte: u8) -> bool
    ensures { result ≡ is_cut cut byte }
{
    match cut {
        Cut::Words => is_between_words(byte),
        Cut::Keys => !is_key_byte(byte),
    }
}

fn piece_len(cut: Cut, text: &[u8]) -> usize
    ensures { result ≡ position_or_len (is_cut cut) text.now }
{
    text.iter().take_while(|byte| !is_cut(cut, **byte)).count()
}

// The rest after the byte at this position.
fn rest_after(text: &[u8], end: usize) -> &[u8]
    requires { end < length text.now }
    ensures { result.now ≡ drop (end + 1) text.now }
{
    &text[end + 1..]
}

/// The first piece of a text, and the rest after the byte at which it is cut; `None` if it is the last piece.
#[tactic(auto, using(crate::proofs::Splits::split_more, crate::proofs::Splits::split_none))]
pub(crate) fn next_piece(cut: Cut, text: &[u8]) -> (&[u8], Option<&[u8]>)
    ensures pieces { slice_split (is_cut cut) text.now ≡ pieces_by cut result.0.now (option_copied result.1) }
    ensures shorter { IfSome result.1 (λ rest. length rest.now < length text.now) }
{
    let end = piece_len(cut, text);
    if end < text.len() {
        (&text[..end], Some(rest_after(text, end)))
    } else {
        (text, None)
    }
}
