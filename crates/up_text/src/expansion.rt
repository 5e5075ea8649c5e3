//! Expands `$KEY` by an environment.
ghost use Rattle.std.specs.Prelude.{◌≡◌, ◌≤◌, ◌<◌, ◌||◌, ◌==◌, true, false, not, List, ◌∷◌, ◌++◌, length, drop, MatchOption, option_map};
ghost use Rattle.std.specs.List.{prefix_len};
ghost use Rattle.up_value.specs.Bindings.{value_of};
ghost use Rattle.up_text.specs.Expanding.{Gives, IsGiven, depth_after, piece_texts, signs_of};
ghost use Rattle.up_text.specs.Expansion.{Sign, Lacks, usable_value, expand, is_expandable, key_of, signs, texts_of};
ghost use Rattle.up_pattern.specs.Lists.{begins};
ghost use Rattle.up_value.specs.Names.{is_key_byte, is_key_start};

pub mod laws;

use memchr::memchr2;
use std::alloc::Global;
use up_value::env::{Env, is_key_byte, is_key_start};
use up_value::{Text, TextFault};

/// The result of expanding a text.
#[derive(Debug, Drop)]
pub enum Expanded {
    /// The text with each expansion replaced.
    Text(Text),
    /// The first key that was needed, isn't set and has no default text.
    Unset(Text),
}

// The greatest nesting of `${`.
const MAX_DEPTH: usize = 16;

// The start of a text.
#[derive(Clone, Copy, Drop)]
enum Piece<'a> {
    // Ordinary bytes.
    Run(&'a str),
    // `$KEY`.
    Named(&'a str),
    // `${KEY}`.
    Braced(&'a str),
    // `${KEY-`, or `${KEY:-` if the flag is set.
    Opened(&'a str, bool),
    // `}`.
    Closing,
    // Any other `${`.
    Wrong,
}

// The contribution of a piece to the expanded text.
#[derive(Clone, Copy, Drop)]
enum Given<'a> {
    // These bytes; the default text, if the piece opens one, isn't needed.
    Text(&'a str),
    // Nothing but the default text that it opens.
    Default,
    // Nothing: this key is needed and unset.
    Lacks(&'a str),
}

fn begins_with(text: &str, byte: u8) -> bool
    ensures { result ≡ begins (λ first. first == byte) text.now }
{
    text.as_bytes().first() == Some(&byte)
}

// The text after its first byte, or `None` if it begins with another byte.
fn after(text: &str, byte: u8) -> Option<&str>
    requires { byte < 128 }
    ensures { MatchOption result (begins (λ first. first == byte) text.now ≡ false) (λ rest. text.now
        ≡ byte ∷ rest.now) }
{
    if begins_with(text, byte) {
        Some(&text[1..])
    } else {
        None
    }
}

fn begins_key(text: &str) -> bool
    ensures { result ≡ begins is_key_start text.now }
{
    match text.as_bytes().first() {
        Some(first) => is_key_start(*first),
        None => false,
    }
}

fn key_bytes_len(bytes: &[u8]) -> usize
    ensures { result ≡ prefix_len is_key_byte bytes.now }
{
    bytes.iter().take_while(|byte| is_key_byte(**byte)).count()
}

// The longest key that the text begins with, which may be empty, and the rest after it.
fn split_key(text: &str) -> (&str, &str)
    ensures key { result.0.now ≡ key_of text.now }
    ensures rest { result.1.now ≡ drop (length (key_of text.now)) text.now }
{
    if begins_key(text) {
        text.split_at(key_bytes_len(text.as_bytes()))
    } else {
        ("", text)
    }
}

// The number of bytes before the first `$` or `}`.
fn run_len(bytes: &[u8]) -> usize
    ensures { result ≡ prefix_len (λ byte. not (byte == 36 || byte == 125)) bytes.now }
{
    memchr2(b'$', b'}', bytes).unwrap_or(bytes.len())
}

// The piece that a `${` before this text begins, and the rest after it.
fn read_braced(text: &str) -> (Piece, &str)
    ensures same { signs 0 (36 ∷ 123 ∷ text.now) ≡ signs_of result.0 ++ signs 0 result.1.now }
    ensures shorter { length result.1.now ≤ length text.now }
{
    let (key, rest) = split_key(text);
    if key.is_empty() {
        return (Piece::Wrong, text);
    }
    if let Some(rest) = after(rest, b'}') {
        return (Piece::Braced(key), rest);
    }
    if let Some(rest) = after(rest, b'-') {
        return (Piece::Opened(key, false), rest);
    }
    if let Some(rest) = after(rest, b':') {
        if let Some(rest) = after(rest, b'-') {
            return (Piece::Opened(key, true), rest);
        }
    }
    (Piece::Wrong, text)
}

// The piece that a `$` before this text begins, and the rest after it.
fn read_dollar(text: &str) -> (Piece, &str)
    ensures same { signs 0 (36 ∷ text.now) ≡ signs_of result.0 ++ signs 0 result.1.now }
    ensures shorter { length result.1.now ≤ length text.now }
{
    if let Some(rest) = after(text, b'{') {
        return read_braced(rest);
    }
    let (key, rest) = split_key(text);
    if key.is_empty() {
        return (Piece::Run("$"), text);
    }
    (Piece::Named(key), rest)
}

// The first piece of the text, and the rest after it.
fn read_piece(text: &str) -> (Piece, &str)
    requires { 0 < length text.now }
    ensures same { signs 0 text.now ≡ signs_of result.0 ++ signs 0 result.1.now }
    ensures shorter { length result.1.now < length text.now }
{
    if let Some(rest) = after(text, b'$') {
        return read_dollar(rest);
    }
    if let Some(rest) = after(text, b'}') {
        return (Piece::Closing, rest);
    }
    let (run, rest) = text.split_at(run_len(text.as_bytes()));
    (Piece::Run(run), rest)
}

// The number of default texts that are open after a piece, `depth` being open before it; `None` if the piece makes the text malformed.
#[tactic(auto, using(crate::proofs::Nesting::piece_texts_run))]
fn depth_after(depth: usize, piece: Piece) -> Option<usize>
    requires { depth ≤ 16 }
    ensures piece_texts { (later : List Sign)
        → texts_of depth (signs_of piece.entry ++ later) ≡ piece_texts depth piece.entry later result }
    ensures shallow { MatchOption result Unit (λ deeper. deeper ≤ 16) }
    ensures depth { MatchOption result Unit (λ deeper. deeper ≡ depth_after depth piece.entry) }
{
    match piece {
        Piece::Run(_) => Some(depth),
        Piece::Named(_) => Some(depth),
        Piece::Braced(_) => if depth < MAX_DEPTH { Some(depth) } else { None },
        Piece::Opened(_, _) => if depth < MAX_DEPTH {
            Some(depth + 1)
        } else {
            None
        },
        Piece::Closing => Some(depth.saturating_sub(1)),
        Piece::Wrong => None,
    }
}

// The value of a key; with `emptied`, an empty value counts as unset.
fn usable_value<'a>(env: &'a Env, key: &str, emptied: bool) -> Option<&'a str>
    ensures { option_map (λ value. value.now) result ≡ usable_value emptied (value_of key.now env.now) }
{
    match env.get(key) {
        Some(value) => {
            if emptied && value.is_empty() {
                None
            } else {
                Some(value)
            }
        }
        None => None,
    }
}

// The contribution of a piece that is needed.
#[tactic(auto, using(crate::proofs::Nesting::meanings_run, crate::proofs::Nesting::meanings_key, crate::proofs::Nesting::meanings_default))]
fn given_by<'a>(env: &'a Env, piece: Piece<'a>, depth: usize) -> Given<'a>
    ensures { IsGiven env.now depth piece.entry result }
{
    match piece {
        Piece::Run(run) => Given::Text(run),
        Piece::Named(key) | Piece::Braced(key) => match env.get(key) {
            Some(value) => Given::Text(value),
            None => Given::Lacks(key),
        },
        Piece::Opened(key, emptied) => match usable_value(env, key, emptied) {
            Some(value) => Given::Text(value),
            None => Given::Default,
        },
        Piece::Closing => Given::Text(if depth == 0 { "}" } else { "" }),
        Piece::Wrong => Given::Text(""),
    }
}

fn unset(alloc: Global, key: &str) -> Result<Expanded, TextFault>
    ensures { Gives (Lacks key.now) result }
{
    let key = Text::from_str(alloc, key)?;
    Ok(Expanded::Unset(key))
}

// Expands a well formed text. Default texts deeper than `kept` aren't needed.
fn write_text(alloc: Global, text: &str, env: &Env) -> Result<Expanded, TextFault>
    requires { is_expandable text.now ≡ true }
    ensures { Gives (expand text.now env.now) result }
{
    let mut out = String::new(alloc);
    let mut rest = text;
    let mut depth = 0usize;
    let mut kept = MAX_DEPTH;
    'pieces: while !rest.is_empty() {
        let (piece, later) = read_piece(rest);
        let Some(deeper) = depth_after(depth, piece) else {
            return Err(TextFault::BadExpansion);
        };
        if depth <= kept {
            match given_by(env, piece, depth) {
                Given::Text(bytes) => {
                    out.push_str(bytes)?;
                    kept = depth;
                }
                Given::Default => kept = MAX_DEPTH,
                Given::Lacks(key) => return unset(alloc, key),
            }
        }
        depth = deeper;
        rest = later;
    }
    Ok(Expanded::Text(Text::new(out)))
}

/// Whether a text is well formed. Takes no memory.
pub fn is_expandable(text: &str) -> bool
    ensures { result ≡ is_expandable text.now }
{
    let mut rest = text;
    let mut depth = 0usize;
    'pieces: while !rest.is_empty() {
        let (piece, later) = read_piece(rest);
        let Some(deeper) = depth_after(depth, piece) else {
            return false;
        };
        depth = deeper;
        rest = later;
    }
    depth == 0
}

/// Replaces each expansion in a text by the value of its key, or by its default text. `$KEY` takes the longest key; `${KEY}` is the same,
/// `${KEY-text}` takes the text if the key is unset, and `${KEY:-text}` also if it is empty. Such a text may contain expansions itself,
/// with at most 16 `${` nested. Fails with `BadExpansion` if the text contains any other `${`, whatever is set, and with `Memory`. Keys
/// that aren't needed aren't looked up.
pub fn expand(alloc: Global, text: &str, env: &Env) -> Result<Expanded, TextFault>
    ensures { Gives (expand text.now env.now) result }
{
    if !is_expandable(text) {
        return Err(TextFault::BadExpansion);
    }
    write_text(alloc, text, env)
}
