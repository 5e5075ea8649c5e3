//! The comment at the start of a record: the command that replays it.
ghost use Rattle.std.specs.Prelude.{◌≡◌, ◌++◌, IfOk, OnOk};
ghost use Rattle.std.specs.List.{flat_map, list_all};
ghost use Rattle.up_run.specs.Heads.{bundle_head, is_plain, log_head, quoted, stands_bare, word};

use std::alloc::{AllocError, Global};

// Whether a byte needs no quotes in a shell (sh(1), "Quoting").
fn is_plain(byte: u8) -> bool
    ensures { result ≡ is_plain byte }
{
    byte.is_ascii_alphanumeric() || b"/._-+:@%,=".contains(&byte)
}

// A byte between single quotes. A line feed, which would end the comment, is a question mark.
fn push_quoted(text: &mut Vec<u8>, byte: u8) -> Result<(), AllocError>
    ensures { OnOk result (text.new.items ≡ text.old.items ++ quoted byte) }
{
    match byte {
        b'\'' => text.extend_from_slice(b"'\\''")?,
        b'\n' => text.push(b'?')?,
        byte => text.push(byte)?,
    }
    Ok(())
}

fn push_all_quoted(text: &mut Vec<u8>, bytes: &[u8]) -> Result<(), AllocError>
    ensures { OnOk result (text.new.items ≡ text.old.items ++ flat_map quoted bytes.now) }
{
    for byte in bytes {
        push_quoted(text, *byte)?;
    }
    Ok(())
}

fn are_all_plain(bytes: &[u8]) -> bool
    ensures { result ≡ list_all is_plain bytes.now }
{
    bytes.iter().all(|byte| is_plain(*byte))
}

fn stands_bare(bytes: &[u8]) -> bool
    ensures { result ≡ stands_bare bytes.now }
{
    !bytes.is_empty() && are_all_plain(bytes)
}

// A path as a word of a shell.
#[tactic(auto, unfolding(crate::specs::Heads::word))]
fn push_word(text: &mut Vec<u8>, path: &str) -> Result<(), AllocError>
    ensures { OnOk result (text.new.items ≡ text.old.items ++ word path.now) }
{
    let bytes = path.as_bytes();
    if stands_bare(bytes) {
        return text.extend_from_slice(bytes);
    }
    text.push(b'\'')?;
    push_all_quoted(text, bytes)?;
    text.push(b'\'')?;
    Ok(())
}

/// The comment at the start of a record: the command that replays it, whose words a shell reads as they are.
#[tactic(auto, unfolding(crate::specs::Heads::log_head))]
pub(crate) fn log_head(
    alloc: Global,
    source: &str,
    log: &str,
    path: &str,
) -> Result<Vec<u8>, AllocError>
    ensures { IfOk result (λ text. text.items ≡ log_head source.now log.now path.now) }
{
    let mut text: Vec<u8> = Vec::new(alloc);
    text.extend_from_slice(b"# initd replay ")?;
    push_word(&mut text, source)?;
    text.extend_from_slice(b" ")?;
    push_word(&mut text, log)?;
    text.extend_from_slice(b" --env PATH=")?;
    push_word(&mut text, path)?;
    text.extend_from_slice(b"\n")?;
    Ok(text)
}

/// The comment at the start of the script of a record that is a bundle: the command that replays it.
#[tactic(auto, unfolding(crate::specs::Heads::bundle_head))]
pub(crate) fn bundle_head(alloc: Global, log: &str, path: &str) -> Result<Vec<u8>, AllocError>
    ensures { IfOk result (λ text. text.items ≡ bundle_head log.now path.now) }
{
    let mut text: Vec<u8> = Vec::new(alloc);
    text.extend_from_slice(b"# initd replay --bundle ")?;
    push_word(&mut text, log)?;
    text.extend_from_slice(b" --env PATH=")?;
    push_word(&mut text, path)?;
    text.extend_from_slice(b"\n")?;
    Ok(text)
}
