//! The lines below a fault in a report.
ghost use Rattle.std.specs.Prelude.{◌≡◌, ◌≤◌, ◌++◌, OnOk, length};
ghost use Rattle.up_model.specs.Values.{Bytes};
ghost use Rattle.std.specs.List.{after_first, before_first, position_or_len};
ghost use Rattle.up_text.specs.Tokens.{is_line_feed};
ghost use Rattle.up_print.specs.Advice.{advice_lines, bytes_at, indented, line_at, shown_line};

use crate::sentence::sentence;
use memchr::memchr;
use std::alloc::AllocError;
use up_conf::{Fault, FaultCode, File};

// Empty if no file has this path.
fn bytes_at<'a>(files: &'a [File], path: &str) -> &'a [u8]
    ensures { result.now ≡ bytes_at files.now path.now }
{
    for file in files {
        if file.path.as_str() == path {
            return file.bytes.as_slice();
        }
    }
    &[]
}

// The position of the first line feed, or the end if there is none.
#[tactic(auto, unfolding(up_text::specs::Tokens::is_line_feed))]
fn feed_at(text: &[u8]) -> usize
    ensures first { result ≡ position_or_len is_line_feed text.now }
    ensures within { result ≤ length text.now }
{
    memchr(b'\n', text).unwrap_or(text.len())
}

fn before_feed(text: &[u8]) -> &[u8]
    ensures { result.now ≡ before_first is_line_feed text.now }
{
    &text[..feed_at(text)]
}

// Empty if there is no line feed.
fn after_feed(text: &[u8]) -> &[u8]
    ensures { result.now ≡ after_first is_line_feed text.now }
{
    let feed = feed_at(text);
    if feed < text.len() {
        &text[feed + 1..]
    } else {
        &text[text.len()..]
    }
}

// Lines are counted from 1; the result has no line feed.
fn line_at(text: &[u8], line: u32) -> &[u8]
    ensures { result.now ≡ line_at text.now line }
{
    let mut rest = text;
    for _ in 0..line.saturating_sub(1) {
        rest = after_feed(rest);
    }
    before_feed(rest)
}

#[tactic(auto, unfolding(crate::specs::Advice::indented))]
fn push_indented(text: &mut Vec<u8>, line: &[u8]) -> Result<(), AllocError>
    ensures { OnOk result (text.new.items ≡ text.old.items ++ indented line.now) }
{
    text.extend_from_slice(b"    ")?;
    text.extend_from_slice(line)?;
    text.push(b'\n')?;
    Ok(())
}

// Appends a line at fault, unless the file might not be text.
fn push_shown(text: &mut Vec<u8>, code: FaultCode, line: &[u8]) -> Result<(), AllocError>
    ensures { OnOk result (text.new.items ≡ text.old.items ++ shown_line code line.now) }
{
    match code {
        FaultCode::NotText | FaultCode::TooLarge | FaultCode::Memory => Ok(()),
        _ => push_indented(text, line),
    }
}

/// Appends the lines below a fault of one of these files: the line at fault as it is in the file, unless the file might not be text, and a
/// sentence on what is wrong and what to do.
#[tactic(auto, unfolding(crate::specs::Advice::advice_lines))]
pub fn push_advice(text: &mut Vec<u8>, files: &[File], fault: &Fault) -> Result<(), AllocError>
    ensures { OnOk result ((said : Bytes)
        × (text.new.items ≡ text.old.items ++ advice_lines said files.now fault.now)) }
{
    let line = line_at(bytes_at(files, fault.path.as_str()), fault.line);
    push_shown(text, fault.code, line)?;
    push_indented(text, sentence(fault.code, line).as_bytes())
}
