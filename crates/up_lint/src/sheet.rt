//! The stanzas of a job as written in its files: those of its own file, and then those of its override.
ghost use Rattle.std.specs.Prelude.{◌≡◌, ◌≤◌, ◌++◌, IfOk, IfSome, OnOk, MatchOption, length, true, false};
ghost use Rattle.up_lint.specs.declared.sheet.TheConstants.{MAX_LEN};
ghost use Rattle.up_lint.specs.Sheets.{bytes_at, heads_in, is_manual, is_text, override_heads, path_of, sheet_of, spot_of};

use crate::head::{Head, begins, push_heads, says};
use std::alloc::{AllocError, Global};
use up_conf::File;
use up_stanza::read_bytes;
use up_text::{Items, Text, as_text};

/// The longest text whose stanzas are read, in bytes: no job file is longer.
const MAX_LEN: usize = 1_048_576;

/// The file and line of a stanza of a job.
#[derive(Clone, Copy)]
pub struct Spot {
    /// Whether it is in the job's override.
    pub over: bool,
    /// The line, counted from 1.
    pub line: u32,
}

/// The path of a job's own file, or of its override if `over` is set.
pub(crate) fn path_of(alloc: Global, name: &str, over: bool) -> Result<Text, AllocError>
    ensures { IfOk result (λ path. path ≡ path_of name.now over) }
{
    let mut path = String::from_str(alloc, name)?;
    path.push_str(if over { ".override" } else { ".conf" })?;
    Ok(Text::new(path))
}

// Empty if no file has this path.
fn bytes_at<'a>(files: &'a [File], path: &str) -> &'a [u8]
    ensures { result.now ≡ bytes_at files.now path.now }
{
    for file in files {
        if file.path.as_str() == path {
            return file.bytes.as_slice();
        }
    }
    &[]
}

// `None` if the file is too long or isn't UTF-8.
fn text_of(bytes: &[u8]) -> Option<&str>
    ensures test { MatchOption result (is_text bytes.now ≡ false) (λ text. is_text bytes.now ≡ true) }
    ensures same { IfSome result (λ text. text.now ≡ bytes.now) }
    ensures short { IfSome result (λ text. length text.now ≤ MAX_LEN) }
{
    if bytes.len() > MAX_LEN {
        return None;
    }
    as_text(bytes)
}

fn push_file(heads: &mut Vec<Head>, over: bool, bytes: &[u8]) -> Result<(), AllocError>
    ensures { OnOk result (heads.new.items ≡ heads.old.items ++ heads_in over bytes.now) }
{
    match text_of(bytes) {
        Some(text) => push_heads(heads, over, text),
        None => Ok(()),
    }
}

// Appends the stanzas of an override. A faulty override is ignored.
fn push_override(heads: &mut Vec<Head>, bytes: &[u8]) -> Result<(), AllocError>
    ensures { OnOk result (heads.new.items ≡ heads.old.items ++ override_heads bytes.now) }
{
    match read_bytes(*heads.allocator(), bytes)? {
        Ok(stanzas) => {
            drop(stanzas);
            push_file(heads, true, bytes)
        }
        Err(_) => Ok(()),
    }
}

fn push_conf(heads: &mut Vec<Head>, files: &[File], name: &str) -> Result<(), AllocError>
    ensures { OnOk result (heads.new.items
        ≡ heads.old.items ++ heads_in false (bytes_at files.now (path_of name.now false))) }
{
    let path = path_of(*heads.allocator(), name, false)?;
    push_file(heads, false, bytes_at(files, path.as_str()))
}

fn push_over(heads: &mut Vec<Head>, files: &[File], name: &str) -> Result<(), AllocError>
    ensures { OnOk result (heads.new.items
        ≡ heads.old.items ++ override_heads (bytes_at files.now (path_of name.now true))) }
{
    let path = path_of(*heads.allocator(), name, true)?;
    push_override(heads, bytes_at(files, path.as_str()))
}

/// The stanzas of a job's own file, then those of its override.
#[tactic(auto, unfolding(crate::specs::Sheets::sheet_of))]
pub(crate) fn sheet_of(alloc: Global, files: &[File], name: &str) -> Result<Items<Head>, AllocError>
    ensures { IfOk result (λ sheet. sheet ≡ sheet_of files.now name.now) }
{
    let mut heads: Vec<Head> = Vec::new(alloc);
    push_conf(&mut heads, files, name)?;
    push_over(&mut heads, files, name)?;
    Ok(Items::new(heads))
}

/// The position of the last stanza that begins with `first` and contains `word` after it; if there is none, the first line of the job's own
/// file.
pub(crate) fn spot_of(sheet: &[Head], first: &str, word: &str) -> Spot
    ensures { result ≡ spot_of first.now word.now sheet.now }
{
    let mut spot = Spot {
        over: false,
        line: 1,
    };
    for head in sheet {
        if says(head, first, word) {
            spot = Spot {
                over: head.over,
                line: head.line,
            };
        }
    }
    spot
}

/// Whether a job has the stanza `manual`.
pub(crate) fn is_manual(sheet: &[Head]) -> bool
    ensures { result ≡ is_manual sheet.now }
{
    sheet.iter().any(|head| begins(head, "manual"))
}
