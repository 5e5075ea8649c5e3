//! Bundles: files of jobs, and a script, in one stream of bytes.
ghost use Rattle.std.specs.Prelude.{◌≡◌, ◌+◌, ◌-◌, ◌<◌, ◌≤◌, ◌^◌, ℕ, true, false, ◌++◌, None, Some, if◌then◌else◌, IfOk, OnOk, length, take, drop};
ghost use Rattle.std.specs.List.{position_or_len};
ghost use Rattle.std.specs.Option.{option_or};
ghost use Rattle.std.specs.Str.{is_utf8};
ghost use Rattle.up_text.specs.Tokens.{is_line_feed};
ghost use Rattle.up_script.specs.Bundle as bundle;
ghost use Rattle.up_script.specs.Bundle.{none_or_first, IsPart};

use memchr::memchr;
use std::alloc::{AllocError, Global};
use up_conf::Folder;
use up_text::{Items, Text, as_text};

/// The maximum size of a bundle in bytes: 64 MiB.
pub const MAX_BUNDLE: usize = 67_108_864;

/// The parts of a bundle: folders of files, and a script.
#[derive(Drop)]
pub struct Bundle<'a> {
    pub folder: Folder,
    /// The folders after the first.
    pub later: Items<Folder>,
    /// The first line, counted from 1, that belongs to no file and no script, or whose path isn't text.
    pub bad: Option<u32>,
    pub script: &'a [u8],
    /// The number of the script's first line.
    pub line: u32,
}

// A folder of a bundle, and the text after it.
#[derive(Drop)]
struct Part<'a> {
    folder: Folder,
    bad: Option<u32>,
    rest: &'a [u8],
    // The number of the first line of the rest.
    line: u32,
}

// The place of the first line feed, or the end.
#[tactic(auto, unfolding(up_text::specs::Tokens::is_line_feed))]
fn feed_at(text: &[u8]) -> usize
    ensures { result ≡ position_or_len is_line_feed text.now }
{
    memchr(b'\n', text).unwrap_or(text.len())
}

// The length of the first line in bytes, with its line feed.
#[tactic(auto, using(crate::proofs::BundleLemmas::line_take, crate::proofs::BundleLemmas::line_all))]
fn line_len(text: &[u8]) -> usize
    ensures line { take result text.now ≡ bundle.first_line text.now }
    ensures after { drop result text.now ≡ bundle.after_line text.now }
    ensures within { result ≤ length text.now }
    ensures some { 0 < length text.now → 0 < result }
{
    let feed = feed_at(text);
    if feed < text.len() {
        feed + 1
    } else {
        text.len()
    }
}

/// The first line, and the text after it.
pub(crate) fn split_line(text: &[u8]) -> (&[u8], &[u8])
    ensures line { result.0.now ≡ bundle.first_line text.now }
    ensures after { result.1.now ≡ bundle.after_line text.now }
    ensures shorter { 0 < length text.now → length result.1.now < length text.now }
{
    text.split_at(line_len(text))
}

// A line without its line feed.
#[tactic(auto, using(crate::proofs::BundleLemmas::trimmed_take, crate::proofs::BundleLemmas::feed_within))]
fn trim_blanks(line: &[u8]) -> &[u8]
    ensures { result.now ≡ bundle.without_feed line.now }
{
    &line[..feed_at(line)]
}

#[tactic(auto, unfolding(crate::specs::Bundle::is_script))]
fn is_script(line: &[u8]) -> bool
    ensures { result ≡ bundle.is_script line.now }
{
    trim_blanks(line) == b"%script".as_slice()
}

#[tactic(auto, unfolding(crate::specs::Bundle::is_file))]
fn is_file(line: &[u8]) -> bool
    ensures { result ≡ bundle.is_file line.now }
{
    line.starts_with(b"%file ")
}

#[tactic(auto, unfolding(crate::specs::Bundle::is_folder))]
fn is_folder(line: &[u8]) -> bool
    ensures { result ≡ bundle.is_folder line.now }
{
    trim_blanks(line) == b"%folder".as_slice()
}

fn ends_folder(line: &[u8]) -> bool
    ensures { result ≡ bundle.ends_folder line.now }
{
    is_script(line) || is_folder(line)
}

fn is_header(line: &[u8]) -> bool
    ensures { result ≡ bundle.is_header line.now }
{
    ends_folder(line) || is_file(line)
}

// Whether the text is empty, or begins with a header.
#[tactic(auto, using(crate::proofs::Passing::begins_by_first))]
fn begins_header(text: &[u8]) -> bool
    ensures { result ≡ bundle.begins_header (bundle.lines_of text.now) }
{
    match text.first() {
        Some(b'%') => is_header(split_line(text).0),
        Some(_) => false,
        None => true,
    }
}

// Whether nothing is left of a folder: the text is empty, or begins with a line that ends it.
#[tactic(auto, using(crate::proofs::Passing::none_or_first_line))]
fn at_end(text: &[u8]) -> bool
    ensures { result ≡ none_or_first bundle.ends_folder (bundle.lines_of text.now) }
{
    text.is_empty() || ends_folder(split_line(text).0)
}

// Whether no folder is left: the text is empty, or begins with the script's line.
#[tactic(auto, using(crate::proofs::Passing::none_or_first_line))]
fn at_script(text: &[u8]) -> bool
    ensures { result ≡ none_or_first bundle.is_script (bundle.lines_of text.now) }
{
    text.is_empty() || is_script(split_line(text).0)
}

// The text up to the next header, the text from it on, and the number of lines before it.
fn to_header(text: &[u8]) -> (&[u8], &[u8], u32)
    requires { length text.now < 2 ^ 32 }
    ensures content { result.0.now ≡ bundle.lead (bundle.lines_of text.now) }
    ensures header { bundle.begins_header (bundle.lines_of result.1.now) ≡ true }
    ensures files { bundle.files_of (bundle.lines_of result.1.now)
        ≡ bundle.files_of (bundle.lines_of text.now) }
    ensures later { bundle.later_folders (bundle.lines_of result.1.now)
        ≡ bundle.later_folders (bundle.lines_of text.now) }
    ensures script { bundle.script_text (bundle.lines_of result.1.now)
        ≡ bundle.script_text (bundle.lines_of text.now) }
    ensures number { (n : ℕ) → bundle.script_line (n + result.2) (bundle.lines_of result.1.now)
        ≡ bundle.script_line n (bundle.lines_of text.now) }
    ensures bad { (n : ℕ) → bundle.bad_path (n + result.2) (bundle.lines_of result.1.now)
        ≡ bundle.bad_path n (bundle.lines_of text.now) }
    ensures within { length result.1.now + result.2 ≤ length text.now }
{
    let mut rest = text;
    let mut lines = 0u32;
    'place_after: while !begins_header(rest) {
        rest = split_line(rest).1;
        lines += 1;
    }
    let content = &text[..text.len() - rest.len()];
    (content, rest, lines)
}

// The path in a line that begins a file.
#[tactic(auto, unfolding(crate::specs::Bundle::path_of))]
fn path_of(line: &[u8]) -> &[u8]
    ensures { result.now ≡ bundle.path_of line.now }
{
    let line = trim_blanks(line);
    if line.len() < 6 { &[] } else { &line[6..] }
}

// Adds a file. False if its path isn't text; then nothing is added.
fn add_file(
    alloc: Global,
    folder: &mut Folder,
    path: &[u8],
    bytes: &[u8],
) -> Result<bool, AllocError>
    ensures folder { OnOk result (folder.new ≡ folder.old ++ bundle.file_of path.now bytes.now) }
    ensures text { IfOk result (λ added. added ≡ is_utf8 path.now) }
{
    let Some(path) = as_text(path) else {
        return Ok(false);
    };
    let path = Text::from_str(alloc, path)?;
    let bytes = Items::new(Vec::from_slice(alloc, bytes)?);
    folder.add(path, bytes)?;
    Ok(true)
}

// The first bad line, once another file was read.
fn first_bad(bad: Option<u32>, good: bool, line: u32) -> Option<u32>
    ensures { result ≡ option_or bad (if good then None else Some line) }
{
    match bad {
        Some(earlier) => Some(earlier),
        None => { if good { None } else { Some(line) } }
    }
}

// The number of the first line, if that is neither a header nor the end.
fn stray(text: &[u8], line: u32) -> Option<u32>
    ensures { result ≡ (if bundle.begins_header (bundle.lines_of text.now) then None else Some line) }
{
    if begins_header(text) {
        None
    } else {
        Some(line)
    }
}

// The folder at the start of a text whose first line has this number.
fn read_folder(alloc: Global, text: &[u8], line: u32) -> Result<Part<'_>, AllocError>
    requires { line + length text.now < 2 ^ 32 }
    ensures { IfOk result (λ part. IsPart text.now line part.folder part.bad part.rest.now part.line) }
{
    let mut folder = Folder::new(alloc);
    let mut bad = stray(text, line);
    let (_, mut rest, passed) = to_header(text);
    let mut line = line + passed;
    'files: while !at_end(rest) {
        let (header, after) = split_line(rest);
        let (content, next, count) = to_header(after);
        let good = add_file(alloc, &mut folder, path_of(header), content)?;
        bad = first_bad(bad, good, line);
        rest = next;
        line += count + 1;
    }
    Ok(Part {
        folder,
        bad,
        rest,
        line,
    })
}

// The text after the script's line, and the number of its first line; empty if there is no such line.
fn after_header(rest: &[u8], line: u32) -> (&[u8], u32)
    requires { line + length rest.now < 2 ^ 32 }
    ensures script { none_or_first bundle.is_script (bundle.lines_of rest.now) ≡ true
        → result.0.now ≡ bundle.script_text (bundle.lines_of rest.now) }
    ensures number { none_or_first bundle.is_script (bundle.lines_of rest.now) ≡ true
        → result.1 ≡ bundle.script_line line (bundle.lines_of rest.now) }
{
    if rest.is_empty() {
        (rest, line)
    } else {
        (split_line(rest).1, line + 1)
    }
}

/// Reads a bundle: a line `%file PATH` begins a file, whose bytes are the lines up to the next header; `%folder` begins the next folder,
/// and `%script` the script, which is all after that.
pub fn read_bundle(alloc: Global, text: &[u8]) -> Result<Bundle<'_>, AllocError>
    requires { length text.now < 2 ^ 32 - 1 }
    ensures folder { IfOk result (λ read. read.folder ≡ bundle.files_of (bundle.lines_of text.now)) }
    ensures later { IfOk result (λ read. read.later ≡ bundle.later_folders (bundle.lines_of text.now)) }
    ensures bad { IfOk result (λ read. read.bad ≡ bundle.bad_line 1 (bundle.lines_of text.now)) }
    ensures script { IfOk result (λ read. read.script.now ≡ bundle.script_text (bundle.lines_of text.now)) }
    ensures line { IfOk result (λ read. read.line ≡ bundle.script_line 1 (bundle.lines_of text.now)) }
{
    let Part {
        folder,
        mut bad,
        mut rest,
        mut line,
    } = read_folder(alloc, text, 1)?;
    let mut later: Vec<Folder> = Vec::new(alloc);
    'folders: while !at_script(rest) {
        let part = read_folder(alloc, split_line(rest).1, line + 1)?;
        later.push(part.folder)?;
        bad = bad.or(part.bad);
        rest = part.rest;
        line = part.line;
    }
    let (script, line) = after_header(rest, line);
    let later = Items::new(later);
    Ok(Bundle {
        folder,
        later,
        bad,
        script,
        line,
    })
}
