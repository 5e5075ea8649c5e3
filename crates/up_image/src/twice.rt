//! Tells whether a path that is read occurs twice in a folder.
ghost use Rattle.std.specs.Prelude.{◌≡◌, IfOk, map};
ghost use Rattle.up_conf.specs.Order.{is_below};
ghost use Rattle.up_image.specs.Compiling.{read_paths, has_twice};
ghost use Rattle.up_image.specs.Definable.{are_ascending};

use std::alloc::{AllocError, Global};
use std::collections::BTreeSet;
use up_conf::FolderIndex;

fn read_paths<'a>(alloc: Global, index: &FolderIndex<'a>) -> Result<Vec<&'a [u8]>, AllocError>
    ensures { IfOk result (λ paths. map (λ path. path.now) paths.items ≡ read_paths index.now) }
{
    let files = index.files();
    let mut paths: Vec<&[u8]> = Vec::new(alloc);
    for file in files {
        let path = file.path.as_str();
        let bytes = path.as_bytes();
        if index.is_read(alloc, path)? {
            paths.push(bytes)?;
        }
    }
    Ok(paths)
}

fn is_below(text: &[u8], other: &[u8]) -> bool
    ensures { result ≡ is_below text.now other.now }
{
    text.cmp(other).is_lt()
}

// Whether each text is less than the next one.
fn are_ascending(texts: &[&[u8]]) -> bool
    ensures { result ≡ are_ascending (map (λ text. text.now) texts.now) }
{
    for i in 1..texts.len() {
        if !is_below(texts[i - 1], texts[i]) {
            return false;
        }
    }
    true
}

fn has_equal(alloc: Global, texts: &[&[u8]]) -> Result<bool, AllocError>
    ensures { IfOk result (λ twice. twice ≡ has_twice (map (λ text. text.now) texts.now)) }
{
    let mut seen: BTreeSet<&[u8]> = BTreeSet::new(alloc);
    for text in texts {
        if !seen.insert(*text)? {
            return Ok(true);
        }
    }
    Ok(false)
}

/// Whether two of the texts are equal. Texts that ascend, as the paths of a folder mostly do, are compared with the next one alone.
#[tactic(auto, using(crate::proofs::Ascending::apart))]
pub(crate) fn has_twice(alloc: Global, texts: &[&[u8]]) -> Result<bool, AllocError>
    ensures { IfOk result (λ twice. twice ≡ has_twice (map (λ text. text.now) texts.now)) }
{
    if are_ascending(texts) {
        return Ok(false);
    }
    has_equal(alloc, texts)
}

/// Whether a path that is read occurs twice.
pub(crate) fn has_same_path(alloc: Global, index: &FolderIndex) -> Result<bool, AllocError>
    ensures { IfOk result (λ twice. twice ≡ has_twice (read_paths index.now)) }
{
    let paths = read_paths(alloc, index)?;
    has_twice(alloc, paths.as_slice())
}
