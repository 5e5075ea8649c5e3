//! Reads job files, and a folder of them with its subfolders, from the disk.
ghost use Rattle.std.specs.Prelude.{◌≡◌, ◌≤◌, ◌<◌, ◌+◌, ◌++◌, ◌∷◌, ℕ, List, [], map, if◌then◌else◌, true, is_some, IfOk, IfErr, IfSome, OnOk, length, string_bytes};
ghost use Rattle.std.specs.IoError.{error_kind};
ghost use Rattle.up_disk.specs.Disk.{CannotWalk};
ghost use Rattle.up_disk.specs.Walk.{path_in, is_source, level_of, below, MayAdd, TakesPath, Keeps, IsWalked, Names, NamesDeep, NamesSource, MayFail};

use crate::why::{say, say_error};
use std::alloc::{AllocError, Global};
use std::io::{Eprint, ErrorKind, Read};
use std::rt::Files;
use std::{fs, io};
use thiserror::Error;
use up_conf::{Folder, job_name, overridden_name};
use up_print::{Printed, cannot_use};
use up_text::{Items, Text};

/// The maximum depth of nested folders below the first.
const MAX_DEPTH: u32 = 64;

/// The maximum number of files and folders in a folder, with those of its subfolders.
const MAX_ENTRIES: usize = 65_536;

/// One byte more than the maximum size of a job file, by which its reader sees that it is too long.
const MAX_READ: usize = 1_048_577;

/// Why an existing job file isn't read.
const NO_FILE: &str = "it is named like a job file, and isn't a regular file";

/// Why a folder isn't read with its subfolders.
const TOO_DEEP: &str = "it has folders more than 64 levels deep";

/// Why a folder isn't read with all its entries.
const TOO_MANY: &str = "it has more than 65536 entries, including those of its subfolders";

/// The report about a folder with an entry whose name isn't text.
const NO_TEXT: &str = "an entry of it is skipped, since its name isn't UTF-8";

/// Why a folder isn't read.
#[derive(Debug, Drop, Error)]
pub enum WalkError {
    /// This path can't be listed, or not be read in full.
    #[error("a path can't be used")]
    Unusable(Text),
    #[error("out of memory")]
    Memory,
}

impl From<AllocError> for WalkError {
    ghost use Rattle.std.specs.Prelude.{◌≡◌};
    ghost use Rattle.up_disk.specs.declared.walk.WalkError.TheVariants.{Memory};

    ghost from_gives = { λ _ error. error ≡ Memory };

    fn from(_: AllocError) -> WalkError {
        WalkError::Memory
    }
}

/// The output for a folder that can't be read.
pub fn cannot_walk(alloc: Global, error: &WalkError) -> Result<Printed, AllocError>
    ensures { IfOk result (λ made. (dir : List ℕ) → MayFail dir error.now → CannotWalk dir made) }
{
    match error {
        WalkError::Unusable(path) => cannot_use(alloc, path.as_str()),
        WalkError::Memory => Err(AllocError),
    }
}

// A folder that is still to be listed.
#[derive(Drop)]
struct Level {
    // Its path below the first folder, with a slash after it; empty for the first folder.
    path: String,
    depth: u32,
}

// The files and folders found so far.
#[derive(Drop)]
struct Found {
    folder: Folder,
    levels: Vec<Level>,
    entries: usize,
}

// The error for a path that can't be used.
fn unusable(alloc: Global, path: &str) -> WalkError
    ensures { Names path.now result }
{
    match Text::from_str(alloc, path) {
        Ok(path) => WalkError::Unusable(path),
        Err(_) => WalkError::Memory,
    }
}

// The same, after the reason is reported.
fn unusable_since<R: Eprint + AllocGlobal>(rt: &R, path: &str, why: &str) -> WalkError
    ensures { Names path.now result }
{
    say(rt, path, why);
    unusable(rt.alloc(), path)
}

// The error for this path after an error of the system at `place`.
fn refused<R: Eprint + AllocGlobal>(rt: &R, error: io::Error, place: &str, path: &str) -> WalkError
    ensures named { Names path.now result }
    ensures memory { error_kind error ≡ ErrorKind.OutOfMemory → result ≡ WalkError.Memory }
{
    if error.kind() == ErrorKind::OutOfMemory {
        WalkError::Memory
    } else {
        say_error(rt, place, &error);
        unusable(rt.alloc(), path)
    }
}

// Whether a path is that of a job or an override.
fn is_source(path: &str) -> bool
    ensures { result ≡ is_source path.now }
{
    job_name(path).is_some() || overridden_name(path).is_some()
}

// The path of an entry of a folder.
fn path_below(alloc: Global, dir: &str, path: &str) -> Result<String, AllocError>
    ensures { IfOk result (λ whole. string_bytes whole ≡ path_in dir.now path.now) }
{
    let mut whole = String::from_str(alloc, dir)?;
    if !dir.as_bytes().ends_with(b"/") {
        whole.push_str("/")?;
    }
    whole.push_str(path)?;
    Ok(whole)
}

/// The bytes of a file, at most `most`.
pub fn read_file<R: Files + AllocGlobal>(rt: &R, path: &str, most: usize) -> io::Result<Vec<u8>>
    ensures { IfOk result (λ bytes. length bytes.items ≤ most) }
{
    let mut bytes: Vec<u8> = Vec::new(rt.alloc());
    let mut limited = Read::take(fs::open(rt, path)?, most as u64);
    limited.read_to_end(&mut bytes)?;
    bytes.truncate(most);
    Ok(bytes)
}

// Whether this path leads through too many links by itself, and not by the path of its folder.
fn is_link_to_itself<R: Files + AllocGlobal>(rt: &R, whole: &str) -> bool {
    let Some((folder, name)) = whole.rsplit_once('/') else {
        return false;
    };
    let folder = if folder.is_empty() { "/" } else { folder };
    let Ok(mut real) = fs::canonicalize(rt, folder) else {
        return false;
    };
    if real.push(name).is_err() {
        return false;
    }
    match fs::metadata(rt, real.as_path()) {
        Ok(_) => false,
        Err(error) => error.kind() == ErrorKind::FilesystemLoop,
    }
}

// Whether an error isn't that of one file that could be passed over: out of memory, or too many links since a folder contains itself.
fn is_of_folder<R: Files + AllocGlobal>(rt: &R, error: &io::Error, whole: &str) -> bool {
    match error.kind() {
        ErrorKind::OutOfMemory => true,
        ErrorKind::FilesystemLoop => !is_link_to_itself(rt, whole),
        _ => false,
    }
}

// The bytes of a job file; none for another file. A pipe or a device can't be read as a whole.
fn read_source<R: Files + Eprint + AllocGlobal>(
    rt: &R,
    whole: &str,
    path: &str,
    is_file: bool,
) -> Result<Option<Vec<u8>>, WalkError>
    ensures read { IfOk result (λ read. IfSome read
        (λ bytes. (is_source path.now ≡ true) × (length bytes.items ≤ 1048577))) }
    ensures all { IfOk result (λ read. is_some read ≡ is_source path.now) }
    ensures file { IfOk result (λ read. is_source path.now ≡ true → is_file ≡ true) }
    ensures refused { IfErr result (NamesSource whole.now path.now) }
{
    if !is_source(path) {
        return Ok(None);
    }
    if !is_file {
        return Err(unusable_since(rt, whole, NO_FILE));
    }
    match read_file(rt, whole, MAX_READ) {
        Ok(bytes) => Ok(Some(bytes)),
        Err(error) => Err(refused(rt, error, whole, whole)),
    }
}

impl Found {
    // Keeps a file if it is a job or an override.
    fn take_file<R: Files + Eprint + AllocGlobal>(
        &mut self,
        rt: &R,
        whole: &str,
        path: String,
        is_file: bool,
    ) -> Result<(), WalkError>
        ensures refused { IfErr result (NamesSource whole.now (string_bytes path)) }
        ensures added { OnOk result (MayAdd (string_bytes path) self.old.folder self.new.folder) }
        ensures levels { self.new.levels ≡ self.old.levels }
        ensures file { OnOk result (is_source (string_bytes path) ≡ true → is_file ≡ true) }
        ensures taken { OnOk result (length self.new.folder
            ≡ length self.old.folder + (if is_source (string_bytes path) then 1 else 0)) }
        ensures entries { self.new.entries ≡ self.old.entries }
    {
        if let Some(bytes) = read_source(rt, whole, path.as_str(), is_file)? {
            self.folder.add(Text::new(path), Items::new(bytes))?;
        }
        Ok(())
    }

    // Keeps a folder to be listed, unless it is too deep.
    fn take_folder<R: Eprint + AllocGlobal>(
        &mut self,
        rt: &R,
        dir: &str,
        mut path: String,
        depth: u32,
    ) -> Result<(), WalkError>
        ensures refused { IfErr result (NamesDeep dir.now depth) }
        ensures shallow { OnOk result (depth < 64) }
        ensures later { OnOk result (map level_of self.new.levels.items
            ≡ map level_of self.old.levels.items ++ below (string_bytes path) depth ∷ []) }
        ensures folder { self.new.folder ≡ self.old.folder }
        ensures entries { self.new.entries ≡ self.old.entries }
    {
        if depth >= MAX_DEPTH {
            return Err(unusable_since(rt, dir, TOO_DEEP));
        }
        path.push_str("/")?;
        let level = Level {
            path,
            depth: depth + 1,
        };
        self.levels.push(level).map_err(AllocError::from)?;
        Ok(())
    }

    // Takes the entry at this path below the folder, in a folder of this depth.
    fn take_path<R: Files + Eprint + AllocGlobal>(
        &mut self,
        rt: &R,
        dir: &str,
        path: String,
        depth: u32,
    ) -> Result<(), WalkError>
        ensures refused { IfErr result (MayFail dir.now) }
        ensures added { OnOk result (MayAdd (string_bytes path) self.old.folder self.new.folder) }
        ensures taken { OnOk result (TakesPath (string_bytes path) depth self.old.folder self.new.folder
            (map level_of self.old.levels.items) (map level_of self.new.levels.items)) }
        ensures entries { self.new.entries ≡ self.old.entries }
    {
        let whole = path_below(rt.alloc(), dir, path.as_str())?;
        match fs::metadata(rt, whole.as_str()) {
            Ok(found) if found.is_dir() => self.take_folder(rt, dir, path, depth),
            Ok(found) => self.take_file(rt, whole.as_str(), path, found.is_file()),
            Err(error) if is_source(path.as_str()) => {
                Err(refused(rt, error, whole.as_str(), whole.as_str()))
            }
            Err(error) if is_of_folder(rt, &error, whole.as_str()) => {
                Err(refused(rt, error, whole.as_str(), dir))
            }
            // By its name no job file: a link to nothing or to itself, an entry that may not be looked at, or one that went meanwhile.
            Err(_) => Ok(()),
        }
    }

    // Takes the entry of this name in a folder.
    fn take_entry<R: Files + Eprint + AllocGlobal>(
        &mut self,
        rt: &R,
        dir: &str,
        level: &Level,
        name: &str,
    ) -> Result<(), WalkError>
        requires { Keeps self.old.folder self.old.entries }
        ensures refused { IfErr result (MayFail dir.now) }
        ensures kept { OnOk result (Keeps self.new.folder self.new.entries) }
        ensures added { OnOk result (MayAdd (string_bytes level.now.path
            ++ name.now) self.old.folder self.new.folder) }
        ensures taken { OnOk result (TakesPath
            (string_bytes level.now.path ++ name.now) level.now.depth self.old.folder self.new.folder
            (map level_of self.old.levels.items) (map level_of self.new.levels.items)) }
        ensures counted { OnOk result (self.new.entries ≡ self.old.entries + 1) }
    {
        if self.entries >= MAX_ENTRIES {
            return Err(unusable_since(rt, dir, TOO_MANY));
        }
        let mut path = String::from_str(rt.alloc(), level.path.as_str())?;
        path.push_str(name)?;
        self.take_path(rt, dir, path, level.depth)?;
        self.entries += 1;
        Ok(())
    }

    // Passes over an entry of a folder whose name isn't text, of which the system's list reports no more. It counts as one.
    fn pass_over<R: Eprint + AllocGlobal>(
        &mut self,
        rt: &R,
        dir: &str,
        whole: &str,
    ) -> Result<(), WalkError>
        requires { Keeps self.old.folder self.old.entries }
        ensures refused { IfErr result (MayFail dir.now) }
        ensures kept { OnOk result (Keeps self.new.folder self.new.entries) }
    {
        if self.entries >= MAX_ENTRIES {
            return Err(unusable_since(rt, dir, TOO_MANY));
        }
        say(rt, whole, NO_TEXT);
        self.entries += 1;
        Ok(())
    }

    fn list<R: Files + Eprint + AllocGlobal + Clone + Drop>(
        &mut self,
        rt: &R,
        dir: &str,
        level: &Level,
    ) -> Result<(), WalkError>
        requires { Keeps self.old.folder self.old.entries }
        ensures refused { IfErr result (MayFail dir.now) }
        ensures kept { OnOk result (Keeps self.new.folder self.new.entries) }
    {
        let whole = path_below(rt.alloc(), dir, level.path.as_str())?;
        let entries = match fs::read_dir(rt, whole.as_str()) {
            Ok(entries) => entries,
            Err(error) => return Err(refused(rt, error, whole.as_str(), dir)),
        };
        for entry in entries {
            match entry {
                Ok(entry) => self.take_entry(rt, dir, level, entry.file_name())?,
                Err(error) if error.kind() == ErrorKind::InvalidFilename => {
                    self.pass_over(rt, dir, whole.as_str())?
                }
                Err(error) => return Err(refused(rt, error, whole.as_str(), dir)),
            }
        }
        Ok(())
    }
}

/// Reads the job files and overrides of a folder and of its subfolders. Symbolic links are followed. A folder that can't be listed, that
/// has too many entries or too deep a subfolder, makes `dir` unusable. An entry whose name isn't text is passed over, and reported.
pub fn walk<R: Files + Eprint + AllocGlobal + Clone + Drop>(
    rt: &R,
    dir: &str,
) -> Result<Folder, WalkError>
    ensures walked { IfOk result IsWalked }
    ensures refused { IfErr result (MayFail dir.now) }
{
    // An empty path names no folder; joined with a slash it would be the root.
    if dir.is_empty() {
        return Err(unusable_since(rt, dir, "the path is empty"));
    }
    let mut found = Found {
        folder: Folder::new(rt.alloc()),
        levels: Vec::new(rt.alloc()),
        entries: 0,
    };
    let first = Level {
        path: String::new(rt.alloc()),
        depth: 0,
    };
    found.levels.push(first).map_err(AllocError::from)?;
    // Each folder but the first is an entry.
    'listing: for _ in 0..=MAX_ENTRIES {
        match found.levels.pop() {
            Some(level) => found.list(rt, dir, &level)?,
            None => return Ok(found.folder),
        }
    }
    Err(unusable_since(rt, dir, TOO_MANY))
}
