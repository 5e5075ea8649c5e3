//! Images of tables on the disk: writes the image of a folder, and prints the job files that an image contains.
ghost use Rattle.std.specs.Prelude.{◌+◌, ◌≤◌, Decides, IfOk, IfSome, length, option_map};
ghost use Rattle.up_disk.specs.Disk.{CompilesDir, Defines, DefinesAll, DefinesImage, IsUnusable, KeepsBundle, ShowsBytes, ShowsFile, ShowsTable, StoresFiles, StoresTable};
ghost use Rattle.up_disk.specs.Walk.{IsWalked};

use crate::walk::{cannot_walk, read_file, walk};
use crate::why::{say, say_error};
use std::alloc::{AllocError, Global};
use std::fs::{File, Metadata, OpenFile};
use std::io::{Eprint, ErrorKind, Write};
use std::rt::Files;
use std::{fs, io};
use up_conf::Folder;
use up_image::limits::MAX_IMAGE;
use up_image::{CompileError, ImageError, Table, compile, job_files};
use up_model::ExitStatus;
use up_print::check::check_and_compile;
use up_print::{Printed, cannot_use, image_refused};
use up_script::bundle::MAX_BUNDLE;
use up_script::read_bundle;
use up_text::Items;

// Writes all bytes to a new file, and syncs it to the disk.
fn fill_new<R: Files>(rt: &R, path: &str, bytes: &[u8]) -> io::Result<()> {
    let mut file = File::create_new(rt, path)?;
    file.write_all(bytes)?;
    file.sync_all()
}

// Renames a whole file to its path, or removes it.
fn put_in_place<R: Files + Eprint>(rt: &R, temporary: &str, path: &str) -> io::Result<()> {
    match fs::rename(rt, temporary, path) {
        Ok(()) => Ok(()),
        Err(error) => {
            let _ = fs::remove_file(rt, temporary);
            say_error(rt, path, &error);
            Err(error)
        }
    }
}

// The reason not to replace what is at a path; none for a regular file, which is replaced.
fn obstacle(found: &Metadata) -> Option<&'static str> {
    if found.is_file() {
        None
    } else if found.is_dir() {
        Some("it is a folder, which is never replaced")
    } else if found.is_symlink() {
        Some("it is a symbolic link, which is never replaced")
    } else {
        Some("it isn't a regular file, and is never replaced")
    }
}

// Refuses a path at which there is something that no file may replace.
fn may_replace<R: Files + Eprint>(rt: &R, path: &str) -> io::Result<()> {
    match fs::symlink_metadata(rt, path) {
        Ok(found) => match obstacle(&found) {
            Some(why) => {
                say(rt, path, why);
                Err(io::Error::from(ErrorKind::AlreadyExists))
            }
            None => Ok(()),
        },
        // Nothing is there, or its folder isn't, which making the file will report.
        Err(_) => Ok(()),
    }
}

// Reports why a new file wasn't written. A partly written file is removed; one that was there before is somebody else's.
fn give_up<R: Files + Eprint>(rt: &R, temporary: &str, path: &str, error: &io::Error) {
    if error.kind() == ErrorKind::AlreadyExists {
        say(
            rt,
            temporary,
            "it exists: another compile uses it, or one that was killed left it; remove it if none runs",
        );
    } else {
        let _ = fs::remove_file(rt, temporary);
        say_error(rt, path, error);
    }
}

// Writes a file as a whole or not at all, by way of a file with `.new` after its name, which may not exist yet.
fn write_whole<R: Files + Eprint + AllocGlobal>(
    rt: &R,
    path: &str,
    bytes: &[u8],
) -> io::Result<()> {
    let mut temporary = String::from_str(rt.alloc(), path)?;
    temporary.push_str(".new")?;
    may_replace(rt, path)?;
    match fill_new(rt, temporary.as_str(), bytes) {
        Ok(()) => put_in_place(rt, temporary.as_str(), path),
        Err(error) => {
            give_up(rt, temporary.as_str(), path, &error);
            Err(error)
        }
    }
}

// Stores the image of a table, and returns the output for it.
fn store<R: Files + Eprint + AllocGlobal>(
    rt: &R,
    table: &Table,
    image: &str,
    printed: Printed,
) -> Result<Printed, AllocError>
    ensures { IfOk result (StoresTable image.now printed) }
{
    let Ok(bytes) = table.to_bytes(rt.alloc()) else {
        return Err(AllocError);
    };
    match write_whole(rt, image, bytes.as_slice()) {
        Ok(()) => Ok(printed),
        Err(error) => {
            if error.kind() == ErrorKind::OutOfMemory {
                return Err(AllocError);
            }
            cannot_use(rt.alloc(), image)
        }
    }
}

// Stores the image of a folder's files, unless the folder is refused.
fn store_folder<R: Files + Eprint + AllocGlobal>(
    rt: &R,
    folder: &Folder,
    image: &str,
) -> Result<Printed, AllocError>
    requires { IsWalked folder.now }
    ensures { IfOk result (StoresFiles image.now) }
{
    let (printed, table) = check_and_compile(rt.alloc(), folder)?;
    match table {
        Some(table) => store(rt, &table, image, printed),
        None => Ok(printed),
    }
}

/// Stores the image of a folder, and returns the output of the folder's check. The image is stored in spite of faults. If
/// it can't be, nothing is left of it, and the output reports that.
pub fn compile_dir<R: Files + Eprint + AllocGlobal + Clone + Drop>(
    rt: &R,
    dir: &str,
    image: &str,
) -> Result<Printed, AllocError>
    ensures { IfOk result (CompilesDir dir.now image.now) }
{
    match walk(rt, dir) {
        Ok(folder) => store_folder(rt, &folder, image),
        Err(error) => cannot_walk(rt.alloc(), &error),
    }
}

/// The bytes of an image, as many as show that it is too long; none if it can't be read.
pub fn read_bytes<R: Files + Eprint + AllocGlobal>(
    rt: &R,
    image: &str,
) -> Result<Option<Vec<u8>>, AllocError>
    ensures { IfOk result (λ read. IfSome read (λ bytes. length bytes.items ≤ 16777217)) }
{
    match read_file(rt, image, MAX_IMAGE + 1) {
        Ok(bytes) => Ok(Some(bytes)),
        Err(error) => {
            if error.kind() == ErrorKind::OutOfMemory {
                return Err(AllocError);
            }
            say_error(rt, image, &error);
            Ok(None)
        }
    }
}

// The files of a folder as a bundle without a script.
fn bundle_of(alloc: Global, folder: &Folder) -> Result<Vec<u8>, AllocError> {
    let mut text: Vec<u8> = Vec::new(alloc);
    for file in folder.as_slice() {
        text.extend_from_slice(b"%file ")?;
        text.extend_from_slice(file.path.as_str().as_bytes())?;
        text.extend_from_slice(b"\n")?;
        text.extend_from_slice(file.bytes.as_slice())?;
    }
    Ok(text)
}

// Whether files compile to a table with this image.
#[tactic(auto, using(crate::proofs::Stored::same_image, crate::proofs::Stored::refused))]
fn define_image(alloc: Global, folder: &Folder, image: &[u8]) -> Result<bool, AllocError>
    ensures { IfOk result (λ define. Decides define (DefinesImage folder.now image.now)) }
{
    let table = match compile(alloc, folder) {
        Ok((table, _)) => table,
        Err(CompileError::Memory) => return Err(AllocError),
        Err(CompileError::SameName | CompileError::TooManyJobs | CompileError::ImageTooLarge) => {
            return Ok(false);
        }
    };
    match table.to_bytes(alloc) {
        Ok(bytes) => Ok(bytes.as_slice() == image),
        Err(_) => Err(AllocError),
    }
}

/// Whether files define the jobs of a table: then they have the image that is written of it, whatever the version of the image that it
/// was read from.
pub(crate) fn define_table(
    alloc: Global,
    folder: &Folder,
    table: &Table,
) -> Result<bool, AllocError>
    ensures { IfOk result (λ define. Decides define (Defines folder.now table.now)) }
{
    let Ok(image) = table.to_bytes(alloc) else {
        return Err(AllocError);
    };
    let define = define_image(alloc, folder, image.as_slice())?;
    Ok(define)
}

// Whether a bundle isn't too long, and its files define the jobs of a table.
fn defines(alloc: Global, bundle: &[u8], table: &Table) -> Result<bool, AllocError>
    ensures { IfOk result (λ define. Decides define (DefinesAll bundle.now table.now)) }
{
    if bundle.len() > MAX_BUNDLE {
        return Ok(false);
    }
    let bundle = read_bundle(alloc, bundle)?;
    define_table(alloc, &bundle.folder, table)
}

/// The output for an image whose jobs can't be printed as job files that define it again.
pub(crate) fn no_files<R: Eprint + AllocGlobal>(rt: &R, image: &str) -> Result<Printed, AllocError>
    ensures { IfOk result (IsUnusable image.now) }
{
    say(rt, image, "its jobs can't be printed as job files");
    cannot_use(rt.alloc(), image)
}

// The bundle, if its files define the jobs of a table.
fn bundle_if(alloc: Global, bundle: Vec<u8>, table: &Table) -> Result<Option<Vec<u8>>, AllocError>
    ensures { IfOk result (λ kept. KeepsBundle bundle.items table.now (option_map (λ text. text.items) kept)) }
{
    if defines(alloc, bundle.as_slice(), table)? {
        Ok(Some(bundle))
    } else {
        drop(bundle);
        Ok(None)
    }
}

/// The job files that define the jobs of a table, as the files of a bundle. They are compiled again: none if the result isn't the table, as
/// for a job with a line `%script` in its script.
pub fn bundle_files(alloc: Global, table: &Table) -> Result<Option<Vec<u8>>, AllocError>
    ensures { IfOk result (λ made. IfSome made (λ text. DefinesAll text.items table.now)) }
{
    let folder = job_files(alloc, table)?;
    let bundle = bundle_of(alloc, &folder)?;
    bundle_if(alloc, bundle, table)
}

// The output for the table of an image. `image` is its file's path.
fn show_table<R: Eprint + AllocGlobal>(
    rt: &R,
    table: &Table,
    image: &str,
) -> Result<Printed, AllocError>
    ensures { IfOk result (ShowsTable image.now table.now) }
{
    match bundle_files(rt.alloc(), table)? {
        Some(bundle) => {
            let text = Items::new(bundle);
            Ok(Printed {
                text,
                status: ExitStatus::Done,
            })
        }
        None => no_files(rt, image),
    }
}

// The output for the bytes of an image. `image` is its file's path.
#[tactic(auto, using(crate::proofs::Stored::read_is))]
fn show_bytes<R: Eprint + AllocGlobal>(
    rt: &R,
    bytes: &[u8],
    image: &str,
) -> Result<Printed, AllocError>
    ensures { IfOk result (ShowsBytes bytes.now image.now) }
{
    match Table::from_bytes(rt.alloc(), bytes) {
        Ok(table) => show_table(rt, &table, image),
        Err(ImageError::Memory) => Err(AllocError),
        Err(error) => image_refused(rt.alloc(), error),
    }
}

/// The output for an image: the files that define its jobs, as a bundle. They are compiled again, and printed only if the result is
/// its table.
pub fn show_image<R: Files + Eprint + AllocGlobal>(
    rt: &R,
    image: &str,
) -> Result<Printed, AllocError>
    ensures { IfOk result (ShowsFile image.now) }
{
    match read_bytes(rt, image)? {
        Some(bytes) => show_bytes(rt, bytes.as_slice(), image),
        None => cannot_use(rt.alloc(), image),
    }
}
