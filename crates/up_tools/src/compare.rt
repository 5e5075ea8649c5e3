//! The changes by a reload from a folder or an image to a folder.
ghost use Rattle.std.specs.Prelude.{◌≡◌, IfOk};
ghost use Rattle.up_disk.specs.Walk.{IsWalked};
ghost use Rattle.up_print.specs.Folders.{image_refusal_line, prints, unusable};
ghost use Rattle.up_model.specs.declared.exit_status.ExitStatus.TheVariants.{Unusable};
ghost use Rattle.up_tools.specs.Compares.{ComparesDir, ComparesJobs, ComparesOther, ComparesWith, Loads, LoadsBytes, LoadsDir, LoadsFiles, LoadsImage, LoadsNamed, LoadsOther, LoadsOtherDir, loaded_by, named, named_in};

use crate::changes::compare;
use crate::lint::status_by;
use std::alloc::{AllocError, Global};
use std::fs;
use std::io::Eprint;
use std::rt::Files;
use up_conf::{Folder, JobDef};
use up_disk::walk::walk;
use up_disk::{WalkError, read_bytes};
use up_image::{ImageError, Table};
use up_model::ExitStatus;
use up_print::check::check_and_compile;
use up_print::{Printed, cannot_use, image_refused};
use up_text::Items;

/// The jobs that are compared, or the output in their place.
#[derive(Drop)]
pub enum Loaded {
    Jobs(Table),
    Refused(Printed),
}

// The jobs of a folder without faults, or else the output of its check.
fn loaded_by(checked: Printed, table: Option<Table>) -> Loaded
    ensures { result ≡ loaded_by checked.status checked table }
{
    match (checked.status, table) {
        (ExitStatus::Done, Some(table)) => Loaded::Jobs(table),
        _ => Loaded::Refused(checked),
    }
}

fn load(alloc: Global, folder: &Folder) -> Result<Loaded, AllocError>
    ensures { IfOk result (Loads folder.now) }
{
    let (checked, table) = check_and_compile(alloc, folder)?;
    Ok(loaded_by(checked, table))
}

// The same for the files that a walk found.
fn load_walked(alloc: Global, folder: &Folder) -> Result<Loaded, AllocError>
    requires { IsWalked folder.now }
    ensures { IfOk result LoadsFiles }
{
    load(alloc, folder)
}

// The output for a path that can't be used.
fn refused_path(alloc: Global, path: &str) -> Result<Loaded, AllocError>
    ensures { IfOk result (λ loaded. loaded ≡ Loaded.Refused (prints (unusable path.now) Unusable)) }
{
    let made = cannot_use(alloc, path)?;
    Ok(Loaded::Refused(made))
}

fn load_dir<R: Files + Eprint + AllocGlobal + Clone + Drop>(
    rt: &R,
    dir: &str,
) -> Result<Loaded, AllocError>
    ensures { IfOk result (LoadsDir dir.now) }
{
    match walk(rt, dir) {
        Ok(folder) => load_walked(rt.alloc(), &folder),
        Err(WalkError::Unusable(path)) => refused_path(rt.alloc(), path.as_str()),
        Err(WalkError::Memory) => Err(AllocError),
    }
}

// The output of the other folder's check, below a line that names the folder.
#[tactic(auto, unfolding(crate::specs::Compares::named))]
fn named(alloc: Global, path: &str, checked: &Printed) -> Result<Printed, AllocError>
    ensures { IfOk result (λ made. made ≡ named path.now checked.now) }
{
    let mut text: Vec<u8> = Vec::new(alloc);
    text.extend_from_slice(b"initd: in ")?;
    text.extend_from_slice(path.as_bytes())?;
    text.extend_from_slice(b":\n")?;
    text.extend_from_slice(checked.text.as_slice())?;
    let text = Items::new(text);
    let status = checked.status;
    Ok(Printed { text, status })
}

fn named_in(alloc: Global, path: &str, loaded: Loaded) -> Result<Loaded, AllocError>
    ensures { IfOk result (λ made. made ≡ named_in path.now loaded) }
{
    match loaded {
        Loaded::Jobs(table) => Ok(Loaded::Jobs(table)),
        Loaded::Refused(checked) => {
            let made = named(alloc, path, &checked)?;
            Ok(Loaded::Refused(made))
        }
    }
}

fn load_named(alloc: Global, path: &str, folder: &Folder) -> Result<Loaded, AllocError>
    requires { IsWalked folder.now }
    ensures { IfOk result (LoadsNamed path.now) }
{
    let loaded = load_walked(alloc, folder)?;
    named_in(alloc, path, loaded)
}

fn load_other_dir<R: Files + Eprint + AllocGlobal + Clone + Drop>(
    rt: &R,
    dir: &str,
) -> Result<Loaded, AllocError>
    ensures { IfOk result (LoadsOtherDir dir.now) }
{
    match walk(rt, dir) {
        Ok(folder) => load_named(rt.alloc(), dir, &folder),
        Err(WalkError::Unusable(path)) => refused_path(rt.alloc(), path.as_str()),
        Err(WalkError::Memory) => Err(AllocError),
    }
}

fn refused_image(alloc: Global, error: ImageError) -> Result<Loaded, AllocError>
    ensures { IfOk result (λ loaded. loaded ≡ Loaded.Refused (prints (image_refusal_line error) Unusable)) }
{
    let made = image_refused(alloc, error)?;
    Ok(Loaded::Refused(made))
}

#[tactic(auto, using(up_disk::proofs::Stored::read_is))]
fn load_bytes(alloc: Global, bytes: &[u8]) -> Result<Loaded, AllocError>
    ensures { IfOk result (LoadsBytes bytes.now) }
{
    match Table::from_bytes(alloc, bytes) {
        Ok(table) => Ok(Loaded::Jobs(table)),
        Err(ImageError::Memory) => Err(AllocError),
        Err(error) => refused_image(alloc, error),
    }
}

fn load_image<R: Files + Eprint + AllocGlobal>(rt: &R, image: &str) -> Result<Loaded, AllocError>
    ensures { IfOk result (LoadsImage image.now) }
{
    match read_bytes(rt, image)? {
        Some(bytes) => load_bytes(rt.alloc(), bytes.as_slice()),
        None => refused_path(rt.alloc(), image),
    }
}

// The jobs at a path: an image if it is a file, and else a folder.
fn load_other<R: Files + Eprint + AllocGlobal + Clone + Drop>(
    rt: &R,
    other: &str,
) -> Result<Loaded, AllocError>
    ensures { IfOk result (LoadsOther other.now) }
{
    match fs::metadata(rt, other) {
        Ok(found) if found.is_file() => load_image(rt, other),
        Ok(_) | Err(_) => load_other_dir(rt, other),
    }
}

fn compare_jobs(alloc: Global, old: &[JobDef], new: &[JobDef]) -> Result<Printed, AllocError>
    ensures { IfOk result (ComparesJobs old.now new.now) }
{
    let text = Items::new(compare(alloc, old, new)?);
    let status = status_by(text.as_slice());
    Ok(Printed { text, status })
}

fn compare_with(alloc: Global, new: &[JobDef], old: Loaded) -> Result<Printed, AllocError>
    ensures { IfOk result (ComparesWith new.now old) }
{
    match old {
        Loaded::Jobs(old) => {
            let made = compare_jobs(alloc, old.as_slice(), new);
            drop(old);
            made
        }
        Loaded::Refused(printed) => Ok(printed),
    }
}

fn compare_other<R: Files + Eprint + AllocGlobal + Clone + Drop>(
    rt: &R,
    new: &[JobDef],
    other: &str,
) -> Result<Printed, AllocError>
    ensures { IfOk result (ComparesOther new.now other.now) }
{
    let old = load_other(rt, other)?;
    compare_with(rt.alloc(), new, old)
}

/// The changes by a reload from a folder or an image to a folder on the disk: a line per job that is added or removed, or that differs.
/// If one of them is faulty or can't be used, the output is that of its check, below a line that names it if it is the other one.
pub fn compare_dir<R: Files + Eprint + AllocGlobal + Clone + Drop>(
    rt: &R,
    dir: &str,
    other: &str,
) -> Result<Printed, AllocError>
    ensures { IfOk result (ComparesDir dir.now other.now) }
{
    match load_dir(rt, dir)? {
        Loaded::Jobs(new) => {
            let made = compare_other(rt, new.as_slice(), other);
            drop(new);
            made
        }
        Loaded::Refused(printed) => Ok(printed),
    }
}
