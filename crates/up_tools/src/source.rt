//! Reads a folder or an image, and a record, from the disk.
ghost use Rattle.std.specs.Prelude.{◌≤◌, ◌⊎◌, IfOk, IfSome, length};
ghost use Rattle.up_disk.specs.Disk.{IsUnusable};
ghost use Rattle.up_disk.specs.Walk.{IsWalked};
ghost use Rattle.up_tools.specs.Views.{ViewsDir, ViewsFile, ViewsFiles, ViewsOver, ViewsShown, ViewsSource, ViewsStored};

use crate::view::{View, view_bundle, view_folder};
use std::alloc::AllocError;
use std::fs;
use std::io::{Eprint, ErrorKind};
use std::rt::Files;
use up_conf::Folder;
use up_disk::walk::{cannot_walk, walk};
use up_disk::why::{say, say_error};
use up_disk::{read_file, show_image};
use up_model::ExitStatus;
use up_print::{Printed, cannot_use};
use up_script::bundle::MAX_BUNDLE;
use up_script::{read_bundle, script_inputs};

// The bytes of a record; none if it can't be read or is longer than a bundle may be.
fn read_record<R: Files + Eprint + AllocGlobal>(
    rt: &R,
    log: &str,
) -> Result<Option<Vec<u8>>, AllocError>
    ensures { IfOk result (λ read. IfSome read (λ bytes. length bytes.items ≤ 67108864)) }
{
    match read_file(rt, log, MAX_BUNDLE + 1) {
        Ok(bytes) => {
            if bytes.len() > MAX_BUNDLE {
                say(rt, log, "it is larger than 64 MiB (67108864 bytes)");
                return Ok(None);
            }
            Ok(Some(bytes))
        }
        Err(error) => {
            if error.kind() == ErrorKind::OutOfMemory {
                return Err(AllocError);
            }
            say_error(rt, log, &error);
            Ok(None)
        }
    }
}

fn view_over<R: Files + Eprint + AllocGlobal>(
    rt: &R,
    view: View,
    folder: &Folder,
    log: &str,
) -> Result<Printed, AllocError>
    ensures { IfOk result (λ made. ViewsOver view folder.now log.now made ⊎ IsUnusable log.now made) }
{
    match read_record(rt, log)? {
        Some(bytes) => {
            let read = script_inputs(rt.alloc(), bytes.as_slice(), 1)?;
            view_folder(rt.alloc(), view, folder, log, read)
        }
        None => cannot_use(rt.alloc(), log),
    }
}

// The same for the files that a walk found.
fn view_walked<R: Files + Eprint + AllocGlobal>(
    rt: &R,
    view: View,
    folder: &Folder,
    log: &str,
) -> Result<Printed, AllocError>
    requires { IsWalked folder.now }
    ensures { IfOk result (λ made. ViewsFiles view log.now made ⊎ IsUnusable log.now made) }
{
    view_over(rt, view, folder, log)
}

fn view_dir<R: Files + Eprint + AllocGlobal + Clone + Drop>(
    rt: &R,
    view: View,
    dir: &str,
    log: &str,
) -> Result<Printed, AllocError>
    ensures { IfOk result (ViewsDir dir.now view log.now) }
{
    match walk(rt, dir) {
        Ok(folder) => view_walked(rt, view, &folder, log),
        Err(error) => cannot_walk(rt.alloc(), &error),
    }
}

// The same for the files of a bundle, in which the jobs of an image are shown.
fn view_shown<R: Files + Eprint + AllocGlobal>(
    rt: &R,
    view: View,
    bundle: &[u8],
    image: &str,
    log: &str,
) -> Result<Printed, AllocError>
    ensures { IfOk result (λ made. ViewsShown bundle.now view log.now made ⊎ IsUnusable image.now made) }
{
    if bundle.len() > MAX_BUNDLE {
        return cannot_use(rt.alloc(), image);
    }
    let bundle = read_bundle(rt.alloc(), bundle)?;
    view_over(rt, view, &bundle.folder, log)
}

fn view_image<R: Files + Eprint + AllocGlobal>(
    rt: &R,
    view: View,
    image: &str,
    log: &str,
) -> Result<Printed, AllocError>
    ensures { IfOk result (ViewsStored image.now view log.now) }
{
    let printed = show_image(rt, image)?;
    match printed.status {
        ExitStatus::Done => view_shown(rt, view, printed.text.as_slice(), image, log),
        _ => Ok(printed),
    }
}

/// The output for a record over a path: an image if it is a file, and else a folder.
pub fn view_source<R: Files + Eprint + AllocGlobal + Clone + Drop>(
    rt: &R,
    view: View,
    source: &str,
    log: &str,
) -> Result<Printed, AllocError>
    ensures { IfOk result (ViewsSource source.now view log.now) }
{
    match fs::metadata(rt, source) {
        Ok(found) if found.is_file() => view_image(rt, view, source, log),
        Ok(_) | Err(_) => view_dir(rt, view, source, log),
    }
}

/// The output for a record that is a bundle, with folders and script.
pub fn view_file<R: Files + Eprint + AllocGlobal>(
    rt: &R,
    view: View,
    bundle: &str,
) -> Result<Printed, AllocError>
    ensures { IfOk result (ViewsFile bundle.now view) }
{
    match read_record(rt, bundle)? {
        Some(bytes) => view_bundle(rt.alloc(), view, bytes.as_slice(), bundle),
        None => cannot_use(rt.alloc(), bundle),
    }
}
