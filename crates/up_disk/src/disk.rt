//! Checks and replays folders on the disk.
ghost use Rattle.std.specs.Prelude.{◌≤◌, ◌⊎◌, IfOk, IfSome, length};
ghost use Rattle.up_disk.specs.Disk.{ChecksDir, ExplainsDir, GraphsDir, PlaysDir, PlaysFile, PlaysFiles, PlaysOver, IsUnusable};
ghost use Rattle.up_disk.specs.Walk.{IsWalked};

use crate::replay::{play_bundle, render_folder};
use crate::walk::{cannot_walk, read_file, walk};
use crate::why::{say, say_error};
use std::alloc::AllocError;
use std::io::{Eprint, ErrorKind};
use std::rt::Files;
use up_conf::Folder;
use up_print::check::{check, check_explained, graph_folder};
use up_print::{Printed, cannot_use};
use up_script::bundle::MAX_BUNDLE;
use up_script::read_inputs;
use up_text::Env;

/// The output of a check of a folder on the disk.
pub fn check_dir<R: Files + Eprint + AllocGlobal + Clone + Drop>(
    rt: &R,
    dir: &str,
) -> Result<Printed, AllocError>
    ensures { IfOk result (ChecksDir dir.now) }
{
    match walk(rt, dir) {
        Ok(folder) => check(rt.alloc(), &folder),
        Err(error) => cannot_walk(rt.alloc(), &error),
    }
}

/// The output of a check of a folder on the disk that explains the faults: below each the line at fault, and what to do.
pub fn explain_dir<R: Files + Eprint + AllocGlobal + Clone + Drop>(
    rt: &R,
    dir: &str,
) -> Result<Printed, AllocError>
    ensures { IfOk result (ExplainsDir dir.now) }
{
    match walk(rt, dir) {
        Ok(folder) => check_explained(rt.alloc(), &folder),
        Err(error) => cannot_walk(rt.alloc(), &error),
    }
}

/// The graph of a folder on the disk, in the language of dot(1).
pub fn graph_dir<R: Files + Eprint + AllocGlobal + Clone + Drop>(
    rt: &R,
    dir: &str,
) -> Result<Printed, AllocError>
    ensures { IfOk result (GraphsDir dir.now) }
{
    match walk(rt, dir) {
        Ok(folder) => graph_folder(rt.alloc(), &folder),
        Err(error) => cannot_walk(rt.alloc(), &error),
    }
}

// The bytes of a script; none if it can't be read or is longer than a bundle may be.
fn read_script<R: Files + Eprint + AllocGlobal>(
    rt: &R,
    script: &str,
) -> Result<Option<Vec<u8>>, AllocError>
    ensures { IfOk result (λ read. IfSome read (λ bytes. length bytes.items ≤ 67108864)) }
{
    match read_file(rt, script, MAX_BUNDLE + 1) {
        Ok(bytes) => {
            if bytes.len() > MAX_BUNDLE {
                say(rt, script, "it is larger than 64 MiB (67108864 bytes)");
                return Ok(None);
            }
            Ok(Some(bytes))
        }
        Err(error) => {
            if error.kind() == ErrorKind::OutOfMemory {
                return Err(AllocError);
            }
            say_error(rt, script, &error);
            Ok(None)
        }
    }
}

/// The output of a replay of a script over the files of a folder.
pub(crate) fn play<R: Files + Eprint + AllocGlobal>(
    rt: &R,
    folder: &Folder,
    base: Env,
    script: &str,
) -> Result<Printed, AllocError>
    ensures { IfOk result (λ made. PlaysOver folder.now base script.now made
        ⊎ IsUnusable script.now made) }
{
    match read_script(rt, script)? {
        Some(bytes) => {
            let read = read_inputs(rt.alloc(), bytes.as_slice(), 1)?;
            render_folder(rt.alloc(), folder, base, script, read)
        }
        None => cannot_use(rt.alloc(), script),
    }
}

// The same for the files that a walk found.
fn replay_folder<R: Files + Eprint + AllocGlobal>(
    rt: &R,
    folder: &Folder,
    base: Env,
    script: &str,
) -> Result<Printed, AllocError>
    requires { IsWalked folder.now }
    ensures { IfOk result (λ made. PlaysFiles base script.now made ⊎ IsUnusable script.now made) }
{
    play(rt, folder, base, script)
}

/// The output of a replay of a script over a folder on the disk; each process gets the base environment. Both are read before anything
/// is printed, the folder first.
pub fn replay_dir<R: Files + Eprint + AllocGlobal + Clone + Drop>(
    rt: &R,
    dir: &str,
    base: Env,
    script: &str,
) -> Result<Printed, AllocError>
    ensures { IfOk result (PlaysDir dir.now base script.now) }
{
    match walk(rt, dir) {
        Ok(folder) => replay_folder(rt, &folder, base, script),
        Err(error) => cannot_walk(rt.alloc(), &error),
    }
}

/// The output of a replay of the bundle in a file; each process gets the base environment.
pub fn replay_file<R: Files + Eprint + AllocGlobal>(
    rt: &R,
    bundle: &str,
    base: Env,
) -> Result<Printed, AllocError>
    ensures { IfOk result (PlaysFile bundle.now base) }
{
    match read_script(rt, bundle) {
        Ok(Some(bytes)) => {
            let made = play_bundle(rt.alloc(), bytes.as_slice(), base, bundle);
            drop(bytes);
            made
        }
        Ok(None) => {
            drop(base);
            cannot_use(rt.alloc(), bundle)
        }
        Err(refused) => {
            drop(base);
            Err(refused)
        }
    }
}
