//! Replays a script over a folder on the disk, or over an image.
ghost use Rattle.std.specs.Prelude.{IfOk};
ghost use Rattle.up_disk.specs.Disk.{PlaysBytes, PlaysSource, PlaysStored, PlaysTable};

use crate::disk::{play, replay_dir};
use crate::image::{define_table, no_files, read_bytes};
use std::alloc::AllocError;
use std::fs;
use std::io::Eprint;
use std::rt::Files;
use up_conf::Folder;
use up_image::{ImageError, Table, job_files};
use up_print::{Printed, cannot_use, image_refused};
use up_text::Env;

// The output of a replay over the jobs of an image, by files that are to define them.
fn replay_files<R: Files + Eprint + AllocGlobal>(
    rt: &R,
    folder: &Folder,
    table: &Table,
    image: &str,
    base: Env,
    script: &str,
) -> Result<Printed, AllocError>
    ensures { IfOk result (PlaysTable image.now base script.now table.now) }
{
    match define_table(rt.alloc(), folder, table) {
        Ok(true) => play(rt, folder, base, script),
        Ok(false) => {
            drop(base);
            no_files(rt, image)
        }
        Err(refused) => {
            drop(base);
            Err(refused)
        }
    }
}

// The output of a replay over the jobs of an image.
fn replay_table<R: Files + Eprint + AllocGlobal>(
    rt: &R,
    table: &Table,
    image: &str,
    base: Env,
    script: &str,
) -> Result<Printed, AllocError>
    ensures { IfOk result (PlaysTable image.now base script.now table.now) }
{
    match job_files(rt.alloc(), table) {
        Ok(folder) => {
            let made = replay_files(rt, &folder, table, image, base, script);
            drop(folder);
            made
        }
        Err(refused) => {
            drop(base);
            Err(refused)
        }
    }
}

// The output of a replay over the jobs in the bytes of an image.
#[tactic(auto, using(crate::proofs::Stored::read_is))]
fn replay_bytes<R: Files + Eprint + AllocGlobal>(
    rt: &R,
    bytes: &[u8],
    image: &str,
    base: Env,
    script: &str,
) -> Result<Printed, AllocError>
    ensures { IfOk result (PlaysBytes bytes.now image.now base script.now) }
{
    match Table::from_bytes(rt.alloc(), bytes) {
        Ok(table) => {
            let made = replay_table(rt, &table, image, base, script);
            drop(table);
            made
        }
        Err(ImageError::Memory) => {
            drop(base);
            Err(AllocError)
        }
        Err(error) => {
            drop(base);
            image_refused(rt.alloc(), error)
        }
    }
}

/// The output of a replay of a script over an image, by files that define its jobs; each process gets the base environment.
pub fn replay_image<R: Files + Eprint + AllocGlobal>(
    rt: &R,
    image: &str,
    base: Env,
    script: &str,
) -> Result<Printed, AllocError>
    ensures { IfOk result (PlaysStored image.now base script.now) }
{
    match read_bytes(rt, image) {
        Ok(Some(bytes)) => {
            let made = replay_bytes(rt, bytes.as_slice(), image, base, script);
            drop(bytes);
            made
        }
        Ok(None) => {
            drop(base);
            cannot_use(rt.alloc(), image)
        }
        Err(refused) => {
            drop(base);
            Err(refused)
        }
    }
}

/// The output of a replay of a script over a path: an image if it is a file, and else a folder.
pub fn replay_source<R: Files + Eprint + AllocGlobal + Clone + Drop>(
    rt: &R,
    source: &str,
    base: Env,
    script: &str,
) -> Result<Printed, AllocError>
    ensures { IfOk result (PlaysSource source.now base script.now) }
{
    match fs::metadata(rt, source) {
        Ok(found) if found.is_file() => replay_image(rt, source, base, script),
        Ok(_) | Err(_) => replay_dir(rt, source, base, script),
    }
}
