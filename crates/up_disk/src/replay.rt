//! Replays a bundle.
ghost use Rattle.std.specs.Prelude.{◌≡◌, ◌≤◌, [], ◌++◌, true, IfErr, IfOk, IfSome, OnOk, length, take, codes};
ghost use Rattle.std.specs.List.{flat_map};
ghost use Rattle.up_model.specs.Configuration.{started_with};
ghost use Rattle.up_model.specs.Answers.{answers};
ghost use Rattle.up_model.specs.ExitStatuses.{status_number};
ghost use Rattle.up_model.specs.declared.exit_status.ExitStatus.TheVariants.{Unusable};
ghost use Rattle.up_print.specs.Folders.{prints, unusable};
ghost use Rattle.up_print.specs.Lines.{step_lines};
ghost use Rattle.up_print.specs.Noting.{has_failed, inner_of};
ghost use Rattle.up_disk.specs.Replay.{play_output, play_run, Plays, Prints, Replays};

use crate::bundle::{BundleRun, compile_bundle};
use crate::reread::reread;
use crate::running::push_run;
use std::alloc::{AllocError, Global};
use std::io;
use std::io::{ErrorKind, Read, Write};
use up_conf::Folder;
use up_image::Table;
use up_model::ExitStatus;
use up_print::check::faults_and_compile;
use up_print::{Noted, Printed, cannot_use, push_bad_step, write_printed};
use up_script::ScriptInputs;
use up_script::bundle::MAX_BUNDLE;
use up_text::{Env, Items};

// The output of a run of a table's jobs.
fn push_all(
    text: &mut Vec<u8>,
    alloc: Global,
    table: Table,
    base: Env,
    inputs: ScriptInputs,
) -> Result<(), AllocError>
    ensures { OnOk result (text.new.items ≡ text.old.items
        ++ flat_map step_lines (answers (started_with base table) [] inputs)) }
{
    let table = reread(alloc, table)?;
    push_run(text, alloc, table, base, inputs)
}

// A folder's faults, followed by the output of a run of its jobs, or by the first bad line of the script.
fn play(
    alloc: Global,
    faults: Printed,
    table: Table,
    base: Env,
    name: &str,
    read: Result<ScriptInputs, u32>,
) -> Result<Printed, AllocError>
    ensures { IfOk result (λ made. made ≡ play_output base name.now table faults read) }
{
    let Printed { text, status } = faults;
    let mut text = text.into_vec();
    match read {
        Ok(inputs) => {
            push_all(&mut text, alloc, table, base, inputs)?;
            let text = Items::new(text);
            Ok(Printed { text, status })
        }
        Err(line) => {
            drop(table);
            push_bad_step(&mut text, name, line)?;
            let text = Items::new(text);
            Ok(Printed {
                text,
                status: ExitStatus::Usage,
            })
        }
    }
}

/// The output for a folder and the inputs of a script with this name, or the script's first bad line. Each process gets the base
/// environment.
pub fn render_folder(
    alloc: Global,
    folder: &Folder,
    base: Env,
    name: &str,
    read: Result<ScriptInputs, u32>,
) -> Result<Printed, AllocError>
    ensures { IfOk result (Plays folder.now base name.now read) }
{
    let (faults, table) = faults_and_compile(alloc, folder)?;
    match table {
        Some(table) => play(alloc, faults, table, base, name, read),
        None => Ok(faults),
    }
}

/// The output for a compiled bundle with this name. Each process gets the base environment.
pub fn play_run(alloc: Global, run: BundleRun, base: Env, name: &str) -> Result<Printed, AllocError>
    ensures { IfOk result (λ made. made ≡ play_run base name.now run) }
{
    let BundleRun {
        faults,
        table,
        read,
    } = run;
    play(alloc, faults, table, base, name, read)
}

// The output for the bytes of a bundle that isn't too long.
#[tactic(auto, using(crate::proofs::Limits::prints_run))]
fn play_bytes(alloc: Global, bytes: &[u8], base: Env, name: &str) -> Result<Printed, AllocError>
    requires { length bytes.now ≤ 67108864 }
    ensures { IfOk result (Prints base name.now bytes.now) }
{
    match compile_bundle(alloc, bytes) {
        Ok(Ok(run)) => play_run(alloc, run, base, name),
        Ok(Err(refusal)) => {
            drop(base);
            Ok(refusal)
        }
        Err(error) => {
            drop(base);
            Err(error)
        }
    }
}

/// The output for the bytes of a bundle with this name. Each process gets the base environment.
#[tactic(auto, using(crate::proofs::Limits::prints_long))]
pub fn play_bundle(
    alloc: Global,
    bytes: &[u8],
    base: Env,
    name: &str,
) -> Result<Printed, AllocError>
    ensures { IfOk result (Prints base name.now bytes.now) }
{
    if bytes.len() > MAX_BUNDLE {
        drop(base);
        return cannot_use(alloc, name);
    }
    play_bytes(alloc, bytes, base, name)
}

/// The output for the bytes of a bundle on standard input.
pub fn render_bundle(alloc: Global, bytes: &[u8]) -> Result<Printed, AllocError>
    ensures { IfOk result (Prints [] (codes "-") bytes.now) }
{
    play_bundle(alloc, bytes, Env::new(alloc), "-")
}

// All bytes, but at most one more than a bundle may have.
fn read_all<R: Read>(alloc: Global, reader: &mut Noted<R>) -> io::Result<Vec<u8>>
    ensures { IfOk result (λ bytes. IfSome (R.remaining (inner_of reader.old))
        (λ all. bytes.items ≡ take 67108865 all)) }
{
    let mut bytes: Vec<u8> = Vec::new(alloc);
    let mut limited = Read::take(reader, MAX_BUNDLE as u64 + 1);
    limited.read_to_end(&mut bytes)?;
    Ok(bytes)
}

// The output for what was read of a bundle on standard input, by whether its reader failed. Without that only memory for the bytes can lack.
fn render_read(
    alloc: Global,
    read: io::Result<Vec<u8>>,
    unread: bool,
) -> Result<Printed, AllocError>
    ensures bundle { IfOk result (λ made. IfOk read (λ bytes. Prints [] (codes "-") bytes.items made)) }
    ensures unread { IfOk result (λ made. IfErr read (λ _. (unread ≡ true) × (made ≡ prints (unusable (codes "-")) Unusable))) }
{
    match read {
        Ok(bytes) => render_bundle(alloc, bytes.as_slice()),
        Err(error) => {
            if error.kind() == ErrorKind::OutOfMemory || !unread {
                Err(AllocError)
            } else {
                cannot_use(alloc, "-")
            }
        }
    }
}

/// Reads a bundle, writes the output for it and returns the status: `Failed` with faulty files; `Usage` at a bad step; `Unusable` if
/// the folder is refused or the bundle can't be read or written; `Memory` if out of memory.
pub fn replay_bundle<R: Read, W: Write>(
    alloc: Global,
    reader: &mut Noted<R>,
    writer: &mut Noted<W>,
) -> ExitStatus
    ensures { IfSome (R.remaining (inner_of reader.old)) (λ bytes. Replays bytes (status_number result)
        (has_failed reader.new) (has_failed writer.new)
        (W.contents (inner_of writer.old)) (W.contents (inner_of writer.new))) }
{
    let read = read_all(alloc, reader);
    match render_read(alloc, read, reader.has_failed()) {
        Ok(made) => write_printed(writer, &made),
        Err(error) => ExitStatus::from(error),
    }
}

/// Reads a bundle, writes the output for it and returns the number of the status.
pub fn replay<R: Read, W: Write>(alloc: Global, reader: &mut Noted<R>, writer: &mut Noted<W>) -> u8
    ensures { IfSome (R.remaining (inner_of reader.old)) (λ bytes. Replays bytes result
        (has_failed reader.new) (has_failed writer.new)
        (W.contents (inner_of writer.old)) (W.contents (inner_of writer.new))) }
{
    replay_bundle(alloc, reader, writer).number()
}
