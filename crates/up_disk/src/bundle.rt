//! Compiles a bundle.
ghost use Rattle.std.specs.Prelude.{◌≡◌, ◌<◌, ◌≤◌, ◌+◌, IfOk, Ok, length};
ghost use Rattle.up_script.specs.Statements.{script_inputs};
ghost use Rattle.up_disk.specs.Compiling.{joined, unless_bad, Compiles, CompilesFolders, CompilesLater};

use crate::compiled::{Compiled, compile, compile_all, joined};
use std::alloc::{AllocError, Global};
use std::collections::VecDeque;
use up_image::Table;
use up_print::Printed;
use up_script::{Bundle, ScriptInputs, read_bundle, read_inputs_with};

/// A bundle whose folders are compiled.
#[derive(Drop)]
pub struct BundleRun {
    /// The output for the faults of all folders.
    pub faults: Printed,
    /// The jobs of the first folder.
    pub table: Table,
    /// The inputs of the script, whose loads have the jobs of the other folders; or its first bad line.
    pub read: Result<ScriptInputs, u32>,
}

// The inputs of a bundle, or its first bad line. Its loads take the tables.
fn inputs_in(
    alloc: Global,
    tables: &mut VecDeque<Table>,
    bundle: &Bundle<'_>,
) -> Result<Result<ScriptInputs, u32>, AllocError>
    requires { bundle.now.line + length bundle.now.script.now < 4294967295 }
    ensures { IfOk result (λ read. read ≡ unless_bad bundle.now.bad
        (script_inputs tables.old.items bundle.now.line bundle.now.script.now)) }
{
    match bundle.bad {
        Some(line) => Ok(Err(line)),
        None => read_inputs_with(alloc, tables, bundle.script, bundle.line),
    }
}

// The run of a bundle whose folders are all compiled.
fn run_all(
    alloc: Global,
    bundle: &Bundle<'_>,
    faults: Printed,
    table: Table,
    later: Compiled,
) -> Result<BundleRun, AllocError>
    requires { bundle.now.line + length bundle.now.script.now < 4294967295 }
    ensures { IfOk result (λ run. (run.faults ≡ joined faults later.faults) × (run.table ≡ table)
        × (run.read ≡ unless_bad bundle.now.bad
        (script_inputs later.tables.items bundle.now.line bundle.now.script.now))) }
{
    let Compiled {
        faults: more,
        mut tables,
    } = later;
    let faults = joined(faults, &more)?;
    let read = inputs_in(alloc, &mut tables, bundle)?;
    drop(tables);
    Ok(BundleRun {
        faults,
        table,
        read,
    })
}

// The run of a bundle whose first folder is compiled.
#[tactic(auto, using(crate::proofs::Compiling::later_made, crate::proofs::Compiling::later_refused))]
fn compile_later(
    alloc: Global,
    bundle: &Bundle<'_>,
    faults: Printed,
    table: Table,
) -> Result<Result<BundleRun, Printed>, AllocError>
    requires { bundle.now.line + length bundle.now.script.now < 4294967295 }
    ensures { IfOk result (CompilesLater bundle.now.later faults table (λ tables. unless_bad bundle.now.bad
        (script_inputs tables bundle.now.line bundle.now.script.now))) }
{
    match compile_all(alloc, bundle.later.as_slice()) {
        Ok(Ok(later)) => {
            let run = run_all(alloc, bundle, faults, table, later)?;
            Ok(Ok(run))
        }
        Ok(Err(refusal)) => {
            drop(table);
            drop(faults);
            Ok(Err(refusal))
        }
        Err(error) => {
            drop(table);
            drop(faults);
            Err(error)
        }
    }
}

// The run of a bundle that was read.
fn compile_read(
    alloc: Global,
    bundle: &Bundle<'_>,
) -> Result<Result<BundleRun, Printed>, AllocError>
    requires { bundle.now.line + length bundle.now.script.now < 4294967295 }
    ensures { IfOk result (CompilesFolders bundle.now.folder bundle.now.later (λ tables. unless_bad bundle.now.bad
        (script_inputs tables bundle.now.line bundle.now.script.now))) }
{
    let (faults, table) = compile(alloc, &bundle.folder)?;
    match table {
        Some(table) => compile_later(alloc, bundle, faults, table),
        None => Ok(Err(faults)),
    }
}

/// The run of the bytes of a bundle, at most 64 MiB; or the output if one of its folders is refused.
#[tactic(auto, using(up_script::proofs::Sizes::script_small, crate::proofs::Compiling::bundle_compiled))]
pub fn compile_bundle(alloc: Global, bytes: &[u8]) -> Result<Result<BundleRun, Printed>, AllocError>
    requires { length bytes.now ≤ 67108864 }
    ensures { IfOk result (Compiles bytes.now) }
{
    let bundle = read_bundle(alloc, bytes)?;
    compile_read(alloc, &bundle)
}
