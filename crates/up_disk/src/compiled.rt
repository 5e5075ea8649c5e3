//! Compiles the folders of a bundle.
ghost use Rattle.std.specs.Prelude.{◌≡◌, [], ◌∷◌, ◌++◌, IfOk};
ghost use Rattle.up_disk.specs.Compiling.{joined, status_with, Adds, ComesOf, IsOutcome};

use std::alloc::{AllocError, Global};
use std::collections::VecDeque;
use up_conf::Folder;
use up_image::Table;
use up_model::ExitStatus;
use up_print::Printed;
use up_print::check::faults_and_compile;
use up_text::Items;

/// Compiled folders: the output for their faults, and their tables, in order.
#[derive(Drop)]
pub(crate) struct Compiled {
    pub faults: Printed,
    pub tables: VecDeque<Table>,
}

/// The output for a folder's faults, and the table of its jobs, unless the folder is refused.
pub(crate) fn compile(
    alloc: Global,
    folder: &Folder,
) -> Result<(Printed, Option<Table>), AllocError>
    ensures { IfOk result (λ made. IsOutcome folder.now made.0 made.1) }
{
    faults_and_compile(alloc, folder)
}

fn status_with(status: ExitStatus, more: ExitStatus) -> ExitStatus
    ensures { result ≡ status_with status more }
{
    match status {
        ExitStatus::Done => more,
        _ => status,
    }
}

/// The output for the faults of some folders, followed by that for more.
pub(crate) fn joined(first: Printed, more: &Printed) -> Result<Printed, AllocError>
    ensures { IfOk result (λ made. made ≡ joined first more.now) }
{
    let Printed { text, status } = first;
    let mut text = text.into_vec();
    text.extend_from_slice(more.text.as_slice())?;
    let text = Items::new(text);
    let status = status_with(status, more.status);
    Ok(Printed { text, status })
}

fn with_table(found: Compiled, faults: Printed, table: Table) -> Result<Compiled, AllocError>
    ensures faults { IfOk result (λ more. more.faults ≡ joined found.faults faults) }
    ensures tables { IfOk result (λ more. more.tables.items ≡ found.tables.items ++ table ∷ []) }
{
    let Compiled {
        faults: before,
        mut tables,
    } = found;
    tables.push_back(table)?;
    let faults = joined(before, &faults)?;
    Ok(Compiled { faults, tables })
}

// The same with one more folder, or the output for it if it is refused.
#[tactic(auto, using(crate::proofs::Compiling::adds_some, crate::proofs::Compiling::adds_none))]
fn with_folder(
    alloc: Global,
    found: Compiled,
    folder: &Folder,
) -> Result<Result<Compiled, Printed>, AllocError>
    ensures { IfOk result (Adds found folder.now) }
{
    let (faults, table) = compile(alloc, folder)?;
    match table {
        Some(table) => {
            let found = with_table(found, faults, table)?;
            Ok(Ok(found))
        }
        None => Ok(Err(faults)),
    }
}

/// These folders compiled, or the output for the first that is refused.
pub(crate) fn compile_all(
    alloc: Global,
    folders: &[Folder],
) -> Result<Result<Compiled, Printed>, AllocError>
    ensures { IfOk result (ComesOf folders.now) }
{
    let mut found = Compiled {
        faults: Printed {
            text: Items::new(Vec::new(alloc)),
            status: ExitStatus::Done,
        },
        tables: VecDeque::new(alloc),
    };
    for folder in folders {
        match with_folder(alloc, found, folder)? {
            Ok(more) => found = more,
            Err(refusal) => return Ok(Err(refusal)),
        }
    }
    Ok(Ok(found))
}
