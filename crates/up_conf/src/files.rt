//! Reads a folder of job files.
ghost use Rattle.std.specs.Prelude.{◌≡◌, ◌++◌, IfOk, IfErr, OnOk, filter_map, option_to_list, option_and_then};
ghost use Rattle.std.specs.Result.{result_ok, result_err};
ghost use Rattle.up_stanza.specs.declared.fault.FaultCode.TheVariants.{Memory};
ghost use Rattle.up_conf.specs.Folders.{job_of_file, jobs_of, spot_of_file, IsReport};
ghost use Rattle.up_conf.specs.Outcomes.{AreFaults};

use crate::folder_index::FolderIndex;
use crate::job::JobDef;
use crate::order::{sort_faults, sort_jobs};
use crate::outcome::file_outcome;
use crate::parsed::Overrides;
use crate::report::{Fault, Report};
use std::alloc::{AllocError, Global};
use up_stanza::ConfFault;
use up_text::Items;

// Keeps what a file says, if anything.
fn keep(
    jobs: &mut Vec<JobDef>,
    faults: &mut Vec<Fault>,
    outcome: Option<Result<JobDef, Fault>>,
) -> Result<(), AllocError>
    ensures jobs { OnOk result (jobs.new.items
        ≡ jobs.old.items ++ option_to_list (option_and_then result_ok outcome)) }
    ensures faults { OnOk result (faults.new.items
        ≡ faults.old.items ++ option_to_list (option_and_then result_err outcome)) }
{
    match outcome {
        Some(Ok(job)) => jobs.push(job)?,
        Some(Err(fault)) => faults.push(fault)?,
        None => {}
    }
    Ok(())
}

// The jobs and the faults of files, in their order.
fn read_files(alloc: Global, index: &FolderIndex) -> Result<(Vec<JobDef>, Vec<Fault>), AllocError>
    ensures jobs { IfOk result (λ read. read.0.items ≡ filter_map (job_of_file index.now) index.now) }
    ensures faults { IfOk result (λ read. AreFaults
        (filter_map (spot_of_file index.now) index.now) read.1.items) }
{
    let files = index.files();
    let mut overrides = Overrides::new(alloc);
    let mut jobs: Vec<JobDef> = Vec::new(alloc);
    let mut faults: Vec<Fault> = Vec::new(alloc);
    for file in files {
        let outcome = file_outcome(alloc, index, &mut overrides, file)?;
        keep(&mut jobs, &mut faults, outcome)?;
    }
    Ok((jobs, faults))
}

// The same in order.
#[tactic(auto, unfolding(crate::specs::Folders::jobs_of))]
fn read_in_order(
    alloc: Global,
    index: &FolderIndex,
) -> Result<(Vec<JobDef>, Vec<Fault>), AllocError>
    ensures jobs { IfOk result (λ read. read.0.items ≡ jobs_of index.now) }
    ensures report { IfOk result (λ read. IsReport index.now read.1.items) }
{
    let (mut jobs, mut faults) = read_files(alloc, index)?;
    sort_jobs(&mut jobs)?;
    sort_faults(&mut faults)?;
    Ok((jobs, faults))
}

/// Reads the files of a folder whose paths end in `.conf`, each with its override: the jobs of those that are readable, and the faults
/// of the others.
pub fn read_folder(alloc: Global, index: &FolderIndex) -> Result<(Items<JobDef>, Report), ConfFault>
    ensures jobs { IfOk result (λ read. read.0 ≡ jobs_of index.now) }
    ensures report { IfOk result (λ read. IsReport index.now read.1) }
    ensures refused { IfErr result (λ fault. fault.code ≡ Memory) }
{
    let (jobs, faults) = read_in_order(alloc, index)?;
    Ok((Items::new(jobs), Report::new(faults)))
}
