//! Sorts jobs and faults.
ghost use Rattle.std.specs.Prelude.{◌≡◌, OnOk};
ghost use Rattle.up_conf.specs.Order.{in_order};

use crate::job::JobDef;
use crate::report::Fault;
use std::alloc::AllocError;

/// Sorts jobs in byte order of names.
pub(crate) fn sort_jobs(jobs: &mut Vec<JobDef>) -> Result<(), AllocError>
    ensures { OnOk result (jobs.new.items ≡ in_order (λ job. job.name) jobs.old.items) }
{
    jobs.sort_by(|job, other| job.name.as_str().cmp(other.name.as_str()))
}

/// Sorts faults in byte order of paths.
pub(crate) fn sort_faults(faults: &mut Vec<Fault>) -> Result<(), AllocError>
    ensures { OnOk result (faults.new.items ≡ in_order (λ fault. fault.path) faults.old.items) }
{
    faults.sort_by(|fault, other| fault.path.as_str().cmp(other.path.as_str()))
}
