//! Finds the jobs that can be started at all, as jobs may wait for one another.
ghost use Rattle.std.specs.Prelude.{◌≡◌, IfOk, OnOk, option_copied};
ghost use Rattle.up_lint.specs.Circles.{condition_may, job_may, leaf_may, may_start, started_after, started_in, tree_may, with_started};

use crate::names::Names;
use std::alloc::{AllocError, Global};
use up_conf::JobDef;
use up_expr::{Branch, Condition, Leaf, Root, wanted_job};
use up_text::Text;

/// Whether an event of this job may occur: the job isn't in the folder, or it can be started, or no job is named.
pub(crate) fn job_may(names: &Names<'_>, started: &Names<'_>, job: Option<&Text>) -> bool
    ensures { result ≡ job_may names.now started.now (option_copied job.entry) }
{
    match job {
        Some(job) => {
            let job = job.as_str().as_bytes();
            !names.has(job) || started.has(job)
        }
        None => true,
    }
}

fn leaf_may(names: &Names<'_>, started: &Names<'_>, leaf: &Leaf) -> bool
    ensures { result ≡ leaf_may names.now started.now leaf.now }
{
    let event = leaf.event.as_str();
    if event == "starting" || event == "started" {
        job_may(names, started, wanted_job(leaf.values.as_slice()))
    } else {
        true
    }
}

fn tree_may(names: &Names<'_>, started: &Names<'_>, branch: &Branch) -> bool
    ensures { result ≡ tree_may names.now started.now branch.now }
{
    match branch.root() {
        Root::Leaf(leaf) => leaf_may(names, started, leaf),
        Root::And(left, right) => {
            tree_may(names, started, &left) && tree_may(names, started, &right)
        }
        Root::Or(left, right) => {
            tree_may(names, started, &left) || tree_may(names, started, &right)
        }
    }
}

fn condition_may(names: &Names<'_>, started: &Names<'_>, condition: &Option<Condition>) -> bool
    ensures { result ≡ condition_may names.now started.now condition.now }
{
    match condition {
        Some(condition) => tree_may(names, started, &condition.root()),
        None => true,
    }
}

fn may_start(names: &Names<'_>, commanded: &Names<'_>, started: &Names<'_>, job: &JobDef) -> bool
    ensures { result ≡ may_start names.now commanded.now started.now job.now }
{
    condition_may(names, started, &job.start_on) || commanded.has(job.name.as_str().as_bytes())
}

// Adds a job to those that can be started, if it can.
fn add_started<'a>(
    started: &mut Names<'a>,
    names: &Names<'_>,
    commanded: &Names<'_>,
    job: &'a JobDef,
) -> Result<(), AllocError>
    ensures { OnOk result (started.new ≡ with_started names.now commanded.now started.old job.now) }
{
    let name = job.name.as_str().as_bytes();
    if !started.has(name) && may_start(names, commanded, started, job) {
        started.add(name)
    } else {
        Ok(())
    }
}

fn add_all<'a>(
    started: &mut Names<'a>,
    names: &Names<'_>,
    commanded: &Names<'_>,
    jobs: &'a [JobDef],
) -> Result<(), AllocError>
    ensures { OnOk result (started.new ≡ started_after names.now commanded.now started.old jobs.now) }
{
    for job in jobs {
        add_started(started, names, commanded, job)?;
    }
    Ok(())
}

/// The names of the jobs that can be started, in the order in which they are found.
#[tactic(auto, unfolding(crate::specs::Circles::started_in))]
pub(crate) fn started_in<'a>(
    alloc: Global,
    names: &Names<'_>,
    commanded: &Names<'_>,
    jobs: &'a [JobDef],
) -> Result<Names<'a>, AllocError>
    ensures { IfOk result (λ started. started ≡ started_in names.now commanded.now jobs.now) }
{
    let mut started = Names::new(alloc);
    let mut left = jobs.len();
    'rounds: while left > 0 {
        let before = started.len();
        add_all(&mut started, names, commanded, jobs)?;
        if started.len() == before {
            return Ok(started);
        }
        left -= 1;
    }
    Ok(started)
}
