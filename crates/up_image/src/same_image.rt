//! Checks whether bytes are the image of jobs, without the whole image in memory: each part is written, compared and dropped.
ghost use Rattle.std.specs.Prelude.{◌≡◌, ◌++◌, ◌≤◌, Decides, IfOk, List, MatchOption, length, ℕ};
ghost use Rattle.std.specs.List.{flat_map};
ghost use Rattle.up_image.specs.declared.limits.TheConstants.{MAX_JOBS};
ghost use Rattle.up_image.specs.Image.{IsVersion, body_of, head_of, job_part};
ghost use Rattle.up_image.specs.Index.{entries_of, index_part};

use crate::image::{is_countable, put_head};
use crate::index::put_index;
use crate::limits::MAX_IMAGE;
use crate::put_job::put_job;
use crate::version::Version;
use std::alloc::{AllocError, Global};
use up_conf::JobDef;

// The bytes after a part, if they begin with it.
fn after<'a>(part: &[u8], bytes: &'a [u8]) -> Option<&'a [u8]>
    ensures { MatchOption result ((back : List ℕ) → bytes.now ≡ part.now ++ back → ⊥)
        (λ back. bytes.now ≡ part.now ++ back.now) }
{
    bytes.strip_prefix(part)
}

// The bytes after the head of their image, if they begin with it.
fn after_head(
    alloc: Global,
    version: Version,
    jobs: usize,
    bytes: &[u8],
) -> Result<Option<&[u8]>, AllocError>
    ensures { IfOk result (λ after. MatchOption after
        ((back : List ℕ) → bytes.now ≡ head_of version jobs (length bytes.now) ++ back → ⊥)
        (λ back. bytes.now ≡ head_of version jobs (length bytes.now) ++ back.now)) }
{
    let mut head = Vec::new(alloc);
    put_head(&mut head, version, jobs, bytes.len())?;
    Ok(after(head.as_slice(), bytes))
}

// The bytes after a job, if they begin with it. Overwrites `part` with the bytes of the job.
fn after_job<'a>(
    part: &mut Vec<u8>,
    version: Version,
    job: &JobDef,
    bytes: &'a [u8],
) -> Result<Option<&'a [u8]>, AllocError>
    ensures { IfOk result (λ after. MatchOption after
        ((back : List ℕ) → bytes.now ≡ job_part version job.now ++ back → ⊥)
        (λ back. bytes.now ≡ job_part version job.now ++ back.now)) }
{
    part.clear();
    put_job(part, version, job)?;
    Ok(after(part.as_slice(), bytes))
}

// The bytes after the jobs, if they begin with them.
fn after_jobs<'a>(
    alloc: Global,
    version: Version,
    jobs: &[JobDef],
    bytes: &'a [u8],
) -> Result<Option<&'a [u8]>, AllocError>
    ensures { IfOk result (λ after. MatchOption after
        ((back : List ℕ) → bytes.now ≡ flat_map (job_part version) jobs.now ++ back → ⊥)
        (λ back. bytes.now ≡ flat_map (job_part version) jobs.now ++ back.now)) }
{
    let mut part = Vec::new(alloc);
    let mut rest = bytes;
    for job in jobs {
        match after_job(&mut part, version, job, rest)? {
            Some(back) => rest = back,
            None => return Ok(None),
        }
    }
    Ok(Some(rest))
}

fn is_index(alloc: Global, jobs: &[JobDef], bytes: &[u8]) -> Result<bool, AllocError>
    requires { length jobs.now ≤ MAX_JOBS }
    ensures { IfOk result (λ is. Decides is (bytes.now ≡ index_part (entries_of jobs.now))) }
{
    let mut index = Vec::new(alloc);
    put_index(alloc, &mut index, jobs)?;
    Ok(index.as_slice() == bytes)
}

// Whether bytes are the jobs and their index.
fn is_body(
    alloc: Global,
    version: Version,
    jobs: &[JobDef],
    bytes: &[u8],
) -> Result<bool, AllocError>
    requires { length jobs.now ≤ MAX_JOBS }
    ensures { IfOk result (λ is. Decides is (bytes.now ≡ body_of version jobs.now)) }
{
    match after_jobs(alloc, version, jobs, bytes)? {
        None => Ok(false),
        Some(index) => {
            let is = is_index(alloc, jobs, index)?;
            Ok(is)
        }
    }
}

/// Whether bytes are the image of jobs in a version.
pub(crate) fn is_image(
    alloc: Global,
    version: Version,
    jobs: &[JobDef],
    bytes: &[u8],
) -> Result<bool, AllocError>
    ensures { IfOk result (λ is. Decides is (IsVersion version bytes.now jobs.now)) }
{
    if bytes.len() > MAX_IMAGE {
        return Ok(false);
    }
    if !is_countable(version, jobs) {
        return Ok(false);
    }
    match after_head(alloc, version, jobs.len(), bytes)? {
        None => Ok(false),
        Some(body) => {
            let is = is_body(alloc, version, jobs, body)?;
            Ok(is)
        }
    }
}
