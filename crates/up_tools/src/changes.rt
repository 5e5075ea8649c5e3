//! The changes from one list of jobs to another.
ghost use Rattle.std.specs.Prelude.{◌≡◌, ◌++◌, ◌∷◌, [], option_copied, IfOk, OnOk};
ghost use Rattle.std.specs.List.{flat_map};
ghost use Rattle.up_tools.specs.Changes.{Compares, change_from, change_if, change_of, differences, differing, job_named, lines_by, part_unless, removal_of};
ghost use Rattle.up_tools.specs.Parts.{same_part};

mod difference;
mod part;
mod push;
mod same;
mod tree;

use crate::changes::difference::{Change, Difference, push_lines, sort};
use crate::changes::part::{PARTS, Part, same_part};
use std::alloc::{AllocError, Global};
use up_conf::JobDef;
use up_text::{Items, Text};

// The first job with this name.
fn job_named<'a>(name: &str, jobs: &'a [JobDef]) -> Option<&'a JobDef>
    ensures { option_copied result ≡ job_named name.now jobs.now }
{
    for job in jobs {
        if job.name.as_str() == name {
            return Some(job);
        }
    }
    None
}

// Appends a part, if two jobs differ in it.
fn push_part(
    parts: &mut Vec<Part>,
    part: Part,
    job: &JobDef,
    other: &JobDef,
) -> Result<(), AllocError>
    ensures { OnOk result (parts.new.items
        ≡ parts.old.items ++ part_unless (same_part part job.now other.now) part) }
{
    if same_part(part, job, other) {
        return Ok(());
    }
    parts.push(part)?;
    Ok(())
}

// Appends those of these parts in which two jobs differ.
fn push_parts(
    parts: &mut Vec<Part>,
    all: &[Part],
    job: &JobDef,
    other: &JobDef,
) -> Result<(), AllocError>
    ensures { OnOk result (parts.new.items ≡ parts.old.items
        ++ flat_map (λ part. part_unless (same_part part job.now other.now) part) all.now) }
{
    for part in all {
        push_part(parts, *part, job, other)?;
    }
    Ok(())
}

// The parts in which two jobs differ.
fn differing(alloc: Global, job: &JobDef, other: &JobDef) -> Result<Items<Part>, AllocError>
    ensures { IfOk result (λ parts. parts ≡ differing same_part job.now other.now) }
{
    let mut parts: Vec<Part> = Vec::new(alloc);
    push_parts(&mut parts, &PARTS, job, other)?;
    Ok(Items::new(parts))
}

fn push_change(
    differences: &mut Vec<Difference>,
    name: &str,
    change: Change,
) -> Result<(), AllocError>
    ensures { OnOk result (differences.new.items
        ≡ differences.old.items ++ record { name = name.now; change = change } ∷ []) }
{
    let name = Text::from_str(*differences.allocator(), name)?;
    differences.push(Difference { name, change })?;
    Ok(())
}

// Appends nothing if no part differs.
fn push_if(
    differences: &mut Vec<Difference>,
    name: &str,
    parts: Items<Part>,
) -> Result<(), AllocError>
    ensures { OnOk result (differences.new.items ≡ differences.old.items ++ change_if name.now parts) }
{
    match parts.as_slice() {
        [] => Ok(()),
        _ => push_change(differences, name, Change::Changed(parts)),
    }
}

// Appends the difference of a new job from the old one with its name, if there is one.
fn push_new(
    differences: &mut Vec<Difference>,
    old: &[JobDef],
    job: &JobDef,
) -> Result<(), AllocError>
    ensures { OnOk result (differences.new.items
        ≡ differences.old.items ++ change_of same_part old.now job.now) }
{
    let name = job.name.as_str();
    match job_named(name, old) {
        None => push_change(differences, name, Change::Added),
        Some(other) => {
            let parts = differing(*differences.allocator(), other, job)?;
            push_if(differences, name, parts)
        }
    }
}

fn push_all_new(
    differences: &mut Vec<Difference>,
    old: &[JobDef],
    new: &[JobDef],
) -> Result<(), AllocError>
    ensures { OnOk result (differences.new.items
        ≡ differences.old.items ++ flat_map (change_of same_part old.now) new.now) }
{
    for job in new {
        push_new(differences, old, job)?;
    }
    Ok(())
}

// Appends a removal, if no new job has the old one's name.
fn push_old(
    differences: &mut Vec<Difference>,
    new: &[JobDef],
    job: &JobDef,
) -> Result<(), AllocError>
    ensures { OnOk result (differences.new.items ≡ differences.old.items ++ removal_of new.now job.now) }
{
    let name = job.name.as_str();
    if job_named(name, new).is_none() {
        push_change(differences, name, Change::Removed)
    } else {
        Ok(())
    }
}

fn push_all_old(
    differences: &mut Vec<Difference>,
    new: &[JobDef],
    old: &[JobDef],
) -> Result<(), AllocError>
    ensures { OnOk result (differences.new.items
        ≡ differences.old.items ++ flat_map (removal_of new.now) old.now) }
{
    for job in old {
        push_old(differences, new, job)?;
    }
    Ok(())
}

// The changes from old jobs to new ones, sorted by name.
fn differences(alloc: Global, old: &[JobDef], new: &[JobDef]) -> Result<Vec<Difference>, AllocError>
    ensures { IfOk result (λ made. made.items ≡ differences same_part old.now new.now) }
{
    let mut made: Vec<Difference> = Vec::new(alloc);
    push_all_old(&mut made, new, old)?;
    push_all_new(&mut made, old, new)?;
    sort(&mut made)?;
    Ok(made)
}

#[tactic(auto, unfolding(crate::specs::Changes::lines_by))]
fn lines(alloc: Global, old: &[JobDef], new: &[JobDef]) -> Result<Vec<u8>, AllocError>
    ensures { IfOk result (λ text. text.items ≡ lines_by same_part old.now new.now) }
{
    let differences = differences(alloc, old, new)?;
    let mut text = Vec::new(alloc);
    push_lines(&mut text, differences.as_slice())?;
    Ok(text)
}

/// The changes from old jobs to new ones: a line for each job that changes, in byte order of names, with `added`, `removed`, or the stanzas
/// in which it differs.
pub fn compare(alloc: Global, old: &[JobDef], new: &[JobDef]) -> Result<Vec<u8>, AllocError>
    ensures { IfOk result (λ text. Compares old.now new.now text.items) }
{
    lines(alloc, old, new)
}
