//! The names in a folder, with which its jobs are checked.
ghost use Rattle.std.specs.Prelude.{◌≡◌, ◌++◌, [], IfOk, OnOk};
ghost use Rattle.std.specs.List.{flat_map};
ghost use Rattle.up_lint.specs.Events.{scene_of};
ghost use Rattle.up_lint.specs.Exports.{job_keys};
ghost use Rattle.up_lint.specs.Lint.{emits_of, name_in, scene_in, starts_of};
ghost use Rattle.up_lint.specs.Names.{with_names};

use crate::circle::started_in;
use crate::commands::add_named;
use crate::exports::add_keys;
use crate::names::{Names, add_texts};
use crate::world::World;
use std::alloc::{AllocError, Global};
use up_conf::JobDef;
use up_text::Text;

fn names_of<'a>(alloc: Global, jobs: &'a [JobDef]) -> Result<Names<'a>, AllocError>
    ensures { IfOk result (λ names. names ≡ with_names [] (flat_map name_in jobs.now)) }
{
    let mut names = Names::new(alloc);
    for job in jobs {
        names.add(job.name.as_str().as_bytes())?;
    }
    Ok(names)
}

fn commanded_in<'a>(alloc: Global, jobs: &'a [JobDef]) -> Result<Names<'a>, AllocError>
    ensures { IfOk result (λ names. names ≡ with_names [] (flat_map starts_of jobs.now)) }
{
    let mut names = Names::new(alloc);
    for job in jobs {
        add_named(&mut names, "start", job.name.as_str(), job)?;
    }
    Ok(names)
}

// Adds the events that commands emit. An event's name is never empty, so `""` excludes none.
fn add_emitted<'a>(names: &mut Names<'a>, jobs: &'a [JobDef]) -> Result<(), AllocError>
    ensures { OnOk result (names.new ≡ with_names names.old (flat_map emits_of jobs.now)) }
{
    for job in jobs {
        add_named(names, "emit", "", job)?;
    }
    Ok(())
}

// The events from outside, those that jobs declare, and those that commands emit.
#[tactic(auto, using(crate::proofs::Adding::added_both))]
fn given_in<'a>(
    alloc: Global,
    outside: &'a [Text],
    declared: &'a [Text],
    jobs: &'a [JobDef],
) -> Result<Names<'a>, AllocError>
    ensures { IfOk result (λ names. names
        ≡ with_names [] (outside.now ++ (declared.now ++ flat_map emits_of jobs.now))) }
{
    let mut names = Names::new(alloc);
    add_texts(&mut names, outside)?;
    add_texts(&mut names, declared)?;
    add_emitted(&mut names, jobs)?;
    Ok(names)
}

// The keys that occur in jobs, except for those that they export.
fn keys_of<'a>(alloc: Global, jobs: &'a [JobDef]) -> Result<Names<'a>, AllocError>
    ensures { IfOk result (λ names. names ≡ with_names [] (flat_map job_keys jobs.now)) }
{
    let mut names = Names::new(alloc);
    add_keys(&mut names, jobs)?;
    Ok(names)
}

/// The names with which a folder's jobs are checked.
pub(crate) fn world_of<'a>(
    alloc: Global,
    jobs: &'a [JobDef],
    outside: &'a [Text],
    declared: &'a [Text],
) -> Result<World<'a>, AllocError>
    ensures { IfOk result (λ world. scene_of world ≡ scene_in jobs.now outside.now declared.now) }
{
    let names = names_of(alloc, jobs)?;
    let commanded = commanded_in(alloc, jobs)?;
    let started = started_in(alloc, &names, &commanded, jobs)?;
    let given = given_in(alloc, outside, declared, jobs)?;
    let keys = keys_of(alloc, jobs)?;
    Ok(World {
        jobs: names,
        commanded,
        started,
        given,
        keys,
    })
}
