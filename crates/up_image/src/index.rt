//! The index of a table's events.
ghost use Rattle.std.specs.Prelude.{◌≡◌, ◌+◌, ◌++◌, ◌∷◌, [], ◌<◌, ◌≤◌, true, false, IfOk, OnOk, MatchOption, length, map};
ghost use Rattle.std.specs.List.{flat_map, prefix_len};
ghost use Rattle.std.specs.Str.{bytes_eq};
ghost use Rattle.up_conf.specs.Order.{in_order};
ghost use Rattle.up_image.specs.declared.limits.TheConstants.{MAX_JOBS, MAX_NODES};
ghost use Rattle.up_image.specs.Index.{entries_of, entry_part, event_of, index_part, leaf_places, place_part, places_in, places_of, runs_of};

use crate::bytes::{push_u16, push_u32, put_byte, put_text};
use crate::job_file::JobFile;
use std::alloc::{AllocError, Global};
use up_conf::JobDef;
use up_expr::{Condition, Node};
use up_text::Name;

/// A leaf of a job's expression: its event, the job's place in the table, whether it starts the job, and the leaf's place among the nodes.
#[derive(Debug, Drop)]
pub struct Place {
    pub event: Name,
    pub job: usize,
    pub start: bool,
    pub node: u16,
}

fn add_leaves(
    places: &mut Vec<Place>,
    job: usize,
    start: bool,
    nodes: &[Node],
) -> Result<(), AllocError>
    requires { length nodes.now ≤ MAX_NODES }
    ensures { OnOk result (places.new.items ≡ places.old.items ++ leaf_places job start 0 nodes.now) }
{
    let mut at = 0;
    for node in nodes {
        add_leaf(places, job, start, at, node)?;
        at += 1;
    }
    Ok(())
}

// Appends the place of a node, if it is a leaf.
fn add_leaf(
    places: &mut Vec<Place>,
    job: usize,
    start: bool,
    at: u16,
    node: &Node,
) -> Result<(), AllocError>
    ensures { OnOk result (places.new.items ≡ places.old.items ++ leaf_places job start at (node.now ∷ [])) }
{
    match node {
        Node::Leaf(leaf) => {
            let event = leaf.event.copy()?;
            places.push(Place {
                event,
                job,
                start,
                node: at,
            })?;
        }
        Node::And(_, _) | Node::Or(_, _) => {}
    }
    Ok(())
}

fn add_condition(
    places: &mut Vec<Place>,
    job: usize,
    start: bool,
    condition: &Option<Condition>,
) -> Result<(), AllocError>
    ensures { OnOk result (places.new.items ≡ places.old.items ++ places_in job start condition.now) }
{
    match condition {
        None => {}
        Some(condition) => add_leaves(places, job, start, condition.nodes().as_slice())?,
    }
    Ok(())
}

// Appends the leaves of `stop on`, then those of `start on`.
fn add_job(places: &mut Vec<Place>, at: usize, job: &JobDef) -> Result<(), AllocError>
    ensures { OnOk result (places.new.items ≡ places.old.items
        ++ (places_in at false job.now.stop_on ++ places_in at true job.now.start_on)) }
{
    add_condition(places, at, false, &job.stop_on)?;
    add_condition(places, at, true, &job.start_on)?;
    Ok(())
}

fn places_of(alloc: Global, jobs: &[JobDef]) -> Result<Vec<Place>, AllocError>
    ensures { IfOk result (λ places. places.items ≡ places_of 0 jobs.now) }
{
    let mut places = Vec::new(alloc);
    for (at, job) in jobs.iter().enumerate() {
        add_job(&mut places, at, job)?;
    }
    Ok(places)
}

/// Appends the leaves of a job's `stop on`, with `number` as their job.
pub fn add_stops(places: &mut Vec<Place>, number: usize, job: &JobDef) -> Result<(), AllocError>
    ensures { OnOk result (places.new.items ≡ places.old.items ++ places_in number false job.now.stop_on) }
{
    add_condition(places, number, false, &job.stop_on)
}

/// The leaves of all jobs, of which there may be any number.
pub fn places_of_files(alloc: Global, files: &[JobFile]) -> Result<Vec<Place>, AllocError>
    ensures { IfOk result (λ places. places.items ≡ places_of 0 files.now) }
{
    let mut places = Vec::new(alloc);
    for (at, file) in files.iter().enumerate() {
        add_job(&mut places, at, file.job())?;
    }
    Ok(places)
}

/// The leaves of a job's `stop on` in byte order of their events, with 0 as their job.
pub(crate) fn sorted_stops(alloc: Global, job: &JobDef) -> Result<Vec<Place>, AllocError>
    ensures { IfOk result (λ places. places.items
        ≡ in_order (λ place. place.event) (places_in 0 false job.now.stop_on)) }
{
    let mut places = Vec::new(alloc);
    add_stops(&mut places, 0, job)?;
    sort_places(&mut places)?;
    Ok(places)
}

/// Sorts places in byte order of their events; those of one event stay in their order.
pub fn sort_places(places: &mut Vec<Place>) -> Result<(), AllocError>
    ensures { OnOk result (places.new.items ≡ in_order (λ place. place.event) places.old.items) }
{
    places.sort_by(|place, other| place.event.as_str().cmp(other.event.as_str()))
}

/// The leaves of jobs in byte order of their events; those of one event job by job, `stop on` before `start on`.
pub(crate) fn sorted_places(alloc: Global, jobs: &[JobDef]) -> Result<Vec<Place>, AllocError>
    ensures { IfOk result (λ places. places.items ≡ in_order (λ place. place.event) (places_of 0 jobs.now)) }
{
    let mut places = places_of(alloc, jobs)?;
    sort_places(&mut places)?;
    Ok(places)
}

// The number of leading places with this event.
fn same_len(event: &Name, places: &[Place]) -> usize
    ensures counted { result ≡ prefix_len (λ place. bytes_eq place.event event.now) places.now }
    ensures within { result ≤ length places.now }
{
    places
        .iter()
        .take_while(|place| place.event.is(event))
        .count()
}

// The leading places with the same event, and the places after them.
fn split_run(places: &[Place]) -> Option<(&[Place], &[Place])>
    ensures { MatchOption result (places.now ≡ [])
        (λ found. (runs_of places.now ≡ found.0.now ∷ runs_of found.1.now)
        × (length found.1.now < length places.now)) }
{
    match places.split_first() {
        None => None,
        Some((first, others)) => {
            let len = same_len(&first.event, others);
            Some(places.split_at(1 + len))
        }
    }
}

// Splits places into runs with the same event.
fn runs_of(alloc: Global, places: &[Place]) -> Result<Vec<&[Place]>, AllocError>
    ensures { IfOk result (λ runs. map (λ run. run.now) runs.items ≡ runs_of places.now) }
{
    let mut runs: Vec<&[Place]> = Vec::new(alloc);
    let mut rest = places;
    'runs: while let Some((run, after)) = split_run(rest) {
        runs.push(run)?;
        rest = after;
    }
    Ok(runs)
}

fn put_place(out: &mut Vec<u8>, place: &Place) -> Result<(), AllocError>
    ensures { OnOk result (out.new.items ≡ out.old.items ++ place_part place.now) }
{
    push_u16(out, place.job as u64)?;
    put_byte(out, if place.start { 1 } else { 0 })?;
    push_u16(out, u64::from(place.node))?;
    Ok(())
}

fn put_each_place(out: &mut Vec<u8>, places: &[Place]) -> Result<(), AllocError>
    ensures { OnOk result (out.new.items ≡ out.old.items ++ flat_map place_part places.now) }
{
    for place in places {
        put_place(out, place)?;
    }
    Ok(())
}

// The event of a run's places; empty without places.
fn event_of(places: &[Place]) -> &str
    ensures { result.now ≡ event_of places.now }
{
    match places.first() {
        Some(place) => place.event.as_str(),
        None => "",
    }
}

fn put_entry(out: &mut Vec<u8>, places: &[Place]) -> Result<(), AllocError>
    ensures { OnOk result (out.new.items ≡ out.old.items ++ entry_part places.now) }
{
    put_text(out, event_of(places))?;
    push_u32(out, places.len() as u64)?;
    put_each_place(out, places)?;
    Ok(())
}

fn put_each_entry(out: &mut Vec<u8>, runs: &[&[Place]]) -> Result<(), AllocError>
    ensures { OnOk result (out.new.items ≡ out.old.items
        ++ flat_map entry_part (map (λ run. run.now) runs.now)) }
{
    for run in runs {
        put_entry(out, run)?;
    }
    Ok(())
}

fn put_entries(out: &mut Vec<u8>, runs: &[&[Place]]) -> Result<(), AllocError>
    ensures { OnOk result (out.new.items ≡ out.old.items ++ index_part (map (λ run. run.now) runs.now)) }
{
    push_u32(out, runs.len() as u64)?;
    put_each_entry(out, runs)?;
    Ok(())
}

/// Appends the index of jobs.
#[tactic(auto, unfolding(crate::specs::Index::entries_of))]
pub(crate) fn put_index(alloc: Global, out: &mut Vec<u8>, jobs: &[JobDef]) -> Result<(), AllocError>
    ensures { OnOk result (out.new.items ≡ out.old.items ++ index_part (entries_of jobs.now)) }
{
    let places = sorted_places(alloc, jobs)?;
    let runs = runs_of(alloc, places.as_slice())?;
    put_entries(out, runs.as_slice())?;
    Ok(())
}
