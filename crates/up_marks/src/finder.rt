//! Finds the jobs that an event may concern, by its name and its values.
ghost use Rattle.std.specs.Prelude.{◌≡◌, ◌≤◌, true, false, not, IfOk, IfSome, IsTrue, Some, length};
ghost use Rattle.std.specs.Cmp.Lexicographic.{slice_cmp};
ghost use Rattle.std.specs.List.{list_all};
ghost use Rattle.std.specs.List.Sorted.{IsPartitionPoint, IsPartitionedBy, IsPermutation};
ghost use Rattle.std.specs.Ordering.{nat_cmp, ordering_then};
ghost use Rattle.up_conf.specs.Order.{is_below};
ghost use Rattle.up_image.specs.Index.{named, places_of};
ghost use Rattle.up_marks.specs.Finding as finding;
ghost use Rattle.up_marks.specs.Finding.{AreOrdered, Finds, IsLeastFrom, IsNextJob, first_wanting, has_wanted, has_wanting, is_early, key_of, lesser, names};
ghost use Rattle.up_marks.specs.Ruling.{admits};

use crate::ruling::admits;
use crate::wanted::{Wanted, wanting_each};
use std::alloc::{AllocError, Global};
use std::cmp::Ordering;
use std::marker::Model;
use up_image::{JobFile, places_of_files};
use up_model::Event;
use up_text::Name;

/// The leaves of all jobs, each with the value that it wants of an event. Those with the same event and the same value are adjacent.
#[derive(Debug, Drop)]
pub struct Finder {
    leaves: Vec<Wanted>,
}

impl Model for Finder {
    ghost use Rattle.std.specs.Prelude.{List};
    ghost use Rattle.up_marks.specs.declared.wanted.Wanted.{Wanted};
    ghost use Rattle.up_marks.specs.Finding.{AreOrdered};

    ghost Value = { List Wanted };

    ghost view = { λ finder. finder.leaves.items };

    ghost invariant = { λ finder. AreOrdered finder.leaves.items };
}

fn compare_texts(leaf: &Wanted, event: &str, value: &str) -> Ordering
    ensures { result ≡ ordering_then (slice_cmp nat_cmp leaf.now.place.event event.now) (slice_cmp nat_cmp leaf.now.value value.now) }
{
    match leaf.place.event.as_str().cmp(event) {
        Ordering::Less => Ordering::Less,
        Ordering::Equal => leaf.value.as_str().cmp(value),
        Ordering::Greater => Ordering::Greater,
    }
}

fn compare(leaf: &Wanted, event: &str, value: &str, job: usize) -> Ordering
    ensures { result ≡ finding.compare (key_of leaf.now) (event.now, value.now, job) }
{
    match compare_texts(leaf, event, value) {
        Ordering::Less => Ordering::Less,
        Ordering::Equal => leaf.place.job.cmp(&job),
        Ordering::Greater => Ordering::Greater,
    }
}

fn compare_leaves(leaf: &Wanted, other: &Wanted) -> Ordering
    ensures { result ≡ finding.compare (key_of leaf.now) (key_of other.now) }
{
    compare(
        leaf,
        other.place.event.as_str(),
        other.value.as_str(),
        other.place.job,
    )
}

fn sort_leaves(leaves: &mut Vec<Wanted>)
    ensures ordered { AreOrdered leaves.new.items }
    ensures same { IsPermutation leaves.old.items leaves.new.items }
{
    leaves.sort_unstable_by(|leaf, other| compare_leaves(leaf, other));
}

// The number of leaves with events below `name`.
fn below_len(leaves: &[Wanted], name: &Name) -> usize
    requires { AreOrdered leaves.now }
    ensures below { IsPartitionPoint (λ leaf. is_below leaf.place.event name.now ≡ true)
        (λ leaf. is_below leaf.place.event name.now ≡ false) leaves.now result }
    ensures within { result ≤ length leaves.now }
{
    leaves.partition_point(|leaf| leaf.place.event.as_str().cmp(name.as_str()).is_lt())
}

// Whether a leaf's event is `name` or below it.
fn is_upto(leaf: &Wanted, name: &Name) -> bool
    ensures { result ≡ not (is_below name.now leaf.now.place.event) }
{
    !name.as_str().cmp(leaf.place.event.as_str()).is_lt()
}

// The number of leaves with events up to `name`. Often they are all, which the last one tells.
fn upto_len(leaves: &[Wanted], name: &Name) -> usize
    requires { AreOrdered leaves.now }
    ensures upto { IsPartitionPoint (λ leaf. not (is_below name.now leaf.place.event) ≡ true)
        (λ leaf. not (is_below name.now leaf.place.event) ≡ false) leaves.now result }
    ensures within { result ≤ length leaves.now }
{
    match leaves.last() {
        Some(last) if is_upto(last, name) => leaves.len(),
        _ => leaves.partition_point(|leaf| is_upto(leaf, name)),
    }
}

fn of_event<'a>(leaves: &'a [Wanted], name: &Name) -> &'a [Wanted]
    requires { AreOrdered leaves.now }
    ensures { result.now ≡ finding.of_event name.now leaves.now }
{
    let (_, rest) = leaves.split_at(below_len(leaves, name));
    let (run, _) = rest.split_at(upto_len(rest, name));
    run
}

// Whether a leaf comes before those of its event that want this value and are of this job or a later one.
fn is_early(leaf: &Wanted, value: &str, job: usize) -> bool
    ensures { result ≡ is_early value.now job leaf.now }
{
    match leaf.value.as_str().cmp(value) {
        Ordering::Less => true,
        Ordering::Equal => leaf.place.job < job,
        Ordering::Greater => false,
    }
}

// The number of leaves of one event before those that want this value of it and aren't of earlier jobs. Often there are none, as before
// those that want no value, which the first one tells.
fn before_len(leaves: &[Wanted], value: &str, job: usize) -> usize
    requires { IsPartitionedBy (is_early value.now job) leaves.now }
    ensures early { IsPartitionPoint (λ leaf. is_early value.now job leaf ≡ true)
        (λ leaf. is_early value.now job leaf ≡ false) leaves.now result }
    ensures within { result ≤ length leaves.now }
{
    match leaves.first() {
        Some(first) if !is_early(first, value, job) => 0,
        _ => leaves.partition_point(|leaf| is_early(leaf, value, job)),
    }
}

fn wants(leaf: &Wanted, name: &Name, value: &str) -> bool
    ensures { result ≡ finding.wants name.now value.now leaf.now }
{
    leaf.place.event.is(name) && leaf.value.is(value)
}

// The job of the first of these leaves that may match an event, as long as they want this value of it.
#[tactic(auto, using(crate::proofs::Ordered::first_left))]
fn first_wanting(leaves: &[Wanted], jobs: &[JobFile], event: &Event, value: &str) -> Option<usize>
    ensures { result ≡ first_wanting (admits jobs.now event.now) event.now.name value.now leaves.now }
{
    for leaf in leaves {
        if !wants(leaf, &event.name, value) {
            return None;
        }
        if admits(jobs, &leaf.place, event) {
            return Some(leaf.place.job);
        }
    }
    None
}

// Of leaves that name an event, the first job at or after `from` with one that wants this value of it, and may match it.
fn next_wanting(
    leaves: &[Wanted],
    jobs: &[JobFile],
    event: &Event,
    value: &str,
    from: usize,
) -> Option<usize>
    requires ordered { AreOrdered leaves.now }
    requires named { list_all (names event.now.name) leaves.now ≡ true }
    ensures { IsLeastFrom (has_wanting (admits jobs.now event.now) event.now.name value.now leaves.now) from result }
{
    let (_, later) = leaves.split_at(before_len(leaves, value, from));
    first_wanting(later, jobs, event, value)
}

// Whether the job that was found is `from`, before which there can be none.
fn is_first(next: Option<usize>, from: usize) -> bool
    ensures { IsTrue result → next ≡ Some from }
{
    match next {
        Some(job) => job == from,
        None => false,
    }
}

// Of leaves that name an event, the first job at or after `from` with one that wants no value or one that the event has, and may match it.
fn next_wanted(leaves: &[Wanted], jobs: &[JobFile], event: &Event, from: usize) -> Option<usize>
    requires ordered { AreOrdered leaves.now }
    requires named { list_all (names event.now.name) leaves.now ≡ true }
    ensures { IsLeastFrom (has_wanted (admits jobs.now event.now) event.now.name event.now.vars leaves.now) from result }
{
    let mut next = next_wanting(leaves, jobs, event, "", from);
    for i in 0..event.vars.len() {
        if is_first(next, from) {
            return next;
        }
        let (_, value) = event.vars.at(i);
        // The leaves that want no value are the first that were sought.
        if value.is_empty() {
            continue;
        }
        next = lesser_of(next, next_wanting(leaves, jobs, event, value, from));
    }
    next
}

/// The lesser of two, or the only one.
pub fn lesser_of(one: Option<usize>, other: Option<usize>) -> Option<usize>
    ensures { result ≡ lesser one other }
{
    match (one, other) {
        (None, other) => other,
        (Some(one), None) => Some(one),
        (Some(one), Some(other)) => Some(if other < one { other } else { one }),
    }
}

impl Finder {
    /// The finder of jobs, of which there may be any number.
    pub fn of(alloc: Global, files: &[JobFile]) -> Result<Self, AllocError>
        ensures { IfOk result (λ finder. Finds finder files.now) }
    {
        let places = places_of_files(alloc, files)?;
        let mut leaves = wanting_each(alloc, files, places.as_slice())?;
        sort_leaves(&mut leaves);
        Ok(Finder { leaves })
    }

    /// The first job at or after `from` with a leaf that may match an event; `jobs` are those of this finder. Skips leaves that want a
    /// value that no variable of the event has. Takes no memory.
    pub fn next_job(&self, jobs: &[JobFile], event: &Event, from: usize) -> Option<usize>
        ensures next { Finds self.now jobs.now → IsNextJob (admits jobs.now event.now) from
            (named event.now.name (places_of 0 jobs.now)) result }
        ensures later { IfSome result (λ job. from ≤ job) }
    {
        let leaves = of_event(self.leaves.as_slice(), &event.name);
        next_wanted(leaves, jobs, event, from)
    }
}
