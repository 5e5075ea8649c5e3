//! Finds the leaves that name an event.
ghost use Rattle.std.specs.Prelude.{◌≡◌, ◌≤◌, ◌<◌, ◌==◌, not, nat_lt, ℕ, Bool, IfOk, length, map, true, false, slice_index_or};
ghost use Rattle.std.specs.List.{prefix_len};
ghost use Rattle.std.specs.List.Sorted.{IsPartitionPoint};
ghost use Rattle.up_conf.specs.Order.{is_below};
ghost use Rattle.up_conf.specs.declared.job.JobDef.{JobDef as JobDefValue};
ghost use Rattle.up_image.specs.Index.{places_of};
ghost use Rattle.up_value.specs.Values.{Bytes};
ghost use Rattle.up_image.specs.Index.{IsAscending, named};
ghost use Rattle.up_marks.specs.Naming.{Rising, from_expression, rank, rank_of, naming_in, of_expression, side_of};

use std::alloc::{AllocError, Global};
use std::marker::Model;
use up_image::{JobFile, Place, places_of_files, sort_places};
use up_text::Name;

/// The leaves of all jobs. Contracts see their places in byte order of the events that they name.
#[derive(Debug, Drop)]
pub struct Index {
    places: Vec<Place>,
}

impl Model for Index {
    ghost use Rattle.std.specs.Prelude.{List};
    ghost use Rattle.up_image.specs.declared.index.Place.{Place};
    ghost use Rattle.up_marks.specs.Naming.{IsIndexed};

    ghost Value = { List Place };

    ghost view = { λ index. index.places.items };

    ghost invariant = { λ index. IsIndexed index.places.items };
}

fn is_below(name: &Name, other: &Name) -> bool
    ensures { result ≡ is_below name.now other.now }
{
    name.as_str().cmp(other.as_str()).is_lt()
}

// The number of places with events below `name`.
fn below_len(places: &[Place], name: &Name) -> usize
    requires { IsAscending places.now }
    ensures below { IsPartitionPoint (λ place. is_below place.event name.now ≡ true)
        (λ place. is_below place.event name.now ≡ false) places.now result }
    ensures within { result ≤ length places.now }
{
    places.partition_point(|place| is_below(&place.event, name))
}

// The number of places with events up to `name`. Often they are all, which the last one tells.
fn upto_len(places: &[Place], name: &Name) -> usize
    requires { IsAscending places.now }
    ensures upto { IsPartitionPoint (λ place. not (is_below name.now place.event) ≡ true)
        (λ place. not (is_below name.now place.event) ≡ false) places.now result }
    ensures within { result ≤ length places.now }
{
    match places.last() {
        Some(last) if !is_below(name, &last.event) => places.len(),
        _ => places.partition_point(|place| !is_below(name, &place.event)),
    }
}

// The places with this event.
fn run_of<'a>(places: &'a [Place], name: &Name) -> &'a [Place]
    requires { IsAscending places.now }
    ensures { result.now ≡ named name.now places.now }
{
    let (_, rest) = places.split_at(below_len(places, name));
    let (run, _) = rest.split_at(upto_len(rest, name));
    run
}

// The number of an expression in the order in which events are offered.
fn rank(job: usize, start: bool) -> u128
    ensures { result ≡ rank job start }
{
    let stops = job as u128 * 2;
    if start { stops + 1 } else { stops }
}

fn rank_of(place: &Place) -> u128
    ensures { result ≡ rank_of place.now }
{
    rank(place.job, place.start)
}

// The number of places of earlier expressions.
fn earlier_len(places: &[Place], rank: u128) -> usize
    requires { Rising 0 places.now }
    ensures earlier { IsPartitionPoint (λ place. nat_lt (rank_of place) rank ≡ true)
        (λ place. nat_lt (rank_of place) rank ≡ false) places.now result }
    ensures within { result ≤ length places.now }
{
    places.partition_point(|place| rank_of(place) < rank)
}

// The number of leading places of this expression.
fn leaves_len(places: &[Place], rank: u128) -> usize
    ensures counted { result ≡ prefix_len (λ place. rank_of place == rank) places.now }
    ensures within { result ≤ length places.now }
{
    places
        .iter()
        .take_while(|place| rank_of(place) == rank)
        .count()
}

// The places of this expression and later ones.
fn later_of(places: &[Place], job: usize, start: bool) -> &[Place]
    requires { Rising 0 places.now }
    ensures { result.now ≡ from_expression job start places.now }
{
    let (_, later) = places.split_at(earlier_len(places, rank(job, start)));
    later
}

fn leaves_of(places: &[Place], job: usize, start: bool) -> &[Place]
    requires { Rising 0 places.now }
    ensures { result.now ≡ of_expression job start places.now }
{
    let later = later_of(places, job, start);
    let (leaves, _) = later.split_at(leaves_len(later, rank(job, start)));
    leaves
}

impl Index {
    /// The index of places that are in the order of their expressions.
    pub fn of_places(places: Vec<Place>) -> Result<Self, AllocError>
        requires { Rising 0 places.items }
        ensures { IfOk result (λ index. (name : Bytes) → named name index ≡ named name places.items) }
    {
        let mut places = places;
        sort_places(&mut places)?;
        Ok(Index { places })
    }

    /// The index of jobs, of which there may be any number: those that a load removed count as long as they have an instance.
    pub fn of(alloc: Global, files: &[JobFile]) -> Result<Self, AllocError>
        ensures places { IfOk result (λ index. (name : Bytes)
            → named name index ≡ named name (places_of 0 files.now)) }
        ensures leaves { IfOk result (λ index. (name : Bytes) (k : ℕ) (start : Bool) (job : JobDefValue)
            → k < length files.now → map (λ place. place.node) (of_expression k start (named name index))
            ≡ naming_in (side_of start (slice_index_or files.now k job)) name) }
    {
        Index::of_places(places_of_files(alloc, files)?)
    }

    /// The leaves that name an event: job by job, first those that stop it and then those that start it, from
    /// left to right. Takes no memory.
    pub fn places(&self, name: &Name) -> &[Place]
        ensures leaves { result.now ≡ named name.now self.now }
        ensures order { Rising 0 result.now }
    {
        run_of(self.places.as_slice(), name)
    }

    /// Those of one expression: the `stop on` of a job, or its `start on`. Takes no memory.
    pub fn leaves(&self, name: &Name, job: usize, start: bool) -> &[Place]
        ensures { result.now ≡ of_expression job start (named name.now self.now) }
    {
        leaves_of(self.places(name), job, start)
    }
}

/// The leaves of a file's `stop on` that name an event, from left to right. Takes no memory.
pub fn stop_leaves<'a>(file: &'a JobFile, name: &Name) -> &'a [Place]
    ensures { map (λ place. place.node) result.now ≡ naming_in file.now.stop_on name.now }
{
    run_of(file.stops(), name)
}
