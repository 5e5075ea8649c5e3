//! Which jobs have an instance that hears of an event.
ghost use Rattle.std.specs.Prelude.{◌≡◌, ◌≤◌, ◌||◌, length, map, nat_lt, true, false};
ghost use Rattle.std.specs.List.Sorted.{IsPartitionPoint};
ghost use Rattle.up_book.specs.Hearers.{first_from, has_stop, one_stops};
ghost use Rattle.up_image.specs.Index.{named};
ghost use Rattle.up_marks.specs.Finding.{IsNextJob};
ghost use Rattle.up_marks.specs.Naming.{Rising, naming_in};
ghost use Rattle.up_marks.specs.Ruling.{may_match_in};

use up_conf::JobDef;
use up_image::Place;
use up_job::{Instance, Instances};
use up_marks::{Index, may_start, may_stop};
use up_model::Event;

// The number of places of earlier jobs.
fn earlier_len(places: &[Place], job: usize) -> usize
    requires { Rising 0 places.now }
    ensures earlier { IsPartitionPoint (λ place. nat_lt place.job job ≡ true)
        (λ place. nat_lt place.job job ≡ false) places.now result }
    ensures within { result ≤ length places.now }
{
    places.partition_point(|place| place.job < job)
}

// Whether an event may match the `stop on` of one of these instances, each by its own file.
fn one_stops(instances: &[Instance], event: &Event) -> bool
    ensures { result ≡ one_stops event.now instances.now }
{
    instances
        .iter()
        .any(|instance| may_stop(&instance.file, event))
}

/// Whether an event may match a job's `start on`, whose leaves that name it are these, or the `stop on` of one of its instances. Takes no
/// memory.
pub fn is_hearer(job: &JobDef, leaves: &[Place], instances: &[Instance], event: &Event) -> bool
    ensures { map (λ place. place.node) leaves.now ≡ naming_in job.now.start_on event.now.name
        → result ≡ (may_match_in job.now.start_on event.now.name event.now.vars || one_stops event.now instances.now) }
{
    let starts = may_start(job, leaves, event);
    starts || one_stops(instances, event)
}

// The job of the first of these places with an instance that an event may stop. Checks each job once.
fn first_other(instances: &Instances, places: &[Place], event: &Event, from: usize) -> Option<usize>
    requires { Rising 0 places.now }
    ensures { result ≡ first_from (has_stop instances.now event.now) from places.now }
{
    // Past the greatest job, too, there is a number.
    let mut from = from as u128;
    for place in places {
        let job = place.job;
        if from <= job as u128 {
            if one_stops(instances.of_job(job), event) {
                return Some(job);
            }
            from = job as u128 + 1;
        }
    }
    None
}

// The first job at or after `from` that has one of these places, and an instance that an event may stop.
fn next_other_in(
    instances: &Instances,
    places: &[Place],
    event: &Event,
    from: usize,
) -> Option<usize>
    requires { Rising 0 places.now }
    ensures { IsNextJob (has_stop instances.now event.now) from places.now result }
{
    let (_, later) = places.split_at(earlier_len(places, from));
    first_other(instances, later, event, from)
}

/// The first job at or after `from` that has places of the event in an index, and an instance that the event may stop. Takes no memory.
pub fn next_other(
    others: &Index,
    instances: &Instances,
    event: &Event,
    from: usize,
) -> Option<usize>
    ensures { IsNextJob (has_stop instances.now event.now) from (named event.now.name others.now) result }
{
    next_other_in(instances, others.places(&event.name), event, from)
}
