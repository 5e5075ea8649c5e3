//! Finds the jobs that no event stops, once their `start on` has started them.
ghost use Rattle.std.specs.Prelude.{◌≡◌};
ghost use Rattle.up_lint.specs.Events.{scene_of};
ghost use Rattle.up_lint.specs.Stops.{is_never_stopped, is_stopped_by_none, may_follow, tree_follows};

use crate::circle::job_may;
use crate::world::World;
use up_conf::JobDef;
use up_expr::{Branch, Condition, Leaf, Root, is_job_event, wanted_job};

// Whether an event may be handled after one that makes a `start on` true.
fn may_follow(world: &World<'_>, leaf: &Leaf) -> bool
    ensures { result ≡ may_follow (scene_of world.now) leaf.now }
{
    let event = leaf.event.as_str();
    if world.given.has(event.as_bytes()) {
        true
    } else if is_job_event(event) {
        job_may(
            &world.jobs,
            &world.started,
            wanted_job(leaf.values.as_slice()),
        )
    } else {
        event != "startup"
    }
}

fn tree_follows(world: &World<'_>, branch: &Branch) -> bool
    ensures { result ≡ tree_follows (scene_of world.now) branch.now }
{
    match branch.root() {
        Root::Leaf(leaf) => may_follow(world, leaf),
        Root::And(left, right) => tree_follows(world, &left) && tree_follows(world, &right),
        Root::Or(left, right) => tree_follows(world, &left) || tree_follows(world, &right),
    }
}

fn is_stopped_by_none(
    world: &World<'_>,
    start: &Option<Condition>,
    stop: &Option<Condition>,
) -> bool
    ensures { result ≡ is_stopped_by_none (scene_of world.now) start.now stop.now }
{
    match (start, stop) {
        (Some(_), Some(stop)) => !tree_follows(world, &stop.root()),
        _ => false,
    }
}

/// Whether a job can be started, and its `stop on` can't become true after its `start on`.
pub(crate) fn is_never_stopped(world: &World<'_>, job: &JobDef) -> bool
    ensures { result ≡ is_never_stopped (scene_of world.now) job.now }
{
    world.started.has(job.name.as_str().as_bytes())
        && is_stopped_by_none(world, &job.start_on, &job.stop_on)
}
