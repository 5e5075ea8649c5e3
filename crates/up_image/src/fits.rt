//! Checks whether an image can hold all of a table's jobs: how long their lists are, and the reload signals.
ghost use Rattle.std.specs.Prelude.{◌≡◌};
ghost use Rattle.std.specs.List.{list_all};
ghost use Rattle.up_image.specs.Image as image;
ghost use Rattle.up_image.specs.Versions.{fits_reload};

use crate::limits::MAX_ITEMS;
use crate::version::Version;
use up_conf::JobDef;
use up_expr::{Condition, Node};
use up_stanza::{Action, Signal};

fn fits_action(action: &Option<Action>) -> bool
    ensures { result ≡ image.fits_action action.now }
{
    match action {
        None => true,
        Some(Action::Words(words)) => words.as_slice().len() <= MAX_ITEMS,
        Some(Action::Shell(_)) => true,
    }
}

fn fits_node(node: &Node) -> bool
    ensures { result ≡ image.fits_node node.now }
{
    match node {
        Node::Leaf(leaf) => leaf.values.as_slice().len() <= MAX_ITEMS,
        Node::And(_, _) => true,
        Node::Or(_, _) => true,
    }
}

fn fit_nodes(nodes: &[Node]) -> bool
    ensures { result ≡ list_all image.fits_node nodes.now }
{
    nodes.iter().all(|node| fits_node(node))
}

fn fits_condition(condition: &Option<Condition>) -> bool
    ensures { result ≡ image.fits_condition condition.now }
{
    match condition {
        None => true,
        Some(condition) => fit_nodes(condition.nodes().as_slice()),
    }
}

// Always true: four bytes hold any u32.
fn fits_number(_number: u32) -> bool
    ensures { result ≡ image.fits_number _number }
{
    true
}

fn fits_reload(version: Version, signal: Signal) -> bool
    ensures { result ≡ fits_reload version signal }
{
    match version {
        Version::One => signal.number() == Signal::hup().number(),
        Version::Two => true,
    }
}

fn fits_numbers(version: Version, job: &JobDef) -> bool
    ensures { result ≡ image.fits_numbers version job.now }
{
    fits_number(job.limit.count)
        && fits_number(job.limit.interval)
        && fits_reload(version, job.reload_signal)
        && fits_number(job.kill_timeout)
}

fn fits_lists(job: &JobDef) -> bool
    ensures { result ≡ image.fits_lists job.now }
{
    job.env.as_slice().len() <= MAX_ITEMS
        && job.export.as_slice().len() <= MAX_ITEMS
        && job.normal.as_slice().len() <= MAX_ITEMS
}

fn fits_processes(job: &JobDef) -> bool
    ensures { result ≡ image.fits_processes job.now }
{
    fits_action(&job.main)
        && fits_action(&job.pre_start)
        && fits_action(&job.post_start)
        && fits_action(&job.pre_stop)
        && fits_action(&job.post_stop)
}

fn fits_events(job: &JobDef) -> bool
    ensures { result ≡ image.fits_events job.now }
{
    fits_condition(&job.start_on) && fits_condition(&job.stop_on)
}

#[tactic(auto, unfolding(crate::specs::Image::fits))]
fn fits(version: Version, job: &JobDef) -> bool
    ensures { result ≡ image.fits version job.now }
{
    fits_numbers(version, job) && fits_lists(job) && fits_processes(job) && fits_events(job)
}

/// Whether an image of a version can hold all of each job.
pub(crate) fn all_fit(version: Version, jobs: &[JobDef]) -> bool
    ensures { result ≡ list_all (image.fits version) jobs.now }
{
    jobs.iter().all(|job| fits(version, job))
}
