//! The checks of each event that an expression waits for.
ghost use Rattle.std.specs.Prelude.{◌≡◌, ◌++◌, ◌∷◌, [], IfOk, OnOk, option_copied};
ghost use Rattle.std.specs.List.{list_any};
ghost use Rattle.up_expr.specs.Flat.{leaves_in, leaves_of};
ghost use Rattle.up_lint.specs.Events.{scene_of};
ghost use Rattle.up_lint.specs.Questions.{about, condition_warnings, gathered, is_in_vain, is_special, is_this, job_alone, kind_of, missing_job, own_event, unknown_event, unknown_job, with_about, word_of};

use crate::head::{Head, has_text};
use crate::sheet::spot_of;
use crate::warning::{Kind, Warning, push_warnings};
use crate::world::{World, is_known};
use std::alloc::{AllocError, Global};
use up_expr::{Condition, Leaf, Node, Test, is_job_event, wanted_job};
use up_text::{Items, Text};

/// A check of an event.
#[derive(Clone, Copy)]
pub(crate) enum Question {
    /// Whether nothing emits it.
    UnknownEvent,
    /// Whether it is an event of a job that doesn't exist.
    UnknownJob,
    /// Whether it is an event of the job that waits for it.
    BlocksItself,
}

/// An expression of a job.
#[derive(Clone, Copy)]
pub(crate) enum Side {
    /// `start on`
    Start,
    /// `stop on`
    Stop,
}

fn unknown_event<'l>(world: &World<'_>, leaf: &'l Leaf) -> Option<&'l str>
    ensures { option_copied result ≡ unknown_event (scene_of world.now) leaf.now }
{
    if is_known(world, leaf.event.as_str()) {
        None
    } else {
        Some(leaf.event.as_str())
    }
}

// Whether the byte may make a value match more than itself.
#[tactic(auto, unfolding(crate::specs::Questions::is_special))]
fn is_special(byte: u8) -> bool
    ensures { result ≡ is_special byte }
{
    matches!(byte, b'*' | b'?' | b'[' | b'\\' | b'$')
}

fn has_special(value: &[u8]) -> bool
    ensures { result ≡ list_any is_special value.now }
{
    value.iter().any(|byte| is_special(*byte))
}

fn missing_job<'l>(world: &World<'_>, job: Option<&'l Text>) -> Option<&'l str>
    ensures { option_copied result ≡ missing_job (scene_of world.now) (option_copied job.entry) }
{
    let Some(job) = job else {
        return None;
    };
    let job = job.as_str();
    if has_special(job.as_bytes()) || world.jobs.has(job.as_bytes()) {
        None
    } else {
        Some(job)
    }
}

fn unknown_job<'l>(world: &World<'_>, leaf: &'l Leaf) -> Option<&'l str>
    ensures { option_copied result ≡ unknown_job (scene_of world.now) leaf.now }
{
    if is_job_event(leaf.event.as_str()) {
        missing_job(world, wanted_job(leaf.values.as_slice()))
    } else {
        None
    }
}

// The job, if it is the only condition on the event.
fn job_alone(tests: &[Test]) -> Option<&Text>
    ensures { option_copied result ≡ job_alone tests.now }
{
    match tests {
        [_] => wanted_job(tests),
        _ => None,
    }
}

fn is_this(job: &str, other: Option<&Text>) -> bool
    ensures { result ≡ is_this job.now (option_copied other.entry) }
{
    match other {
        Some(other) => other.is(job),
        None => false,
    }
}

fn is_in_vain(side: Side, event: &str) -> bool
    ensures { result ≡ is_in_vain side event.now }
{
    match side {
        Side::Start => event == "starting" || event == "started" || event == "stopping",
        Side::Stop => event == "starting" || event == "stopping",
    }
}

fn own_event<'l>(job: &str, side: Side, leaf: &'l Leaf) -> Option<&'l str>
    ensures { option_copied result ≡ own_event job.now side leaf.now }
{
    let event = leaf.event.as_str();
    if is_in_vain(side, event) && is_this(job, job_alone(leaf.values.as_slice())) {
        Some(event)
    } else {
        None
    }
}

// The name that a warning reports for an event for which this job waits; `None` if there is no warning.
fn about<'l>(
    world: &World<'_>,
    job: &str,
    question: Question,
    side: Side,
    leaf: &'l Leaf,
) -> Option<&'l str>
    ensures { option_copied result ≡ about (scene_of world.now) job.now question side leaf.now }
{
    match question {
        Question::UnknownEvent => unknown_event(world, leaf),
        Question::UnknownJob => unknown_job(world, leaf),
        Question::BlocksItself => own_event(job, side, leaf),
    }
}

// Adds the name, if there is one, unless it is present already.
fn add_about(names: &mut Vec<Text>, name: Option<&str>) -> Result<(), AllocError>
    ensures { OnOk result (names.new.items ≡ with_about names.old.items (option_copied name.entry)) }
{
    let Some(name) = name else {
        return Ok(());
    };
    if has_text(names.as_slice(), name) {
        return Ok(());
    }
    let name = Text::from_str(*names.allocator(), name)?;
    names.push(name)?;
    Ok(())
}

// Adds the name that a warning reports, if the node waits for an event.
fn add_node(
    names: &mut Vec<Text>,
    world: &World<'_>,
    job: &str,
    question: Question,
    side: Side,
    node: &Node,
) -> Result<(), AllocError>
    ensures { OnOk result (names.new.items
        ≡ gathered (about (scene_of world.now) job.now question side) names.old.items (leaves_in (node.now ∷ []))) }
{
    match node {
        Node::Leaf(leaf) => add_about(names, about(world, job, question, side, leaf)),
        Node::And(_, _) | Node::Or(_, _) => Ok(()),
    }
}

// The names that warnings report, each once.
#[tactic(auto, using(crate::proofs::Gathered::node_more))]
fn gather_nodes(
    alloc: Global,
    world: &World<'_>,
    job: &str,
    question: Question,
    side: Side,
    nodes: &[Node],
) -> Result<Items<Text>, AllocError>
    ensures { IfOk result (λ names. names
        ≡ gathered (about (scene_of world.now) job.now question side) [] (leaves_in nodes.now)) }
{
    let mut names: Vec<Text> = Vec::new(alloc);
    for node in nodes {
        add_node(&mut names, world, job, question, side, node)?;
    }
    Ok(Items::new(names))
}

fn gather(
    alloc: Global,
    world: &World<'_>,
    job: &str,
    question: Question,
    side: Side,
    condition: &Condition,
) -> Result<Items<Text>, AllocError>
    ensures { IfOk result (λ names. names
        ≡ gathered (about (scene_of world.now) job.now question side) [] (leaves_of condition.now)) }
{
    gather_nodes(
        alloc,
        world,
        job,
        question,
        side,
        condition.nodes().as_slice(),
    )
}

fn word_of(side: Side) -> &'static str
    ensures { result.now ≡ word_of side }
{
    match side {
        Side::Start => "start",
        Side::Stop => "stop",
    }
}

fn kind_of(question: Question) -> Kind
    ensures { result ≡ kind_of question }
{
    match question {
        Question::UnknownEvent => Kind::UnknownEvent,
        Question::UnknownJob => Kind::UnknownJob,
        Question::BlocksItself => Kind::BlocksItself,
    }
}

pub(crate) fn push_condition(
    warnings: &mut Vec<Warning>,
    world: &World<'_>,
    job: &str,
    sheet: &[Head],
    question: Question,
    side: Side,
    condition: &Option<Condition>,
) -> Result<(), AllocError>
    ensures { OnOk result (warnings.new.items ≡ warnings.old.items
        ++ condition_warnings (scene_of world.now) job.now sheet.now question side condition.now) }
{
    let Some(condition) = condition else {
        return Ok(());
    };
    let names = gather(*warnings.allocator(), world, job, question, side, condition)?;
    let spot = spot_of(sheet, word_of(side), "on");
    push_warnings(warnings, job, spot, kind_of(question), names.as_slice())
}
