//! The jobs of a folder and the events that connect them, as a graph for dot(1).
ghost use Rattle.std.specs.Prelude.{◌≡◌, ◌++◌, [], ◌+◌, ◌<◌, ◌^◌, OnOk, IfOk, codes, option_copied};
ghost use Rattle.std.specs.List.{flat_map};
ghost use Rattle.up_expr.specs.Flat.{size};
ghost use Rattle.up_print.specs.Graph.{edge, escaped, graph_of, group_id, group_lines, job_lines, job_node, leaf_lines, leaf_text, made_by, node, side_lines, source, condition_lines, test_text, tree_lines};

use crate::push::{push, push_decimal};
use std::alloc::{AllocError, Global};
use up_conf::JobDef;
use up_expr::{Branch, Condition, Leaf, Root, Test, is_job_event, wanted_job};
use up_text::Text;

#[tactic(auto, unfolding(crate::specs::Graph::escaped))]
fn push_escaped(text: &mut Vec<u8>, byte: u8) -> Result<(), AllocError>
    ensures { OnOk result (text.new.items ≡ text.old.items ++ escaped byte) }
{
    match byte {
        b'"' => push(text, "\\\""),
        b'\\' => push(text, "\\\\"),
        _ => {
            text.push(byte)?;
            Ok(())
        }
    }
}

fn push_all_escaped(text: &mut Vec<u8>, bytes: &[u8]) -> Result<(), AllocError>
    ensures { OnOk result (text.new.items ≡ text.old.items ++ flat_map escaped bytes.now) }
{
    for byte in bytes {
        push_escaped(text, *byte)?;
    }
    Ok(())
}

fn push_test(text: &mut Vec<u8>, test: &Test) -> Result<(), AllocError>
    ensures { OnOk result (text.new.items ≡ text.old.items ++ test_text test.now) }
{
    push(text, " ")?;
    let value = match test {
        Test::Place(value) => value,
        Test::Same(key, value) => {
            push(text, key.as_str())?;
            push(text, "=")?;
            value
        }
        Test::Differs(key, value) => {
            push(text, key.as_str())?;
            push(text, "!=")?;
            value
        }
    };
    push_all_escaped(text, value.as_str().as_bytes())
}

fn push_tests(text: &mut Vec<u8>, tests: &[Test]) -> Result<(), AllocError>
    ensures { OnOk result (text.new.items ≡ text.old.items ++ flat_map test_text tests.now) }
{
    for test in tests {
        push_test(text, test)?;
    }
    Ok(())
}

#[tactic(auto, unfolding(crate::specs::Graph::leaf_text))]
fn push_leaf_text(text: &mut Vec<u8>, leaf: &Leaf) -> Result<(), AllocError>
    ensures { OnOk result (text.new.items ≡ text.old.items ++ leaf_text leaf.now) }
{
    push(text, leaf.event.as_str())?;
    push_tests(text, leaf.values.as_slice())
}

#[tactic(auto, unfolding(crate::specs::Graph::edge))]
fn push_edge(text: &mut Vec<u8>, from: &[u8], to: &[u8], looks: &str) -> Result<(), AllocError>
    ensures { OnOk result (text.new.items ≡ text.old.items ++ edge from.now to.now looks.now) }
{
    push(text, "  \"")?;
    text.extend_from_slice(from)?;
    push(text, "\" -> \"")?;
    text.extend_from_slice(to)?;
    push(text, "\"")?;
    push(text, looks)?;
    push(text, ";\n")
}

#[tactic(auto, unfolding(crate::specs::Graph::node))]
fn push_node(text: &mut Vec<u8>, id: &[u8], label: &[u8], looks: &str) -> Result<(), AllocError>
    ensures { OnOk result (text.new.items ≡ text.old.items ++ node id.now label.now looks.now) }
{
    push(text, "  \"")?;
    text.extend_from_slice(id)?;
    push(text, "\" [label=\"")?;
    text.extend_from_slice(label)?;
    push(text, "\"")?;
    push(text, looks)?;
    push(text, "];\n")
}

// Appends the edge from a job to its own event.
fn push_maker(text: &mut Vec<u8>, id: &[u8], job: Option<&Text>) -> Result<(), AllocError>
    ensures { OnOk result (text.new.items ≡ text.old.items ++ made_by id.now (option_copied job.entry)) }
{
    let Some(job) = job else {
        return Ok(());
    };
    let mut maker = Vec::new(*text.allocator());
    push(&mut maker, "job ")?;
    push_all_escaped(&mut maker, job.as_str().as_bytes())?;
    push_edge(text, maker.as_slice(), id, " [style=dotted]")
}

fn push_source(text: &mut Vec<u8>, id: &[u8], leaf: &Leaf) -> Result<(), AllocError>
    ensures { OnOk result (text.new.items ≡ text.old.items ++ source id.now leaf.now) }
{
    if is_job_event(leaf.event.as_str()) {
        push_maker(text, id, wanted_job(leaf.values.as_slice()))
    } else {
        Ok(())
    }
}

#[tactic(auto, unfolding(crate::specs::Graph::leaf_lines))]
fn push_leaf(text: &mut Vec<u8>, leaf: &Leaf, to: &[u8], looks: &str) -> Result<(), AllocError>
    ensures { OnOk result (text.new.items ≡ text.old.items ++ leaf_lines leaf.now to.now looks.now) }
{
    let alloc = *text.allocator();
    let mut label = Vec::new(alloc);
    push_leaf_text(&mut label, leaf)?;
    let mut id = Vec::new(alloc);
    push(&mut id, "event ")?;
    id.extend_from_slice(label.as_slice())?;
    push_node(text, id.as_slice(), label.as_slice(), ", shape=ellipse")?;
    push_source(text, id.as_slice(), leaf)?;
    push_edge(text, id.as_slice(), to, looks)
}

#[tactic(auto, unfolding(crate::specs::Graph::group_id))]
fn group_id(alloc: Global, owner: &[u8], place: u64) -> Result<Vec<u8>, AllocError>
    ensures { IfOk result (λ id. id.items ≡ group_id owner.now place) }
{
    let mut id = Vec::new(alloc);
    id.extend_from_slice(owner)?;
    push(&mut id, " ")?;
    push_decimal(&mut id, place)?;
    Ok(id)
}

// Appends the node of a group and its edge to another node.
#[tactic(auto, unfolding(crate::specs::Graph::group_lines))]
fn push_head(
    text: &mut Vec<u8>,
    id: &[u8],
    word: &[u8],
    to: &[u8],
    looks: &str,
) -> Result<(), AllocError>
    ensures { OnOk result (text.new.items ≡ text.old.items ++ group_lines id.now word.now to.now looks.now) }
{
    push_node(text, id, word, ", shape=circle")?;
    push_edge(text, id, to, looks)
}

// Appends an expression and its edge to a node; `first` is the number of its first node.
#[cycle(groups)]
fn push_tree(
    text: &mut Vec<u8>,
    owner: &[u8],
    first: u64,
    to: &[u8],
    looks: &str,
    branch: &Branch,
) -> Result<(), AllocError>
    requires { first + size branch.now < 2 ^ 64 }
    ensures { OnOk result (text.new.items ≡ text.old.items
        ++ tree_lines owner.now first to.now looks.now branch.now) }
{
    match branch.root() {
        Root::Leaf(leaf) => push_leaf(text, leaf, to, looks),
        Root::And(left, right) => {
            push_group(text, owner, first, to, looks, b"and", &left, &right)
        }
        Root::Or(left, right) => push_group(text, owner, first, to, looks, b"or", &left, &right),
    }
}

// Appends a group, its edge to a node, and its two sides.
#[cycle(groups)]
fn push_group(
    text: &mut Vec<u8>,
    owner: &[u8],
    first: u64,
    to: &[u8],
    looks: &str,
    word: &[u8],
    left: &Branch,
    right: &Branch,
) -> Result<(), AllocError>
    requires { first + size left.now + size right.now < 2 ^ 64 }
    ensures { OnOk result (text.new.items ≡ text.old.items
        ++ (let id = group_id owner.now (first + size left.now + size right.now) in
        group_lines id word.now to.now looks.now ++ side_lines owner.now first id left.now right.now)) }
{
    let place = first + left.len() as u64 + right.len() as u64;
    let id = group_id(*text.allocator(), owner, place)?;
    push_head(text, id.as_slice(), word, to, looks)?;
    push_sides(text, owner, first, id.as_slice(), left, right)
}

// Appends the two sides of a group, with edges to it.
#[cycle(groups)]
fn push_sides(
    text: &mut Vec<u8>,
    owner: &[u8],
    first: u64,
    id: &[u8],
    left: &Branch,
    right: &Branch,
) -> Result<(), AllocError>
    requires { first + size left.now + size right.now < 2 ^ 64 }
    ensures { OnOk result (text.new.items ≡ text.old.items
        ++ side_lines owner.now first id.now left.now right.now) }
{
    push_tree(text, owner, first, id, "", left)?;
    push_tree(text, owner, first + left.len() as u64, id, "", right)
}

// Appends the expression that starts or stops a job, if there is one.
fn push_condition(
    text: &mut Vec<u8>,
    name: &str,
    words: &str,
    looks: &str,
    condition: &Option<Condition>,
) -> Result<(), AllocError>
    ensures { OnOk result (text.new.items ≡ text.old.items
        ++ condition_lines name.now words.now looks.now condition.now) }
{
    let Some(condition) = condition else {
        return Ok(());
    };
    let alloc = *text.allocator();
    let mut owner = Vec::new(alloc);
    push(&mut owner, name)?;
    push(&mut owner, words)?;
    let mut job = Vec::new(alloc);
    push(&mut job, "job ")?;
    push(&mut job, name)?;
    let root = condition.root();
    let _size = root.len();
    push_tree(text, owner.as_slice(), 0, job.as_slice(), looks, &root)
}

fn push_box(text: &mut Vec<u8>, name: &str) -> Result<(), AllocError>
    ensures { OnOk result (text.new.items ≡ text.old.items ++ job_node name.now) }
{
    let mut id = Vec::new(*text.allocator());
    push(&mut id, "job ")?;
    push(&mut id, name)?;
    push_node(text, id.as_slice(), name.as_bytes(), ", shape=box")
}

#[tactic(auto, unfolding(crate::specs::Graph::job_lines))]
fn push_job(text: &mut Vec<u8>, job: &JobDef) -> Result<(), AllocError>
    ensures { OnOk result (text.new.items ≡ text.old.items ++ job_lines job.now) }
{
    let name = job.name.as_str();
    push_box(text, name)?;
    push_condition(
        text,
        name,
        " start on",
        " [label=\"start on\"]",
        &job.start_on,
    )?;
    push_condition(
        text,
        name,
        " stop on",
        " [label=\"stop on\", style=dashed]",
        &job.stop_on,
    )
}

fn push_jobs(text: &mut Vec<u8>, jobs: &[JobDef]) -> Result<(), AllocError>
    ensures { OnOk result (text.new.items ≡ text.old.items ++ flat_map job_lines jobs.now) }
{
    for job in jobs {
        push_job(text, job)?;
    }
    Ok(())
}

/// The jobs of a folder, and the events that start and stop them, as a directed graph in the language of dot(1): a box for each job, an
/// ellipse for each event with its values, and a circle for each `and` and `or`.
#[tactic(auto, unfolding(crate::specs::Graph::graph_of))]
pub fn graph(alloc: Global, jobs: &[JobDef]) -> Result<Vec<u8>, AllocError>
    ensures { IfOk result (λ text. text.items ≡ graph_of jobs.now) }
{
    let mut text = Vec::new(alloc);
    push(&mut text, "digraph jobs {\n  rankdir=LR;\n")?;
    push_jobs(&mut text, jobs)?;
    push(&mut text, "}\n")?;
    Ok(text)
}
