//! How a leaf comes to keep an event, and the nodes above it come true.
ghost use Rattle.std.specs.Prelude.{◌≡◌, ℕ, ◌<◌, length};
ghost use Rattle.up_expr.specs.Flat.{nodes_of, size};
ghost use Rattle.up_expr.specs.Trees.{Tree};
ghost use Rattle.up_marks.specs.Marking.{Kept, all_kept, truth, marks_of, with_kept};
ghost use Rattle.up_marks.specs.Settling.{IsSettledBut, holds_by, true_at};

use crate::joining::node_above;
use crate::mark::Mark;
use crate::ruling::leaf_in;
use up_expr::{Condition, Node};
use up_model::EventId;

// Whether the last of these nodes is true.
pub(crate) fn root_holds(marks: &[Mark]) -> bool
    requires { 0 < length marks.now }
    ensures { (start : ℕ) (tree : Tree) (kept : Kept) → marks.now ≡ marks_of start tree kept
        → result ≡ truth start tree kept }
{
    marks[marks.len() - 1].holds
}

fn true_at(marks: &[Mark], place: usize) -> bool
    ensures { result ≡ true_at marks.now place }
{
    match marks.get(place) {
        Some(mark) => mark.holds,
        None => false,
    }
}

// Whether a node is true, by what it keeps and by the marks of its sides.
fn holds_by(node: &Node, mark: Mark, marks: &[Mark]) -> bool
    ensures { result ≡ holds_by node.now mark.kept marks.now }
{
    match node {
        Node::Leaf(_) => mark.kept.is_some(),
        Node::And(left, right) => {
            true_at(marks, usize::from(*left)) && true_at(marks, usize::from(*right))
        }
        Node::Or(left, right) => {
            true_at(marks, usize::from(*left)) || true_at(marks, usize::from(*right))
        }
    }
}

// Marks the node at a place as true if it is, and likewise those above it, up to the first whose mark stays.
fn settle(nodes: &[Node], hints: &[u16], marks: &mut [Mark], from: usize)
    requires { length marks.old ≡ length nodes.now }
    ensures { (kept : Kept) (tree : Tree) → nodes.now ≡ nodes_of 0 tree
        → IsSettledBut from nodes.now kept marks.old → marks.new ≡ marks_of 0 tree kept }
{
    let mut place = from;
    while place < nodes.len() {
        let holds = holds_by(&nodes[place], marks[place], marks);
        let mark = &mut marks[place];
        if mark.holds == holds {
            return;
        }
        mark.holds = holds;
        place = node_above(nodes, hints, place);
    }
}

/// Makes the leaf at a place keep an event, and marks the nodes above it that become true.
pub(crate) fn keep(
    condition: &Condition,
    hints: &[u16],
    marks: &mut [Mark],
    node: usize,
    event: EventId,
)
    requires { length marks.old ≡ size condition.now }
    ensures { (kept : Kept) → marks.old ≡ marks_of 0 condition.now kept
        → marks.new ≡ marks_of 0 condition.now (with_kept node event kept) }
{
    match leaf_in(Some(condition), node) {
        Some(_leaf) => {
            let mark = &mut marks[node];
            mark.kept = Some(event);
            settle(condition.nodes().as_slice(), hints, marks, node);
        }
        None => {}
    }
}

pub(crate) fn keep_all(
    condition: &Condition,
    hints: &[u16],
    marks: &mut [Mark],
    nodes: &[u16],
    event: EventId,
)
    requires { length marks.old ≡ size condition.now }
    ensures { (kept : Kept) → marks.old ≡ marks_of 0 condition.now kept
        → marks.new ≡ marks_of 0 condition.now (all_kept nodes.now event kept) }
{
    for node in nodes {
        keep(condition, hints, marks, usize::from(*node), event);
    }
}
