//! The node above another in an expression: the one that joins it to what is beside it.
ghost use Rattle.std.specs.Prelude.{◌≡◌, ◌<◌, length};
ghost use Rattle.up_marks.specs.Settling.{IsAbove, joins};

use std::alloc::{AllocError, Global};
use up_expr::Node;

// Whether one of the sides that a node joins has its root at this place.
fn joins(node: &Node, place: usize) -> bool
    ensures { result ≡ joins node.now place }
{
    match node {
        Node::Leaf(_) => false,
        Node::And(left, right) | Node::Or(left, right) => {
            usize::from(*left) == place || usize::from(*right) == place
        }
    }
}

// The place of the node above this one, found by a look at each later one.
fn search_above(nodes: &[Node], place: usize) -> usize
    requires { place < length nodes.now }
    ensures { IsAbove nodes.now place result }
{
    let mut above = place + 1;
    while above < nodes.len() {
        if joins(&nodes[above], place) {
            return above;
        }
        above += 1;
    }
    above
}

/// The place of the node above this one, or the count of nodes if this is the root. Hints of another
/// expression only cost time.
pub(crate) fn node_above(nodes: &[Node], hints: &[u16], place: usize) -> usize
    requires { place < length nodes.now }
    ensures { IsAbove nodes.now place result }
{
    if let Some(hint) = hints.get(place) {
        let above = usize::from(*hint);
        if place < above && above < nodes.len() && joins(&nodes[above], place) {
            return above;
        }
    }
    search_above(nodes, place)
}

fn note(hints: &mut [u16], place: u16, above: u16) {
    if let Some(hint) = hints.get_mut(usize::from(place)) {
        *hint = above;
    }
}

// Notes the node above both sides of a node.
fn note_sides(hints: &mut [u16], node: &Node, above: u16) {
    match node {
        Node::Leaf(_) => {}
        Node::And(left, right) | Node::Or(left, right) => {
            note(hints, *left, above);
            note(hints, *right, above);
        }
    }
}

/// Hints for `node_above`: for each node the place of the one above it.
pub(crate) fn hints_of(alloc: Global, nodes: &[Node]) -> Result<Vec<u16>, AllocError> {
    let mut hints = vec![in alloc; 0; nodes.len()]?;
    let mut above: u16 = 0;
    for node in nodes {
        note_sides(hints.as_mut_slice(), node, above);
        above = above.saturating_add(1);
    }
    Ok(hints)
}
