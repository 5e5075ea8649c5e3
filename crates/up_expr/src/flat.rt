//! Lays an expression out as a flat list of nodes.
ghost use Rattle.std.specs.Prelude.{◌≡◌, ◌+◌, ◌-◌, ◌++◌, ◌∷◌, [], ◌<◌, ◌≤◌, IfOk, OnOk, length};
ghost use Rattle.up_expr.specs.declared.flat.TheConstants.{MAX_NODES};
ghost use Rattle.up_expr.specs.Flat.{IsFlat, nodes_of, size};
ghost use Rattle.up_expr.specs.Trees.{tree_of};

use crate::copies::copy_leaf;
use crate::expr::Expr;
use crate::node::{Node, Nodes};
use std::alloc::{AllocError, Global};
use up_text::Items;

/// The greatest number of nodes of an expression.
const MAX_NODES: usize = 4_095;

fn push(nodes: &mut Vec<Node>, node: Node) -> Result<(), AllocError>
    ensures { OnOk result (nodes.new.items ≡ nodes.old.items ++ node ∷ []) }
{
    nodes.push(node)?;
    Ok(())
}

// Appends a node and returns its position.
fn push_node(nodes: &mut Vec<Node>, node: Node) -> Result<u16, AllocError>
    requires room { length nodes.old.items < MAX_NODES }
    ensures pushed { OnOk result (nodes.new.items ≡ nodes.old.items ++ node ∷ []) }
    ensures place { IfOk result (λ place. place ≡ length nodes.old.items) }
{
    let place = nodes.len() as u16;
    push(nodes, node)?;
    Ok(place)
}

// Appends the nodes of an expression and returns the position of the last one, its root.
#[cycle(flattener)]
fn append_nodes(alloc: Global, expr: &Expr, nodes: &mut Vec<Node>) -> Result<u16, AllocError>
    requires room { length nodes.old.items + size (tree_of expr.now) ≤ MAX_NODES }
    ensures appended { OnOk result (nodes.new.items
        ≡ nodes.old.items ++ nodes_of (length nodes.old.items) (tree_of expr.now)) }
    ensures place { IfOk result (λ place. place ≡ length nodes.old.items + size (tree_of expr.now) - 1) }
{
    match expr {
        Expr::Leaf(leaf) => {
            let leaf = copy_leaf(alloc, leaf)?;
            let place = push_node(nodes, Node::Leaf(leaf))?;
            Ok(place)
        }
        Expr::And(left, right) => {
            let first = append_nodes(alloc, left, nodes)?;
            let second = append_nodes(alloc, right, nodes)?;
            let place = push_node(nodes, Node::And(first, second))?;
            Ok(place)
        }
        Expr::Or(left, right) => {
            let first = append_nodes(alloc, left, nodes)?;
            let second = append_nodes(alloc, right, nodes)?;
            let place = push_node(nodes, Node::Or(first, second))?;
            Ok(place)
        }
    }
}

/// The nodes of an expression. They have the same truth value, and the same leaves from left to right.
pub fn flatten(alloc: Global, expr: &Expr) -> Result<Nodes, AllocError>
    requires { size (tree_of expr.now) ≤ MAX_NODES }
    ensures { IfOk result (λ nodes. IsFlat nodes (tree_of expr.now)) }
{
    let mut nodes = Vec::new(alloc);
    append_nodes(alloc, expr, &mut nodes)?;
    Ok(Nodes::new(Items::new(nodes)))
}
