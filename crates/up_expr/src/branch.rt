//! A part of an expression, within its nodes.
ghost use Rattle.std.specs.Prelude.{◌≡◌, ◌-◌, ◌++◌, ◌∷◌, [], ◌<◌, ◌≤◌, length, take, drop};
ghost use Rattle.up_expr.specs.Branches.{tree_at};
ghost use Rattle.up_expr.specs.Flat.{size};
ghost use Rattle.up_expr.specs.Laying.{IsLaid};
ghost use Rattle.up_expr.specs.TreeCode.{tree_in};

use crate::expr::Leaf;
use crate::node::Node;
use std::marker::Model;

/// A part of an expression: one of its operators, with everything below it, or a leaf. Contracts see it as its tree.
#[derive(Drop)]
pub struct Branch<'a> {
    // The nodes of the part, its root last.
    nodes: &'a [Node],
}

impl<'a> Model for Branch<'a> {
    ghost use Rattle.up_expr.specs.Laying.{IsLaid};
    ghost use Rattle.up_expr.specs.Trees.{Tree};
    ghost use Rattle.up_expr.specs.TreeCode.{tree_code, tree_in};

    ghost Value = { Tree };

    ghost coded = { tree_code };

    ghost view = { λ branch. tree_in branch.nodes.now };

    ghost invariant = { λ branch. IsLaid branch.nodes.now };
}

/// The root of a part of an expression.
#[derive(Drop)]
pub enum Root<'a> {
    /// An event that the leaf matches.
    Leaf(&'a Leaf),
    /// Both sides.
    And(Branch<'a>, Branch<'a>),
    /// One side or the other.
    Or(Branch<'a>, Branch<'a>),
}

// The nodes below the root, and the root.
fn split_root(nodes: &[Node]) -> (&[Node], &Node)
    requires { 0 < length nodes.now }
    ensures { nodes.now ≡ result.0.now ++ result.1.now ∷ [] }
{
    let below = nodes.len() - 1;
    (&nodes[..below], &nodes[below])
}

// The nodes of the left side and those of the right one, by the positions of their roots.
fn sides(nodes: &[Node], left: u16, right: u16) -> (&[Node], &[Node])
    requires order { left ≤ right }
    requires within { right - left ≤ length nodes.now }
    ensures left { result.0.now ≡ take (length nodes.now - (right - left)) nodes.now }
    ensures right { result.1.now ≡ drop (length nodes.now - (right - left)) nodes.now }
{
    nodes.split_at(nodes.len() - usize::from(right - left))
}

impl<'a> Branch<'a> {
    pub(crate) fn new(nodes: &'a [Node]) -> Self
        requires { IsLaid nodes.now }
        ensures { result ≡ tree_in nodes.now }
    {
        Branch { nodes }
    }

    pub fn len(&self) -> usize
        ensures count { result ≡ size self.now }
        ensures some { 0 < result }
    {
        self.nodes.len()
    }

    pub fn root(&self) -> Root<'a>
        ensures { tree_at result ≡ self.now }
    {
        let (below, root) = split_root(self.nodes);
        match root {
            Node::Leaf(leaf) => Root::Leaf(leaf),
            Node::And(left, right) => {
                let (left, right) = sides(below, *left, *right);
                Root::And(Branch::new(left), Branch::new(right))
            }
            Node::Or(left, right) => {
                let (left, right) = sides(below, *left, *right);
                Root::Or(Branch::new(left), Branch::new(right))
            }
        }
    }
}
