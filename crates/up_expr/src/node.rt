//! Expressions as flat lists of nodes.
ghost use Rattle.std.specs.Prelude.{◌≡◌, ◌<◌, Some, length, slice_get};

use crate::expr::Leaf;
use std::marker::Model;
use up_text::Items;

/// A node of an expression. Its sides are positions among the nodes.
#[derive(Debug, Drop)]
pub enum Node {
    /// An event that the leaf matches.
    Leaf(Leaf),
    /// Both sides.
    And(u16, u16),
    /// One side or the other.
    Or(u16, u16),
}

/// The nodes of an expression, seen by contracts as their list in post-order: the right side is just before its parent, the left side just
/// before the first node of the right one, and the last node is the root.
#[derive(Debug, Drop)]
pub struct Nodes {
    nodes: Items<Node>,
}

impl Model for Nodes {
    ghost use Rattle.std.specs.Prelude.{List};
    ghost use Rattle.up_expr.specs.declared.node.Node.{Node};
    ghost use Rattle.up_expr.specs.contracts.node.Node as node;
    ghost use Rattle.std.specs.Coded.{coded_list};

    ghost Value = { List Node };

    ghost coded = { coded_list node.the_row.coded };

    ghost view = { λ n. n.nodes };
}

impl Nodes {
    pub(crate) fn new(nodes: Items<Node>) -> Self
        ensures { result ≡ nodes }
    {
        Nodes { nodes }
    }

    pub fn len(&self) -> usize
        ensures { result ≡ length self.now }
    {
        self.as_slice().len()
    }

    pub fn node(&self, i: usize) -> &Node
        requires { i < length self.now }
        ensures { slice_get self.now i ≡ Some result.now }
    {
        &self.as_slice()[i]
    }

    pub fn as_slice(&self) -> &[Node]
        ensures { result.now ≡ self.now }
    {
        self.nodes.as_slice()
    }
}
