//! An expression, kept as its nodes.
ghost use Rattle.std.specs.Prelude.{◌≡◌, ◌≤◌, IfOk};
ghost use Rattle.up_expr.specs.Flat.{IsFlat, size};
ghost use Rattle.up_expr.specs.TreeCode.{tree_in};
ghost use Rattle.up_expr.specs.Trees.{tree_of};
ghost use Rattle.up_expr.specs.declared.flat.TheConstants.{MAX_NODES};

use crate::branch::Branch;
use crate::copies::copy_nodes;
use crate::expr::Expr;
use crate::flat::flatten;
use crate::node::Nodes;
use std::alloc::{AllocError, Global};
use std::marker::Model;

/// An expression of at most 4,095 nodes, seen by contracts as its tree. It is kept as its nodes in one piece of memory.
#[derive(Debug, Drop)]
pub struct Condition {
    nodes: Nodes,
}

impl Model for Condition {
    ghost use Rattle.up_expr.specs.Trees.{Tree};
    ghost use Rattle.up_expr.specs.TreeCode.{tree_code, tree_in};
    ghost use Rattle.up_expr.specs.Flat.{IsFlat};

    ghost Value = { Tree };

    ghost coded = { tree_code };

    ghost view = { λ condition. tree_in condition.nodes };

    ghost invariant = { λ condition. IsFlat condition.nodes (tree_in condition.nodes) };
}

impl Condition {
    pub fn new(alloc: Global, expr: &Expr) -> Result<Self, AllocError>
        requires { size (tree_of expr.now) ≤ MAX_NODES }
        ensures { IfOk result (λ made. made ≡ tree_of expr.now) }
    {
        let nodes = flatten(alloc, expr)?;
        Ok(Condition { nodes })
    }

    pub(crate) fn of(nodes: Nodes) -> Self
        requires { IsFlat nodes (tree_in nodes) }
        ensures { result ≡ tree_in nodes }
    {
        Condition { nodes }
    }

    pub fn nodes(&self) -> &Nodes
        ensures { IsFlat result.now self.now }
    {
        &self.nodes
    }

    /// The whole condition as a branch, to be traversed from its root.
    pub fn root(&self) -> Branch<'_>
        ensures { result ≡ self.now }
    {
        Branch::new(self.nodes.as_slice())
    }

    pub fn copy(&self, alloc: Global) -> Result<Self, AllocError>
        ensures { IfOk result (λ copied. copied ≡ self.now) }
    {
        let nodes = copy_nodes(alloc, self.nodes.as_slice())?;
        Ok(Condition { nodes })
    }
}
