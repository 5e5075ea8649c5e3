//! Makes an expression from its nodes.
ghost use Rattle.std.specs.Prelude.{◌≡◌, ◌-◌, ◌++◌, ◌∷◌, [], ◌<◌, IfOk, OnErr, OnOk, Some, None, false, if◌then◌else◌, length, get_or, take};
ghost use Rattle.up_expr.specs.declared.flat.TheConstants.{MAX_NODES};
ghost use Rattle.up_expr.specs.Laying.{join_node, sizes};
ghost use Rattle.up_expr.specs.TreeCode.{joined};
ghost use Rattle.up_expr.specs.Trees.{One};

use crate::condition::Condition;
use crate::expr::Leaf;
use crate::node::{Node, Nodes};
use std::alloc::{AllocError, Global};
use std::marker::Model;
use up_text::Items;

/// Makes an expression of leaves, each added before the operator that joins it. Contracts see it as the trees made so far, the newest
/// first.
#[derive(Drop)]
pub struct Builder {
    nodes: Vec<Node>,
    // The index of the first node of each tree.
    starts: Vec<u16>,
}

impl Model for Builder {
    ghost use Rattle.std.specs.Prelude.{List, []};
    ghost use Rattle.up_expr.specs.Laying.{AreTrees};
    ghost use Rattle.up_expr.specs.Trees.{Tree};
    ghost use Rattle.std.specs.Coded.{coded_list};
    ghost use Rattle.up_expr.specs.TreeCode.{tree_code, trees_after};

    ghost Value = { List Tree };

    ghost coded = { coded_list tree_code };

    ghost view = { λ builder. trees_after builder.nodes.items [] };

    ghost invariant = { λ builder. AreTrees builder.nodes.items builder.starts.items };
}

// Out of memory, nothing changes.
fn push_node(nodes: &mut Vec<Node>, node: Node) -> Result<(), AllocError>
    ensures pushed { OnOk result (nodes.new.items ≡ nodes.old.items ++ node ∷ []) }
    ensures unchanged { OnErr result (nodes.new.items ≡ nodes.old.items) }
{
    nodes.push(node)?;
    Ok(())
}

// Out of memory, nothing changes.
fn push_start(starts: &mut Vec<u16>, start: u16) -> Result<(), AllocError>
    ensures pushed { OnOk result (starts.new.items ≡ starts.old.items ++ start ∷ []) }
    ensures unchanged { OnErr result (starts.new.items ≡ starts.old.items) }
{
    starts.push(start)?;
    Ok(())
}

fn pop_start(starts: &mut Vec<u16>)
    ensures { starts.new.items ≡ take (length starts.old.items - 1) starts.old.items }
{
    let _start = starts.pop();
}

// The node that joins the last two trees.
fn joining(nodes: usize, starts: &[u16], both: bool) -> Node
    requires there { 0 < length starts.now }
    requires few { nodes < MAX_NODES }
    ensures { result ≡ join_node both (get_or starts.now (length starts.now - 1) 0 - 1) (nodes - 1) }
{
    let left = starts[starts.len() - 1].saturating_sub(1);
    let right = nodes.saturating_sub(1) as u16;
    if both {
        Node::And(left, right)
    } else {
        Node::Or(left, right)
    }
}

impl Builder {
    pub fn new(alloc: Global) -> Self
        ensures { result ≡ [] }
    {
        Builder {
            nodes: Vec::new(alloc),
            starts: Vec::new(alloc),
        }
    }

    /// The number of trees that aren't joined yet.
    pub fn len(&self) -> usize
        ensures { result ≡ length self.now }
    {
        self.starts.len()
    }

    /// Adds a leaf. Out of memory, nothing changes.
    pub fn leaf(&mut self, leaf: Leaf) -> Result<(), AllocError>
        requires { sizes self.old < MAX_NODES }
        ensures added { OnOk result (self.new ≡ One leaf ∷ self.old) }
        ensures unchanged { OnErr result (self.new ≡ self.old) }
    {
        let start = self.nodes.len() as u16;
        push_start(&mut self.starts, start)?;
        match push_node(&mut self.nodes, Node::Leaf(leaf)) {
            Ok(()) => Ok(()),
            Err(error) => {
                pop_start(&mut self.starts);
                Err(error)
            }
        }
    }

    /// Joins the newest two trees, the older one on the left, by `and` or `or`. Returns whether there are two. If there aren't, or memory
    /// runs out, nothing changes.
    pub fn join(&mut self, both: bool) -> Result<bool, AllocError>
        requires { sizes self.old < MAX_NODES }
        ensures joined { IfOk result (λ done. joined both self.old ≡ (if done then Some self.new else None)) }
        ensures few { IfOk result (λ done. done ≡ false → self.new ≡ self.old) }
        ensures unchanged { OnErr result (self.new ≡ self.old) }
    {
        if self.starts.len() < 2 {
            return Ok(false);
        }
        let node = joining(self.nodes.len(), self.starts.as_slice(), both);
        push_node(&mut self.nodes, node)?;
        pop_start(&mut self.starts);
        Ok(true)
    }

    /// The one expression that is left.
    pub fn finish(self) -> Condition
        requires { length self ≡ 1 }
        ensures { self ≡ result ∷ [] }
    {
        let Builder { nodes, .. } = self;
        Condition::of(Nodes::new(Items::new(nodes)))
    }
}
