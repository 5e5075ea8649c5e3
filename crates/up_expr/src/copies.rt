//! Equal copies of the nodes of expressions.
ghost use Rattle.std.specs.Prelude.{◌≡◌, IfOk};

use crate::expr::{Leaf, Test};
use crate::node::{Node, Nodes};
use std::alloc::{AllocError, Global};
use up_text::Items;

fn copy_test(test: &Test) -> Result<Test, AllocError>
    ensures { IfOk result (λ copied. copied ≡ test.now) }
{
    match test {
        Test::Place(value) => {
            let value = value.copy()?;
            Ok(Test::Place(value))
        }
        Test::Same(key, value) => {
            let key = key.copy()?;
            let value = value.copy()?;
            Ok(Test::Same(key, value))
        }
        Test::Differs(key, value) => {
            let key = key.copy()?;
            let value = value.copy()?;
            Ok(Test::Differs(key, value))
        }
    }
}

fn copy_tests(alloc: Global, tests: &[Test]) -> Result<Items<Test>, AllocError>
    ensures { IfOk result (λ copied. copied ≡ tests.now) }
{
    let mut copied: Vec<Test> = Vec::new(alloc);
    for test in tests {
        copied.push(copy_test(test)?)?;
    }
    Ok(Items::new(copied))
}

pub(crate) fn copy_leaf(alloc: Global, leaf: &Leaf) -> Result<Leaf, AllocError>
    ensures { IfOk result (λ copied. copied ≡ leaf.now) }
{
    let event = leaf.event.copy()?;
    let values = copy_tests(alloc, leaf.values.as_slice())?;
    Ok(Leaf { event, values })
}

fn copy_node(alloc: Global, node: &Node) -> Result<Node, AllocError>
    ensures { IfOk result (λ copied. copied ≡ node.now) }
{
    match node {
        Node::Leaf(leaf) => {
            let leaf = copy_leaf(alloc, leaf)?;
            Ok(Node::Leaf(leaf))
        }
        Node::And(left, right) => Ok(Node::And(*left, *right)),
        Node::Or(left, right) => Ok(Node::Or(*left, *right)),
    }
}

pub(crate) fn copy_nodes(alloc: Global, nodes: &[Node]) -> Result<Nodes, AllocError>
    ensures { IfOk result (λ copied. copied ≡ nodes.now) }
{
    let mut copied: Vec<Node> = Vec::new(alloc);
    for node in nodes {
        copied.push(copy_node(alloc, node)?)?;
    }
    Ok(Nodes::new(Items::new(copied)))
}
