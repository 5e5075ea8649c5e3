//! Writes the nodes of expressions.
ghost use Rattle.std.specs.Prelude.{◌≡◌, ◌++◌, OnOk, length};
ghost use Rattle.std.specs.List.{flat_map};
ghost use Rattle.byteorder.specs.Endian.{big_bytes};
ghost use Rattle.up_image.specs.Image.{list_part, node_part, nodes_in, test_part};
ghost use Rattle.up_image.specs.Texts.{text_part};

use crate::bytes::{push_u16, put_byte, put_text};
use std::alloc::AllocError;
use up_expr::{Condition, Leaf, Node, Test};

fn put_pair(out: &mut Vec<u8>, key: &str, value: &str) -> Result<(), AllocError>
    ensures { OnOk result (out.new.items ≡ out.old.items ++ (text_part key.now ++ text_part value.now)) }
{
    put_text(out, key)?;
    put_text(out, value)?;
    Ok(())
}

fn put_test(out: &mut Vec<u8>, test: &Test) -> Result<(), AllocError>
    ensures { OnOk result (out.new.items ≡ out.old.items ++ test_part test.now) }
{
    match test {
        Test::Place(value) => {
            put_byte(out, 0)?;
            put_text(out, value.as_str())?;
        }
        Test::Same(key, value) => {
            put_byte(out, 1)?;
            put_pair(out, key.as_str(), value.as_str())?;
        }
        Test::Differs(key, value) => {
            put_byte(out, 2)?;
            put_pair(out, key.as_str(), value.as_str())?;
        }
    }
    Ok(())
}

fn put_each_test(out: &mut Vec<u8>, tests: &[Test]) -> Result<(), AllocError>
    ensures { OnOk result (out.new.items ≡ out.old.items ++ flat_map test_part tests.now) }
{
    for test in tests {
        put_test(out, test)?;
    }
    Ok(())
}

fn put_tests(out: &mut Vec<u8>, tests: &[Test]) -> Result<(), AllocError>
    ensures { OnOk result (out.new.items ≡ out.old.items ++ list_part test_part tests.now) }
{
    push_u16(out, tests.len() as u64)?;
    put_each_test(out, tests)?;
    Ok(())
}

fn put_leaf(out: &mut Vec<u8>, leaf: &Leaf) -> Result<(), AllocError>
    ensures { OnOk result (out.new.items ≡ out.old.items
        ++ (text_part leaf.now.event ++ list_part test_part leaf.now.values)) }
{
    put_text(out, leaf.event.as_str())?;
    put_tests(out, leaf.values.as_slice())?;
    Ok(())
}

fn put_sides(out: &mut Vec<u8>, left: u16, right: u16) -> Result<(), AllocError>
    ensures { OnOk result (out.new.items ≡ out.old.items ++ (big_bytes 2 left ++ big_bytes 2 right)) }
{
    push_u16(out, u64::from(left))?;
    push_u16(out, u64::from(right))?;
    Ok(())
}

fn put_node(out: &mut Vec<u8>, node: &Node) -> Result<(), AllocError>
    ensures { OnOk result (out.new.items ≡ out.old.items ++ node_part node.now) }
{
    match node {
        Node::Leaf(leaf) => {
            put_byte(out, 0)?;
            put_leaf(out, leaf)?;
        }
        Node::And(left, right) => {
            put_byte(out, 1)?;
            put_sides(out, *left, *right)?;
        }
        Node::Or(left, right) => {
            put_byte(out, 2)?;
            put_sides(out, *left, *right)?;
        }
    }
    Ok(())
}

fn put_each_node(out: &mut Vec<u8>, nodes: &[Node]) -> Result<(), AllocError>
    ensures { OnOk result (out.new.items ≡ out.old.items ++ flat_map node_part nodes.now) }
{
    for node in nodes {
        put_node(out, node)?;
    }
    Ok(())
}

fn put_nodes(out: &mut Vec<u8>, nodes: &[Node]) -> Result<(), AllocError>
    ensures { OnOk result (out.new.items ≡ out.old.items ++ list_part node_part nodes.now) }
{
    push_u16(out, nodes.len() as u64)?;
    put_each_node(out, nodes)?;
    Ok(())
}

/// Appends the nodes of a condition, or an empty list without one.
pub(crate) fn put_condition(
    out: &mut Vec<u8>,
    condition: &Option<Condition>,
) -> Result<(), AllocError>
    ensures { OnOk result (out.new.items ≡ out.old.items ++ list_part node_part (nodes_in condition.now)) }
{
    match condition {
        None => push_u16(out, 0)?,
        Some(condition) => put_nodes(out, condition.nodes().as_slice())?,
    }
    Ok(())
}
