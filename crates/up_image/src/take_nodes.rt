//! Reads expressions from their nodes. The places in a node aren't checked: the image is written again from what was read, and is
//! accepted only if it is the same.
ghost use Rattle.std.specs.Prelude.{◌≡◌, ◌+◌, ◌<◌, ◌≤◌, [], ◌∷◌, ◌++◌, OnOk};
ghost use Rattle.up_expr.specs.Laying.{sizes};
ghost use Rattle.up_expr.specs.TreeCode.{joined};
ghost use Rattle.up_image.specs.declared.limits.TheConstants.{MAX_NODES};
ghost use Rattle.up_image.specs.Finding.{Reads, after_sides, condition_at, items_at, joined_by, keyed_by, leaf_at, list_at, made, node_at, one_tree, test_at, trees_at};

use crate::limits::MAX_NODES;
use crate::read_fault::ReadFault;
use crate::take::{push, take_byte, take_name, take_text, take_two};
use std::alloc::Global;
use up_expr::{Builder, Condition, Leaf, Test};
use up_text::{Items, Text};

fn setting_with(kind: u8, key: Text, value: Text) -> Result<Test, ReadFault>
    ensures { Reads (λ x. x) result (keyed_by kind key value) }
{
    match kind {
        1 => Ok(Test::Same(key, value)),
        2 => Ok(Test::Differs(key, value)),
        _ => Err(ReadFault::BadTable),
    }
}

#[tactic(auto, unfolding(crate::specs::Finding::test_at))]
fn take_test(alloc: Global, bytes: &[u8]) -> Result<(Test, &[u8]), ReadFault>
    ensures { Reads (λ x. (x.0, x.1.now)) result (test_at bytes.now) }
{
    let (kind, rest) = take_byte(bytes)?;
    let (first, rest) = take_text(alloc, rest)?;
    if kind == 0 {
        return Ok((Test::Place(first), rest));
    }
    let (value, rest) = take_text(alloc, rest)?;
    let test = setting_with(kind, first, value)?;
    Ok((test, rest))
}

// Reads a value and appends it, and returns the bytes after it.
fn add_test<'a>(
    alloc: Global,
    tests: &mut Vec<Test>,
    bytes: &'a [u8],
) -> Result<&'a [u8], ReadFault>
    ensures { Reads (λ rest. (tests.new.items, rest.now)) result
        (made (λ test. tests.old.items ++ test ∷ []) (test_at bytes.now)) }
{
    let (test, rest) = take_test(alloc, bytes)?;
    push(tests, test)?;
    Ok(rest)
}

#[tactic(auto, using(crate::proofs::Counting::items_left))]
fn take_each_test(
    alloc: Global,
    bytes: &[u8],
    count: u16,
) -> Result<(Items<Test>, &[u8]), ReadFault>
    ensures { Reads (λ x. (x.0, x.1.now)) result (items_at test_at count [] bytes.now) }
{
    let mut rest = bytes;
    let mut tests = Vec::new(alloc);
    for i in 0..count {
        rest = add_test(alloc, &mut tests, rest)?;
    }
    Ok((Items::new(tests), rest))
}

fn take_tests(alloc: Global, bytes: &[u8]) -> Result<(Items<Test>, &[u8]), ReadFault>
    ensures { Reads (λ x. (x.0, x.1.now)) result (list_at test_at bytes.now) }
{
    let (count, rest) = take_two(bytes)?;
    take_each_test(alloc, rest, count)
}

#[tactic(auto, unfolding(crate::specs::Finding::leaf_at))]
fn take_leaf(alloc: Global, bytes: &[u8]) -> Result<(Leaf, &[u8]), ReadFault>
    ensures { Reads (λ x. (x.0, x.1.now)) result (leaf_at bytes.now) }
{
    let (event, rest) = take_name(alloc, bytes)?;
    let (values, rest) = take_tests(alloc, rest)?;
    Ok((Leaf { event, values }, rest))
}

// Skips the places of a node's sides.
fn skip_sides(bytes: &[u8]) -> Result<&[u8], ReadFault>
    ensures { Reads (λ x. x.now) result (after_sides bytes.now) }
{
    let (_, rest) = take_two(bytes)?;
    let (_, rest) = take_two(rest)?;
    Ok(rest)
}

// Joins the newest two of the trees read so far.
fn join(builder: &mut Builder, both: bool) -> Result<(), ReadFault>
    requires { sizes builder.old < MAX_NODES }
    ensures { Reads (λ _. builder.new) result (joined both builder.old) }
{
    if builder.join(both)? {
        return Ok(());
    }
    Err(ReadFault::BadTable)
}

fn join_by(builder: &mut Builder, kind: u8) -> Result<(), ReadFault>
    requires { sizes builder.old < MAX_NODES }
    ensures { Reads (λ _. builder.new) result (joined_by kind builder.old) }
{
    match kind {
        1 => join(builder, true),
        2 => join(builder, false),
        _ => Err(ReadFault::BadTable),
    }
}

// Reads a node: a leaf is a tree of its own, and another joins the newest two.
#[tactic(auto, unfolding(crate::specs::Finding::node_at))]
fn take_node<'a>(
    alloc: Global,
    builder: &mut Builder,
    bytes: &'a [u8],
) -> Result<&'a [u8], ReadFault>
    requires { sizes builder.old < MAX_NODES }
    ensures read { Reads (λ rest. (builder.new, rest.now)) result (node_at builder.old bytes.now) }
    ensures few { OnOk result (sizes builder.new ≤ sizes builder.old + 1) }
{
    let (kind, rest) = take_byte(bytes)?;
    if kind == 0 {
        let (leaf, rest) = take_leaf(alloc, rest)?;
        builder.leaf(leaf)?;
        return Ok(rest);
    }
    let rest = skip_sides(rest)?;
    join_by(builder, kind)?;
    Ok(rest)
}

// Reads `count` nodes, and returns their trees and the bytes after them.
#[tactic(auto, using(crate::proofs::Counting::trees_left))]
fn take_trees(alloc: Global, bytes: &[u8], count: u16) -> Result<(Builder, &[u8]), ReadFault>
    requires { count ≤ MAX_NODES }
    ensures { Reads (λ x. (x.0, x.1.now)) result (trees_at count [] bytes.now) }
{
    let mut rest = bytes;
    let mut builder = Builder::new(alloc);
    for i in 0..count {
        rest = take_node(alloc, &mut builder, rest)?;
    }
    Ok((builder, rest))
}

// The only tree, or None if there is none. Several are refused.
fn one_tree(builder: Builder) -> Result<Option<Condition>, ReadFault>
    ensures { Reads (λ x. x) result (one_tree builder) }
{
    match builder.len() {
        0 => Ok(None),
        1 => Ok(Some(builder.finish())),
        _ => Err(ReadFault::BadTable),
    }
}

/// Reads an expression, which may be absent.
#[tactic(auto, unfolding(crate::specs::Finding::condition_at))]
pub(crate) fn take_condition(
    alloc: Global,
    bytes: &[u8],
) -> Result<(Option<Condition>, &[u8]), ReadFault>
    ensures { Reads (λ x. (x.0, x.1.now)) result (condition_at bytes.now) }
{
    let (count, rest) = take_two(bytes)?;
    if count > MAX_NODES {
        return Err(ReadFault::BadTable);
    }
    let (trees, rest) = take_trees(alloc, rest, count)?;
    let condition = one_tree(trees)?;
    Ok((condition, rest))
}
