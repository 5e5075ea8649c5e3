//! Checks whether files can define an expression.
ghost use Rattle.std.specs.Prelude.{◌≡◌, ◌-◌, Some};
ghost use Rattle.std.specs.List.{list_all};
ghost use Rattle.up_expr.specs.Values as values;
ghost use Rattle.up_image.specs.Definable as definable;
ghost use Rattle.up_image.specs.Image.{is_short};

use crate::definable_texts::{is_name, is_token};
use crate::limits::{MAX_DEPTH, MAX_ITEMS, MAX_NODES};
use up_expr::{Branch, Condition, Leaf, Node, Root, Test};
use up_text::env::is_key;
use up_text::{is_expandable, supported};

// Whether a text is a key followed by `!`.
fn is_negated_key(text: &str) -> bool
    ensures { result ≡ values.is_negated_key text.now }
{
    match text.strip_suffix("!") {
        Some(key) => is_key(key),
        None => false,
    }
}

// Whether a text would be read as KEY=VALUE or KEY!=VALUE.
fn looks_keyed(text: &str) -> bool
    ensures { result ≡ definable.looks_keyed text.now }
{
    match text.split_once('=') {
        Some((key, _)) => is_key(key) || is_negated_key(key),
        None => false,
    }
}

fn is_leaf_value(value: &str) -> bool
    ensures { result ≡ definable.is_leaf_value value.now }
{
    is_token(value) && is_expandable(value) && supported(value.as_bytes())
}

fn is_test(test: &Test) -> bool
    ensures { result ≡ definable.is_test test.now }
{
    match test {
        Test::Place(value) => is_leaf_value(value.as_str()) && !looks_keyed(value.as_str()),
        Test::Same(key, value) => is_key(key.as_str()) && is_leaf_value(value.as_str()),
        Test::Differs(key, value) => is_key(key.as_str()) && is_leaf_value(value.as_str()),
    }
}

fn are_tests(tests: &[Test]) -> bool
    ensures { result ≡ list_all definable.is_test tests.now }
{
    tests.iter().all(|test| is_test(test))
}

fn is_positional(test: &Test) -> bool
    ensures { result ≡ values.is_positional test.now }
{
    matches!(test, Test::Place(_))
}

// Whether no positional value comes after a keyed one.
fn is_ordered(tests: &[Test]) -> bool
    ensures { result ≡ values.is_ordered tests.now }
{
    let mut setting_with = false;
    for test in tests {
        if !is_positional(test) {
            setting_with = true;
        } else if setting_with {
            return false;
        }
    }
    true
}

fn is_leaf(leaf: &Leaf) -> bool
    ensures { result ≡ definable.is_leaf leaf.now }
{
    is_name(&leaf.event)
        && are_tests(leaf.values.as_slice())
        && is_ordered(leaf.values.as_slice())
        && leaf.values.as_slice().len() <= MAX_ITEMS
}

// Whether files can define a leaf. True of any other node.
fn is_node(node: &Node) -> bool
    ensures { result ≡ definable.is_node node.now }
{
    match node {
        Node::Leaf(leaf) => is_leaf(leaf),
        Node::And(_, _) | Node::Or(_, _) => true,
    }
}

fn are_nodes(nodes: &[Node]) -> bool
    ensures { result ≡ list_all definable.is_node nodes.now }
{
    nodes.iter().all(|node| is_node(node))
}

// Whether files can define each leaf of an expression.
fn are_leaves(condition: &Condition) -> bool
    ensures { result ≡ definable.are_leaves condition.now }
{
    are_nodes(condition.nodes().as_slice())
}

fn is_lone(branch: &Branch) -> bool
    ensures { result ≡ definable.is_lone branch.now }
{
    matches!(branch.root(), Root::Leaf(_))
}

// Whether an expression needs parentheses of at most this depth.
#[cycle(depths)]
fn is_shallow(branch: &Branch, depth: u16) -> bool
    ensures { result ≡ definable.is_shallow depth branch.now }
{
    match branch.root() {
        Root::Leaf(_) => true,
        Root::And(left, right) => {
            is_shallow(&left, depth)
                && (is_lone(&right) || (1 <= depth && is_shallow(&right, depth - 1)))
        }
        Root::Or(left, right) => {
            is_shallow(&left, depth)
                && (is_lone(&right) || (1 <= depth && is_shallow(&right, depth - 1)))
        }
    }
}

// Always true: no expression has more than `MAX_NODES` nodes.
fn is_short(condition: &Condition) -> bool
    ensures { result ≡ is_short (Some condition.now) }
{
    condition.root().len() <= usize::from(MAX_NODES)
}

/// Whether files can define an expression, which may be absent.
pub(crate) fn can_await(condition: &Option<Condition>) -> bool
    ensures { result ≡ definable.can_await condition.now }
{
    match condition {
        None => true,
        Some(condition) => {
            are_leaves(condition) && is_shallow(&condition.root(), MAX_DEPTH) && is_short(condition)
        }
    }
}
