//! Expressions, written as text.
use std::alloc::{AllocError, Global};
use up_expr::{Branch, Condition, Leaf, Root, Test};

fn write_test(out: &mut String, test: &Test) -> Result<(), AllocError> {
    let (key, sign, value) = match test {
        Test::Place(value) => ("", "", value),
        Test::Same(key, value) => (key.as_str(), "=", value),
        Test::Differs(key, value) => (key.as_str(), "!=", value),
    };
    write!(out, " {key}{sign}'{}'", value.as_str())
}

// A leaf with its values in quotes.
fn write_leaf(out: &mut String, leaf: &Leaf) -> Result<(), AllocError> {
    out.push_str(leaf.event.as_str())?;
    for test in leaf.values.as_slice() {
        write_test(out, test)?;
    }
    Ok(())
}

// A tree with parentheses round each operator.
#[cycle(trees)]
fn write_tree(out: &mut String, branch: &Branch) -> Result<(), AllocError> {
    let (left, word, right) = match branch.root() {
        Root::Leaf(leaf) => return write_leaf(out, leaf),
        Root::And(left, right) => (left, " and ", right),
        Root::Or(left, right) => (left, " or ", right),
    };
    out.push_str("(")?;
    write_tree(out, &left)?;
    out.push_str(word)?;
    write_tree(out, &right)?;
    out.push_str(")")
}

/// Whether an expression is this tree, with parentheses round each operator, and with the values of leaves in quotes.
pub fn is_written(alloc: Global, condition: &Condition, tree: &str) -> Result<bool, AllocError> {
    let mut written = String::new(alloc);
    write_tree(&mut written, &condition.root())?;
    Ok(written.as_str() == tree)
}
