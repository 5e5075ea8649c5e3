//! Whether two expressions are the same.
ghost use Rattle.std.specs.Prelude.{◌≡◌};
ghost use Rattle.std.specs.Cmp.Lexicographic.{pointwise};
ghost use Rattle.up_expr.specs.Trees.{One};
ghost use Rattle.up_tools.specs.Same.{same_leaf, same_option, same_test, same_tree};

use up_expr::{Branch, Condition, Leaf, Root, Test};

fn same_test(test: &Test, other: &Test) -> bool
    ensures { result ≡ same_test test.now other.now }
{
    match (test, other) {
        (Test::Place(value), Test::Place(other)) => value.as_str() == other.as_str(),
        (Test::Same(key, value), Test::Same(second, other)) => {
            key.as_str() == second.as_str() && value.as_str() == other.as_str()
        }
        (Test::Differs(key, value), Test::Differs(second, other)) => {
            key.as_str() == second.as_str() && value.as_str() == other.as_str()
        }
        _ => false,
    }
}

fn same_tests(tests: &[Test], others: &[Test]) -> bool
    ensures { result ≡ pointwise same_test tests.now others.now }
{
    if tests.len() != others.len() {
        return false;
    }
    for i in 0..tests.len() {
        if !same_test(&tests[i], &others[i]) {
            return false;
        }
    }
    true
}

fn same_leaf(leaf: &Leaf, other: &Leaf) -> bool
    ensures { result ≡ same_leaf leaf.now other.now }
{
    leaf.event.as_str() == other.event.as_str()
        && same_tests(leaf.values.as_slice(), other.values.as_slice())
}

fn same_tree(branch: &Branch<'_>, other: &Branch<'_>) -> bool
    ensures { result ≡ same_tree branch.now other.now }
{
    match (branch.root(), other.root()) {
        (Root::Leaf(leaf), Root::Leaf(other)) => same_leaf(leaf, other),
        (Root::And(left, right), Root::And(first, second)) => {
            same_tree(&left, &first) && same_tree(&right, &second)
        }
        (Root::Or(left, right), Root::Or(first, second)) => {
            same_tree(&left, &first) && same_tree(&right, &second)
        }
        _ => false,
    }
}

/// Whether two expressions are the same, or both are missing.
pub(crate) fn same_condition(condition: &Option<Condition>, other: &Option<Condition>) -> bool
    ensures { result ≡ same_option same_tree condition.now other.now }
{
    match (condition, other) {
        (None, None) => true,
        (Some(condition), Some(other)) => same_tree(&condition.root(), &other.root()),
        _ => false,
    }
}
