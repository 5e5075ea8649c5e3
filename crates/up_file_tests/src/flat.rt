//! The nodes of expressions: of some that are made by hand, and of a file's.
ghost use Rattle.std.specs.Prelude.{◌≡◌, [], IfOk};
ghost use Rattle.up_expr.specs.Flat.{size};
ghost use Rattle.up_expr.specs.Trees.{tree_of};

use crate::images::folders::table_of;
use crate::images::holds;
use std::alloc::{AllocError, Global};
use std::test::Fail;
use up_expr::{Builder, Condition, Expr, Leaf, Node, Nodes, flatten};
use up_image::Table;
use up_text::{Items, Name, TextFault};
use up_text_tests::written::is_written;

fn leaf_of(alloc: Global, event: &str) -> Result<Leaf, TextFault> {
    let event = Name::new(alloc, event)?;
    Ok(Leaf {
        event,
        values: Items::new(Vec::new(alloc)),
    })
}

fn boxed_leaf(alloc: Global, event: &str) -> Result<Box<Expr>, Fail>
    ensures { IfOk result (λ leaf. size (tree_of leaf.value) ≡ 1) }
{
    let leaf = leaf_of(alloc, event)?;
    Ok(Box::new(alloc, Expr::Leaf(leaf))?)
}

// The expression `a and (b or c)`.
fn expr_of(alloc: Global) -> Result<Expr, Fail>
    ensures { IfOk result (λ expr. size (tree_of expr) ≡ 5) }
{
    let either = Expr::Or(boxed_leaf(alloc, "b")?, boxed_leaf(alloc, "c")?);
    let right = Box::new(alloc, either)?;
    Ok(Expr::And(boxed_leaf(alloc, "a")?, right))
}

// What a node is: the leaf of an event, or an operator with its sides.
enum Said {
    Leaf(&'static str),
    And(u16, u16),
    Or(u16, u16),
}

const TREE: &'static str = "(a and (b or c))";

const NODES: &'static [Said] = &[
    Said::Leaf("a"),
    Said::Leaf("b"),
    Said::Leaf("c"),
    Said::Or(1, 2),
    Said::And(0, 3),
];

fn is_said(node: &Node, said: &Said) -> bool {
    match said {
        Said::Leaf(event) => matches!(node, Node::Leaf(leaf) if leaf.event.as_str() == *event),
        Said::And(first, second) => {
            matches!(node, Node::And(left, right) if left == first && right == second)
        }
        Said::Or(first, second) => {
            matches!(node, Node::Or(left, right) if left == first && right == second)
        }
    }
}

// Whether nodes are these, one after another.
fn are_said(nodes: &Nodes, said: &[Said]) -> bool {
    let list = nodes.as_slice();
    if list.len() != said.len() || nodes.len() != said.len() {
        return false;
    }
    for at in 0..said.len() {
        if !is_said(&list[at], &said[at]) {
            return false;
        }
    }
    true
}

// Whether the nodes of a condition are these, and it is written so. Large values are dropped by a call, here and below: the prover would go
// through each field of what a scope drops.
fn shows(
    alloc: Global,
    condition: Condition,
    said: &[Said],
    tree: &str,
) -> Result<bool, AllocError> {
    let are_said = are_said(condition.nodes(), said);
    let is_written = is_written(alloc, &condition, tree);
    drop(condition);
    Ok(are_said && is_written?)
}

// Whether the expression is laid flat as it should be.
fn is_flat(alloc: Global, expr: &Expr) -> Result<bool, AllocError>
    requires { size (tree_of expr.now) ≡ 5 }
{
    let nodes = flatten(alloc, expr)?;
    let flat = are_said(&nodes, NODES);
    drop(nodes);
    Ok(flat)
}

// So should a condition be that is made of it.
fn is_made(alloc: Global, expr: &Expr) -> Result<bool, AllocError>
    requires { size (tree_of expr.now) ≡ 5 }
{
    Ok(is_flat(alloc, expr)? && shows(alloc, Condition::new(alloc, expr)?, NODES, TREE)?)
}

fn makes(alloc: Global, expr: Expr) -> Result<bool, AllocError>
    requires { size (tree_of expr) ≡ 5 }
{
    let made = is_made(alloc, &expr);
    drop(expr);
    made
}

#[test]
fn an_expression_is_laid_flat(rt: HostRuntime) -> Result<(), Fail> {
    let expr = expr_of(rt.alloc())?;
    if !holds(makes(rt.alloc(), expr)) {
        return Err(Fail::from("its nodes are others"));
    }
    Ok(())
}

// Whether one leaf alone isn't joined, and two are: both, or one or the other.
fn joins(alloc: Global, builder: &mut Builder, both: bool) -> Result<bool, TextFault>
    requires { builder.old ≡ [] }
{
    builder.leaf(leaf_of(alloc, "b")?)?;
    if builder.join(both)? {
        return Ok(false);
    }
    builder.leaf(leaf_of(alloc, "c")?)?;
    Ok(builder.join(both)?)
}

fn is_built(alloc: Global, both: bool, said: &[Said], tree: &str) -> Result<bool, TextFault> {
    let mut builder = Builder::new(alloc);
    let joined = joins(alloc, &mut builder, both);
    if builder.len() == 1 {
        let shows = shows(alloc, builder.finish(), said, tree);
        Ok(joined? && shows?)
    } else {
        drop(builder);
        Ok(false)
    }
}

const EITHER: &'static [Said] = &[Said::Leaf("b"), Said::Leaf("c"), Said::Or(0, 1)];

const BOTH: &'static [Said] = &[Said::Leaf("b"), Said::Leaf("c"), Said::And(0, 1)];

#[test]
fn a_condition_is_built(rt: HostRuntime) {
    assert!(rt;
        holds(is_built(rt.alloc(), false, EITHER, "(b or c)"))
            && holds(is_built(rt.alloc(), true, BOTH, "(b and c)"))
    );
}

const FILES: &'static str = "\
%file a.conf
start on (A and B) or (C and D)
exec x
";

const IN_POST_ORDER: &'static [Said] = &[
    Said::Leaf("A"),
    Said::Leaf("B"),
    Said::And(0, 1),
    Said::Leaf("C"),
    Said::Leaf("D"),
    Said::And(3, 4),
    Said::Or(2, 5),
];

// Whether there is one job, with a condition whose nodes are these.
fn starts_on(table: &Table, said: &[Said]) -> bool {
    if table.len() != 1 {
        return false;
    }
    match &table.job(0).start_on {
        Some(condition) => are_said(condition.nodes(), said),
        None => false,
    }
}

fn file_starts_on(table: Table, said: &[Said]) -> bool {
    let starts = starts_on(&table, said);
    drop(table);
    starts
}

#[test]
fn nodes_stand_in_post_order(rt: HostRuntime) -> Result<(), Fail> {
    let table = table_of(rt.alloc(), FILES)?;
    if !file_starts_on(table, IN_POST_ORDER) {
        return Err(Fail::from("its nodes are others"));
    }
    Ok(())
}
