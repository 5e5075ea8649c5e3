//! Reads an expression from its tokens.
ghost use Rattle.std.specs.Prelude.{◌≡◌, ◌≤◌, ◌<◌, ◌+◌, ◌∷◌, List, ℕ, Some, None, IfErr, IfOk, OnErr, MatchOption, true, false, length, drop};
ghost use Rattle.std.specs.List.{list_any};
ghost use Rattle.up_expr.specs.Parsing.{Pending, at, Before, After, outcome, operators, begin};
ghost use Rattle.up_text.specs.Lists.{begins};
ghost use Rattle.up_expr.specs.Syntax.{Writes};
ghost use Rattle.up_expr.specs.Trees.{Tree, One};
ghost use Rattle.up_expr.specs.Parts.{Keeps};
ghost use Rattle.up_expr.specs.declared.expr.Leaf.{Leaf};
ghost use Rattle.up_expr.specs.declared.flat.TheConstants.{MAX_NODES};
ghost use Rattle.up_expr.specs.Flat.{size};
ghost use Rattle.up_expr.specs.Values as values;
ghost use Rattle.up_expr.specs.declared.fault.ExprFault.TheVariants.{Memory};

use crate::condition::Condition;
use crate::expr::Expr;
use crate::fault::ExprFault;
use crate::operand::read_leaf;
use crate::parsed::Parsed;
use crate::symbol::{is_and, is_close, is_open, is_operator, leaf_len};
use std::alloc::{AllocError, Global};
use up_text::Token;

/// The greatest number of parentheses that are open at once.
const MAX_DEPTH: usize = 256;

/// The greatest number of operators: one less than the 2,048 leaves of 4,095 nodes.
const MAX_OPERATORS: usize = 2_047;

// Joins two trees by an operator.
fn join_trees(
    alloc: Global,
    left: Parsed,
    operator: &Token,
    right: Parsed,
) -> Result<Parsed, AllocError>
    ensures { IfOk result (λ both. both ≡ Rattle.up_expr.specs.Syntax.join_trees operator.now left right) }
{
    let left = Box::new(alloc, left.into_expr())?;
    let right = Box::new(alloc, right.into_expr())?;
    if is_and(operator) {
        Ok(Parsed::new(Expr::And(left, right)))
    } else {
        Ok(Parsed::new(Expr::Or(left, right)))
    }
}

// The same for trees that are `None` if memory ran out: then nothing is kept, and the rest is still read, so that a fault there is reported
// instead of `Memory`.
fn join(
    alloc: Global,
    left: Option<Parsed>,
    operator: &Token,
    right: Option<Parsed>,
) -> Option<Parsed>
    ensures { (l r : Tree) → Keeps left l → Keeps right r
        → Keeps result (Rattle.up_expr.specs.Syntax.join_trees operator.now l r) }
{
    match left {
        Some(left) => match right {
            Some(right) => match join_trees(alloc, left, operator, right) {
                Ok(both) => Some(both),
                Err(_) => None,
            },
            None => None,
        },
        None => None,
    }
}

// The leaf that the tokens spell, or `None` if memory ran out.
fn keep_leaf(alloc: Global, tokens: &[Token]) -> Result<Option<Parsed>, ExprFault>
    requires { list_any values.is_symbol tokens.now ≡ false }
    ensures read { IfOk result (λ kept. (leaf : Leaf) × (values.leaf_of tokens.now ≡ Some leaf)
        × Keeps kept (One leaf)) }
    ensures refused { OnErr result (values.leaf_of tokens.now ≡ None) }
    ensures fault { IfErr result (λ fault. fault ≡ Memory → ⊥) }
{
    match read_leaf(alloc, tokens) {
        Ok(leaf) => Ok(Some(Parsed::new(Expr::Leaf(leaf)))),
        Err(ExprFault::Memory) => Ok(None),
        Err(fault) => Err(fault),
    }
}

// The leaf at the start, and the rest after it.
fn read_operand(alloc: Global, tokens: &[Token]) -> Result<(Option<Parsed>, &[Token]), ExprFault>
    requires { begins values.is_open tokens.now ≡ false }
    ensures read { IfOk result (λ found. (tree : Tree) × Keeps found.0 tree
        × ((outer : List Pending) (left : Pending)
        → outcome tokens.now (at outer left Before) ≡ outcome found.1.now (at outer left (After tree)))) }
    ensures refused { OnErr result ((outer : List Pending) (left : Pending)
        → outcome tokens.now (at outer left Before) ≡ None) }
    ensures fault { IfErr result (λ fault. fault ≡ Memory → ⊥) }
    ensures shorter { IfOk result (λ found. length found.1.now < length tokens.now) }
{
    let (own, after) = tokens.split_at(leaf_len(tokens));
    match keep_leaf(alloc, own) {
        Ok(leaf) => Ok((leaf, after)),
        Err(fault) => Err(fault),
    }
}

// The opening parenthesis at the start, if there is one, and the rest after it.
fn after_open(tokens: &[Token]) -> Option<(&Token, &[Token])>
    ensures { MatchOption result (begins values.is_open tokens.now
        ≡ false) (λ found. (tokens.now ≡ found.0.now ∷ found.1.now) × (values.is_open found.0.now ≡ true)) }
{
    tokens.split_first().filter(|(token, _)| is_open(token))
}

// The rest after a closing parenthesis, which is required.
fn after_close(tokens: &[Token]) -> Result<&[Token], ExprFault>
    ensures ok { IfOk result (λ after. (begins values.is_close tokens.now ≡ true)
        × (after.now ≡ drop 1 tokens.now) × (0 < length tokens.now)) }
    ensures refused { OnErr result (begins values.is_close tokens.now ≡ false) }
    ensures fault { IfErr result (λ fault. fault ≡ Memory → ⊥) }
{
    match tokens.split_first() {
        Some((token, after)) if is_close(token) => Ok(after),
        _ => Err(ExprFault::BadExpression),
    }
}

// The operator at the start, if there is one, and the rest after it.
fn after_operator(tokens: &[Token]) -> Option<(&Token, &[Token])>
    ensures { MatchOption result (begins values.is_operator tokens.now
        ≡ false) (λ found. (tokens.now ≡ found.0.now ∷ found.1.now)
        × (values.is_operator found.0.now ≡ true)) }
{
    tokens.split_first().filter(|(token, _)| is_operator(token))
}

// The leaf or the parenthesized expression at the start, inside `depth` open parentheses, and the rest after it.
#[cycle(parser)]
fn parse_item(
    alloc: Global,
    tokens: &[Token],
    depth: usize,
) -> Result<(Option<Parsed>, &[Token]), ExprFault>
    ensures read { IfOk result (λ found. (tree : Tree) × Keeps found.0 tree
        × ((outer : List Pending) (left : Pending) → length outer ≡ depth
        → outcome tokens.now (at outer left Before) ≡ outcome found.1.now (at outer left (After tree)))) }
    ensures refused { OnErr result ((outer : List Pending) (left : Pending) → length outer ≡ depth
        → outcome tokens.now (at outer left Before) ≡ None) }
    ensures fault { IfErr result (λ fault. fault ≡ Memory → ⊥) }
    ensures shorter { IfOk result (λ found. length found.1.now < length tokens.now) }
{
    let Some((_, inner)) = after_open(tokens) else {
        return read_operand(alloc, tokens);
    };
    if depth >= MAX_DEPTH {
        return Err(ExprFault::TooLarge);
    }
    match parse_items(alloc, inner, depth + 1) {
        Ok((tree, rest)) => match after_close(rest) {
            Ok(after) => Ok((tree, after)),
            Err(fault) => Err(fault),
        },
        Err(fault) => Err(fault),
    }
}

// The longest expression at the start, inside `depth` open parentheses, and the rest after it.
#[cycle(parser)]
fn parse_items(
    alloc: Global,
    tokens: &[Token],
    depth: usize,
) -> Result<(Option<Parsed>, &[Token]), ExprFault>
    ensures read { IfOk result (λ found. (tree : Tree) × Keeps found.0 tree
        × ((outer : List Pending) → length outer ≡ depth
        → outcome tokens.now (at outer None Before) ≡ outcome found.1.now (at outer None (After tree)))) }
    ensures ended { IfOk result (λ found. begins values.is_operator found.1.now ≡ false) }
    ensures refused { OnErr result ((outer : List Pending) → length outer ≡ depth
        → outcome tokens.now (at outer None Before) ≡ None) }
    ensures fault { IfErr result (λ fault. fault ≡ Memory → ⊥) }
    ensures shorter { IfOk result (λ found. length found.1.now < length tokens.now) }
{
    let (mut tree, mut rest) = match parse_item(alloc, tokens, depth) {
        Ok(found) => found,
        Err(fault) => return Err(fault),
    };
    'operators: while let Some((operator, after)) = after_operator(rest) {
        match parse_item(alloc, after, depth) {
            Ok((right, others)) => {
                tree = join(alloc, tree, operator, right);
                rest = others;
            }
            Err(fault) => return Err(fault),
        }
    }
    Ok((tree, rest))
}

fn operators(tokens: &[Token]) -> usize
    ensures { result ≡ operators tokens.now }
{
    let mut count = 0;
    for token in tokens {
        if is_operator(token) {
            count += 1;
        }
    }
    count
}

// The expression that all tokens spell, however many operators it has; `None` if memory ran out.
fn parse_all(alloc: Global, tokens: &[Token]) -> Result<Option<Parsed>, ExprFault>
    ensures read { IfOk result (λ kept. (tree : Tree) × Keeps kept tree
        × (outcome tokens.now begin ≡ Some tree)) }
    ensures refused { OnErr result (outcome tokens.now begin ≡ None) }
    ensures fault { IfErr result (λ fault. fault ≡ Memory → ⊥) }
{
    match parse_items(alloc, tokens, 0) {
        Ok((tree, rest)) => {
            if rest.is_empty() {
                Ok(tree)
            } else {
                Err(ExprFault::BadExpression)
            }
        }
        Err(fault) => Err(fault),
    }
}

// Lays out a tree of at most 4,095 nodes as a list.
fn lay(alloc: Global, tree: &Parsed) -> Result<Condition, ExprFault>
    requires { size tree.now ≤ MAX_NODES }
    ensures laid { IfOk result (λ condition. condition ≡ tree.now) }
    ensures refused { IfErr result (λ fault. fault ≡ Memory) }
{
    let condition = Condition::new(alloc, tree.expr())?;
    Ok(condition)
}

/// The expression that the tokens spell (init(5), `start on`). Fails with `Memory` only if they spell one, and with any other fault only if
/// they don't.
pub fn parse_expr(alloc: Global, tokens: &[Token]) -> Result<Condition, ExprFault>
    ensures tree { IfOk result (λ tree. Writes tokens.now tree) }
    ensures memory { IfErr result (λ fault. fault ≡ Memory → (tree : Tree) × Writes tokens.now tree) }
    ensures refused { IfErr result (λ fault. (fault ≡ Memory → ⊥) → (tree : Tree) → Writes tokens.now tree
        → ⊥) }
{
    if operators(tokens) > MAX_OPERATORS {
        return Err(ExprFault::TooLarge);
    }
    match parse_all(alloc, tokens) {
        Ok(kept) => match kept {
            Some(tree) => lay(alloc, &tree),
            None => Err(ExprFault::Memory),
        },
        Err(fault) => Err(fault),
    }
}
