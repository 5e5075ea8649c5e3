//! Reads a leaf.
ghost use Rattle.std.specs.Prelude.{◌≡◌, IfErr, IfOk, OnErr, Some, true, false, is_some};
ghost use Rattle.std.specs.List.{list_all, list_any};
ghost use Rattle.up_expr.specs.Parts.{IsFaultOf};
ghost use Rattle.up_expr.specs.Values as values;
ghost use Rattle.up_value.specs.declared.fault.TextFault.TheVariants as text;
ghost use Rattle.up_expr.specs.declared.fault.ExprFault.TheVariants.{Memory};

use crate::expr::{Leaf, Test};
use crate::fault::ExprFault;
use crate::value::{check_test, is_positional, make_test, parts_of};
use std::alloc::{AllocError, Global};
use up_text::{Items, Name, TextFault, Token};

/// The greatest number of values of a leaf.
const MAX_VALUES: usize = 65_535;

fn read_tests(alloc: Global, tokens: &[Token]) -> Result<Vec<Test>, AllocError>
    ensures { IfOk result (λ tests. tests.items ≡ values.values_of tokens.now) }
{
    let mut tests = Vec::with_capacity(alloc, tokens.len())?;
    for token in tokens {
        tests.push(make_test(alloc, parts_of(token.text.as_str()))?)?;
    }
    Ok(tests)
}

// Fails if one of the values isn't allowed in a job file.
fn check_tests(tokens: &[Token]) -> Result<(), ExprFault>
    ensures ok { IfOk result (λ done. list_all values.is_good (values.values_of tokens.now) ≡ true) }
    ensures refused { OnErr result (list_all values.is_good (values.values_of tokens.now) ≡ false) }
    ensures fault { IfErr result (λ fault. fault ≡ Memory → ⊥) }
{
    for token in tokens {
        check_test(parts_of(token.text.as_str()))?;
    }
    Ok(())
}

fn is_value(token: &Token) -> bool
    ensures { result ≡ values.is_positional (values.test_of token.now.text) }
{
    is_positional(parts_of(token.text.as_str()))
}

fn has_positional(tokens: &[Token]) -> bool
    ensures { result ≡ list_any values.is_positional (values.values_of tokens.now) }
{
    for token in tokens {
        if is_value(token) {
            return true;
        }
    }
    false
}

// Whether no positional value comes after a keyed one.
fn is_ordered(tokens: &[Token]) -> bool
    ensures { result ≡ values.is_ordered (values.values_of tokens.now) }
{
    for (place, token) in tokens.iter().enumerate() {
        if !is_value(token) {
            return !has_positional(&tokens[place + 1..]);
        }
    }
    true
}

// Fails if the tokens aren't the values of a leaf. Takes no memory.
fn check_values(tokens: &[Token]) -> Result<(), ExprFault>
    ensures ok { IfOk result (λ done. values.are_values (values.values_of tokens.now) ≡ true) }
    ensures refused { OnErr result (values.are_values (values.values_of tokens.now) ≡ false) }
    ensures fault { IfErr result (λ fault. fault ≡ Memory → ⊥) }
{
    check_tests(tokens)?;
    if !is_ordered(tokens) {
        return Err(ExprFault::ValueBeforeKey);
    }
    if tokens.len() > MAX_VALUES {
        return Err(ExprFault::TooLarge);
    }
    Ok(())
}

fn read_values(alloc: Global, tokens: &[Token]) -> Result<Items<Test>, ExprFault>
    ensures values { IfOk result (λ tests. tests ≡ values.values_of tokens.now) }
    ensures good { IfOk result (λ tests. values.are_values (values.values_of tokens.now) ≡ true) }
    ensures refused { IfErr result (IsFaultOf (values.are_values (values.values_of tokens.now))) }
{
    check_values(tokens)?;
    let tests = read_tests(alloc, tokens)?;
    Ok(Items::new(tests))
}

// The fault of a leaf whose name couldn't be made. Out of memory, a fault of its values is reported first.
fn fault_of(fault: TextFault, others: &[Token]) -> ExprFault
    ensures memory { fault ≡ text.Memory
        → IsFaultOf (values.are_values (values.values_of others.now)) result }
    ensures other { (fault ≡ text.Memory → ⊥) → result ≡ Memory → ⊥ }
{
    match fault {
        TextFault::Memory => match check_values(others) {
            Ok(()) => ExprFault::Memory,
            Err(fault) => fault,
        },
        TextFault::UnterminatedQuote
        | TextFault::TrailingBackslash
        | TextFault::BadName
        | TextFault::BadExpansion => ExprFault::BadName,
    }
}

/// The leaf that the tokens spell, none of which is an operator or a parenthesis.
pub(crate) fn read_leaf(alloc: Global, tokens: &[Token]) -> Result<Leaf, ExprFault>
    requires { list_any values.is_symbol tokens.now ≡ false }
    ensures leaf { IfOk result (λ leaf. values.leaf_of tokens.now ≡ Some leaf) }
    ensures refused { IfErr result (IsFaultOf (is_some (values.leaf_of tokens.now))) }
{
    let Some((first, others)) = tokens.split_first() else {
        return Err(ExprFault::BadExpression);
    };
    match Name::new(alloc, first.text.as_str()) {
        Ok(event) => {
            let values = read_values(alloc, others)?;
            Ok(Leaf { event, values })
        }
        Err(fault) => Err(fault_of(fault, others)),
    }
}
