//! The meaning of a leaf's value tokens.
ghost use Rattle.std.specs.Prelude.{◌≡◌, IfErr, IfOk, OnErr, true, false, MatchOption, length, ◌-◌, take};
ghost use Rattle.up_expr.specs.Values as values;
ghost use Rattle.up_expr.specs.Parts.{test_in};
ghost use Rattle.up_expr.specs.declared.fault.ExprFault.TheVariants.{Memory};

use crate::expr::Test;
use crate::fault::ExprFault;
use std::alloc::{AllocError, Global};
use up_text::env::{is_key, split_pair};
use up_text::{Text, is_expandable, supported};

// The key of a text `KEY!`, `None` for any other text.
fn negated_key(text: &str) -> Option<&str>
    ensures { MatchOption result (values.is_negated_key text.now
        ≡ false) (λ key. (values.is_negated_key text.now ≡ true)
        × (key.now ≡ take (length text.now - 1) text.now)) }
{
    match text.strip_suffix("!") {
        Some(key) => { if is_key(key) { Some(key) } else { None } }
        None => None,
    }
}

/// The parts of a value's text: a positional value, KEY=VALUE, or KEY!=VALUE.
#[derive(Clone, Copy)]
pub(crate) enum Parts<'a> {
    Place(&'a str),
    Same(&'a str, &'a str),
    Differs(&'a str, &'a str),
}

/// Splits a value's text, borrowing its parts. Takes no memory.
#[tactic(auto, unfolding(crate::specs::Values::test_of))]
pub(crate) fn parts_of(text: &str) -> Parts<'_>
    ensures { test_in result ≡ values.test_of text.now }
{
    if let Some((key, value)) = split_pair(text) {
        if is_key(key) {
            return Parts::Same(key, value);
        }
        if let Some(key) = negated_key(key) {
            return Parts::Differs(key, value);
        }
    }
    Parts::Place(text)
}

/// Copies the parts of a value's text.
pub(crate) fn make_test(alloc: Global, parts: Parts) -> Result<Test, AllocError>
    ensures { IfOk result (λ test. test ≡ test_in parts.entry) }
{
    match parts {
        Parts::Place(value) => {
            let value = Text::from_str(alloc, value)?;
            Ok(Test::Place(value))
        }
        Parts::Same(key, value) => {
            let value = Text::from_str(alloc, value)?;
            Ok(Test::Same(Text::from_str(alloc, key)?, value))
        }
        Parts::Differs(key, value) => {
            let value = Text::from_str(alloc, value)?;
            Ok(Test::Differs(Text::from_str(alloc, key)?, value))
        }
    }
}

pub(crate) fn is_positional(parts: Parts) -> bool
    ensures { result ≡ values.is_positional (test_in parts.entry) }
{
    matches!(parts, Parts::Place(_))
}

// Fails if the value isn't well formed as an expansion or isn't a supported pattern.
fn check_value(value: &str) -> Result<(), ExprFault>
    ensures ok { IfOk result (λ done. values.is_good_value value.now ≡ true) }
    ensures refused { OnErr result (values.is_good_value value.now ≡ false) }
    ensures fault { IfErr result (λ fault. fault ≡ Memory → ⊥) }
{
    if !is_expandable(value) {
        return Err(ExprFault::BadExpansion);
    }
    if !supported(value.as_bytes()) {
        return Err(ExprFault::BadPattern);
    }
    Ok(())
}

/// Fails if the value isn't allowed in a job file.
pub(crate) fn check_test(parts: Parts) -> Result<(), ExprFault>
    ensures ok { IfOk result (λ done. values.is_good (test_in parts.entry) ≡ true) }
    ensures refused { OnErr result (values.is_good (test_in parts.entry) ≡ false) }
    ensures fault { IfErr result (λ fault. fault ≡ Memory → ⊥) }
{
    match parts {
        Parts::Place(value) | Parts::Same(_, value) | Parts::Differs(_, value) => check_value(
            value,
        ),
    }
}
