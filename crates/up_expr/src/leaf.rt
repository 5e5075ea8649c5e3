//! Whether a leaf matches an event.
ghost use Rattle.std.specs.Prelude.{◌≡◌, IfOk, OnErr, Err, option_map};
ghost use Rattle.up_text.specs.Bindings.{value_of};
ghost use Rattle.up_text.specs.Expansion.{expand};
ghost use Rattle.up_expr.specs.declared.fault.ExprFault.TheVariants.{Memory};
ghost use Rattle.up_expr.specs.Matching.{pattern_of, meets, misses, nth_value, test_holds, tests_hold, matches};
ghost use Rattle.up_expr.specs.Values.{is_positional};

use crate::expr::{Leaf, Test};
use crate::fault::ExprFault;
use std::alloc::{AllocError, Global};
use up_text::{Env, Expanded, Name, Text, TextFault, expand, glob, supported};

// The pattern that a value expands to, or `None` if a key is unset, or the value isn't well formed or isn't a supported pattern.
fn pattern_of(alloc: Global, value: &Text, env: &Env) -> Result<Option<Text>, AllocError>
    ensures pattern { IfOk result (λ pattern. pattern ≡ pattern_of (expand value.now env.now)) }
{
    match expand(alloc, value.as_str(), env) {
        Ok(Expanded::Text(text)) => {
            if supported(text.as_str().as_bytes()) {
                Ok(Some(text))
            } else {
                Ok(None)
            }
        }
        Ok(Expanded::Unset(_)) => Ok(None),
        Err(TextFault::BadExpansion) => Ok(None),
        Err(_) => Err(AllocError),
    }
}

// Whether there are a pattern and a variable, and they match.
fn meets(pattern: &Option<Text>, found: Option<&str>) -> bool
    ensures { result ≡ meets pattern.now (option_map (λ value. value.now) found.entry) }
{
    match pattern {
        Some(pattern) => match found {
            Some(value) => glob(pattern.as_str().as_bytes(), value.as_bytes()),
            None => false,
        },
        None => false,
    }
}

// Whether there is a pattern, and no variable that matches it.
fn misses(pattern: &Option<Text>, found: Option<&str>) -> bool
    ensures { result ≡ misses pattern.now (option_map (λ value. value.now) found.entry) }
{
    match pattern {
        Some(pattern) => match found {
            Some(value) => !glob(pattern.as_str().as_bytes(), value.as_bytes()),
            None => true,
        },
        None => false,
    }
}

// The value of the variable at a position, if there is one.
fn nth_value(vars: &Env, k: usize) -> Option<&str>
    ensures { option_map (λ value. value.now) result ≡ nth_value k vars.now }
{
    if k < vars.len() {
        let (_, value) = vars.at(k);
        Some(value)
    } else {
        None
    }
}

// Whether a value expands to a pattern that the variable matches.
fn value_meets(
    alloc: Global,
    value: &Text,
    env: &Env,
    found: Option<&str>,
) -> Result<bool, AllocError>
    ensures holds { IfOk result (λ holds. holds
        ≡ meets (pattern_of (expand value.now env.now)) (option_map (λ text. text.now) found.entry)) }
{
    let pattern = pattern_of(alloc, value, env)?;
    Ok(meets(&pattern, found))
}

// Whether a value expands to a pattern, and no variable matches it.
fn value_misses(
    alloc: Global,
    value: &Text,
    env: &Env,
    found: Option<&str>,
) -> Result<bool, AllocError>
    ensures holds { IfOk result (λ holds. holds
        ≡ misses (pattern_of (expand value.now env.now)) (option_map (λ text. text.now) found.entry)) }
{
    let pattern = pattern_of(alloc, value, env)?;
    Ok(misses(&pattern, found))
}

// Whether the test holds, `k` being its position among the positional ones.
fn test_holds(
    alloc: Global,
    test: &Test,
    k: usize,
    vars: &Env,
    env: &Env,
) -> Result<bool, AllocError>
    ensures holds { IfOk result (λ holds. holds ≡ test_holds vars.now env.now k test.now) }
{
    match test {
        Test::Place(value) => value_meets(alloc, value, env, nth_value(vars, k)),
        Test::Same(key, value) => value_meets(alloc, value, env, vars.get(key.as_str())),
        Test::Differs(key, value) => value_misses(alloc, value, env, vars.get(key.as_str())),
    }
}

fn is_positional(test: &Test) -> bool
    ensures { result ≡ is_positional test.now }
{
    matches!(test, Test::Place(_))
}

// Whether all tests hold, the first positional value being for the first variable.
fn tests_hold(alloc: Global, tests: &[Test], vars: &Env, env: &Env) -> Result<bool, AllocError>
    ensures holds { IfOk result (λ holds. holds ≡ tests_hold vars.now env.now 0 tests.now) }
{
    let mut k = 0;
    for test in tests {
        if !test_holds(alloc, test, k, vars, env)? {
            return Ok(false);
        }
        if is_positional(test) {
            k += 1;
        }
    }
    Ok(true)
}

/// Whether the leaf matches an event of this name with these variables, its values being expanded by `env` (init(5), "Event conditions").
/// The only fault is `Memory`.
pub fn leaf_matches(
    alloc: Global,
    leaf: &Leaf,
    name: &Name,
    vars: &Env,
    env: &Env,
) -> Result<bool, ExprFault>
    ensures matches { IfOk result (λ holds. holds ≡ matches leaf.now name.now vars.now env.now) }
    ensures memory { OnErr result (result ≡ Err Memory) }
{
    if name.is(&leaf.event) {
        Ok(tests_hold(alloc, leaf.values.as_slice(), vars, env)?)
    } else {
        Ok(false)
    }
}
