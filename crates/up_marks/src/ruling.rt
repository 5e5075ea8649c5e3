//! Which events a leaf can't match, whatever its values expand to.
ghost use Rattle.std.specs.Prelude.{◌≡◌, map, option_map};
ghost use Rattle.std.specs.List.{list_any};
ghost use Rattle.std.specs.Option.{option_copied};
ghost use Rattle.up_expr.specs.Matching.{nth_value};
ghost use Rattle.up_expr.specs.Values.{is_positional};
ghost use Rattle.up_text.specs.Bindings.{value_of};
ghost use Rattle.up_marks.specs.Naming.{naming_in, side_of};
ghost use Rattle.up_marks.specs.Ruling as ruling;

use crate::index::stop_leaves;
use up_conf::JobDef;
use up_expr::{Condition, Leaf, Node, Test};
use up_image::{JobFile, Place};
use up_model::Event;
use up_text::{Env, Name, Text};

// The most variables that are looked at one by one.
const FEW: usize = 8;

// A byte that neither an expansion nor a pattern reads as anything but itself.
fn is_literal_byte(byte: u8) -> bool
    ensures { result ≡ ruling.is_literal_byte byte }
{
    byte != b'$' && !(byte == b'*' || byte == b'?' || byte == b'[' || byte == b'\\')
}

/// Whether a text means only itself, both when expanded and when matched as a pattern.
pub(crate) fn is_literal(text: &[u8]) -> bool
    ensures { result ≡ ruling.is_literal text.now }
{
    text.iter().all(|byte| is_literal_byte(*byte))
}

// Whether a variable can't match a value: it is absent, or the value is a literal that differs.
fn is_another(value: &Text, found: Option<&str>) -> bool
    ensures { result ≡ ruling.is_another value.now (option_map (λ text. text.now) found.entry) }
{
    match found {
        Some(found) => value.as_str() != found && is_literal(value.as_str().as_bytes()),
        None => true,
    }
}

fn nth_value(vars: &Env, k: usize) -> Option<&str>
    ensures { option_map (λ value. value.now) result ≡ nth_value k vars.now }
{
    if k < vars.len() {
        let (_, value) = vars.at(k);
        Some(value)
    } else {
        None
    }
}

// The value of a key, by a look at each.
fn find<'a>(vars: &'a Env, key: &str) -> Option<&'a str>
    ensures { option_map (λ value. value.now) result ≡ value_of key.now vars.now }
{
    for i in 0..vars.len() {
        let (its, value) = vars.at(i);
        if key == its {
            return Some(value);
        }
    }
    None
}

// The value of a key. Among few keys a look at each is faster than a hash.
fn value_of<'a>(vars: &'a Env, key: &str) -> Option<&'a str>
    ensures { option_map (λ value. value.now) result ≡ value_of key.now vars.now }
{
    if vars.len() <= FEW {
        find(vars, key)
    } else {
        vars.get(key)
    }
}

// Whether the test at a place fails in every environment.
fn fails(test: &Test, k: usize, vars: &Env) -> bool
    ensures { result ≡ ruling.fails vars.now k test.now }
{
    match test {
        Test::Place(value) => is_another(value, nth_value(vars, k)),
        Test::Same(key, value) => is_another(value, value_of(vars, key.as_str())),
        Test::Differs(_, _) => false,
    }
}

fn is_positional(test: &Test) -> bool
    ensures { result ≡ is_positional test.now }
{
    match test {
        Test::Place(_) => true,
        Test::Same(_, _) | Test::Differs(_, _) => false,
    }
}

// Whether one of these tests fails in every environment.
fn one_fails(tests: &[Test], vars: &Env) -> bool
    ensures { result ≡ ruling.one_fails vars.now 0 tests.now }
{
    let mut k = 0;
    for test in tests {
        if fails(test, k, vars) {
            return true;
        }
        if is_positional(test) {
            k += 1;
        }
    }
    false
}

/// Whether a leaf matches an event of this name with these variables in no environment: it names another event, or has a literal value
/// that its variable doesn't have. Takes no memory.
pub fn rules_out(leaf: &Leaf, name: &Name, vars: &Env) -> bool
    ensures { result ≡ ruling.rules_out leaf.now name.now vars.now }
{
    // most leaves that name the same event differ in a value
    one_fails(leaf.values.as_slice(), vars) || !name.is(&leaf.event)
}

fn side_of(job: &JobDef, start: bool) -> Option<&Condition>
    ensures { option_copied result ≡ side_of start job.now }
{
    if start {
        job.start_on.as_ref()
    } else {
        job.stop_on.as_ref()
    }
}

pub(crate) fn leaf_in<'a>(condition: Option<&'a Condition>, at: usize) -> Option<&'a Leaf>
    ensures { option_copied result ≡ ruling.leaf_in (option_copied condition.entry) at }
{
    match condition {
        Some(condition) => match condition.nodes().as_slice().get(at) {
            Some(Node::Leaf(leaf)) => Some(leaf),
            Some(Node::And(_, _)) | Some(Node::Or(_, _)) => None,
            None => None,
        },
        None => None,
    }
}

pub(crate) fn leaf_at<'a>(jobs: &'a [JobFile], place: &Place) -> Option<&'a Leaf>
    ensures { option_copied result ≡ ruling.leaf_at jobs.now place.now }
{
    match jobs.get(place.job) {
        Some(file) => leaf_in(side_of(file.job(), place.start), usize::from(place.node)),
        None => None,
    }
}

// Whether a leaf, if there is one, may match an event.
fn admits_leaf(leaf: Option<&Leaf>, event: &Event) -> bool
    ensures { result ≡ ruling.admits_by event.now (option_copied leaf.entry) }
{
    match leaf {
        Some(leaf) => !rules_out(leaf, &event.name, &event.vars),
        None => false,
    }
}

/// Whether the leaf at a place of a table may match an event. Takes no memory.
pub fn admits(jobs: &[JobFile], place: &Place, event: &Event) -> bool
    ensures { result ≡ ruling.admits jobs.now event.now place.now }
{
    admits_leaf(leaf_at(jobs, place), event)
}

fn admits_in(job: &JobDef, start: bool, place: &Place, event: &Event) -> bool
    ensures { result ≡ ruling.admits_by event.now (ruling.leaf_in (side_of start job.now) place.now.node) }
{
    admits_leaf(leaf_in(side_of(job, start), usize::from(place.node)), event)
}

// Whether one of the leaves at these places of an expression may match an event.
fn one_admits(job: &JobDef, start: bool, places: &[Place], event: &Event) -> bool
    ensures { result ≡ list_any (λ place. ruling.admits_by event.now (ruling.leaf_in (side_of start job.now) place.node)) places.now }
{
    places
        .iter()
        .any(|place| admits_in(job, start, place, event))
}

/// Whether an event may match a file's `stop on`: a leaf names it, and no literal value of that rules it out. Takes no memory.
pub fn may_stop(file: &JobFile, event: &Event) -> bool
    ensures { result ≡ ruling.may_match_in file.now.stop_on event.now.name event.now.vars }
{
    one_admits(file.job(), false, stop_leaves(file, &event.name), event)
}

/// Whether an event may match a job's `start on`, whose leaves that name it are these. Takes no memory.
pub fn may_start(job: &JobDef, leaves: &[Place], event: &Event) -> bool
    ensures { map (λ place. place.node) leaves.now ≡ naming_in job.now.start_on event.now.name
        → result ≡ ruling.may_match_in job.now.start_on event.now.name event.now.vars }
{
    one_admits(job, true, leaves, event)
}
