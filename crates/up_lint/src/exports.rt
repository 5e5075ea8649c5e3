//! The variables that occur in the jobs of a folder.
ghost use Rattle.std.specs.Prelude.{◌≡◌, ◌∷◌, [], OnOk};
ghost use Rattle.std.specs.List.{flat_map, list_any};
ghost use Rattle.std.specs.Str.{bytes_eq};
ghost use Rattle.up_expr.specs.Flat.{leaves_in};
ghost use Rattle.up_lint.specs.Exports.{action_keys, condition_keys, init_keys, is_unset, job_keys, keys_in, leaf_keys, run_keys, set_keys, setting_keys, test_keys};
ghost use Rattle.up_lint.specs.Names.{with_names};

use crate::names::Names;
use crate::pieces::{Cut, next_piece};
use std::alloc::AllocError;
use up_conf::{Action, JobDef, Setting};
use up_expr::{Condition, Leaf, Node, Test};
use up_text::Text;

// Whether init sets a variable in events and processes.
fn is_init_key(key: &str) -> bool
    ensures { result ≡ list_any (bytes_eq key.now) init_keys }
{
    matches!(
        key,
        "JOB"
            | "INSTANCE"
            | "RESULT"
            | "PROCESS"
            | "EXIT_STATUS"
            | "EXIT_SIGNAL"
            | "UPSTART_JOB"
            | "UPSTART_INSTANCE"
            | "UPSTART_EVENTS"
            | "UPSTART_STOP_EVENTS"
    )
}

// Adds every piece of a text that may be a key.
fn add_pieces<'a>(names: &mut Names<'a>, text: &'a [u8]) -> Result<(), AllocError>
    ensures { OnOk result (names.new ≡ with_names names.old (keys_in text.now)) }
{
    let mut rest = text;
    'pieces: loop {
        let (piece, after) = next_piece(Cut::Keys, rest);
        names.add(piece)?;
        match after {
            Some(after) => rest = after,
            None => return Ok(()),
        }
    }
}

fn add_text<'a>(names: &mut Names<'a>, text: &'a Text) -> Result<(), AllocError>
    ensures { OnOk result (names.new ≡ with_names names.old (keys_in text.now)) }
{
    add_pieces(names, text.as_str().as_bytes())
}

fn add_test<'a>(names: &mut Names<'a>, test: &'a Test) -> Result<(), AllocError>
    ensures { OnOk result (names.new ≡ with_names names.old (test_keys test.now)) }
{
    match test {
        Test::Place(value) => add_text(names, value),
        Test::Same(key, value) | Test::Differs(key, value) => {
            names.add(key.as_str().as_bytes())?;
            add_text(names, value)
        }
    }
}

fn add_tests<'a>(names: &mut Names<'a>, tests: &'a [Test]) -> Result<(), AllocError>
    ensures { OnOk result (names.new ≡ with_names names.old (flat_map test_keys tests.now)) }
{
    for test in tests {
        add_test(names, test)?;
    }
    Ok(())
}

fn add_leaf<'a>(names: &mut Names<'a>, leaf: &'a Leaf) -> Result<(), AllocError>
    ensures { OnOk result (names.new ≡ with_names names.old (leaf_keys leaf.now)) }
{
    add_tests(names, leaf.values.as_slice())
}

fn add_node<'a>(names: &mut Names<'a>, node: &'a Node) -> Result<(), AllocError>
    ensures { OnOk result (names.new ≡ with_names names.old (flat_map leaf_keys (leaves_in (node.now ∷ [])))) }
{
    match node {
        Node::Leaf(leaf) => add_leaf(names, leaf),
        Node::And(_, _) | Node::Or(_, _) => Ok(()),
    }
}

fn add_nodes<'a>(names: &mut Names<'a>, nodes: &'a [Node]) -> Result<(), AllocError>
    ensures { OnOk result (names.new ≡ with_names names.old (flat_map leaf_keys (leaves_in nodes.now))) }
{
    for node in nodes {
        add_node(names, node)?;
    }
    Ok(())
}

fn add_condition<'a>(
    names: &mut Names<'a>,
    condition: &'a Option<Condition>,
) -> Result<(), AllocError>
    ensures { OnOk result (names.new ≡ with_names names.old (condition_keys condition.now)) }
{
    match condition {
        Some(condition) => add_nodes(names, condition.nodes().as_slice()),
        None => Ok(()),
    }
}

fn add_all<'a>(names: &mut Names<'a>, words: &'a [Text]) -> Result<(), AllocError>
    ensures { OnOk result (names.new ≡ with_names names.old (flat_map keys_in words.now)) }
{
    for word in words {
        add_text(names, word)?;
    }
    Ok(())
}

fn add_action<'a>(names: &mut Names<'a>, action: &'a Option<Action>) -> Result<(), AllocError>
    ensures { OnOk result (names.new ≡ with_names names.old (action_keys action.now)) }
{
    match action {
        Some(Action::Words(words)) => add_all(names, words.as_slice()),
        Some(Action::Shell(text)) => add_text(names, text),
        None => Ok(()),
    }
}

fn add_settings<'a>(names: &mut Names<'a>, settings: &'a [Setting]) -> Result<(), AllocError>
    ensures { OnOk result (names.new ≡ with_names names.old (flat_map setting_keys settings.now)) }
{
    for setting in settings {
        names.add(setting.key.as_str().as_bytes())?;
    }
    Ok(())
}

// Adds the keys in a job's settings, its expressions and its instance name.
#[tactic(auto, using(crate::proofs::Adding::added_both), unfolding(crate::specs::Exports::set_keys))]
fn add_set<'a>(names: &mut Names<'a>, job: &'a JobDef) -> Result<(), AllocError>
    ensures { OnOk result (names.new ≡ with_names names.old (set_keys job.now)) }
{
    add_settings(names, job.env.as_slice())?;
    add_condition(names, &job.start_on)?;
    add_condition(names, &job.stop_on)?;
    add_text(names, &job.instance)
}

// Adds the keys in a job's commands and scripts.
#[tactic(auto, using(crate::proofs::Adding::added_both), unfolding(crate::specs::Exports::run_keys))]
fn add_run<'a>(names: &mut Names<'a>, job: &'a JobDef) -> Result<(), AllocError>
    ensures { OnOk result (names.new ≡ with_names names.old (run_keys job.now)) }
{
    add_action(names, &job.main)?;
    add_action(names, &job.pre_start)?;
    add_action(names, &job.post_start)?;
    add_action(names, &job.pre_stop)?;
    add_action(names, &job.post_stop)
}

// Adds the keys in a job, except for those that it exports.
#[tactic(auto, using(crate::proofs::Adding::added_both), unfolding(crate::specs::Exports::job_keys))]
fn add_job<'a>(names: &mut Names<'a>, job: &'a JobDef) -> Result<(), AllocError>
    ensures { OnOk result (names.new ≡ with_names names.old (job_keys job.now)) }
{
    add_set(names, job)?;
    add_run(names, job)
}

/// Adds the keys that occur in jobs, except for those that they export.
pub(crate) fn add_keys<'a>(names: &mut Names<'a>, jobs: &'a [JobDef]) -> Result<(), AllocError>
    ensures { OnOk result (names.new ≡ with_names names.old (flat_map job_keys jobs.now)) }
{
    for job in jobs {
        add_job(names, job)?;
    }
    Ok(())
}

/// Whether nothing sets an exported variable, `keys` being those that occur in jobs.
pub(crate) fn is_unset(keys: &Names<'_>, key: &str) -> bool
    ensures { result ≡ is_unset keys.now key.now }
{
    !is_init_key(key) && !keys.has(key.as_bytes())
}
