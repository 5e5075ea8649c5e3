//! The words of the commands and the scripts of jobs.
ghost use Rattle.std.specs.Prelude.{◌≡◌, OnOk, false};
ghost use Rattle.std.specs.List.{slice_split};
ghost use Rattle.up_lint.specs.Commands.{is_passed, name_at, names_after, names_by, names_in, waits_after};
ghost use Rattle.up_lint.specs.Names.{with_names};
ghost use Rattle.up_lint.specs.Pieces.{is_cut};

use crate::names::Names;
use crate::pieces::{Cut, next_piece};
use std::alloc::AllocError;
use up_conf::{Action, JobDef};
use up_text::Text;

// Whether a word of a command is empty or an option.
fn is_passed(piece: &[u8]) -> bool
    ensures { result ≡ is_passed piece.now }
{
    match piece {
        [first, ..] => *first == b'-',
        [] => true,
    }
}

// Whether the next word may be a name.
fn waits_after(verb: &str, waits: bool, word: &[u8]) -> bool
    ensures { result ≡ waits_after verb.now waits word.now }
{
    word == verb.as_bytes() || (waits && is_passed(word))
}

// Adds a word if a name is expected there, unless it is `except`.
fn add_name<'a>(
    names: &mut Names<'a>,
    except: &str,
    waits: bool,
    word: &'a [u8],
) -> Result<(), AllocError>
    ensures { OnOk result (names.new ≡ with_names names.old (name_at except.now waits word.now)) }
{
    if waits && word != except.as_bytes() {
        names.add(word)
    } else {
        Ok(())
    }
}

// Adds the names after the verb among these words.
fn add_words<'a>(
    names: &mut Names<'a>,
    verb: &str,
    except: &str,
    words: &'a [Text],
) -> Result<(), AllocError>
    ensures { OnOk result (names.new ≡ with_names names.old (names_after verb.now except.now false words.now)) }
{
    let mut waits = false;
    for word in words {
        let word = word.as_str().as_bytes();
        add_name(names, except, waits, word)?;
        waits = waits_after(verb, waits, word);
    }
    Ok(())
}

// The same for the words of a script.
fn add_script<'a>(
    names: &mut Names<'a>,
    verb: &str,
    except: &str,
    text: &'a [u8],
) -> Result<(), AllocError>
    ensures { OnOk result (names.new
        ≡ with_names names.old (names_after verb.now except.now false (slice_split (is_cut Cut.Words) text.now))) }
{
    let mut waits = false;
    let mut rest = text;
    'words: loop {
        let (word, after) = next_piece(Cut::Words, rest);
        add_name(names, except, waits, word)?;
        waits = waits_after(verb, waits, word);
        match after {
            Some(after) => rest = after,
            None => return Ok(()),
        }
    }
}

fn add_action<'a>(
    names: &mut Names<'a>,
    verb: &str,
    except: &str,
    action: &'a Option<Action>,
) -> Result<(), AllocError>
    ensures { OnOk result (names.new ≡ with_names names.old (names_in verb.now except.now action.now)) }
{
    match action {
        Some(Action::Words(words)) => add_words(names, verb, except, words.as_slice()),
        Some(Action::Shell(text)) => add_script(names, verb, except, text.as_str().as_bytes()),
        None => Ok(()),
    }
}

/// Adds the names after a verb in a job's commands, as in `start --no-wait NAME`, except one name that doesn't count.
#[tactic(auto, using(crate::proofs::Adding::added_both))]
pub(crate) fn add_named<'a>(
    names: &mut Names<'a>,
    verb: &str,
    except: &str,
    job: &'a JobDef,
) -> Result<(), AllocError>
    ensures { OnOk result (names.new ≡ with_names names.old (names_by verb.now except.now job.now)) }
{
    add_action(names, verb, except, &job.main)?;
    add_action(names, verb, except, &job.pre_start)?;
    add_action(names, verb, except, &job.post_start)?;
    add_action(names, verb, except, &job.pre_stop)?;
    add_action(names, verb, except, &job.post_stop)
}
