//! What job files and folders of them say.
mod codes;
pub(crate) mod folders;
pub(crate) mod jobs;
mod limits;

use std::alloc::{AllocError, Global};
use std::test::Fail;
use up_conf::{Action, ConfFault, Folder, Process, Stanza, Stanzas, read_conf};
use up_expr::{Condition, Root};
use up_stanza::read_bytes;
use up_text::{Items, Text, copy_texts};
use up_text_tests::tables::{fields, is_number};

// Adds a file to a folder.
pub(crate) fn add(
    alloc: Global,
    folder: &mut Folder,
    path: &str,
    bytes: &[u8],
) -> Result<(), AllocError> {
    let path = Text::from_str(alloc, path)?;
    match Vec::from_slice(alloc, bytes) {
        Ok(bytes) => folder.add(path, Items::new(bytes)),
        Err(refused) => {
            drop(path);
            Err(refused)
        }
    }
}

// Adds a file whose path begins with a number.
pub(crate) fn add_numbered(
    alloc: Global,
    folder: &mut Folder,
    number: u32,
    end: &str,
    bytes: &[u8],
) -> Result<(), AllocError> {
    let path = format!(in alloc; "{number}{end}")?;
    let added = add(alloc, folder, path.as_str(), bytes);
    drop(path);
    added
}

fn add_all(alloc: Global, folder: &mut Folder, files: &[(&str, &[u8])]) -> Result<(), AllocError> {
    for file in files {
        add(alloc, folder, file.0, file.1)?;
    }
    Ok(())
}

// The folder of these files. Large values are dropped by a call, here and below: the prover would go through each field of what a scope drops.
pub(crate) fn folder_of(alloc: Global, files: &[(&str, &[u8])]) -> Result<Folder, AllocError> {
    let mut folder = Folder::new(alloc);
    match add_all(alloc, &mut folder, files) {
        Ok(()) => Ok(folder),
        Err(refused) => {
            drop(folder);
            Err(refused)
        }
    }
}

// Whether an expression is an event without values.
fn is_event(condition: &Option<Condition>, name: &str) -> bool {
    let Some(condition) = condition else {
        return false;
    };
    match condition.root().root() {
        Root::Leaf(leaf) => leaf.event.as_str() == name && leaf.values.as_slice().is_empty(),
        Root::And(_, _) | Root::Or(_, _) => false,
    }
}

// Whether texts are these.
fn are_texts(texts: &[Text], expected: &[&str]) -> bool {
    if texts.len() != expected.len() {
        return false;
    }
    for place in 0..expected.len() {
        if !texts[place].is(expected[place]) {
            return false;
        }
    }
    true
}

// Whether a process runs these words.
fn runs(action: &Option<Action>, expected: &[&str]) -> bool {
    match action {
        Some(Action::Words(words)) => are_texts(words.as_slice(), expected),
        _ => false,
    }
}

// How many stanzas a file has, or the line and the number of its fault.
type Reading = Result<usize, (u32, u8)>;

fn reading_of(read: Result<Stanzas, ConfFault>) -> Reading {
    match read {
        Ok(stanzas) => {
            let count = stanzas.as_slice().len();
            drop(stanzas);
            Ok(count)
        }
        Err(fault) => Err((fault.line, fault.code.number())),
    }
}

fn read(alloc: Global, bytes: &[u8]) -> Reading {
    reading_of(read_conf(alloc, bytes))
}

// Whether a file is read as a row tells: that it has so many stanzas, or a fault on this line with this number, or that it is refused.
fn is_told(reading: Reading, outcome: &str, number: &str) -> bool {
    match reading {
        Ok(count) => outcome == "stanzas"
            && is_number(number, u32::try_from(count).unwrap_or(u32::MAX)),
        Err((line, code)) => outcome == "refused"
            || (is_number(outcome, line) && is_number(number, u32::from(code))),
    }
}

// Whether a file is read so, as a job file and as bytes.
fn is_read(alloc: Global, file: &[u8], outcome: &str, number: &str) -> Result<bool, AllocError> {
    let given = reading_of(read_bytes(alloc, file)?);
    Ok(is_told(given, outcome, number) && is_told(read(alloc, file), outcome, number))
}

// Each row ends with `||`.
fn check(alloc: Global, rows: &'static str) -> Result<(), Fail> {
    for row in rows.split_terminator("||\n") {
        let holds = match fields(row) {
            Some((file, outcome, number)) => is_read(alloc, file.as_bytes(), outcome, number)?,
            None => row.starts_with("# "),
        };
        if !holds {
            return Err(Fail::from(row));
        }
    }
    Ok(())
}

// In each row a file, and how many stanzas it has, if it is read.
const FILES: &'static str = "\
task\nmanual\n|stanzas|2||
description \"a b\"\nauthor x\nversion 1\nusage u\nemits a b\nenv A=1\nenv B\nexport A B\ntask\nmanual\n|stanzas|10||
respawn\nrespawn limit 3 5\nrespawn limit unlimited\nnormal exit 0 TERM SIGHUP\nkill timeout 7\nkill signal INT\nreload signal 1\n|stanzas|7||
instance $TTY\nconsole none\nchdir /tmp\n\"exec\" /bin/d\nscript\nx\nend script\npre-start exec a\npost-stop script\ny\nend script # z\n|stanzas|7||
start on (a or b X=1)\n  and c\nstop on d\n|refused|||
start on (a\n or b X=1)\nstop on d\n|stanzas|2||
\n# nothing\n|stanzas|0||
# The largest numbers.||
respawn limit 065535 2147483647\nnormal exit 0255 SYS\nkill signal 31\nkill timeout 00\n|stanzas|4||
";

#[test]
fn every_stanza_is_read(rt: HostRuntime) -> Result<(), Fail> {
    check(rt.alloc(), FILES)
}

// What a process runs: words, or a shell with a text.
enum Command {
    Words(&'static [&'static str]),
    Shell(&'static str),
}

// A file of one stanza, the process that it is of, and what that runs.
struct Run {
    bytes: &'static [u8],
    process: Process,
    command: Command,
}

const RUNS: &'static [Run] = &[
    Run {
        bytes: b"exec /bin/a b#c",
        process: Process::Main,
        command: Command::Words(&["/bin/a", "b"]),
    },
    Run {
        bytes: b"exec a \\\n\t b\n",
        process: Process::Main,
        command: Command::Words(&["a", "b"]),
    },
    Run {
        bytes: b"exec /bin/e \"a  b\" # c\n",
        process: Process::Main,
        command: Command::Shell("exec /bin/e \"a  b\""),
    },
    Run {
        bytes: b"exec a\\ \n",
        process: Process::Main,
        command: Command::Shell("exec a\\ "),
    },
    Run {
        bytes: b"pre-stop exec a|b\n",
        process: Process::PreStop,
        command: Command::Shell("exec a|b"),
    },
    Run {
        bytes: b"script\n a #b\n\n end  scripts\n\tend script #c",
        process: Process::Main,
        command: Command::Shell(" a #b\n\n end  scripts\n"),
    },
    Run {
        bytes: b"script\nend script#c\nend script\n",
        process: Process::Main,
        command: Command::Shell("end script#c\n"),
    },
    Run {
        bytes: b"post-start script\nend script",
        process: Process::PostStart,
        command: Command::Shell(""),
    },
    Run {
        bytes: b"exec /bin/d -f\n",
        process: Process::Main,
        command: Command::Words(&["/bin/d", "-f"]),
    },
    Run {
        bytes: b"script\nexit 1\nend script\n",
        process: Process::Main,
        command: Command::Shell("exit 1\n"),
    },
];

// Whether words are these, and their copies are.
fn are_words(alloc: Global, words: &[Text], expected: &[&str]) -> Result<bool, AllocError> {
    let copied = copy_texts(alloc, words)?;
    let are_copied = are_texts(copied.as_slice(), expected);
    drop(copied);
    Ok(are_copied && are_texts(words, expected))
}

fn is_command(alloc: Global, action: &Action, command: &Command) -> Result<bool, AllocError> {
    match command {
        Command::Words(expected) => match action {
            Action::Words(words) => are_words(alloc, words.as_slice(), *expected),
            Action::Shell(_) => Ok(false),
        },
        Command::Shell(expected) => match action {
            Action::Shell(text) => Ok(text.is(*expected)),
            Action::Words(_) => Ok(false),
        },
    }
}

// Whether an action is this command, and its copy is.
fn are_commands(alloc: Global, action: &Action, command: &Command) -> Result<bool, AllocError> {
    let copied = action.copy(alloc)?;
    let is_copied = is_command(alloc, &copied, command);
    drop(copied);
    Ok(is_copied? && is_command(alloc, action, command)?)
}

fn is_run(alloc: Global, stanzas: &[Stanza], run: &Run) -> Result<bool, AllocError> {
    match stanzas {
        [Stanza::Runs(process, action)] if *process == run.process => {
            are_commands(alloc, action, &run.command)
        }
        _ => Ok(false),
    }
}

fn check_runs(alloc: Global, runs: &[Run]) -> Result<(), Fail> {
    for (place, run) in runs.iter().enumerate() {
        let stanzas = read_conf(alloc, run.bytes)?;
        let is_run = is_run(alloc, stanzas.as_slice(), run);
        drop(stanzas);
        if !is_run? {
            return Err(Fail::from(place));
        }
    }
    Ok(())
}

#[test]
fn commands_are_read(rt: HostRuntime) -> Result<(), Fail> {
    check_runs(rt.alloc(), RUNS)
}
