//! The command line of `initd`.
ghost use Rattle.std.specs.Prelude.{◌≡◌, ◌≢◌, ◌⊎◌};
ghost use Rattle.clap.specs.Words.{kind_of};
ghost use Rattle.up_model.specs.declared.exit_status.ExitStatus.TheVariants as status;

use crate::arguments::command;
use clap::error::ErrorKind;
use clap::{ArgMatches, Command, Error};
use std::alloc::{AllocError, Global};
use std::io::Eprint;
use up_model::ExitStatus;
use up_run::pace::MOST_PAUSE;
use up_run::silence::MOST_SILENCE;
use up_run::{ReportOptions, Rounds};
use up_text::env::split_pair;
use up_text::{Env, Items, Text, TextFault};
use up_tools::{Kind, View, kind_named};
use up_wire::DEFAULT_SOCKET;

/// The request of a command line.
#[derive(Drop)]
pub enum Invocation<'a> {
    /// To replay the bundle on standard input.
    Bundle,
    /// To report the faults of a folder, with `explain` what each means.
    Check {
        dir: &'a str,
        explain: bool,
    },
    /// To print the changes by a reload from another folder or an image to a folder.
    Compare {
        dir: &'a str,
        other: &'a str,
    },
    /// To print the graph of a folder's jobs.
    Graph {
        dir: &'a str,
    },
    /// To print the warnings of a folder.
    Lint {
        dir: &'a str,
        /// The kinds that aren't printed.
        left_out: Items<Kind>,
        /// The names of the events that come from outside.
        outside: Items<Text>,
    },
    /// To store the image of a folder.
    Compile {
        dir: &'a str,
        image: &'a str,
    },
    /// To print the contents of an image.
    Show {
        image: &'a str,
    },
    /// To replay a script over a folder or an image.
    Replay {
        source: &'a str,
        script: &'a str,
        /// The base environment of each process; its job's variables are set on top.
        base: Env,
    },
    /// To replay the bundle in a file.
    ReplayFile {
        bundle: &'a str,
        /// The base environment of each process; its job's variables are set on top.
        base: Env,
    },
    /// To show the contents of a record over a folder or an image.
    View {
        view: View,
        source: &'a str,
        log: &'a str,
    },
    /// To show the contents of a record that is a bundle.
    ViewFile {
        view: View,
        bundle: &'a str,
    },
    /// To run the jobs of a folder or of an image, with a socket for clients.
    Run {
        source: &'a str,
        socket: &'a str,
        rounds: Rounds,
        options: ReportOptions<'a>,
    },
}

fn parse_check<'a>(given: &ArgMatches<'a>) -> Option<Invocation<'a>> {
    let dir = given.get_str("DIR")?;
    Some(match given.get_str("against") {
        Some(other) => Invocation::Compare { dir, other },
        None => Invocation::Check {
            dir,
            explain: is_set(given, "explain"),
        },
    })
}

fn parse_compile<'a>(given: &ArgMatches<'a>) -> Option<Invocation<'a>> {
    let dir = given.get_str("DIR")?;
    let image = given.get_str("IMAGE")?;
    Some(Invocation::Compile { dir, image })
}

// A folder or an image, and the file of what happened to it; or a bundle, which contains both.
#[derive(Clone, Copy, Drop)]
enum Replayed<'a> {
    Over(&'a str, &'a str),
    Bundle(&'a str),
}

fn parse_replayed<'a>(given: &ArgMatches<'a>, file: &str) -> Option<Replayed<'a>> {
    let source = given.get_str("SOURCE")?;
    match (given.get_str(file), is_set(given, "bundle")) {
        (Some(file), false) => Some(Replayed::Over(source, file)),
        (None, true) => Some(Replayed::Bundle(source)),
        (Some(_), true) | (None, false) => None,
    }
}

fn parse_view<'a>(view: View, given: &ArgMatches<'a>) -> Option<Invocation<'a>> {
    Some(match parse_replayed(given, "RECORD")? {
        Replayed::Over(source, log) => Invocation::View { view, source, log },
        Replayed::Bundle(bundle) => Invocation::ViewFile { view, bundle },
    })
}

fn is_set(given: &ArgMatches, flag: &str) -> bool {
    given.get_one::<bool>(flag).unwrap_or(false)
}

fn parse_run<'a>(given: &ArgMatches<'a>) -> Option<Invocation<'a>> {
    let source = given.get_str("SOURCE")?;
    let socket = given.get_str("SOCKET").unwrap_or(DEFAULT_SOCKET);
    let rounds = Rounds {
        count: given.get_one::<u32>("rounds").unwrap_or(u32::MAX),
        most_pause: given.get_one::<u64>("pause").unwrap_or(MOST_PAUSE),
        client_timeout: given
            .get_one::<u64>("client-timeout")
            .unwrap_or(MOST_SILENCE),
    };
    let options = ReportOptions {
        verbose: is_set(given, "verbose"),
        quiet: is_set(given, "quiet"),
        tell: given.get_str("tell"),
        log: given.get_str("record"),
        over: is_set(given, "record-over"),
    };
    Some(Invocation::Run {
        source,
        socket,
        rounds,
        options,
    })
}

// Sets the variable of a word KEY=VALUE.
fn set_word(base: &mut Env, word: &str) -> Result<(), TextFault> {
    match split_pair(word) {
        Some((key, value)) => base.set(key, value),
        None => Err(TextFault::BadName),
    }
}

// The variables of words KEY=VALUE; of a repeated key the later value counts.
fn base_of(alloc: Global, words: &[&str]) -> Result<Env, TextFault> {
    let mut base = Env::new(alloc);
    for word in words {
        set_word(&mut base, *word)?;
    }
    Ok(base)
}

fn parse_replay<'a>(
    alloc: Global,
    given: &ArgMatches<'a>,
) -> Result<Option<Invocation<'a>>, TextFault> {
    let Some(replayed) = parse_replayed(given, "SCRIPT") else {
        return Ok(None);
    };
    let base = base_of(alloc, given.get_strs("env").unwrap_or(&[]))?;
    Ok(Some(match replayed {
        Replayed::Over(source, script) => Invocation::Replay {
            source,
            script,
            base,
        },
        Replayed::Bundle(bundle) => Invocation::ReplayFile { bundle, base },
    }))
}

// The kinds of these names; an error if a name is unknown.
fn kinds_of(alloc: Global, names: &[&str]) -> Result<Items<Kind>, TextFault> {
    let mut kinds: Vec<Kind> = Vec::new(alloc);
    for name in names {
        let Some(kind) = kind_named(*name) else {
            return Err(TextFault::BadName);
        };
        kinds.push(kind).map_err(AllocError::from)?;
    }
    Ok(Items::new(kinds))
}

fn texts_of(alloc: Global, words: &[&str]) -> Result<Items<Text>, AllocError> {
    let mut texts: Vec<Text> = Vec::new(alloc);
    for word in words {
        let text = Text::from_str(alloc, *word)?;
        texts.push(text)?;
    }
    Ok(Items::new(texts))
}

fn parse_lint<'a>(
    alloc: Global,
    given: &ArgMatches<'a>,
) -> Result<Option<Invocation<'a>>, TextFault> {
    let Some(dir) = given.get_str("DIR") else {
        return Ok(None);
    };
    let left_out = kinds_of(alloc, given.get_strs("allow").unwrap_or(&[]))?;
    let outside = texts_of(alloc, given.get_strs("event").unwrap_or(&[]))?;
    Ok(Some(Invocation::Lint {
        dir,
        left_out,
        outside,
    }))
}

// The request of a command without values that may be wrong.
fn parse_plain<'a>(word: &str, given: &ArgMatches<'a>) -> Option<Invocation<'a>> {
    match word {
        "check" => parse_check(given),
        "graph" => given.get_str("DIR").map(|dir| Invocation::Graph { dir }),
        "compile" => parse_compile(given),
        "show" => given
            .get_str("IMAGE")
            .map(|image| Invocation::Show { image }),
        "chart" => parse_view(View::Chart, given),
        "blame" => parse_view(View::Blame, given),
        _ => parse_run(given),
    }
}

// The request of a command; `None` if one of its words is missing.
fn parse_subcommand<'a>(
    alloc: Global,
    word: &str,
    given: &ArgMatches<'a>,
) -> Result<Option<Invocation<'a>>, TextFault> {
    match word {
        "lint" => parse_lint(alloc, given),
        "replay" => parse_replay(alloc, given),
        _ => Ok(parse_plain(word, given)),
    }
}

// The explanation of the option whose value a command refuses.
fn wanted(word: &str) -> &'static str {
    match word {
        "lint" => "--allow takes a kind of warning, such as unknown-event",
        _ => "--env takes KEY=VALUE",
    }
}

// The reason to refuse the words of a command: one is missing, or is superfluous with a bundle.
fn missing_word(word: &str, given: &ArgMatches) -> &'static str {
    match (word, is_set(given, "bundle")) {
        ("replay", false) =>
            "SCRIPT is missing; only with --bundle does one file contain everything",
        (_, false) => "RECORD is missing; only with --bundle does one file contain everything",
        (_, true) => "--bundle takes one file, which contains the folders and the script",
    }
}

// The request in the matches of a command line.
fn parse_matches<'a>(
    alloc: Global,
    command: &mut Command<'a>,
    matches: &ArgMatches<'a>,
) -> Result<Invocation<'a>, Error> {
    let Some((word, given)) = matches.subcommand() else {
        return Ok(Invocation::Bundle);
    };
    match parse_subcommand(alloc, word, given) {
        Ok(Some(invocation)) => Ok(invocation),
        Ok(None) => Err(command.error(
            ErrorKind::MissingRequiredArgument,
            missing_word(word, given),
        )?),
        Err(TextFault::Memory) => Err(Error::from(AllocError)),
        Err(_) => Err(command.error(ErrorKind::InvalidValue, wanted(word))?),
    }
}

// The request in the words of a command line.
fn parse_by<'a>(
    alloc: Global,
    command: &mut Command<'a>,
    words: &'a [String],
) -> Result<Invocation<'a>, Error> {
    match command.try_get_matches_from_mut(words) {
        Ok(matches) => {
            let read = parse_matches(alloc, command, &matches);
            drop(matches);
            read
        }
        Err(error) => Err(error),
    }
}

/// The request in the words of a command line, the program's name first. An error is also the text of `--help` and `--version`.
pub fn parse_args<'a>(alloc: Global, words: &'a [String]) -> Result<Invocation<'a>, Error> {
    match command(alloc) {
        Ok(mut command) => {
            let read = parse_by(alloc, &mut command, words);
            drop(command);
            read
        }
        Err(refused) => Err(Error::from(refused)),
    }
}

/// Prints why a command line is refused, or the help that it asks for, and returns the status.
pub fn print_refusal<R: Print + Eprint>(rt: &R, error: &Error) -> ExitStatus
    ensures memory { kind_of error.now ≡ ErrorKind.OutOfMemory → result ≡ status.Memory }
    ensures usage { kind_of error.now ≢ ErrorKind.OutOfMemory → kind_of error.now ≢ ErrorKind.DisplayHelp
        → kind_of error.now ≢ ErrorKind.DisplayVersion → result ≡ status.Usage }
    ensures help { kind_of error.now ≡ ErrorKind.DisplayHelp → (result ≡ status.Done)
        ⊎ (result ≡ status.Unusable) }
    ensures version { kind_of error.now ≡ ErrorKind.DisplayVersion → (result ≡ status.Done)
        ⊎ (result ≡ status.Unusable) }
{
    match error.kind() {
        ErrorKind::OutOfMemory => ExitStatus::from(AllocError),
        ErrorKind::DisplayHelp | ErrorKind::DisplayVersion => match error.print(rt) {
            Ok(()) => ExitStatus::Done,
            Err(_) => ExitStatus::Unusable,
        },
        _ => {
            let _ = error.print(rt);
            ExitStatus::Usage
        }
    }
}
