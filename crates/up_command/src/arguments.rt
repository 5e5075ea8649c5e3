//! The commands of `initd`, and the arguments that each takes.
use clap::{Arg, ArgAction, Command, value_parser};
use std::alloc::{AllocError, Global};

/// The longest pause between two rounds, in milliseconds.
const MAX_PAUSE: i64 = 60_000;

/// The longest time that a client may be silent, in seconds: a day.
const MAX_SILENCE: i64 = 86_400;

// How an argument is passed, and which values it takes.
#[derive(Clone, Copy)]
enum ArgumentKind {
    // By position, required.
    Place,
    // By position, optional.
    LastPlace,
    // After its option.
    Text,
    // After its option, which excludes another.
    InsteadOf(&'static str),
    // After its option, which may be repeated.
    Texts,
    // The option alone.
    Flag,
    // A count from 1 on, after its option.
    Count,
    // A pause in milliseconds, after its option.
    Pause,
    // A time in seconds, after its option.
    Timeout,
}

// An argument of a command. An option is its name after two dashes.
struct Argument {
    id: &'static str,
    // Its placeholder in the help.
    shown: &'static str,
    help: &'static str,
    kind: ArgumentKind,
}

// A command with its arguments, in their order.
struct Subcommand {
    name: &'static str,
    about: &'static str,
    arguments: &'static [Argument],
}

const DIR: Argument = Argument {
    id: "DIR",
    shown: "DIR",
    help: "The folder of job files",
    kind: ArgumentKind::Place,
};

const IMAGE: Argument = Argument {
    id: "IMAGE",
    shown: "IMAGE",
    help: "The file of the image",
    kind: ArgumentKind::Place,
};

const SOURCE: Argument = Argument {
    id: "SOURCE",
    shown: "DIR|IMAGE",
    help: "The folder of job files, or the file of an image",
    kind: ArgumentKind::Place,
};

const RECORD: Argument = Argument {
    id: "RECORD",
    shown: "RECORD",
    help: "The record, a script such as --record writes; left out with --bundle",
    kind: ArgumentKind::LastPlace,
};

const BUNDLE: Argument = Argument {
    id: "bundle",
    shown: "",
    help: "Reads a bundle: one file with the folders and the script",
    kind: ArgumentKind::Flag,
};

static SUBCOMMANDS: [Subcommand; 9] = [
    Subcommand {
        name: "check",
        about: "Prints the faults of a folder's job files",
        arguments: &[
            DIR,
            Argument {
                id: "explain",
                shown: "",
                help: "Prints below each fault the faulty line, and how to fix it",
                kind: ArgumentKind::Flag,
            },
            Argument {
                id: "against",
                shown: "DIR|IMAGE",
                help: "Prints what a reload changes in a run of this folder or image, a line for each job",
                kind: ArgumentKind::InsteadOf("explain"),
            },
        ],
    },
    Subcommand {
        name: "graph",
        about: "Prints the jobs of a folder and the events that join them, as a graph for dot",
        arguments: &[DIR],
    },
    Subcommand {
        name: "lint",
        about: "Warns of what is probably a mistake in a folder's job files",
        arguments: &[
            DIR,
            Argument {
                id: "allow",
                shown: "NAME",
                help: "Leaves out warnings of this kind, such as unknown-event; may be repeated",
                kind: ArgumentKind::Texts,
            },
            Argument {
                id: "event",
                shown: "NAME",
                help: "Declares an event that comes from outside; may be repeated",
                kind: ArgumentKind::Texts,
            },
        ],
    },
    Subcommand {
        name: "compile",
        about: "Writes the image of a folder's jobs, and prints the faults of its job files",
        arguments: &[DIR, IMAGE],
    },
    Subcommand {
        name: "show",
        about: "Prints the jobs of an image as job files",
        arguments: &[IMAGE],
    },
    Subcommand {
        name: "replay",
        about: "Prints what the jobs of a folder or of an image do at the inputs of a script",
        arguments: &[
            SOURCE,
            Argument {
                id: "SCRIPT",
                shown: "SCRIPT",
                help: "The script with the inputs; left out with --bundle",
                kind: ArgumentKind::LastPlace,
            },
            BUNDLE,
            Argument {
                id: "env",
                shown: "KEY=VALUE",
                help: "Sets a variable for each process, unless its job sets it; may be repeated",
                kind: ArgumentKind::Texts,
            },
        ],
    },
    Subcommand {
        name: "chart",
        about: "Draws the states of instances over the time of a record, in SVG",
        arguments: &[SOURCE, RECORD, BUNDLE],
    },
    Subcommand {
        name: "blame",
        about: "Prints how long each start in a record took, the longest first",
        arguments: &[SOURCE, RECORD, BUNDLE],
    },
    Subcommand {
        name: "run",
        about: "Runs the jobs of a folder or of an image, and answers clients at a socket",
        arguments: &[
            SOURCE,
            Argument {
                id: "SOCKET",
                shown: "SOCKET",
                help: "The path of the socket for clients, by default /run/initd.socket; it must not exist yet",
                kind: ArgumentKind::LastPlace,
            },
            Argument {
                id: "rounds",
                shown: "N",
                help: "Ends after N rounds, from 1 to 4294967295, which is the default",
                kind: ArgumentKind::Count,
            },
            Argument {
                id: "pause",
                shown: "MS",
                help: "The longest pause after a quiet round, in milliseconds, by default 10. The end of a process is noticed up to that much later; with 0 a processor is always busy",
                kind: ArgumentKind::Pause,
            },
            Argument {
                id: "client-timeout",
                shown: "S",
                help: "Disconnects a client that has sent no complete request for S seconds and waits for no reply, by default 60; 0 disconnects none",
                kind: ArgumentKind::Timeout,
            },
            Argument {
                id: "verbose",
                shown: "",
                help: "Prints what the init does, in the lines of a replay",
                kind: ArgumentKind::Flag,
            },
            Argument {
                id: "quiet",
                shown: "",
                help: "Doesn't report on standard error why a job failed or a process couldn't be started",
                kind: ArgumentKind::Flag,
            },
            Argument {
                id: "tell",
                shown: "FILE",
                help: "Writes what --verbose prints to FILE, which must not exist yet",
                kind: ArgumentKind::Text,
            },
            Argument {
                id: "record",
                shown: "FILE",
                help: "Writes a script of all inputs to FILE, which must not exist yet; its replay prints what the init did",
                kind: ArgumentKind::Text,
            },
            Argument {
                id: "record-over",
                shown: "",
                help: "Overwrites the files of --record and --tell",
                kind: ArgumentKind::Flag,
            },
        ],
    },
];

// An option with a value.
fn option<'a>(arg: Arg<'a>, argument: &Argument) -> Arg<'a> {
    arg.long(argument.id)
        .value_name(argument.shown)
        .action(ArgAction::Set)
}

// An option with a value that excludes another option.
fn option_instead<'a>(
    arg: Arg<'a>,
    argument: &Argument,
    other: &'static str,
) -> Result<Arg<'a>, AllocError> {
    option(arg, argument).conflicts_with(other)
}

fn arg_of<'a>(alloc: Global, argument: &Argument) -> Result<Arg<'a>, AllocError> {
    let arg = Arg::new(alloc, argument.id).help(argument.help);
    match argument.kind {
        ArgumentKind::Place => Ok(
            arg.value_name(argument.shown)
                .required(true)
                .action(ArgAction::Set),
        ),
        ArgumentKind::LastPlace => Ok(arg.value_name(argument.shown).action(ArgAction::Set)),
        ArgumentKind::Text => Ok(option(arg, argument)),
        ArgumentKind::InsteadOf(other) => option_instead(arg, argument, other),
        ArgumentKind::Texts => Ok(option(arg, argument).action(ArgAction::Append)),
        ArgumentKind::Flag => Ok(arg.long(argument.id).action(ArgAction::SetTrue)),
        ArgumentKind::Count => Ok(option(arg, argument).value_parser(value_parser!(u32).range(
            1..,
        ))),
        ArgumentKind::Pause => Ok(option(arg, argument).value_parser(value_parser!(u64).range(
            0..=MAX_PAUSE,
        ))),
        ArgumentKind::Timeout => Ok(option(arg, argument).value_parser(value_parser!(u64).range(
            0..=MAX_SILENCE,
        ))),
    }
}

// A command with one more argument. Neither is owned at a `?`, where it would be dropped field by field.
fn add_argument<'a>(
    command: Command<'a>,
    arg: Result<Arg<'a>, AllocError>,
) -> Result<Command<'a>, AllocError> {
    match arg {
        Ok(arg) => command.arg(arg),
        Err(refused) => {
            drop(command);
            Err(refused)
        }
    }
}

fn command_of<'a>(alloc: Global, subcommand: &Subcommand) -> Result<Command<'a>, AllocError> {
    let mut command = Command::new(alloc, subcommand.name).about(subcommand.about);
    for argument in subcommand.arguments {
        command = add_argument(command, arg_of(alloc, argument))?;
    }
    Ok(command)
}

// A command line with one more command.
fn add<'a>(
    line: Command<'a>,
    command: Result<Command<'a>, AllocError>,
) -> Result<Command<'a>, AllocError> {
    match command {
        Ok(command) => line.subcommand(command),
        Err(refused) => {
            drop(line);
            Err(refused)
        }
    }
}

/// The commands of the program. Without a command it reads a bundle from standard input.
pub(crate) fn command<'a>(alloc: Global) -> Result<Command<'a>, AllocError> {
    let mut line = Command::new(alloc, "initd").version("1.0.0").about(
        "Runs and replays job files; without a command, replays a bundle from standard input",
    );
    for subcommand in &SUBCOMMANDS {
        line = add(line, command_of(alloc, subcommand))?;
    }
    Ok(line)
}
