//! The command line of `initctl`.
ghost use Rattle.std.specs.Prelude.{◌≡◌, false, IfOk};
ghost use Rattle.clap.specs.Words.{App, new_app, rule_of, with_subcommand};
ghost use Rattle.up_model.specs.Requests.{command_name};
ghost use Rattle.up_wire.specs.Usage.{name_rule, words_rule, no_wait_rule, about_app, waiting_app, command_app, program_app, usage, IsUsage};

use clap::{Arg, ArgAction, Command};
use std::alloc::{AllocError, Global};
use up_model::Command as Asked;

/// The commands, in the order in which help lists them.
static COMMANDS: [Asked; 9] = [
    Asked::Start,
    Asked::Stop,
    Asked::Restart,
    Asked::Status,
    Asked::Reload,
    Asked::Emit,
    Asked::List,
    Asked::ReloadConfiguration,
    Asked::Version,
];

fn help_of(its: Asked) -> &'static str {
    match its {
        Asked::Start => "Starts an instance of a job",
        Asked::Stop => "Stops an instance of a job",
        Asked::Restart => "Stops an instance of a job and starts it again",
        Asked::Status => "Prints the status of an instance of a job",
        Asked::Reload => "Sends the main process of an instance of a job its reload signal",
        Asked::Emit => "Emits an event",
        Asked::List => "Prints the status of every job",
        Asked::ReloadConfiguration => "Reads the job files again",
        Asked::Version => "Prints the version of the init",
    }
}

fn subject<'a>(alloc: Global, its: Asked) -> Arg<'a>
    ensures rule { rule_of result ≡ name_rule }
    ensures local { result.global ≡ false }
{
    let what = match its {
        Asked::Emit => "EVENT",
        _ => "JOB",
    };
    Arg::new(alloc, "NAME")
        .value_name(what)
        .help("Its name")
        .required(true)
        .action(ArgAction::Set)
}

fn variables<'a>(alloc: Global) -> Arg<'a>
    ensures rule { rule_of result ≡ words_rule }
    ensures local { result.global ≡ false }
{
    Arg::new(alloc, "VARS")
        .value_name("KEY=VALUE")
        .help("Variables; if a key is repeated, the later value counts")
        .num_args(0..)
        .action(ArgAction::Append)
}

fn no_wait<'a>(alloc: Global) -> Arg<'a>
    ensures rule { rule_of result ≡ no_wait_rule }
    ensures local { result.global ≡ false }
{
    Arg::new(alloc, "no-wait")
        .long("no-wait")
        .help("Doesn't wait until it is done")
        .action(ArgAction::SetTrue)
}

// A command without arguments.
fn without_arguments<'a>(alloc: Global, its: Asked) -> Command<'a>
    ensures { IsUsage (new_app (command_name its)) result }
{
    let name: &'a str = its.name();
    let help: &'a str = help_of(its);
    Command::new(alloc, name).about(help)
}

// A command about a job or an event, with variables.
fn subject_command<'a>(alloc: Global, its: Asked) -> Result<Command<'a>, AllocError>
    ensures { IfOk result (IsUsage (about_app (command_name its))) }
{
    without_arguments(alloc, its)
        .arg(subject(alloc, its))?
        .arg(variables(alloc))
}

// The same, with the option `--no-wait`.
fn waiting<'a>(alloc: Global, its: Asked) -> Result<Command<'a>, AllocError>
    ensures { IfOk result (IsUsage (waiting_app (command_name its))) }
{
    subject_command(alloc, its)?.arg(no_wait(alloc))
}

fn command_of<'a>(alloc: Global, its: Asked) -> Result<Command<'a>, AllocError>
    ensures { IfOk result (IsUsage (command_app its)) }
{
    if its.is_alone() {
        Ok(without_arguments(alloc, its))
    } else if its.may_wait() {
        waiting(alloc, its)
    } else {
        subject_command(alloc, its)
    }
}

// Adds a command to a command line.
fn join<'a>(line: Command<'a>, command: Command<'a>) -> Result<Command<'a>, AllocError>
    ensures { (app its : App) → IsUsage app line.entry → IsUsage its command.entry
        → IfOk result (IsUsage (with_subcommand app its.top)) }
{
    line.subcommand(command)
}

// The same, if the command could be made; out of memory, the command line is dropped.
fn add<'a>(
    line: Command<'a>,
    made: Result<Command<'a>, AllocError>,
) -> Result<Command<'a>, AllocError>
    ensures { (app its : App) → IsUsage app line.entry → IfOk made.entry (IsUsage its)
        → IfOk result (IsUsage (with_subcommand app its.top)) }
{
    match made {
        Ok(command) => join(line, command),
        Err(refused) => {
            drop(line);
            Err(refused)
        }
    }
}

fn program<'a>(alloc: Global) -> Command<'a>
    ensures { IsUsage program_app result }
{
    Command::new(alloc, "initctl")
        .version("(upstart profile 1)")
        .about("Asks a running init to start, stop and report on jobs")
        .subcommand_required(true)
}

/// The command line of `initctl` without the options of the program.
pub fn command_line<'a>(alloc: Global) -> Result<Command<'a>, AllocError>
    ensures { IfOk result (IsUsage usage) }
{
    let mut line = program(alloc);
    for its in &COMMANDS {
        line = add(line, command_of(alloc, *its))?;
    }
    Ok(line)
}
