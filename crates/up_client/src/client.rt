//! The client: its command line, its socket, its output and its exit status.
ghost use Rattle.std.specs.Prelude.{◌≡◌, [], true, false, None, Ok, Err, IfOk, alloc_error, option_map};
ghost use Rattle.clap.specs.Words.{kind_of, rule_of, subcommand_rows_of};
ghost use Rattle.up_model.specs.declared.exit_status.ExitStatus.TheVariants as status;
ghost use Rattle.up_wire.specs.Usage.{IsUsage};
ghost use Rattle.up_wire.specs.Words.{request_matched};
ghost use Rattle.up_client.specs.Asking.{IsSent, socket_of};
ghost use Rattle.up_client.specs.Statuses.{Concludes, IsEnd, IsOutcome, IsStatus};
ghost use Rattle.up_client.specs.Usage.{client_usage, socket_rule};

use crate::talk::{TalkFault, talk};
use clap::error::ErrorKind;
use clap::{Arg, ArgAction, ArgMatches, Command, Error};
use std::alloc::{AllocError, Global};
use std::io::Eprint;
use std::net::Net;
use std::os::unix::net::UnixStream;
use std::rt::Env;
use std::{env, io};
use up_model::{Answer, ExitStatus};
use up_text::{Env as Variables, TextFault};
use up_wire::{DEFAULT_SOCKET, WireFault, command_line, request_of, write_request};

const PROFILE: &str = "initctl (upstart profile 1)";

/// The start of the tip to pass an option as a value.
const VALUE_TIP: &str = "\n\n  tip: to pass '";

fn socket<'a>(alloc: Global) -> Arg<'a>
    ensures rule { rule_of result ≡ socket_rule }
    ensures local { result.global ≡ false }
{
    Arg::new(alloc, "socket")
        .long("socket")
        .value_name("PATH")
        .help(
            "The socket of the init; by default the value of INITCTL_SOCKET, or /run/initd.socket",
        )
        .action(ArgAction::Set)
}

/// The command line of `initctl` with the option `--socket`.
pub fn with_socket<'a>(alloc: Global) -> Result<Command<'a>, AllocError>
    ensures { IfOk result (IsUsage client_usage) }
{
    let command = command_line(alloc)?.arg(socket(alloc))?;
    Ok(command)
}

// The text in place of the tip to pass an option as a value.
fn tip_for(fault: &str) -> &'static str {
    if fault.contains("'--socket'") {
        "  tip: '--socket PATH' comes before the command\n\n"
    } else {
        ""
    }
}

// Prints a fault and its usage without the tip to pass an option as a value: no job and no variable begins so.
fn print_text<R: Eprint>(rt: &R, text: &str) -> io::Result<()> {
    let Some((fault, rest)) = text.split_once(VALUE_TIP) else {
        return eprint!(rt; "{text}");
    };
    let (_, usage) = rest.split_once("\n\n").unwrap_or(("", ""));
    let tip = tip_for(fault);
    eprint!(rt; "{fault}\n\n{tip}{usage}")
}

// Prints why a command line is invalid.
fn print_fault<R: Print + Eprint + AllocGlobal>(rt: &R, error: &Error) -> io::Result<()> {
    match format!(in rt.alloc(); "{error}") {
        Ok(text) => print_text(rt, text.as_str()),
        Err(_) => error.print(rt),
    }
}

// Prints why a command line is invalid, or the help that it asks for.
fn print_refusal<R: Print + Eprint + AllocGlobal>(
    rt: &R,
    error: &Error,
) -> Result<ExitStatus, AllocError>
    ensures status { IfOk result IsEnd }
    ensures memory { kind_of error.now ≡ ErrorKind.OutOfMemory → result ≡ Err alloc_error }
    ensures usage { kind_of error.now ≡ ErrorKind.MissingRequiredArgument → result ≡ Ok status.Usage }
{
    match error.kind() {
        ErrorKind::OutOfMemory => Err(AllocError),
        ErrorKind::DisplayHelp | ErrorKind::DisplayVersion => match error.print(rt) {
            Ok(()) => Ok(ExitStatus::Done),
            Err(_) => Ok(ExitStatus::Failed),
        },
        _ => {
            let _ = print_fault(rt, error);
            Ok(ExitStatus::Usage)
        }
    }
}

fn fail<R: Eprint>(rt: &R, text: &str) -> ExitStatus
    ensures { result ≡ status.Failed }
{
    let _ = eprintln!(rt; "initctl: {text}");
    ExitStatus::Failed
}

fn print_answer<R: Print + Eprint>(rt: &R, answer: &Answer) -> ExitStatus
    ensures outcome { IsOutcome result }
    ensures failed { answer.now.ok ≡ false → result ≡ status.Failed }
    ensures quiet { answer.now.ok ≡ true → answer.now.text ≡ [] → result ≡ status.Done }
{
    let text = answer.text.as_str();
    if !answer.ok {
        return fail(rt, text);
    }
    if text.is_empty() {
        return ExitStatus::Done;
    }
    match println!(rt; "{text}") {
        Ok(()) => ExitStatus::Done,
        Err(_) => ExitStatus::Failed,
    }
}

/// The frame of the request that was matched.
pub fn frame_of(alloc: Global, matches: &ArgMatches) -> Result<Vec<u8>, WireFault>
    ensures { IsSent result (request_matched (subcommand_rows_of matches.now)) }
{
    let request = request_of(alloc, matches)?;
    let mut frame = Vec::new(alloc);
    write_request(&request, &mut frame)?;
    Ok(frame)
}

// Prints what was talked, and returns the status.
fn conclude<R: Print + Eprint>(
    rt: &R,
    talked: Result<Answer, TalkFault>,
) -> Result<ExitStatus, AllocError>
    ensures outcome { IfOk result IsOutcome }
    ensures ends { Concludes talked result }
{
    match talked {
        Ok(answer) => Ok(print_answer(rt, &answer)),
        Err(TalkFault::Lost) => Ok(fail(rt, "Connection lost")),
        Err(TalkFault::Memory) => Err(AllocError),
    }
}

fn ask<R: Net + Print + Eprint>(
    rt: &R,
    alloc: Global,
    socket: &str,
    frame: &[u8],
) -> Result<ExitStatus, AllocError>
    ensures { IfOk result IsOutcome }
{
    let Ok(mut stream) = UnixStream::connect(rt, socket) else {
        return Ok(fail(rt, "Unable to connect"));
    };
    conclude(rt, talk(alloc, &mut stream, frame))
}

// The socket's path: the option's, else that of the environment, else the default.
fn socket_of<'a>(option: Option<&'a str>, variable: Option<&'a str>) -> &'a str
    ensures { result.now ≡ socket_of (option_map (λ path. path.now) option.entry)
        (option_map (λ path. path.now) variable.entry) }
{
    match option {
        Some(path) => path,
        None => variable.unwrap_or(DEFAULT_SOCKET),
    }
}

fn is_binding(alloc: Global, word: &str) -> bool {
    match word.split_once('=') {
        Some((key, value)) => {
            !matches!(
                Variables::new(alloc).set(key, value),
                Err(TextFault::BadName)
            )
        }
        None => false,
    }
}

// The word that makes a request invalid: the first that isn't a valid `KEY=VALUE`, or else the name.
fn bad_word<'a>(alloc: Global, matches: &ArgMatches<'a>) -> &'a str {
    let Some((_, given)) = matches.subcommand() else {
        return "";
    };
    for word in given.get_strs("VARS").unwrap_or(&[]) {
        if !is_binding(alloc, *word) {
            return *word;
        }
    }
    given.get_str("NAME").unwrap_or("")
}

// Words that are no request, and on a second line why.
fn refuse_words<R: Eprint>(rt: &R, why: &str, word: &str) -> ExitStatus
    ensures { result ≡ status.Failed }
{
    let _ = eprintln!(rt; "initctl: Bad word\n  {why}{word}");
    ExitStatus::Failed
}

fn send_request<R: Net + Print + Eprint>(
    rt: &R,
    alloc: Global,
    socket: &str,
    matches: &ArgMatches,
) -> Result<ExitStatus, AllocError>
    ensures status { IfOk result IsOutcome }
    ensures bad { request_matched (subcommand_rows_of matches.now) ≡ None
        → IfOk result (λ ends. ends ≡ status.Failed) }
{
    match frame_of(alloc, matches) {
        Ok(frame) => ask(rt, alloc, socket, &frame),
        Err(WireFault::Memory) => Err(AllocError),
        Err(WireFault::FrameTooLarge) => Ok(refuse_words(rt, "the request is too large", "")),
        Err(_) => {
            let word = bad_word(alloc, matches);
            Ok(refuse_words(rt, "neither a name nor KEY=VALUE: ", word))
        }
    }
}

fn print_profile<R: Print>(rt: &R) -> ExitStatus
    ensures { IsOutcome result }
{
    match println!(rt; "{PROFILE}") {
        Ok(()) => ExitStatus::Done,
        Err(_) => ExitStatus::Failed,
    }
}

// Runs the command of these words.
fn run_command<R: Net + Print + Eprint + Env + AllocGlobal>(
    rt: &R,
    words: &[String],
) -> Result<ExitStatus, AllocError>
    ensures { IfOk result IsEnd }
{
    if words.len() <= 1 {
        return Ok(print_profile(rt));
    }
    let mut command = with_socket(rt.alloc())?;
    let matches = match command.try_get_matches_from_mut(words) {
        Ok(matches) => matches,
        Err(error) => return print_refusal(rt, &error),
    };
    let option = matches.get_str("socket");
    match env::var(rt, "INITCTL_SOCKET") {
        Ok(path) => {
            let socket = socket_of(option, Some(path.as_str()));
            send_request(rt, rt.alloc(), socket, &matches)
        }
        Err(_) => send_request(rt, rt.alloc(), socket_of(option, None), &matches),
    }
}

/// Runs the command of these words, the program's name first, and returns the exit status.
pub fn run<R: Net + Print + Eprint + Env + AllocGlobal>(rt: &R, words: &[String]) -> ExitStatus
    ensures { IsStatus result }
{
    match run_command(rt, words) {
        Ok(status) => status,
        Err(error) => ExitStatus::from(error),
    }
}
