//! Carries out the request of a command line.
ghost use Rattle.std.specs.Prelude.{IfOk};
ghost use Rattle.up_command.specs.Answers.{Answers};

use crate::command::Invocation;
use std::fs::File;
use std::io;
use std::io::{BufWriter, Eprint, Write};
use std::net::Net;
use std::process::Processes;
use std::rt::{Clock, Files};
use up_disk::print::print;
use up_disk::replay::replay_bundle;
use up_disk::why::{say, say_error};
use up_disk::{
    check_dir, compile_dir, explain_dir, graph_dir, replay_file, replay_source, show_image,
};
use up_model::ExitStatus;
use up_print::Noted;
use up_run::run_source;
use up_script::bundle::MAX_BUNDLE;
use up_tools::{compare_dir, lint_dir, view_file, view_source};

// Reports why the bundle on standard input can't be used, if the reader is the reason.
fn say_why<R, E: Eprint>(rt: &E, reader: &Noted<R>) {
    match reader.error() {
        Some(error) => say_error(rt, "-", &error),
        None => {
            if reader.count() > MAX_BUNDLE as u64 {
                say(rt, "-", "it is larger than 64 MiB (67108864 bytes)");
            }
        }
    }
}

// Replays standard input, and returns the status. If standard input can't be used, the reason is reported.
fn replay_input(rt: &(impl Input + Print + Eprint + AllocGlobal)) -> io::Result<ExitStatus> {
    let mut reader = Noted::new(rt.reader());
    let mut writer = Noted::new(BufWriter::new(rt.alloc(), io::writer(rt))?);
    let status = replay_bundle(rt.alloc(), &mut reader, &mut writer);
    writer.flush()?;
    if status == ExitStatus::Unusable {
        say_why(rt, &reader);
    }
    Ok(status)
}

/// Carries out a request, prints on standard output, and returns the status: that of the output, `Unusable` if it can't be written,
/// `Memory` if out of memory. An error is that of standard output, or out of memory for its buffer.
pub fn run_command<
    R: Files<File = File>
        + Net
        + Processes
        + Clock
        + Input
        + Print
        + Eprint
        + AllocGlobal
        + Clone
        + Drop,
>(rt: &R, invocation: Invocation) -> io::Result<ExitStatus>
    ensures { IfOk result (Answers invocation.entry) }
{
    match invocation {
        Invocation::Bundle => replay_input(rt),
        Invocation::Check { dir, explain } => {
            if explain {
                print(rt, explain_dir(rt, dir))
            } else {
                print(rt, check_dir(rt, dir))
            }
        }
        Invocation::Compare { dir, other } => print(rt, compare_dir(rt, dir, other)),
        Invocation::Graph { dir } => print(rt, graph_dir(rt, dir)),
        Invocation::Lint {
            dir,
            left_out,
            outside,
        } => {
            let printed = lint_dir(rt, dir, left_out.as_slice(), outside.as_slice());
            print(rt, printed)
        }
        Invocation::Compile { dir, image } => print(rt, compile_dir(rt, dir, image)),
        Invocation::Show { image } => print(rt, show_image(rt, image)),
        Invocation::Replay {
            source,
            script,
            base,
        } => print(rt, replay_source(rt, source, base, script)),
        Invocation::ReplayFile { bundle, base } => print(rt, replay_file(rt, bundle, base)),
        Invocation::View { view, source, log } => print(rt, view_source(rt, view, source, log)),
        Invocation::ViewFile { view, bundle } => print(rt, view_file(rt, view, bundle)),
        Invocation::Run {
            source,
            socket,
            rounds,
            options,
        } => run_source(rt, source, socket, rounds, options),
    }
}
