//! The program `initd`: says what the job files of a folder do, and which are faulty.
#![tactic(auto)]

use std::fs::{File, OpenOptions};
use std::os::fd::{AsRawFd, IntoRawFd};
use std::process::ExitCode;
use std::rt::Env;
use std::{env, io};
use up_command::run_command::run_command;
use up_command::{parse_args, print_refusal};
use up_model::ExitStatus;

// Opens the null device at each of the descriptors 0 to 2 without which the program was started. Else the next files that are opened
// would be its standard input and outputs, and those of its services.
fn fill_standard(rt: &HostRuntime) -> io::Result<()> {
    for _ in 0..3 {
        let probe = File::open(rt, "/")?;
        let is_open = probe.as_raw_fd() > 2;
        drop(probe);
        if is_open {
            return Ok(());
        }
        let null = OpenOptions::new()
            .read(true)
            .write(true)
            .open(rt, "/dev/null")?;
        let _ = null.into_raw_fd();
    }
    Ok(())
}

// The words of the command line, the program's name first.
fn words_of(rt: &(impl Env + AllocGlobal)) -> io::Result<Vec<String>> {
    let mut words: Vec<String> = Vec::new(rt.alloc());
    for word in env::args(rt)? {
        words.push(word)?;
    }
    Ok(words)
}

// Says that a word of the command line isn't text, if that is the error, and returns the status.
fn refuse_words(rt: &HostRuntime, error: &io::Error) -> ExitStatus {
    let status = ExitStatus::of_error(error, ExitStatus::Usage);
    if status == ExitStatus::Usage {
        let _ = eprintln!(rt;
            "error: a word isn't UTF-8\n\nUsage: initd [COMMAND]\n\nFor more information, try '--help'."
        );
    }
    status
}

// Does what the command line asks for, and returns the status.
fn run(rt: &HostRuntime) -> io::Result<ExitStatus> {
    fill_standard(rt)?;
    let words = match words_of(rt) {
        Ok(words) => words,
        Err(error) => return Ok(refuse_words(rt, &error)),
    };
    match parse_args(rt.alloc(), words.as_slice()) {
        Ok(invocation) => run_command(rt, invocation),
        Err(error) => Ok(print_refusal(rt, &error)),
    }
}

fn main(rt: HostRuntime) -> ExitCode {
    let status = match run(&rt) {
        Ok(status) => status,
        Err(error) => ExitStatus::of_error(&error, ExitStatus::Unusable),
    };
    if status == ExitStatus::Memory {
        // A text that is there from the start: to write it takes no memory.
        let _ = eprintln!(rt; "initd: out of memory");
    }
    ExitCode::from(status.number())
}
