//! The program `initctl`: asks a running init.
#![tactic(auto)]

use std::fs::File;
use std::os::fd::{AsRawFd, IntoRawFd};
use std::process::ExitCode;
use std::rt::Env;
use std::{env, io};
use up_model::ExitStatus;

// Opens the null device for reading at each of the descriptors 0 to 2 without which the program was started. Else the socket would be its
// standard output; so a write of a reply fails, as it does without a standard output.
fn fill_standard(rt: &HostRuntime) -> io::Result<()> {
    for _ in 0..3 {
        let null = File::open(rt, "/dev/null")?;
        if null.as_raw_fd() > 2 {
            drop(null);
            return Ok(());
        }
        let _ = null.into_raw_fd();
    }
    Ok(())
}

// Says that a word of the command line isn't text, if that is the error, and returns the status.
fn refuse_words(rt: &HostRuntime, error: &io::Error) -> ExitStatus {
    let status = ExitStatus::of_error(error, ExitStatus::Usage);
    if status == ExitStatus::Usage {
        let _ = eprintln!(rt;
            "error: a word isn't UTF-8\n\nUsage: initctl [OPTIONS] <COMMAND>\n\nFor more information, try '--help'."
        );
    }
    status
}

// The words of the command line, the program's name first.
fn words_of(rt: &(impl Env + AllocGlobal)) -> io::Result<Vec<String>> {
    let mut words: Vec<String> = Vec::new(rt.alloc());
    for word in env::args(rt)? {
        words.push(word)?;
    }
    Ok(words)
}

fn main(rt: HostRuntime) -> ExitCode {
    let _ = fill_standard(&rt);
    let status = match words_of(&rt) {
        Ok(words) => up_client::run(&rt, words.as_slice()),
        Err(error) => refuse_words(&rt, &error),
    };
    if status == ExitStatus::Memory {
        // A text that is there from the start: to write it takes no memory.
        let _ = eprintln!(rt; "initctl: out of memory");
    }
    ExitCode::from(status.number())
}
