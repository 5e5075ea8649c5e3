//! Runs jobs: their processes are real, and clients ask at a socket.

use crate::files::open_file;
use crate::head::{bundle_head, log_head};
use crate::jobs::read_jobs;
use crate::outlet::Outlet;
use crate::record::{Heading, Record};
use crate::reporter::{ReportOptions, Reporter};
use crate::rounds::{Rounds, serve};
use crate::socket::say_no_socket;
use crate::start::SEARCHED;
use std::alloc::{AllocError, Global};
use std::fs::{File, remove_file};
use std::io;
use std::io::Eprint;
use std::net::Net;
use std::process::Processes;
use std::rt::{Clock, Files};
use up_disk::image::bundle_files;
use up_disk::print::print;
use up_edge::{SocketFault, UnixDoor};
use up_image::Table;
use up_model::ExitStatus;
use up_print::cannot_use;

// Prints that a path can't be used.
fn unusable(rt: &(impl Print + AllocGlobal), path: &str) -> io::Result<ExitStatus> {
    print(rt, cannot_use(rt.alloc(), path))
}

// Reports a socket that isn't made, and returns the status.
fn no_socket<R: Files + Net + Print + Eprint + AllocGlobal>(
    rt: &R,
    socket: &str,
    fault: SocketFault,
) -> io::Result<ExitStatus> {
    if fault == SocketFault::Memory {
        return Err(io::Error::from(AllocError));
    }
    say_no_socket(rt, socket, fault);
    unusable(rt, socket)
}

// The start of a run's record.
fn heading_of(
    alloc: Global,
    table: &Table,
    source: &str,
    log: &str,
) -> Result<Heading, AllocError> {
    let script = log_head(alloc, source, log, SEARCHED)?;
    let bundle = bundle_head(alloc, log, SEARCHED)?;
    let jobs = bundle_files(alloc, table)?;
    Ok(Heading {
        script,
        bundle,
        jobs,
    })
}

// The record of a run, if one is asked for; or its path, if its file can't be made.
fn record_of<'a, R: Files<File = File> + Eprint + AllocGlobal>(
    rt: &R,
    table: &Table,
    source: &str,
    options: ReportOptions<'a>,
) -> Result<Result<Option<Record<'a, File>>, &'a str>, AllocError> {
    let Some(log) = options.log else {
        return Ok(Ok(None));
    };
    let heading = heading_of(rt.alloc(), table, source, log)?;
    match open_file(rt, options.log, options.over) {
        Some(Some(file)) => {
            let record = Record::new(rt.alloc(), log, file, heading)?;
            Ok(Ok(Some(record)))
        }
        _ => {
            drop(heading);
            Ok(Err(log))
        }
    }
}

// The reporter of a run, once its files are there; or the path of one that can't be made.
fn reporter_of<'a, R: Files<File = File> + Net + Eprint + AllocGlobal>(
    rt: &R,
    table: &Table,
    source: &str,
    options: ReportOptions<'a>,
) -> Result<Result<Reporter<'a, File>, &'a str>, AllocError> {
    let record = match record_of(rt, table, source, options)? {
        Ok(record) => record,
        Err(path) => return Ok(Err(path)),
    };
    let Some(told) = open_file(rt, options.tell, options.over) else {
        drop(record);
        return Ok(Err(options.tell.unwrap_or("-")));
    };
    let verbose = options.verbose.then(|| Outlet::new(rt, rt.alloc()));
    Ok(Ok(Reporter::new(verbose, told, record)))
}

// The rounds over jobs, once the files of the reports are there. Without them there is no run, and the socket that was made is removed.
fn record_run<R>(
    rt: &R,
    table: Table,
    door: &mut UnixDoor,
    (source, socket): (&str, &str),
    rounds: Rounds,
    options: ReportOptions,
) -> io::Result<ExitStatus>
where
    R: Files<File = File> + Net + Processes + Clock + Print + Eprint + AllocGlobal + Clone + Drop,
{
    match reporter_of(rt, &table, source, options) {
        Ok(Ok(mut reporter)) => {
            let served = serve(
                rt,
                table,
                (door, source),
                (rounds, options.quiet),
                &mut reporter,
            );
            drop(reporter);
            served
        }
        Ok(Err(path)) => {
            drop(table);
            let _ = remove_file(rt, socket);
            unusable(rt, path)
        }
        Err(refused) => {
            drop(table);
            let _ = remove_file(rt, socket);
            Err(io::Error::from(refused))
        }
    }
}

// The run over jobs, with a socket that is made before anything is recorded: a second run at the same socket changes no record.
fn run_jobs<R>(
    rt: &R,
    table: Table,
    (source, socket): (&str, &str),
    rounds: Rounds,
    options: ReportOptions,
) -> io::Result<ExitStatus>
where
    R: Files<File = File> + Net + Processes + Clock + Print + Eprint + AllocGlobal + Clone + Drop,
{
    match UnixDoor::bind(rt, rt.alloc(), socket) {
        Ok(mut door) => {
            let served = record_run(rt, table, &mut door, (source, socket), rounds, options);
            drop(door);
            served
        }
        Err(fault) => {
            drop(table);
            no_socket(rt, socket, fault)
        }
    }
}

// The run over the jobs that were found, if any and if the output before it was printed, and the status.
fn run_found<R>(
    rt: &R,
    table: Option<Table>,
    printed: ExitStatus,
    (source, socket): (&str, &str),
    rounds: Rounds,
    options: ReportOptions,
) -> io::Result<ExitStatus>
where
    R: Files<File = File> + Net + Processes + Clock + Print + Eprint + AllocGlobal + Clone + Drop,
{
    let Some(table) = table else {
        return Ok(printed);
    };
    if printed != ExitStatus::Done && printed != ExitStatus::Failed {
        drop(table);
        return Ok(printed);
    }
    let status = run_jobs(rt, table, (source, socket), rounds, options)?;
    if status == ExitStatus::Done {
        Ok(printed)
    } else {
        Ok(status)
    }
}

/// Reads the jobs of a folder or of an image, prints the faults of a folder's files, makes the socket, and does the rounds. Returns the
/// status: `Failed` if faults were printed; `Unusable` if the folder or the image is refused, or one of them, the record, the socket or
/// the output can't be used; `Memory` if out of memory. Neither the socket nor the processes are touched at the end.
pub fn run_source<
    R: Files<File = File> + Net + Processes + Clock + Print + Eprint + AllocGlobal + Clone + Drop,
>(
    rt: &R,
    source: &str,
    socket: &str,
    rounds: Rounds,
    options: ReportOptions,
) -> io::Result<ExitStatus> {
    let jobs = read_jobs(rt, source)?;
    match print(rt, Ok(jobs.printed)) {
        Ok(printed) => run_found(rt, jobs.table, printed, (source, socket), rounds, options),
        Err(error) => {
            drop(jobs.table);
            Err(error)
        }
    }
}
