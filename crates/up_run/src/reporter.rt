//! The reports of a run's rounds: on standard output, in a file, and in a record.
ghost use Rattle.std.specs.Prelude.{◌≡◌, ◌++◌, IfOk, OnOk};
ghost use Rattle.std.specs.List.{flat_map};
ghost use Rattle.up_print.specs.Lines.{output_lines};

use crate::faults::{HostFaults, fault_count, fault_lines};
use crate::outlet::Outlet;
use crate::record::{Ending, Record};
use std::alloc::{AllocError, Global};
use std::fs::OpenFile;
use std::io;
use std::io::{Eprint, Read, Write};
use std::rt::Files;
use up_daemon::Round;
use up_disk::why::Reason;
use up_edge::DoorCall;
use up_model::{Input, Output};
use up_print::push_outputs;
use up_text::Items;

/// The reports that a run makes.
#[derive(Clone, Copy, PartialEq, Eq)]
pub struct ReportOptions<'a> {
    /// Whether standard output gets the lines that a replay prints.
    pub verbose: bool,
    /// Whether failed jobs aren't reported.
    pub quiet: bool,
    /// The path of a file that gets the lines that a replay prints, if any.
    pub tell: Option<&'a str>,
    /// The path of the record, if one is kept.
    pub log: Option<&'a str>,
    /// Whether existing files at these paths are overwritten.
    pub over: bool,
}

/// Reports a run's rounds.
#[derive(Drop)]
pub(crate) struct Reporter<'a, W> {
    // standard output, if it gets the lines of the rounds' outputs
    verbose: Option<Outlet>,
    // the file that gets them, until it can't be written
    told: Option<W>,
    // the record, until it ends
    record: Option<Record<'a, W>>,
}

fn push_gave(text: &mut Vec<u8>, gave: &[Items<Output>]) -> Result<(), AllocError>
    ensures { OnOk result (text.new.items ≡ text.old.items ++ flat_map (flat_map output_lines) gave.now) }
{
    for outputs in gave {
        push_outputs(text, outputs.as_slice())?;
    }
    Ok(())
}

fn gave_lines(alloc: Global, gave: &[Items<Output>]) -> Result<Vec<u8>, AllocError>
    ensures { IfOk result (λ text. text.items ≡ flat_map (flat_map output_lines) gave.now) }
{
    let mut text: Vec<u8> = Vec::new(alloc);
    match push_gave(&mut text, gave) {
        Ok(()) => Ok(text),
        Err(refused) => {
            drop(text);
            Err(refused)
        }
    }
}

// Reports that lines were lost because nobody read them.
fn say_lost<R: Eprint>(rt: &R, lost: u64) {
    if lost > 0 {
        let _ = eprintln!(rt; "initd: {lost} lines of output are lost: nothing read them in time");
    }
}

impl<'a, W: Read + Write + OpenFile + Drop> Reporter<'a, W> {
    /// A reporter, with a record if one is kept.
    pub(crate) fn new(
        verbose: Option<Outlet>,
        told: Option<W>,
        record: Option<Record<'a, W>>,
    ) -> Self {
        Reporter {
            verbose,
            told,
            record,
        }
    }

    // Ends the record, and reports why. One that the system refused to write is cut back to its last whole round.
    fn end_record<R: Eprint>(&mut self, rt: &R, ending: Ending) {
        let is_whole = match (&self.record, ending) {
            (Some(record), Ending::Unwritten(_)) => record.cut(),
            _ => true,
        };
        self.record = None;
        let _ = eprintln!(rt; "initd: the record ends: {ending}");
        if !is_whole {
            let _ = eprintln!(rt;
                "initd: the last line of the record may be incomplete: it can't be removed"
            );
        }
    }

    // Records the inputs of a round, which may have been idle.
    fn note<R: Files<File = W> + Eprint>(
        &mut self,
        rt: &R,
        alloc: Global,
        inputs: &[Input],
        idle: bool,
    ) {
        if let Some(record) = &mut self.record {
            if let Err(ending) = record.note(rt, alloc, inputs, idle) {
                self.end_record(rt, ending);
            }
        }
    }

    // Writes the waiting lines of the record.
    fn write_record<R: Eprint>(&mut self, rt: &R) {
        if let Some(record) = &mut self.record {
            if let Err(ending) = record.write_waiting() {
                self.end_record(rt, ending);
            }
        }
    }

    // Writes lines to the file that gets them. If that fails, it gets no more.
    fn write_told<R: Eprint>(&mut self, rt: &R, text: &[u8]) {
        let Some(told) = &mut self.told else {
            return;
        };
        if let Err(error) = told.write_all(text) {
            let why = Reason(error);
            self.told = None;
            let _ = eprintln!(rt; "initd: the file of --tell isn't written any more: {why}");
        }
    }

    // Prints lines, or those that wait.
    fn print<R: Print + Eprint>(&mut self, rt: &R, text: &[u8]) {
        let Some(outlet) = &mut self.verbose else {
            return;
        };
        match outlet.write_lines(rt, text) {
            Ok(()) => say_lost(rt, outlet.take_lost()),
            Err(error) => {
                let why = Reason(error);
                self.verbose = None;
                let _ = eprintln!(rt;
                    "initd: the output of --verbose isn't printed any more: {why}"
                );
            }
        }
    }

    // Writes lines to the file and to standard output; out of memory, both get no more.
    fn report_lines<R: Print + Eprint>(&mut self, rt: &R, lines: Result<Vec<u8>, AllocError>) {
        match lines {
            Ok(text) => {
                self.write_told(rt, text.as_slice());
                self.print(rt, text.as_slice());
                drop(text);
            }
            Err(_) => {
                self.told = None;
                self.verbose = None;
                let _ = eprintln!(rt;
                    "initd: the output of --verbose isn't printed any more: out of memory"
                );
            }
        }
    }

    fn has_reader(&self) -> bool {
        self.told.is_some() || self.verbose.is_some()
    }

    /// Reports a round, which may have been idle.
    pub(crate) fn report_round<R: Files<File = W> + Print + Eprint>(
        &mut self,
        rt: &R,
        alloc: Global,
        round: &Round,
        idle: bool,
    ) {
        self.note(rt, alloc, round.fed.as_slice(), idle);
        if self.has_reader() {
            self.report_lines(rt, gave_lines(alloc, round.gave.as_slice()));
        }
    }

    /// Reports which calls of the host and of the door failed in a round, and how many of the source, as comments.
    pub(crate) fn report_faults<R: Print + Eprint>(
        &mut self,
        rt: &R,
        alloc: Global,
        host: &HostFaults,
        door: &[DoorCall],
        source: u64,
    ) {
        if self.has_reader() && (host.are_some() || !door.is_empty() || source > 0) {
            self.report_lines(rt, fault_lines(alloc, host, door, source));
        }
    }

    /// Ends the reports of a run in which this many calls of the host, the door and the source failed: reports that, writes the waiting
    /// lines of the record, and reports unread lines as lost.
    pub(crate) fn finish<R: Print + Eprint>(
        &mut self,
        rt: &R,
        alloc: Global,
        host: u64,
        door: u64,
        source: u64,
    ) {
        self.write_record(rt);
        if self.has_reader() {
            self.report_lines(rt, fault_count(alloc, host, door, source));
        }
        if let Some(outlet) = &self.verbose {
            say_lost(rt, outlet.unread());
        }
    }
}
