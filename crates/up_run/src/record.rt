//! The record of a run: a script of what happened, and a bundle once other jobs were loaded.
use crate::unsaid::unsaid;
use std::alloc::{AllocError, Global};
use std::fs::{File, OpenFile, remove_file, rename};
use std::io;
use std::io::{Read, Write};
use std::rt::Files;
use thiserror::Error;
use up_disk::image::bundle_files;
use up_disk::why::Reason;
use up_image::Table;
use up_model::{Input, Loaded};
use up_script::script_lines;

/// The maximum number of bytes of the record that wait while nothing happens.
const MOST_WAITING: usize = 65_536;

/// The start of a record.
#[derive(Drop)]
pub(crate) struct Heading {
    /// The comment at the start of a script.
    pub(crate) script: Vec<u8>,
    /// The comment at the start of a bundle's script.
    pub(crate) bundle: Vec<u8>,
    /// The files of the jobs at the start of the run, unless these can't be written as files.
    pub(crate) jobs: Option<Vec<u8>>,
}

/// Why a record ends before its run.
#[derive(Clone, Copy, Debug, Drop, Error)]
pub(crate) enum Ending {
    /// No step of a script can express an input.
    #[error("no statement of a script can express the next input")]
    Unsaid,
    /// Jobs that were loaded can't be written as job files.
    #[error("the jobs of a reload can't be written as job files")]
    NoFiles,
    /// The system refused to write the record.
    #[error("{}", Reason(*.0))]
    Unwritten(io::Error),
    #[error("out of memory")]
    Memory,
}

impl From<AllocError> for Ending {
    fn from(_: AllocError) -> Ending {
        Ending::Memory
    }
}

impl From<io::Error> for Ending {
    fn from(error: io::Error) -> Ending {
        Ending::Unwritten(error)
    }
}

/// The record of a run. It is a script until jobs are loaded. From then on it is a bundle, with a folder of the jobs at the start of the
/// run, and one for each load.
#[derive(Drop)]
pub(crate) struct Record<'a, W> {
    path: &'a str,
    file: W,
    heading: Heading,
    // the offset of the line that begins the script, once the record is a bundle
    script_at: Option<u64>,
    // how many bytes of the file are whole rounds
    written: u64,
    // the lines that aren't written yet
    waiting: Vec<u8>,
}

// Copies at most `count` bytes.
fn copy_front<F: Read, W: Write>(from: &mut F, count: u64, to: &mut W) -> io::Result<u64> {
    let mut front = Read::take(from, count);
    io::copy(&mut front, to)
}

impl<'a, W: Read + Write + OpenFile + Drop> Record<'a, W> {
    /// A record in a new file with this path.
    pub(crate) fn new(
        alloc: Global,
        path: &'a str,
        file: W,
        heading: Heading,
    ) -> Result<Self, AllocError> {
        let waiting = Vec::from_slice(alloc, heading.script.as_slice())?;
        Ok(Record {
            path,
            file,
            heading,
            script_at: None,
            written: 0,
            waiting,
        })
    }

    /// Cuts the record back to its last whole round. False if that fails.
    pub(crate) fn cut(&self) -> bool {
        self.file.set_len(self.written).is_ok()
    }

    pub(crate) fn write_waiting(&mut self) -> Result<(), Ending> {
        self.file.write_all(self.waiting.as_slice())?;
        self.written = self.written.saturating_add(self.waiting.len() as u64);
        self.waiting.clear();
        Ok(())
    }

    // Writes the folders of the record, and returns their length in bytes.
    fn write_folders(&self, old: &mut W, new: &mut W) -> Result<u64, Ending> {
        match (self.script_at, &self.heading.jobs) {
            (Some(at), _) => Ok(copy_front(old, at, new)?),
            (None, Some(jobs)) => {
                new.write_all(jobs.as_slice())?;
                Ok(jobs.len() as u64)
            }
            (None, None) => Err(Ending::NoFiles),
        }
    }

    // Writes the script of the record, and returns its length in bytes, with its own line.
    fn write_script(&self, old: &mut W, new: &mut W) -> io::Result<u64> {
        if self.script_at.is_some() {
            return io::copy(old, new);
        }
        let head = &self.heading.bundle;
        new.write_all(b"%script\n")?;
        new.write_all(head.as_slice())?;
        let _ = copy_front(old, self.heading.script.len() as u64, &mut io::sink())?;
        let rest = io::copy(old, new)?;
        Ok(rest.saturating_add(8).saturating_add(head.len() as u64))
    }

    // Writes the record with one more folder to a new file. Returns the offset of its script, and its length.
    fn write_anew(&self, old: &mut W, new: &mut W, jobs: &[u8]) -> Result<(u64, u64), Ending> {
        let before = self.write_folders(old, new)?;
        new.write_all(b"%folder\n")?;
        new.write_all(jobs)?;
        let at = before.saturating_add(8).saturating_add(jobs.len() as u64);
        let script = self.write_script(old, new)?;
        new.sync_all()?;
        Ok((at, at.saturating_add(script)))
    }

    // Writes the record with one more folder to a new file, and renames that to the record. Returns the same as `write_anew`.
    fn fill<R: Files<File = W>>(
        &self,
        rt: &R,
        temporary: &str,
        new: &mut W,
        jobs: &[u8],
    ) -> Result<(u64, u64), Ending> {
        let mut old = File::open(rt, self.path)?;
        let made = self.write_anew(&mut old, new, jobs);
        drop(old);
        let places = made?;
        rename(rt, temporary, self.path)?;
        Ok(places)
    }

    // Replaces the record by one with one more folder. It is written to a file that may not exist yet, and that is removed if incomplete.
    fn replace<R: Files<File = W>>(
        &mut self,
        rt: &R,
        temporary: &str,
        jobs: &[u8],
    ) -> Result<(), Ending> {
        let mut new = File::create_new(rt, temporary)?;
        match self.fill(rt, temporary, &mut new, jobs) {
            Ok((at, length)) => {
                self.file = new;
                self.script_at = Some(at);
                self.written = length;
                Ok(())
            }
            Err(ending) => {
                drop(new);
                let _ = remove_file(rt, temporary);
                Err(ending)
            }
        }
    }

    // Adds a folder of these jobs, and a step that loads them.
    fn load<R: Files<File = W>>(
        &mut self,
        rt: &R,
        alloc: Global,
        id: u64,
        table: &Table,
    ) -> Result<(), Ending> {
        let Some(jobs) = bundle_files(alloc, table)? else {
            return Err(Ending::NoFiles);
        };
        let temporary = format!(in alloc; "{}.new", self.path)?;
        self.replace(rt, temporary.as_str(), jobs.as_slice())?;
        let line = format!(in alloc; "load {id}\n")?;
        self.waiting.extend_from_slice(line.as_bytes())?;
        Ok(())
    }

    // Writes in the record that it ends, since no step can express an input.
    fn end_unsaid(&mut self, alloc: Global, input: &Input) -> Result<(), Ending> {
        let what = unsaid(alloc, input)?;
        let line = format!(in alloc;
            "# The record ends: no statement of a script can express this input: {what}\n"
        )?;
        self.waiting.extend_from_slice(line.as_bytes())?;
        self.write_waiting()?;
        Err(Ending::Unsaid)
    }

    // Adds the line of one input to the waiting lines.
    fn keep_one<R: Files<File = W>>(
        &mut self,
        rt: &R,
        alloc: Global,
        one: &[Input],
    ) -> Result<(), Ending> {
        if let Some(lines) = script_lines(alloc, one)? {
            self.waiting.extend_from_slice(lines.as_slice())?;
            return Ok(());
        }
        match one.first() {
            Some(
                Input::Load {
                    id,
                    loaded: Loaded::Files(table),
                },
            ) => self.load(rt, alloc, *id, table),
            Some(input) => self.end_unsaid(alloc, input),
            None => Ok(()),
        }
    }

    // Adds the lines of inputs to the waiting lines.
    fn keep<R: Files<File = W>>(
        &mut self,
        rt: &R,
        alloc: Global,
        inputs: &[Input],
    ) -> Result<(), Ending> {
        if let Some(lines) = script_lines(alloc, inputs)? {
            self.waiting.extend_from_slice(lines.as_slice())?;
            return Ok(());
        }
        for one in inputs.chunks(1) {
            self.keep_one(rt, alloc, one)?;
        }
        Ok(())
    }

    /// Records inputs, and writes the record so far if they were more than a reading of the clock.
    pub(crate) fn note<R: Files<File = W>>(
        &mut self,
        rt: &R,
        alloc: Global,
        inputs: &[Input],
        idle: bool,
    ) -> Result<(), Ending> {
        self.keep(rt, alloc, inputs)?;
        if !idle || self.waiting.len() >= MOST_WAITING {
            self.write_waiting()?;
        }
        Ok(())
    }
}
