//! Calls of which a request for memory may be refused: each answers as with ample memory, or that memory ran out.
//!
//! `rt try --test --fail-alloc N -- memory` refuses the Nth request; `bench/faults` goes through all of them with the built tests.
use crate::images::damage::{longer, with_byte};
use crate::images::folders::{
    BOTH, EMPTY_IMAGE, MANY, OLD_STARTUP_IMAGE, STARTUP, STARTUP_IMAGE, becomes, comes_back,
    folder_of, refusal,
};
use crate::images::many_come_back;
use std::alloc::Global;
use up_conf::{Fault, Folder, Report};
use up_image::{CompileError, ImageError, compile};

/// A faulty file: its path, its line and the number of its fault.
type Spot = (&'static str, u32, u8);

/// The files of a folder with the faults that are reported, and how many jobs there are.
type Case = (&'static str, &'static [Spot], usize);

/// A job file with a fault beside a good one.
const FAULTY: &'static str = "\
%file b.conf
exec /bin/b
setuid root
%file a.conf
start on A and B
exec /bin/d
%file a.override
manual
bogus x
";

const FOLDERS: &'static [Case] = &[
    ("", &[], 0),
    (STARTUP, &[], 1),
    (BOTH, &[], 1),
    (MANY, &[], 2),
    (FAULTY, &[("a.override", 2, 1), ("b.conf", 2, 2)], 1),
];

fn is_fault(fault: &Fault, spot: &Spot) -> bool {
    fault.path.is(spot.0) && fault.line == spot.1 && fault.code.number() == spot.2
}

fn are_faults(report: &Report, spots: &[Spot]) -> bool {
    let faults = report.as_slice();
    if faults.len() != spots.len() {
        return false;
    }
    for at in 0..spots.len() {
        if !is_fault(&faults[at], &spots[at]) {
            return false;
        }
    }
    true
}

// Whether a folder has these faults and so many jobs.
fn compiles(
    alloc: Global,
    folder: &Folder,
    spots: &[Spot],
    jobs: usize,
) -> Result<bool, ImageError> {
    match compile(alloc, folder) {
        Ok((table, report)) => {
            let is_so = table.len() == jobs && are_faults(&report, spots);
            drop(table);
            drop(report);
            Ok(is_so)
        }
        Err(CompileError::Memory) => Err(ImageError::Memory),
        Err(_) => Ok(false),
    }
}

// If the folder can't be filled nothing is tried.
fn compiles_case(alloc: Global, case: &Case) -> Result<bool, ImageError> {
    let folder = folder_of(alloc, case.0)?;
    let is_so = compiles(alloc, &folder, case.1, case.2);
    drop(folder);
    is_so
}

// Whether a call answered as with ample memory, or that memory ran out, if it may.
fn is_good(held: Result<bool, ImageError>, may_refuse: bool) -> bool {
    match held {
        Ok(is_so) => is_so,
        Err(error) => may_refuse && error == ImageError::Memory,
    }
}

fn folders_are_good(alloc: Global, may_refuse: bool, cases: &[Case]) -> bool {
    for case in cases {
        if !is_good(compiles_case(alloc, case), may_refuse) {
            return false;
        }
    }
    true
}

fn images_are_good(alloc: Global, may_refuse: bool) -> bool {
    is_good(comes_back(alloc, STARTUP_IMAGE), may_refuse)
        && is_good(becomes(alloc, OLD_STARTUP_IMAGE, STARTUP_IMAGE), may_refuse)
        && is_good(comes_back(alloc, EMPTY_IMAGE), may_refuse)
        && is_good(many_come_back(alloc), may_refuse)
}

// The same of an image that is refused so.
fn is_refused(refusal: Option<ImageError>, wanted: ImageError, may_refuse: bool) -> bool {
    match refusal {
        Some(ImageError::Memory) => may_refuse,
        error => error == Some(wanted),
    }
}

// Cut before its first and its last byte, with one more, and with another last one.
fn damaged_are_good(alloc: Global, image: &[u8], may_refuse: bool) -> bool {
    let front = image.get(..112).unwrap_or(image);
    is_refused(refusal(alloc, b""), ImageError::Truncated, may_refuse)
        && is_refused(refusal(alloc, front), ImageError::Truncated, may_refuse)
        && is_refused(longer(alloc, image), ImageError::Trailing, may_refuse)
        && is_refused(
            with_byte(alloc, image, 112, 2),
            ImageError::BadTable,
            may_refuse,
        )
}

fn all_are_good(alloc: Global, may_refuse: bool) -> bool {
    folders_are_good(alloc, may_refuse, FOLDERS)
        && images_are_good(alloc, may_refuse)
        && damaged_are_good(alloc, STARTUP_IMAGE, may_refuse)
}

#[test]
fn always_memory(rt: HostRuntime) {
    assert!(rt; all_are_good(rt.alloc(), false));
}

#[test]
fn memory_refused(rt: HostRuntime) {
    assert!(rt; all_are_good(rt.alloc(), true));
}
