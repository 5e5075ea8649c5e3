//! Job files that several share, and the leaves of their expressions.
use crate::images::folders::{MANY, are_bytes, table_of, written};
use crate::images::holds;
use std::alloc::Global;
use std::test::Fail;
use up_conf::JobDef;
use up_image::{ImageError, JobFile, Place, Table, add_stops, places_of_files, sort_places};

fn copy_has(alloc: Global, table: &Table, image: &[u8]) -> Result<bool, ImageError> {
    let copy = table.copy(alloc)?;
    Ok(are_bytes(written(alloc, copy)?, image))
}

// Whether a copy of a table has the table's image.
fn is_copied(alloc: Global, table: &Table) -> Result<bool, ImageError> {
    let image = table.to_bytes(alloc)?;
    let same = copy_has(alloc, table, image.as_slice());
    drop(image);
    same
}

fn copies(alloc: Global, table: Table) -> Result<bool, ImageError> {
    let copied = is_copied(alloc, &table);
    drop(table);
    copied
}

#[test]
fn a_copy_has_the_same_image(rt: HostRuntime) -> Result<(), Fail> {
    let table = table_of(rt.alloc(), MANY)?;
    if !holds(copies(rt.alloc(), table)) {
        return Err(Fail::from("it has another"));
    }
    Ok(())
}

fn are_places(places: &[Place], expected: &[(&str, u16)]) -> bool {
    if places.len() != expected.len() {
        return false;
    }
    for at in 0..expected.len() {
        if places[at].event.as_str() != expected[at].0 || places[at].node != expected[at].1 {
            return false;
        }
    }
    true
}

// The leaves of a `stop on`, in byte order of events and as they are written.
const ORDERED: &'static [(&'static str, u16)] = &[("a", 1), ("b", 0), ("c", 2)];

const WRITTEN: &'static [(&'static str, u16)] = &[("b", 0), ("a", 1), ("c", 2)];

// Whether these are the leaves that a job adds.
fn adds(alloc: Global, job: &JobDef, written: &[(&str, u16)]) -> bool {
    let mut places = Vec::new(alloc);
    let added = add_stops(&mut places, 1, job).is_ok();
    let are_written = are_places(places.as_slice(), written);
    drop(places);
    added && are_written
}

fn has_stops(alloc: Global, file: &JobFile) -> bool {
    are_places(file.stops(), ORDERED) && adds(alloc, file.job(), WRITTEN)
}

// Whether the events of places are these, one after another.
fn are_events(places: &[Place], events: &[&str]) -> bool {
    if places.len() != events.len() {
        return false;
    }
    for at in 0..events.len() {
        if places[at].event.as_str() != events[at] {
            return false;
        }
    }
    true
}

const EVENTS: &'static [&'static str] = &[
    "b", "runlevel", "stopped", "b", "a", "c", "a", "b", "c", "d", "and",
];

const SORTED: &'static [&'static str] = &[
    "a", "a", "and", "b", "b", "b", "c", "c", "d", "runlevel", "stopped",
];

fn are_sorted(places: &mut Vec<Place>) -> bool {
    are_events(places.as_slice(), EVENTS)
        && sort_places(places).is_ok()
        && are_events(places.as_slice(), SORTED)
}

// Whether the leaves of jobs are in the order in which they are written, and are then sorted by their events.
fn has_places(alloc: Global, files: &[JobFile]) -> bool {
    match places_of_files(alloc, files) {
        Ok(mut places) => {
            let sorted = are_sorted(&mut places);
            drop(places);
            sorted
        }
        Err(_) => false,
    }
}

fn are_files(alloc: Global, files: &[JobFile]) -> bool {
    match files.last() {
        Some(file) => has_stops(alloc, file) && has_places(alloc, files),
        None => false,
    }
}

fn gives_files(alloc: Global, table: Table) -> bool {
    match table.into_files(alloc) {
        Ok(files) => {
            let are_files = are_files(alloc, files.as_slice());
            drop(files);
            are_files
        }
        Err(_) => false,
    }
}

#[test]
fn files_have_their_leaves(rt: HostRuntime) -> Result<(), Fail> {
    let table = table_of(rt.alloc(), MANY)?;
    if !gives_files(rt.alloc(), table) {
        return Err(Fail::from("it has others"));
    }
    Ok(())
}
