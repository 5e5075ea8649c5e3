//! Folders that are compiled, and those that are refused.
use crate::conf::{add, add_numbered, folder_of};
use std::alloc::{AllocError, Global};
use std::test::Fail;
use up_conf::{Folder, Report};
use up_image::{CompileError, Table, compile};
use up_text_tests::tables::is_printed;

// Adds files with these paths, each with an `exec`.
fn add_paths(alloc: Global, folder: &mut Folder, paths: &str) -> Result<(), AllocError> {
    for path in paths.split(' ') {
        add(alloc, folder, path, b"exec x\n")?;
    }
    Ok(())
}

// In each row the paths of a folder's files.
const TWICE: &'static str = "\
a.conf a.conf
a.conf b.conf a.conf
=.conf =.conf
net/a.conf net/a.conf
a.override a.override a.conf
a.override a.conf b.conf a.override
.override .override .conf
";

const ONCE: &'static str = "\
a.conf a.override b.conf
a.override a.override
a.override a.override b.conf
net/a.override net/a.override a.conf
a.txt a.txt conf conf a.CONF a.CONF
a.conf net/a.conf A.conf
override override conf
";

// Whether each folder is refused for a path that stands twice, or none is.
fn check_paths(alloc: Global, rows: &'static str, same: bool) -> Result<(), Fail> {
    for row in rows.lines() {
        let mut folder = Folder::new(alloc);
        let added = add_paths(alloc, &mut folder, row);
        let refused = is_refused(alloc, &folder, CompileError::SameName);
        drop(folder);
        added?;
        if refused != same {
            return Err(Fail::from(row));
        }
    }
    Ok(())
}

// One that isn't read may stand twice.
#[test]
fn a_path_that_is_read_stands_once(rt: HostRuntime) -> Result<(), Fail> {
    check_paths(rt.alloc(), TWICE, true)?;
    check_paths(rt.alloc(), ONCE, false)
}

// Whether a table lends at its places jobs of these names, each a task or not.
fn lends(table: &Table, named: &[(&str, bool)]) -> bool {
    if table.len() != named.len() || table.as_slice().len() != named.len() {
        return false;
    }
    for at in 0..named.len() {
        let job = table.job(at);
        if job.name.as_str() != named[at].0 || job.task != named[at].1 {
            return false;
        }
    }
    true
}

// Whether these files, and no others, are faulty.
fn tells(report: &Report, paths: &[&str]) -> bool {
    let faults = report.as_slice();
    if report.len() != paths.len() || faults.len() != paths.len() {
        return false;
    }
    for at in 0..paths.len() {
        if !faults[at].path.is(paths[at]) {
            return false;
        }
    }
    true
}

// Whether a folder gives these jobs, each a task or not, and these faulty files.
fn gives_named(alloc: Global, folder: &Folder, named: &[(&str, bool)], faulty: &[&str]) -> bool {
    match compile(alloc, folder) {
        Ok((table, report)) => {
            let gives = lends(&table, named) && tells(&report, faulty);
            drop(table);
            drop(report);
            gives
        }
        Err(_) => false,
    }
}

fn check_named(
    alloc: Global,
    files: &[(&str, &[u8])],
    named: &[(&str, bool)],
    faulty: &[&str],
) -> Result<(), Fail> {
    let folder = folder_of(alloc, files)?;
    let gives = gives_named(alloc, &folder, named, faulty);
    drop(folder);
    if gives {
        Ok(())
    } else {
        Err(Fail::from("other jobs or faults"))
    }
}

// Five jobs, of which `a` has an override, and two faulty files.
const FIVE_JOBS: &'static [(&'static str, &'static [u8])] = &[
    ("b.conf", b"exec x\n"),
    ("B.conf", b"exec x\n"),
    ("a-b.conf", b"exec x\n"),
    ("aa.conf", b"exec x\n"),
    ("a.conf", b"exec x\n"),
    ("a.override", b"task\n"),
    ("z.conf", b"setuid root\n"),
    ("x=.conf", b"setuid root\n"),
    ("c.override", b"setuid root\n"),
];

const BY_NAME: &'static [(&'static str, bool)] = &[
    ("B", false),
    ("a", true),
    ("a-b", false),
    ("aa", false),
    ("b", false),
];

const FAULTY: &'static [&'static str] = &["x=.conf", "z.conf"];

const NO_JOBS: &'static [(&'static str, &'static [u8])] = &[
    ("a.override", b"setuid root\n"),
    ("a.override", b"setuid root\n"),
];

// An empty folder has no job.
#[test]
fn a_table_lends_its_jobs_by_name(rt: HostRuntime) -> Result<(), Fail> {
    check_named(rt.alloc(), FIVE_JOBS, BY_NAME, FAULTY)?;
    check_named(rt.alloc(), NO_JOBS, &[], &[])
}

// Whether a folder gives so many jobs and faults.
fn gives(alloc: Global, folder: &Folder, jobs: usize, faults: usize) -> bool {
    match compile(alloc, folder) {
        Ok((table, report)) => {
            let gives = table.len() == jobs && report.len() == faults;
            drop(table);
            drop(report);
            gives
        }
        Err(_) => false,
    }
}

// Whether a folder is refused for this.
fn is_refused(alloc: Global, folder: &Folder, error: CompileError) -> bool {
    compile(alloc, folder).err() == Some(error)
}

// Adds files whose paths are numbers and this end.
fn add_many(
    alloc: Global,
    folder: &mut Folder,
    count: u32,
    end: &str,
    bytes: &[u8],
) -> Result<(), AllocError> {
    for n in 0..count {
        add_numbered(alloc, folder, n, end, bytes)?;
    }
    Ok(())
}

// Whether a folder of 1,024 jobs is compiled, with a faulty file too, and refused with a job more, and with a path twice.
fn are_the_most(alloc: Global, folder: &mut Folder) -> Result<bool, AllocError> {
    add_many(alloc, folder, 1024, ".conf", b"exec x\n")?;
    if !gives(alloc, folder, 1024, 0) {
        return Ok(false);
    }
    add(alloc, folder, "faulty.conf", b"setuid root\n")?;
    if !gives(alloc, folder, 1024, 1) {
        return Ok(false);
    }
    add(alloc, folder, "1024.conf", b"exec x\n")?;
    if !is_refused(alloc, folder, CompileError::TooManyJobs) {
        return Ok(false);
    }
    add(alloc, folder, "7.conf", b"exec x\n")?;
    Ok(is_refused(alloc, folder, CompileError::SameName))
}

#[test]
fn a_table_has_1024_jobs(rt: HostRuntime) -> Result<(), Fail> {
    let mut folder = Folder::new(rt.alloc());
    let most = are_the_most(rt.alloc(), &mut folder);
    drop(folder);
    if most? {
        Ok(())
    } else {
        Err(Fail::from("more jobs, or fewer"))
    }
}

// Whether 65,535 files, and one that stands twice, are refused for it.
fn are_compared(alloc: Global, folder: &mut Folder) -> Result<bool, AllocError> {
    add_many(alloc, folder, 32_767, ".conf", b"")?;
    add_many(alloc, folder, 32_767, ".override", b"")?;
    add(alloc, folder, "last.conf", b"")?;
    add(alloc, folder, "0.override", b"")?;
    Ok(is_refused(alloc, folder, CompileError::SameName))
}

// So many that a comparison of each two would take minutes.
#[test]
fn many_files_are_compared(rt: HostRuntime) -> Result<(), Fail> {
    let mut folder = Folder::new(rt.alloc());
    let compared = are_compared(rt.alloc(), &mut folder);
    drop(folder);
    if compared? {
        Ok(())
    } else {
        Err(Fail::from("they aren't refused"))
    }
}

const REFUSALS: &'static [(CompileError, u8, &'static str)] = &[
    (CompileError::TooManyJobs, 20, "TooManyJobs"),
    (CompileError::SameName, 21, "SameName"),
    (CompileError::ImageTooLarge, 22, "ImageTooLarge"),
    (CompileError::Memory, 42, "Memory"),
];

fn check_refusals(
    alloc: Global,
    refusals: &[(CompileError, u8, &'static str)],
) -> Result<(), Fail> {
    for case in refusals {
        let error = case.0;
        if error.number() != case.1
            || error.name() != case.2
            || !is_printed(alloc, &error, case.2)?
        {
            return Err(Fail::from(case.2));
        }
    }
    Ok(())
}

#[test]
fn refusals_have_numbers_and_names(rt: HostRuntime) -> Result<(), Fail> {
    check_refusals(rt.alloc(), REFUSALS)
}
