//! Checks of folders.
use crate::engine::add_file;
use crate::replay::check_printed;
use crate::replay::distribution::{BUNDLE, REPORT};
use std::alloc::{AllocError, Global};
use std::process::Abort;
use std::test::Fail;
use up_conf::Folder;
use up_print::check::{check, faults_and_compile};
use up_script::read_bundle;

// A check of a folder prints this, with this status.
fn check_folder(
    rt: &impl Abort,
    alloc: Global,
    folder: &Folder,
    wanted: (&str, u8),
    of: (&str, usize),
) -> Result<(), AllocError> {
    let made = check(alloc, folder)?;
    check_printed(rt, (made.text.as_slice(), made.status.number()), wanted, of);
    drop(made);
    Ok(())
}

// Files that a folder gets, what a check of it prints then, and the status.
type Step = (&'static [(&'static str, &'static [u8])], &'static str, u8);

static CHECKS: [Step; 4] = [
    (&[], "0 jobs, 0 faults\n", 0),
    (
        &[("x.conf", b"# one\n# two\nsetuid root\n")],
        "x.conf:3: 2 NotInProfile\n0 jobs, 1 faults\n",
        1,
    ),
    (
        &[("net/a.conf", b"exec /bin/a\n"), ("a.txt", b"nonsense\n")],
        "x.conf:3: 2 NotInProfile\n1 jobs, 1 faults\n",
        1,
    ),
    (&[("x.conf", b"")], "initd: 21 SameName\n", 3),
];

/// Adds files to a folder.
pub(crate) fn add_files(
    alloc: Global,
    folder: &mut Folder,
    files: &[(&str, &[u8])],
) -> Result<(), AllocError> {
    for (path, bytes) in files {
        add_file(alloc, folder, path, bytes)?;
    }
    Ok(())
}

fn check_steps(rt: &impl Abort, alloc: Global, folder: &mut Folder) -> Result<(), AllocError> {
    for (place, (files, printed, status)) in CHECKS.iter().enumerate() {
        add_files(alloc, folder, files)?;
        check_folder(rt, alloc, folder, (printed, *status), ("checks", place))?;
    }
    Ok(())
}

#[test]
fn checks(rt: HostRuntime) -> Result<(), Fail> {
    let mut folder = Folder::new(rt.alloc());
    let checked = check_steps(&rt, rt.alloc(), &mut folder);
    drop(folder);
    Ok(checked?)
}

// How many jobs a folder of these files has, before whose run its fault is printed.
fn jobs_after_faults(
    rt: &impl Abort,
    alloc: Global,
    folder: &mut Folder,
) -> Result<usize, AllocError> {
    add_files(alloc, folder, CHECKS[1].0)?;
    add_files(alloc, folder, CHECKS[2].0)?;
    let (made, table) = faults_and_compile(alloc, folder)?;
    let wanted = ("x.conf:3: 2 NotInProfile\n", 1);
    check_printed(
        rt,
        (made.text.as_slice(), made.status.number()),
        wanted,
        ("faults", 0),
    );
    let jobs = match &table {
        Some(table) => table.len(),
        None => 0,
    };
    drop(made);
    drop(table);
    Ok(jobs)
}

#[test]
fn faults_stand_before_a_run(rt: HostRuntime) -> Result<(), Fail> {
    let mut folder = Folder::new(rt.alloc());
    let jobs = jobs_after_faults(&rt, rt.alloc(), &mut folder);
    drop(folder);
    assert_eq!(rt; jobs?, 1);
    Ok(())
}

// A count of files, what a check of their folder prints, and the status.
static COUNTS: [(usize, &str, u8); 2] = [
    (1024, "1024 jobs, 0 faults\n", 0),
    (1025, "initd: 20 TooManyJobs\n", 3),
];

fn add_numbered(alloc: Global, folder: &mut Folder, n: usize) -> Result<(), AllocError> {
    let path = format!(in alloc; "{n}.conf")?;
    add_file(alloc, folder, path.as_str(), b"exec x\n")
}

fn check_counts(rt: &impl Abort, alloc: Global, folder: &mut Folder) -> Result<(), AllocError> {
    for (count, printed, status) in &COUNTS {
        for n in folder.as_slice().len()..*count {
            add_numbered(alloc, folder, n)?;
        }
        check_folder(rt, alloc, folder, (printed, *status), ("files", *count))?;
    }
    Ok(())
}

#[test]
fn checks_of_many_files(rt: HostRuntime) -> Result<(), Fail> {
    let mut folder = Folder::new(rt.alloc());
    let checked = check_counts(&rt, rt.alloc(), &mut folder);
    drop(folder);
    Ok(checked?)
}

// The folder of the example; `None` if its text is too long to be read.
fn distribution(alloc: Global) -> Result<Option<Folder>, AllocError> {
    let text = BUNDLE.as_bytes();
    if text.len() < 65_536 {
        return Ok(Some(read_bundle(alloc, text)?.folder));
    }
    Ok(None)
}

#[test]
fn a_distribution_is_checked(rt: HostRuntime) -> Result<(), Fail> {
    match distribution(rt.alloc())? {
        Some(folder) => {
            let wanted = (REPORT, 1);
            let checked = check_folder(&rt, rt.alloc(), &folder, wanted, ("distribution", 0));
            drop(folder);
            Ok(checked?)
        }
        None => Err(Fail::new("the text is too long")),
    }
}
