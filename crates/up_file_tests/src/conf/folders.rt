//! What a folder says.
use crate::conf::jobs::{Fact, states_all};
use crate::conf::{add_numbered, folder_of};
use std::alloc::{AllocError, Global};
use std::test::Fail;
use up_conf::{ConfFault, Fault, Folder, FolderIndex, JobDef, Report, read_folder};
use up_text::Items;

// A fault's path, line and number, and the name of some.
type Told = (&'static str, u32, u8, Option<&'static str>);

// A folder's files, its jobs with what they say, and its faults.
struct Case {
    name: &'static str,
    files: &'static [(&'static str, &'static [u8])],
    jobs: &'static [(&'static str, &'static [Fact])],
    faults: &'static [Told],
}

const CASES: &'static [Case] = &[
    Case {
        name: "jobs_are_in_byte_order",
        files: &[
            ("b.conf", b"task\n"),
            ("a-b.conf", b"exec x\n"),
            ("a/z.conf", b""),
            ("notes", b"\xff"),
            ("a.conf", b"exec y\n"),
            ("c.override", b"bogus\n"),
            ("d.conf.override", b"bogus\n"),
            ("B.conf", b"\n"),
        ],
        jobs: &[
            ("B", &[]),
            ("a", &[Fact::Main(&["y"]), Fact::NeverStarts]),
            ("a-b", &[]),
            ("a/z", &[]),
            ("b", &[Fact::Task]),
        ],
        faults: &[],
    },
    Case {
        name: "faults_are_in_byte_order",
        files: &[
            ("x y.override", b"task\nbogus\n"),
            ("x y.conf", b"task\nbogus\n"),
            ("a.override", b"task\nbogus\n"),
            ("a.conf", b"bogus\n"),
            ("a-b.conf", b"task\ntask x\n"),
            (".override", b"console x\n"),
            (".conf", b"task\n"),
            ("good.override", b"task\n"),
            ("good.conf", b"exec g\n"),
            ("bad.override", b"task\n"),
            ("bad.conf", b"# a\n# b\nsetuid root\n"),
        ],
        jobs: &[("good", &[Fact::Task])],
        faults: &[
            (".conf", 1, 12, None),
            (".override", 1, 4, None),
            ("a-b.conf", 2, 4, None),
            ("a.conf", 1, 1, None),
            ("a.override", 2, 1, None),
            ("bad.conf", 3, 2, Some("NotInProfile")),
            ("x y.conf", 1, 12, None),
            ("x y.override", 2, 1, None),
        ],
    },
    Case {
        name: "a_faulty_override_is_ignored",
        files: &[
            ("a.conf", b"start on go\nexec /bin/d\n"),
            ("a.override", b"manual\nbogus x\n"),
            ("b.conf", b"start on go\nexec /bin/d\n"),
            ("b.override", b"manual\nexec /bin/e\n"),
        ],
        jobs: &[
            ("a", &[Fact::Main(&["/bin/d"]), Fact::StartsOn("go")]),
            ("b", &[Fact::Main(&["/bin/e"]), Fact::NeverStarts]),
        ],
        faults: &[("a.override", 2, 1, Some("UnknownStanza"))],
    },
];

fn are_jobs(jobs: &[JobDef], expected: &[(&'static str, &'static [Fact])]) -> bool {
    if jobs.len() != expected.len() {
        return false;
    }
    for at in 0..expected.len() {
        let job = &jobs[at];
        if job.name.as_str() != expected[at].0 || !states_all(job, expected[at].1) {
            return false;
        }
    }
    true
}

// Whether a fault is this one.
fn is_fault(fault: &Fault, told: &Told) -> bool {
    let is_named = match told.3 {
        Some(name) => fault.code.name() == name,
        None => true,
    };
    is_named && fault.path.is(told.0) && fault.line == told.1 && fault.code.number() == told.2
}

fn are_faults(report: &Report, expected: &[Told]) -> bool {
    let faults = report.as_slice();
    if faults.len() != expected.len() {
        return false;
    }
    for at in 0..expected.len() {
        if !is_fault(&faults[at], &expected[at]) {
            return false;
        }
    }
    report.len() == expected.len() && report.is_empty() == expected.is_empty()
}

/// What a folder is read as.
pub(crate) fn read(alloc: Global, folder: &Folder) -> Result<(Items<JobDef>, Report), ConfFault> {
    let index = FolderIndex::new(alloc, folder)?;
    let read = read_folder(alloc, &index);
    drop(index);
    read
}

fn holds(alloc: Global, folder: &Folder, case: &Case) -> Result<bool, ConfFault> {
    match read(alloc, folder) {
        Ok((jobs, report)) => {
            let are_jobs = are_jobs(jobs.as_slice(), case.jobs);
            drop(jobs);
            let are_faults = are_faults(&report, case.faults);
            drop(report);
            Ok(are_jobs && are_faults)
        }
        Err(fault) => Err(fault),
    }
}

fn check(alloc: Global, cases: &[Case]) -> Result<(), Fail> {
    for case in cases {
        let folder = folder_of(alloc, case.files)?;
        let holds = holds(alloc, &folder, case);
        drop(folder);
        if !holds? {
            return Err(Fail::from(case.name));
        }
    }
    Ok(())
}

#[test]
fn folders_are_read(rt: HostRuntime) -> Result<(), Fail> {
    check(rt.alloc(), CASES)
}

// Adds so many jobs, each with an override.
fn add_jobs(alloc: Global, folder: &mut Folder, count: u32) -> Result<(), AllocError> {
    for n in 0..count {
        add_numbered(alloc, folder, n, ".conf", b"start on go\nexec x\n")?;
        add_numbered(alloc, folder, n, ".override", b"manual\n")?;
    }
    Ok(())
}

// Whether there are so many jobs, each of which starts on no event.
fn are_unstarted(jobs: &[JobDef], count: usize) -> bool {
    for job in jobs {
        if job.start_on.is_some() {
            return false;
        }
    }
    jobs.len() == count
}

// Whether a folder has so many jobs, each of which starts on no event, and no fault.
fn has_unstarted(alloc: Global, folder: &Folder, count: usize) -> Result<bool, ConfFault> {
    match read(alloc, folder) {
        Ok((jobs, report)) => {
            let has_unstarted = are_unstarted(jobs.as_slice(), count) && report.is_empty();
            drop(jobs);
            drop(report);
            Ok(has_unstarted)
        }
        Err(fault) => Err(fault),
    }
}

fn check_many(alloc: Global, count: u32) -> Result<(), Fail> {
    let mut folder = Folder::new(alloc);
    let read = match add_jobs(alloc, &mut folder, count) {
        Ok(()) => has_unstarted(alloc, &folder, count as usize),
        Err(refused) => Err(ConfFault::from(refused)),
    };
    drop(folder);
    if read? {
        Ok(())
    } else {
        Err(Fail::from("other jobs or faults"))
    }
}

#[test]
fn many_files_are_read(rt: HostRuntime) -> Result<(), Fail> {
    check_many(rt.alloc(), 1024)
}

const FILES: &'static [(&'static str, &'static [u8])] = &[
    ("a.conf", b"exec x\n"),
    ("a.override", b"exec x\n"),
    ("b.override", b"exec x\n"),
    ("notes", b"exec x\n"),
];

// Whether each of them is read.
const READ: &'static [(&'static str, bool)] = &[
    ("a.conf", true),
    ("a.override", true),
    ("b.override", false),
    ("notes", false),
];

fn check_read(alloc: Global, index: &FolderIndex) -> Result<(), Fail> {
    if index.files().len() != READ.len() {
        return Err(Fail::from("more or fewer files"));
    }
    for case in READ {
        if index.is_read(alloc, case.0)? != case.1 {
            return Err(Fail::from(case.0));
        }
    }
    Ok(())
}

fn check_index(alloc: Global, folder: &Folder) -> Result<(), Fail> {
    let index = FolderIndex::new(alloc, folder)?;
    let checked = check_read(alloc, &index);
    drop(index);
    checked
}

#[test]
fn an_override_is_read_if_its_file_is_there(rt: HostRuntime) -> Result<(), Fail> {
    let folder = folder_of(rt.alloc(), FILES)?;
    let checked = check_index(rt.alloc(), &folder);
    drop(folder);
    checked
}
