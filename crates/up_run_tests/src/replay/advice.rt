//! What is said of a fault, and the graph of a folder's jobs.
use crate::replay::reader::add_files;
use std::alloc::{AllocError, Global};
use std::test::Fail;
use up_conf::{ConfFault, Folder, FolderIndex, JobDef, Report, read_folder};
use up_print::graph::graph;
use up_print::push_advice;
use up_text::Items;

const SAID: &'static str = "    setuid root\n    `setuid` isn't supported: ";

// Whether there is one fault, which is said as it should be.
fn is_said(alloc: Global, folder: &Folder, report: &Report) -> Result<bool, AllocError> {
    let [fault] = report.as_slice() else {
        return Ok(false);
    };
    let mut text = Vec::new(alloc);
    push_advice(&mut text, folder.as_slice(), fault)?;
    Ok(text.as_slice().starts_with(SAID.as_bytes()) && text.as_slice().ends_with(b"\n"))
}

const DRAWN: &'static str = r#"digraph jobs {
  rankdir=LR;
  "job a" [label="a", shape=box];
  "event go" [label="go", shape=ellipse];
  "event go" -> "job a" [label="start on"];
}
"#;

fn is_drawn(alloc: Global, jobs: &[JobDef]) -> Result<bool, AllocError> {
    let text = graph(alloc, jobs)?;
    Ok(text.as_slice() == DRAWN.as_bytes())
}

const FILES: &'static [(&'static str, &'static [u8])] = &[
    ("a.conf", b"start on go\nexec /bin/d\n"),
    ("b.conf", b"# b\nsetuid root\n"),
];

// Large values are dropped by a call: the prover would go through each field of what a scope drops.
fn read(alloc: Global, folder: &Folder) -> Result<(Items<JobDef>, Report), ConfFault> {
    let index = FolderIndex::new(alloc, folder)?;
    let read = read_folder(alloc, &index);
    drop(index);
    read
}

fn check(alloc: Global, folder: &mut Folder) -> Result<(), Fail> {
    add_files(alloc, folder, FILES)?;
    match read(alloc, folder) {
        Ok((jobs, report)) => {
            let said = is_said(alloc, folder, &report);
            drop(report);
            let drawn = is_drawn(alloc, jobs.as_slice());
            drop(jobs);
            if said? && drawn? {
                Ok(())
            } else {
                Err(Fail::from("other words, or another graph"))
            }
        }
        Err(fault) => Err(Fail::from(fault)),
    }
}

#[test]
fn a_fault_is_explained_and_a_job_is_drawn(rt: HostRuntime) -> Result<(), Fail> {
    let mut folder = Folder::new(rt.alloc());
    let checked = check(rt.alloc(), &mut folder);
    drop(folder);
    checked
}
