//! Job files that the tests share.
use crate::conf::add_numbered;
use crate::images::folders::compiled;
use std::alloc::{AllocError, Global};
use up_conf::Folder;
use up_image::{ImageError, JobFile, Table};

fn add_job(alloc: Global, folder: &mut Folder, at: u32, stanzas: &str) -> Result<(), AllocError> {
    let text = format!(in alloc; "{stanzas}\nexec /bin/d\n")?;
    let added = add_numbered(alloc, folder, at, ".conf", text.as_bytes());
    drop(text);
    added
}

fn add_jobs(alloc: Global, folder: &mut Folder, jobs: &[&str]) -> Result<(), AllocError> {
    let mut number = 0u32;
    for stanzas in jobs {
        add_job(alloc, folder, number, *stanzas)?;
        number = number.wrapping_add(1);
    }
    Ok(())
}

// Large values are moved on or dropped by a call, here and below: the prover would go through each field of what a scope drops.
fn table_of(alloc: Global, jobs: &[&str]) -> Result<Table, ImageError> {
    let mut folder = Folder::new(alloc);
    let table = match add_jobs(alloc, &mut folder, jobs) {
        Ok(()) => compiled(alloc, &folder),
        Err(refused) => Err(ImageError::from(refused)),
    };
    drop(folder);
    table
}

/// The files of jobs with these stanzas, in this order: the jobs `0`, `1` and so on.
pub(crate) fn files_of(alloc: Global, jobs: &[&str]) -> Result<Vec<JobFile>, ImageError> {
    Ok(table_of(alloc, jobs)?.into_files(alloc)?)
}
