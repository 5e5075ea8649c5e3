//! The files that define the jobs of a table.
use crate::job_text::folder_of;
use crate::table::Table;
use std::alloc::{AllocError, Global};
use up_conf::Folder;

/// A folder of files that define the jobs of a table, one file for each job, or two if one is not enough. The caller must check what the
/// folder compiles to: nothing is promised here.
pub fn job_files(alloc: Global, table: &Table) -> Result<Folder, AllocError> {
    folder_of(alloc, table.as_slice())
}
