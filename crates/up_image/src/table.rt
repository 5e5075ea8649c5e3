//! The jobs of a folder.
ghost use Rattle.std.specs.Prelude.{◌≡◌, ◌<◌, IfErr, IfOk, Some, length, slice_get};
ghost use Rattle.up_image.specs.declared.image_error.ImageError.TheVariants.{Memory};
ghost use Rattle.up_image.specs.Image.{IsImage};
ghost use Rattle.up_image.specs.Definable.{IsTable};
ghost use Rattle.up_image.specs.Reading.{ReadsImage, head_error};

use crate::image::write_image;
use crate::image_error::ImageError;
use crate::job_file::JobFile;
use crate::read_image::read_image;
use std::alloc::{AllocError, Global};
use std::marker::Model;
use up_conf::JobDef;
use up_text::Items;

/// The jobs of a folder, seen by contracts as their list in byte order of names. The expressions of each are kept as flat nodes
/// (`up_expr::Condition`).
#[derive(Debug, Drop)]
pub struct Table {
    jobs: Items<JobDef>,
}

impl Model for Table {
    ghost use Rattle.std.specs.Prelude.{List};
    ghost use Rattle.up_conf.specs.declared.job.JobDef.{JobDef};
    ghost use Rattle.up_conf.specs.contracts.job.JobDef as job;
    ghost use Rattle.std.specs.Coded.{coded_list};

    ghost Value = { List JobDef };

    ghost coded = { coded_list job.the_row.coded };

    ghost view = { λ t. t.jobs };

    ghost use Rattle.up_image.specs.Definable.{IsTable};

    ghost invariant = { λ t. IsTable t.jobs };
}

fn copy_jobs(alloc: Global, jobs: &[JobDef]) -> Result<Items<JobDef>, AllocError>
    ensures { IfOk result (λ copied. copied ≡ jobs.now) }
{
    let mut copied: Vec<JobDef> = Vec::with_capacity(alloc, jobs.len())?;
    for job in jobs {
        copied.push(job.copy(alloc)?)?;
    }
    Ok(Items::new(copied))
}

impl Table {
    pub(crate) fn new(jobs: Items<JobDef>) -> Self
        requires { IsTable jobs }
        ensures { result ≡ jobs }
    {
        Table { jobs }
    }

    /// Files can define its jobs, so no two have the same name, and the jobs have an image.
    pub fn is_given(&self)
        ensures { IsTable self.now }
    {
        let _jobs = &self.jobs;
    }

    pub fn len(&self) -> usize
        ensures { result ≡ length self.now }
    {
        self.as_slice().len()
    }

    pub fn job(&self, i: usize) -> &JobDef
        requires { i < length self.now }
        ensures { slice_get self.now i ≡ Some result.now }
    {
        &self.as_slice()[i]
    }

    pub fn as_slice(&self) -> &[JobDef]
        ensures { result.now ≡ self.now }
    {
        self.jobs.as_slice()
    }

    pub fn into_jobs(self) -> Vec<JobDef>
        ensures { result.items ≡ self }
    {
        let Table { jobs } = self;
        jobs.into_vec()
    }

    /// The jobs as files that can be shared, in their order.
    pub fn into_files(self, alloc: Global) -> Result<Vec<JobFile>, AllocError>
        ensures { IfOk result (λ files. files.items ≡ self) }
    {
        let mut files = Vec::with_capacity(alloc, self.len())?;
        for job in self.into_jobs() {
            files.push(JobFile::new(alloc, job)?)?;
        }
        Ok(files)
    }

    pub fn copy(&self, alloc: Global) -> Result<Self, AllocError>
        ensures { IfOk result (λ table. table ≡ self.now) }
    {
        let Table { jobs } = self;
        let jobs = copy_jobs(alloc, jobs.as_slice())?;
        Ok(Table { jobs })
    }

    /// The table's image, in version 2. The only error is `Memory`.
    pub fn to_bytes(&self, alloc: Global) -> Result<Vec<u8>, ImageError>
        ensures image { IfOk result (λ bytes. IsImage bytes.items self.now) }
        ensures refused { IfErr result (λ error. error ≡ Memory) }
    {
        let Table { jobs } = self;
        match write_image(alloc, jobs.as_slice()) {
            Ok(bytes) => Ok(bytes),
            Err(_) => Err(ImageError::Memory),
        }
    }

    /// Reads a table from its image in either version. Takes memory at most in proportion to the bytes, whatever lengths they claim:
    /// beside the jobs, only one job or the index is in memory, as it is written for the comparison.
    pub fn from_bytes(alloc: Global, bytes: &[u8]) -> Result<Table, ImageError>
        ensures { ReadsImage bytes.now (head_error bytes.now) result }
    {
        read_image(alloc, bytes)
    }
}
