//! Writes a table as bytes.
ghost use Rattle.std.specs.Prelude.{◌≡◌, ◌+◌, ◌++◌, ◌&&◌, ◌≤◌, ◌<◌, ◌^◌, nat_le, drop, IfOk, OnOk, length, take, true};
ghost use Rattle.std.specs.List.{list_all};
ghost use Rattle.byteorder.specs.Endian.{big_bytes};
ghost use Rattle.up_image.specs.declared.limits.TheConstants.{MAX_IMAGE, MAX_JOBS};
ghost use Rattle.up_image.specs.Image.{IsImage, body_of, fits, has_image, head_of};
ghost use Rattle.up_image.specs.Index.{entries_of, index_part};
ghost use Rattle.up_image.specs.declared.version.Version.TheVariants.{Two};

use crate::bytes::{push_u16, push_u32};
use crate::fits::all_fit;
use crate::index::put_index;
use crate::limits::{MAX_IMAGE, MAX_JOBS};
use crate::put_job::{job_len, put_jobs};
use crate::version::Version;
use byteorder::{BigEndian, ByteOrder};
use std::alloc::{AllocError, Global};
use up_conf::JobDef;

/// The number of bytes before an image's jobs.
pub(crate) const HEAD: usize = 12;

/// Whether an image of a version can hold the number of jobs, and all parts of each.
pub(crate) fn is_countable(version: Version, jobs: &[JobDef]) -> bool
    ensures { result ≡ (nat_le (length jobs.now) MAX_JOBS && list_all (fits version) jobs.now) }
{
    jobs.len() <= MAX_JOBS && all_fit(version, jobs)
}

// The length of the index of jobs, in bytes.
fn index_len(alloc: Global, jobs: &[JobDef]) -> Result<usize, AllocError>
    requires { length jobs.now ≤ MAX_JOBS }
    ensures { IfOk result (λ len. len ≡ length (index_part (entries_of jobs.now))) }
{
    let mut index = Vec::new(alloc);
    put_index(alloc, &mut index, jobs)?;
    Ok(index.len())
}

// Whether the head, the jobs and the index together are within the limit of an image. Writes only one of them at a time.
#[tactic(auto, using(crate::proofs::Lengths::length_more, crate::proofs::Lengths::too_long))]
fn is_small(alloc: Global, jobs: &[JobDef]) -> Result<bool, AllocError>
    requires { length jobs.now ≤ MAX_JOBS }
    ensures { IfOk result (λ small. small ≡ nat_le (12 + length (body_of Two jobs.now)) MAX_IMAGE) }
{
    let mut bytes = Vec::new(alloc);
    let mut len = HEAD;
    for job in jobs {
        let more = job_len(&mut bytes, job)?;
        if more > MAX_IMAGE - len {
            return Ok(false);
        }
        len += more;
    }
    let index = index_len(alloc, jobs)?;
    Ok(index <= MAX_IMAGE - len)
}

/// Whether jobs have an image of the version that is written.
#[tactic(auto, unfolding(crate::specs::Image::has_image))]
pub(crate) fn has_image(alloc: Global, jobs: &[JobDef]) -> Result<bool, AllocError>
    ensures { IfOk result (λ has. has ≡ has_image jobs.now) }
{
    if !is_countable(Version::Two, jobs) {
        return Ok(false);
    }
    is_small(alloc, jobs)
}

pub(crate) fn put_head(
    out: &mut Vec<u8>,
    version: Version,
    jobs: usize,
    bytes: usize,
) -> Result<(), AllocError>
    ensures { OnOk result (out.new.items ≡ out.old.items ++ head_of version jobs bytes) }
{
    out.extend_from_slice(b"UPTB")?;
    push_u16(out, u64::from(version.number()))?;
    push_u16(out, jobs as u64)?;
    push_u32(out, bytes as u64)?;
    Ok(())
}

// The head, the jobs and the index. The length isn't known yet, so it is 0 in the head.
fn write_parts(alloc: Global, jobs: &[JobDef]) -> Result<Vec<u8>, AllocError>
    requires { length jobs.now ≤ MAX_JOBS }
    ensures { IfOk result (λ bytes. bytes.items ≡ head_of Two (length jobs.now) 0 ++ body_of Two jobs.now) }
{
    let mut bytes = Vec::new(alloc);
    put_head(&mut bytes, Version::Two, jobs.len(), 0)?;
    put_jobs(&mut bytes, jobs)?;
    put_index(alloc, &mut bytes, jobs)?;
    Ok(bytes)
}

// Sets the length in the head of an image to that of these bytes.
fn set_length(bytes: &mut [u8])
    requires long { 12 ≤ length bytes.old }
    requires short { length bytes.old < 2 ^ 32 }
    ensures { bytes.new ≡ take 8 bytes.old ++ (big_bytes 4 (length bytes.old) ++ drop 12 bytes.old) }
{
    let len = bytes.len() as u32;
    BigEndian::write_u32(&mut bytes[8..], len);
}

// The same for a vector.
#[tactic(auto, using(crate::proofs::Images::written))]
fn set_length_in(bytes: &mut Vec<u8>)
    requires long { 12 ≤ length bytes.old.items }
    requires short { length bytes.old.items < 2 ^ 32 }
    ensures { bytes.new.items ≡ take 8 bytes.old.items
        ++ (big_bytes 4 (length bytes.old.items) ++ drop 12 bytes.old.items) }
{
    set_length(bytes.as_mut_slice());
}

/// The image of jobs that have one.
#[tactic(auto, using(crate::proofs::Images::parts_of, crate::proofs::Images::written_of))]
pub(crate) fn write_image(alloc: Global, jobs: &[JobDef]) -> Result<Vec<u8>, AllocError>
    requires { has_image jobs.now ≡ true }
    ensures { IfOk result (λ bytes. IsImage bytes.items jobs.now) }
{
    let mut bytes = write_parts(alloc, jobs)?;
    set_length_in(&mut bytes);
    Ok(bytes)
}
