//! Reads a table from bytes.
//!
//! A table is accepted only if files can define its jobs and its image is the same as the bytes: so the places of nodes and the index
//! need no check of their own.
ghost use Rattle.std.specs.Prelude.{◌≡◌, ◌≤◌, IfErr, IfOk, OnOk, Some, codes, drop, length, take, true, false};
ghost use Rattle.std.specs.Result.{result_err};
ghost use Rattle.std.specs.Str.{bytes_eq};
ghost use Rattle.byteorder.specs.Endian.{big_number};
ghost use Rattle.up_image.specs.Image.{IsVersion, has_image};
ghost use Rattle.up_image.specs.Definable.{are_definable};
ghost use Rattle.up_image.specs.Reading.{HasNoTable, IsStored, ReadsImage, claimed_length, head_error, version_at};
ghost use Rattle.up_image.specs.declared.read_fault.ReadFault.TheVariants.{BadTable};
ghost use Rattle.up_image.specs.declared.version.Version.TheVariants.{One};

use crate::definable::are_definable;
use crate::image::{HEAD, has_image};
use crate::image_error::ImageError;
use crate::limits::MAX_IMAGE;
use crate::read_fault::ReadFault;
use crate::same_image::is_image;
use crate::table::Table;
use crate::take_job::take_jobs;
use crate::version::{Version, version_of};
use byteorder::{BigEndian, ByteOrder};
use std::alloc::Global;
use up_conf::JobDef;
use up_text::Items;

/// The first bytes of an image.
const MAGIC: &[u8; 4] = b"UPTB";

// The version in an image's head, if it is a known one.
fn version(bytes: &[u8]) -> Option<Version>
    requires { 12 ≤ length bytes.now }
    ensures { result ≡ version_at bytes.now }
{
    version_of(BigEndian::read_u16(&bytes[4..]))
}

// The length in an image's head, in bytes.
fn claimed_length(bytes: &[u8]) -> u32
    requires { 12 ≤ length bytes.now }
    ensures { result ≡ claimed_length bytes.now }
{
    BigEndian::read_u32(&bytes[8..])
}

// The number of jobs in an image's head.
fn job_count(bytes: &[u8]) -> u16
    requires { 12 ≤ length bytes.now }
    ensures { result ≡ big_number 2 (drop 6 bytes.now) }
{
    BigEndian::read_u16(&bytes[6..])
}

fn has_magic(bytes: &[u8]) -> bool
    ensures { result ≡ bytes_eq (take 4 bytes.now) (take (length bytes.now) (codes "UPTB")) }
{
    let len = bytes.len().min(4);
    bytes[..len] == MAGIC[..len]
}

// The version of an image, or the error in its head.
#[tactic(auto, unfolding(crate::specs::Reading::head_error))]
fn read_head(bytes: &[u8]) -> Result<Version, ImageError>
    ensures error { result_err result ≡ head_error bytes.now }
    ensures version { IfOk result (λ version. version_at bytes.now ≡ Some version) }
    ensures long { OnOk result (12 ≤ length bytes.now) }
{
    if !has_magic(bytes) {
        return Err(ImageError::BadMagic);
    }
    if bytes.len() < HEAD {
        return Err(ImageError::Truncated);
    }
    let Some(version) = version(bytes) else {
        return Err(ImageError::BadVersion);
    };
    if bytes.len() < claimed_length(bytes) as usize {
        return Err(ImageError::Truncated);
    }
    if (claimed_length(bytes) as usize) < bytes.len() {
        return Err(ImageError::Trailing);
    }
    Ok(version)
}

// Refuses jobs whose image isn't these bytes.
fn check_image(
    alloc: Global,
    version: Version,
    jobs: &[JobDef],
    bytes: &[u8],
) -> Result<(), ReadFault>
    ensures image { OnOk result (IsVersion version bytes.now jobs.now) }
    ensures refused { IfErr result (λ read_fault. read_fault ≡ BadTable → IsVersion version bytes.now jobs.now → ⊥) }
{
    if is_image(alloc, version, jobs, bytes)? {
        return Ok(());
    }
    Err(ReadFault::BadTable)
}

// Refuses jobs of version 1 that have no image of version 2, which may be longer.
fn check_new(alloc: Global, version: Version, jobs: &[JobDef]) -> Result<(), ReadFault>
    ensures imaged { OnOk result (version ≡ One → has_image jobs.now ≡ true) }
    ensures refused { IfErr result (λ read_fault. read_fault ≡ BadTable → has_image jobs.now ≡ false) }
{
    match version {
        Version::One => {
            if has_image(alloc, jobs)? {
                return Ok(());
            }
            Err(ReadFault::BadTable)
        }
        Version::Two => Ok(()),
    }
}

// Refuses jobs that no files define.
fn check_given(alloc: Global, jobs: &[JobDef]) -> Result<(), ReadFault>
    ensures given { OnOk result (are_definable jobs.now ≡ true) }
    ensures refused { IfErr result (λ read_fault. read_fault ≡ BadTable → are_definable jobs.now ≡ false) }
{
    if are_definable(alloc, jobs)? {
        return Ok(());
    }
    Err(ReadFault::BadTable)
}

fn after_head(bytes: &[u8]) -> &[u8]
    requires { 12 ≤ length bytes.now }
    ensures { result.now ≡ drop 12 bytes.now }
{
    &bytes[HEAD..]
}

// Refuses jobs that no table has, or whose image in a version isn't these bytes.
fn check_stored(
    alloc: Global,
    version: Version,
    jobs: &[JobDef],
    bytes: &[u8],
) -> Result<(), ReadFault>
    ensures stored { OnOk result (IsStored version bytes.now jobs.now) }
    ensures refused { IfErr result (λ read_fault. read_fault ≡ BadTable → IsStored version bytes.now jobs.now → ⊥) }
{
    check_given(alloc, jobs)?;
    check_image(alloc, version, jobs, bytes)?;
    check_new(alloc, version, jobs)?;
    Ok(())
}

// The jobs that were read, if a table has them and these bytes are their image.
fn checked(
    alloc: Global,
    version: Version,
    jobs: Vec<JobDef>,
    bytes: &[u8],
) -> Result<Items<JobDef>, ReadFault>
    ensures found { IfOk result (λ found. found ≡ jobs.items) }
    ensures stored { OnOk result (IsStored version bytes.now jobs.items) }
    ensures refused { IfErr result (λ read_fault. read_fault ≡ BadTable → IsStored version bytes.now jobs.items → ⊥) }
{
    check_stored(alloc, version, jobs.as_slice(), bytes)?;
    Ok(Items::new(jobs))
}

// The jobs of an image whose head is right and has this version.
fn read_body(alloc: Global, version: Version, bytes: &[u8]) -> Result<Items<JobDef>, ReadFault>
    requires long { 12 ≤ length bytes.now }
    requires version { version_at bytes.now ≡ Some version }
    ensures stored { IfOk result (λ jobs. IsStored version bytes.now jobs) }
    ensures refused { IfErr result (λ read_fault. read_fault ≡ BadTable → HasNoTable bytes.now) }
{
    if bytes.len() > MAX_IMAGE {
        return Err(ReadFault::BadTable);
    }
    match take_jobs(alloc, version, after_head(bytes), job_count(bytes)) {
        Ok((jobs, _index)) => match checked(alloc, version, jobs, bytes) {
            Ok(jobs) => Ok(jobs),
            Err(read_fault) => Err(read_fault),
        },
        Err(read_fault) => Err(read_fault),
    }
}

/// Reads a table from its image. An error in the head comes first, else the error is `BadTable` or `Memory`.
pub(crate) fn read_image(alloc: Global, bytes: &[u8]) -> Result<Table, ImageError>
    ensures { ReadsImage bytes.now (head_error bytes.now) result }
{
    match read_head(bytes) {
        Err(error) => Err(error),
        Ok(version) => match read_body(alloc, version, bytes) {
            Ok(jobs) => Ok(Table::new(jobs)),
            Err(ReadFault::BadTable) => Err(ImageError::BadTable),
            Err(ReadFault::Memory) => Err(ImageError::Memory),
        },
    }
}
