//! Reads the files of a folder, each with its override.
ghost use Rattle.std.specs.Prelude.{◌≡◌, ◌++◌, ℕ, List, Result, [], IfOk, OnErr, true, unwrap_or, None, Some, option_map, option_and_then, option_copied, if◌then◌else◌, codes};
ghost use Rattle.std.specs.Result.{result_ok, result_err};
ghost use Rattle.up_text.specs.Names.{is_name};
ghost use Rattle.up_conf.specs.Folders.{bytes_at, job_name, overridden_name, override_of, job_in, job_of_file, spot_in, spot_of_file};
ghost use Rattle.up_conf.specs.Jobs.{job_of};
ghost use Rattle.up_conf.specs.Outcomes.{IsFault};
ghost use Rattle.up_stanza.specs.Confs.{conf_of};
ghost use Rattle.up_stanza.specs.Reading.{IsConf};
ghost use Rattle.up_stanza.specs.declared.stanza.Stanza.{Stanza};

use crate::ending::{job_name, overridden_name, override_path};
use crate::folder::File;
use crate::folder_index::FolderIndex;
use crate::job::JobDef;
use crate::meaning::apply_override;
use crate::parsed::Overrides;
use crate::report::Fault;
use std::alloc::{AllocError, Global};
use up_stanza::{ConfFault, FaultCode, Stanzas, read_bytes};
use up_text::{Items, Name, Text, TextFault};

/// The greatest number of a fault that a file has; that of memory that ran out is greater.
const MAX_NUMBER: u8 = 16;

// The name with these bytes, if they are a name.
fn make_name(alloc: Global, text: &str) -> Result<Option<Name>, AllocError>
    ensures name { IfOk result (λ name. name ≡ (if is_name text.now then Some text.now else None)) }
    ensures memory { OnErr result (is_name text.now ≡ true) }
{
    match Name::new(alloc, text) {
        Ok(name) => Ok(Some(name)),
        Err(TextFault::Memory) => Err(AllocError),
        Err(_) => Ok(None),
    }
}

// The bytes of a job's override.
fn override_bytes<'a>(
    alloc: Global,
    index: &FolderIndex<'a>,
    name: &str,
) -> Result<Option<&'a [u8]>, AllocError>
    ensures { IfOk result (λ found. option_map (λ bytes. bytes.now) found
        ≡ bytes_at (name.now ++ codes ".override") index.now) }
{
    let path = override_path(alloc, name)?;
    Ok(index.bytes_at(path.as_str()))
}

// A file's fault, as it is reported.
fn fault_in(path: &Text, fault: ConfFault) -> Result<Fault, AllocError>
    ensures { IfOk result (λ found. IsFault (Some (record { path = path.now; line = fault.line }))
        (Some found)) }
{
    if fault.code.number() > MAX_NUMBER {
        return Err(AllocError);
    }
    Ok(Fault {
        path: path.copy()?,
        line: fault.line,
        code: fault.code,
    })
}

fn no_stanzas(alloc: Global) -> Stanzas
    ensures { result ≡ [] }
{
    Items::new(Vec::new(alloc))
}

// The job that its file's stanzas define, followed by those of its override, which counts for nothing if it is faulty.
fn define_with(
    alloc: Global,
    name: Name,
    stanzas: &Stanzas,
    over: &Result<Stanzas, ConfFault>,
) -> Result<JobDef, AllocError>
    ensures { IfOk result (λ job. (conf : Result (List Stanza) ℕ) → IsConf conf over.now
        → job ≡ job_of name (stanzas.now ++ unwrap_or (result_ok conf) [])) }
{
    match over {
        Ok(over) => apply_override(alloc, name, stanzas, over),
        Err(_) => {
            let none = no_stanzas(alloc);
            let job = apply_override(alloc, name, stanzas, &none);
            drop(none);
            job
        }
    }
}

// The job of these stanzas and an override with these bytes.
fn define_over<'a>(
    alloc: Global,
    overrides: &mut Overrides<'a>,
    key: &'a str,
    bytes: &'a [u8],
    name: Name,
    stanzas: &Stanzas,
) -> Result<JobDef, AllocError>
    ensures { IfOk result (λ job. job
        ≡ job_of name (stanzas.now ++ unwrap_or (result_ok (conf_of bytes.now)) [])) }
{
    let over = overrides.take(alloc, key, bytes)?;
    match define_with(alloc, name, stanzas, &over) {
        Ok(job) => match overrides.keep(key, bytes, over) {
            Ok(()) => Ok(job),
            Err(refused) => {
                drop(job);
                Err(refused)
            }
        },
        Err(refused) => {
            drop(over);
            Err(refused)
        }
    }
}

// The job that its file's stanzas define, followed by those of its override.
#[tactic(auto, unfolding(crate::specs::Folders::override_of))]
fn define<'a>(
    alloc: Global,
    index: &FolderIndex<'a>,
    overrides: &mut Overrides<'a>,
    key: &'a str,
    name: Name,
    stanzas: &Stanzas,
) -> Result<JobDef, AllocError>
    ensures { IfOk result (λ job. job
        ≡ job_of name (stanzas.now ++ override_of index.now key.now)) }
{
    match override_bytes(alloc, index, key)? {
        Some(bytes) => define_over(alloc, overrides, key, bytes, name, stanzas),
        None => {
            let none = no_stanzas(alloc);
            let job = apply_override(alloc, name, stanzas, &none);
            drop(none);
            job
        }
    }
}

// What the file of a job says: the job, or the fault.
#[tactic(auto, unfolding(crate::specs::Folders::job_in, crate::specs::Folders::line_in))]
fn read_job<'a>(
    alloc: Global,
    index: &FolderIndex<'a>,
    overrides: &mut Overrides<'a>,
    file: &File,
    key: &'a str,
) -> Result<Result<JobDef, Fault>, AllocError>
    requires { job_name file.now.path ≡ Some key.now }
    ensures job { IfOk result (λ read. result_ok read ≡ job_in index.now key.now file.now.bytes) }
    ensures fault { IfOk result (λ read. IsFault (spot_in file.now) (result_err read)) }
{
    let Some(name) = make_name(alloc, key)? else {
        let fault = ConfFault {
            line: 1,
            code: FaultCode::BadName,
        };
        return Ok(Err(fault_in(&file.path, fault)?));
    };
    match read_bytes(alloc, file.bytes.as_slice())? {
        Ok(stanzas) => {
            let job = define(alloc, index, overrides, key, name, &stanzas);
            drop(stanzas);
            Ok(Ok(job?))
        }
        Err(fault) => Ok(Err(fault_in(&file.path, fault)?)),
    }
}

// The fault of an override, if it has one.
fn override_fault(
    path: &Text,
    read: &Result<Stanzas, ConfFault>,
) -> Result<Option<Fault>, AllocError>
    ensures { IfOk result (λ found. (conf : Result (List Stanza) ℕ) → IsConf conf read.now
        → IsFault (option_map {T = ℕ} (λ line. record {
          path = path.now;
          line =
              line;
        }) (result_err conf)) found) }
{
    match read {
        Ok(_) => Ok(None),
        Err(fault) => Ok(Some(fault_in(path, *fault)?)),
    }
}

// The fault of a file that stands for no job: of an override that is read.
#[tactic(auto, unfolding(crate::specs::Folders::line_in))]
fn read_other<'a>(
    alloc: Global,
    index: &FolderIndex<'a>,
    overrides: &mut Overrides<'a>,
    file: &'a File,
) -> Result<Option<Fault>, AllocError>
    requires { job_name file.now.path ≡ None }
    ensures { IfOk result (IsFault (spot_of_file index.now file.now)) }
{
    let Some(name) = overridden_name(file.path.as_str()) else {
        return Ok(None);
    };
    if !index.has_conf(alloc, name)? {
        return Ok(None);
    }
    let bytes = file.bytes.as_slice();
    let read = overrides.take(alloc, name, bytes)?;
    let fault = override_fault(&file.path, &read)?;
    overrides.keep(name, bytes, read)?;
    Ok(fault)
}

/// What a file of a folder says: a job, a fault, or nothing.
pub(crate) fn file_outcome<'a>(
    alloc: Global,
    index: &FolderIndex<'a>,
    overrides: &mut Overrides<'a>,
    file: &'a File,
) -> Result<Option<Result<JobDef, Fault>>, AllocError>
    ensures job { IfOk result (λ read. option_and_then result_ok read ≡ job_of_file index.now file.now) }
    ensures fault { IfOk result (λ read. IsFault (spot_of_file index.now file.now)
        (option_and_then result_err read)) }
{
    match job_name(file.path.as_str()) {
        Some(name) => {
            let read = read_job(alloc, index, overrides, file, name)?;
            Ok(Some(read))
        }
        None => match read_other(alloc, index, overrides, file)? {
            Some(fault) => Ok(Some(Err(fault))),
            None => Ok(None),
        },
    }
}
