//! Writes jobs.
ghost use Rattle.std.specs.Prelude.{◌≡◌, ◌++◌, ◌≤◌, IfOk, OnOk, length};
ghost use Rattle.std.specs.List.{flat_map};
ghost use Rattle.up_image.specs.Image.{bit, event_part, field_part, flags, job_part, number_parts, process_part, reload_part, set_part, text_parts};
ghost use Rattle.up_image.specs.declared.version.Version.TheVariants.{Two};

use crate::bytes::{push_u32, put_byte, put_text};
use crate::put_lists::{put_action, put_exits, put_settings, put_texts};
use crate::put_nodes::put_condition;
use crate::version::Version;
use std::alloc::AllocError;
use up_conf::JobDef;

fn bit(number: u8, set: bool) -> u8
    ensures value { result ≡ bit number set }
    ensures small { result ≤ number }
{
    if set { number } else { 0 }
}

fn flags(job: &JobDef) -> u8
    ensures { result ≡ flags job.now }
{
    bit(1, job.task) + bit(2, job.respawn) + bit(4, job.silent)
}

fn put_texts_of(out: &mut Vec<u8>, job: &JobDef) -> Result<(), AllocError>
    ensures { OnOk result (out.new.items ≡ out.old.items ++ text_parts job.now) }
{
    put_text(out, job.name.as_str())?;
    put_byte(out, flags(job))?;
    put_text(out, job.instance.as_str())?;
    put_text(out, job.dir.as_str())?;
    Ok(())
}

fn put_reload(out: &mut Vec<u8>, version: Version, job: &JobDef) -> Result<(), AllocError>
    ensures { OnOk result (out.new.items ≡ out.old.items ++ reload_part version job.now) }
{
    match version {
        Version::One => Ok(()),
        Version::Two => put_byte(out, job.reload_signal.number()),
    }
}

fn put_numbers(out: &mut Vec<u8>, version: Version, job: &JobDef) -> Result<(), AllocError>
    ensures { OnOk result (out.new.items ≡ out.old.items ++ number_parts version job.now) }
{
    push_u32(out, u64::from(job.limit.count))?;
    push_u32(out, u64::from(job.limit.interval))?;
    put_byte(out, job.kill_signal.number())?;
    put_reload(out, version, job)?;
    push_u32(out, u64::from(job.kill_timeout))?;
    Ok(())
}

fn put_fields(out: &mut Vec<u8>, version: Version, job: &JobDef) -> Result<(), AllocError>
    ensures { OnOk result (out.new.items ≡ out.old.items ++ field_part version job.now) }
{
    put_texts_of(out, job)?;
    put_numbers(out, version, job)?;
    Ok(())
}

fn put_sets(out: &mut Vec<u8>, job: &JobDef) -> Result<(), AllocError>
    ensures { OnOk result (out.new.items ≡ out.old.items ++ set_part job.now) }
{
    put_settings(out, job.env.as_slice())?;
    put_texts(out, job.export.as_slice())?;
    put_exits(out, job.normal.as_slice())?;
    Ok(())
}

fn put_processes(out: &mut Vec<u8>, job: &JobDef) -> Result<(), AllocError>
    ensures { OnOk result (out.new.items ≡ out.old.items ++ process_part job.now) }
{
    put_action(out, &job.main)?;
    put_action(out, &job.pre_start)?;
    put_action(out, &job.post_start)?;
    put_action(out, &job.pre_stop)?;
    put_action(out, &job.post_stop)?;
    Ok(())
}

fn put_events(out: &mut Vec<u8>, job: &JobDef) -> Result<(), AllocError>
    ensures { OnOk result (out.new.items ≡ out.old.items ++ event_part job.now) }
{
    put_condition(out, &job.start_on)?;
    put_condition(out, &job.stop_on)?;
    Ok(())
}

#[tactic(auto, unfolding(crate::specs::Image::job_part))]
pub(crate) fn put_job(out: &mut Vec<u8>, version: Version, job: &JobDef) -> Result<(), AllocError>
    ensures { OnOk result (out.new.items ≡ out.old.items ++ job_part version job.now) }
{
    put_fields(out, version, job)?;
    put_sets(out, job)?;
    put_processes(out, job)?;
    put_events(out, job)?;
    Ok(())
}

/// The length of a job in an image, in bytes. Overwrites `out` with these bytes.
pub(crate) fn job_len(out: &mut Vec<u8>, job: &JobDef) -> Result<usize, AllocError>
    ensures { IfOk result (λ len. len ≡ length (job_part Two job.now)) }
{
    out.clear();
    put_job(out, Version::Two, job)?;
    Ok(out.len())
}

/// Appends jobs as an image has them.
pub(crate) fn put_jobs(out: &mut Vec<u8>, jobs: &[JobDef]) -> Result<(), AllocError>
    ensures { OnOk result (out.new.items ≡ out.old.items ++ flat_map (job_part Two) jobs.now) }
{
    for job in jobs {
        put_job(out, Version::Two, job)?;
    }
    Ok(())
}
