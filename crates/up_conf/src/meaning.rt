//! The job that stanzas define.
ghost use Rattle.std.specs.Prelude.{◌≡◌, ◌++◌, [], IfOk};
ghost use Rattle.up_conf.specs.Gathering.{others_after};
ghost use Rattle.up_conf.specs.Jobs.{job_of, plain_job};

use crate::both::both;
use crate::gathered::{gather_env, gather_export};
use crate::job::JobDef;
use crate::outline::{Outline, plain_outline, with_stanzas};
use std::alloc::{AllocError, Global};
use up_stanza::{Stanza, Stanzas};
use up_text::Name;

// The job that the stanzas of two files define, except for its keys.
fn outline_of<'a>(
    alloc: Global,
    conf: &'a [Stanza],
    over: &'a [Stanza],
) -> Result<Outline<'a>, AllocError>
    ensures { IfOk result (λ outline. outline
        ≡ others_after (others_after (plain_job []) conf.now) over.now) }
{
    let outline = with_stanzas(plain_outline(alloc), conf)?;
    with_stanzas(outline, over)
}

#[tactic(auto, using(crate::proofs::Meanings::job_of_both))]
fn define(alloc: Global, name: Name, conf: &[Stanza], over: &[Stanza]) -> Result<JobDef, AllocError>
    ensures { IfOk result (λ job. job ≡ job_of name (conf.now ++ over.now)) }
{
    let keys = both(
        gather_env(alloc, conf, over),
        gather_export(alloc, conf, over),
    );
    let (outline, (env, export)) = both(outline_of(alloc, conf, over), keys)?;
    outline.into_job(alloc, name, env, export)
}

/// The job that stanzas define: the last of each kind counts, `env`, `export` and `normal exit` add up, and `manual` removes each earlier
/// `start on`.
#[tactic(auto, using(crate::proofs::Meanings::none_after))]
pub fn job_of(alloc: Global, name: Name, stanzas: &Stanzas) -> Result<JobDef, AllocError>
    ensures { IfOk result (λ job. job ≡ job_of name stanzas.now) }
{
    let job = define(alloc, name, stanzas.as_slice(), &[])?;
    Ok(job)
}

/// The job that the stanzas of its file define, followed by those of its override.
pub fn apply_override(
    alloc: Global,
    name: Name,
    conf: &Stanzas,
    over: &Stanzas,
) -> Result<JobDef, AllocError>
    ensures { IfOk result (λ job. job ≡ job_of name (conf.now ++ over.now)) }
{
    let job = define(alloc, name, conf.as_slice(), over.as_slice())?;
    Ok(job)
}
