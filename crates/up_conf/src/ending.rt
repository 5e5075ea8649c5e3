//! The endings of paths: `.conf` is a job's file, `.override` the file that changes it (init(5)).
ghost use Rattle.std.specs.Prelude.{◌≡◌, ◌++◌, IfOk, option_copied, string_bytes, codes};
ghost use Rattle.up_conf.specs.Folders.{job_name, overridden_name};

use std::alloc::{AllocError, Global};

/// The path without `.conf`, or `None` if it has another ending.
pub fn job_name(path: &str) -> Option<&str>
    ensures { option_copied result ≡ job_name path.now }
{
    path.strip_suffix(".conf")
}

/// The path without `.override`, or `None` if it has another ending.
pub fn overridden_name(path: &str) -> Option<&str>
    ensures { option_copied result ≡ overridden_name path.now }
{
    path.strip_suffix(".override")
}

/// The path of a job's own file, `NAME.conf`.
pub(crate) fn conf_path(alloc: Global, name: &str) -> Result<String, AllocError>
    ensures { IfOk result (λ path. string_bytes path ≡ name.now ++ codes ".conf") }
{
    let mut path = String::from_str(alloc, name)?;
    path.push_str(".conf")?;
    Ok(path)
}

/// `NAME.override`.
pub(crate) fn override_path(alloc: Global, name: &str) -> Result<String, AllocError>
    ensures { IfOk result (λ path. string_bytes path ≡ name.now ++ codes ".override") }
{
    let mut path = String::from_str(alloc, name)?;
    path.push_str(".override")?;
    Ok(path)
}
