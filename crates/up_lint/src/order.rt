//! Sorts warnings.
ghost use Rattle.std.specs.Prelude.{◌≡◌, ◌∷◌, [], OnOk};
ghost use Rattle.up_conf.specs.Order.{in_order};
ghost use Rattle.up_lint.specs.Lint.{ordered};

use crate::warning::Warning;
use std::alloc::AllocError;

fn sort_by_line(warnings: &mut Vec<Warning>) -> Result<(), AllocError>
    ensures { OnOk result (warnings.new.items ≡ in_order (λ warning. warning.line ∷ []) warnings.old.items) }
{
    warnings.sort_by(|warning, other| warning.line.cmp(&other.line))
}

fn sort_by_path(warnings: &mut Vec<Warning>) -> Result<(), AllocError>
    ensures { OnOk result (warnings.new.items ≡ in_order (λ warning. warning.path) warnings.old.items) }
{
    warnings.sort_by(|warning, other| warning.path.as_str().cmp(other.path.as_str()))
}

/// Sorts warnings by the byte order of paths, then by line; those of the same line keep their order.
pub(crate) fn sort(warnings: &mut Vec<Warning>) -> Result<(), AllocError>
    ensures { OnOk result (warnings.new.items ≡ ordered warnings.old.items) }
{
    sort_by_line(warnings)?;
    sort_by_path(warnings)
}
