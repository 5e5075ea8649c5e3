//! Copies of the parts of stanzas.
ghost use Rattle.std.specs.Prelude.{◌≡◌, IfOk};

use std::alloc::{AllocError, Global};
use up_stanza::{Exit, Setting};
use up_text::Items;

pub(crate) fn copy_exits(alloc: Global, exits: &[Exit]) -> Result<Items<Exit>, AllocError>
    ensures { IfOk result (λ copied. copied ≡ exits.now) }
{
    let mut copied: Vec<Exit> = Vec::new(alloc);
    for exit in exits {
        copied.push(*exit)?;
    }
    Ok(Items::new(copied))
}

pub(crate) fn copy_settings(
    alloc: Global,
    settings: &[Setting],
) -> Result<Items<Setting>, AllocError>
    ensures { IfOk result (λ copied. copied ≡ settings.now) }
{
    let mut copied: Vec<Setting> = Vec::new(alloc);
    for setting in settings {
        copied.push(setting.copy()?)?;
    }
    Ok(Items::new(copied))
}
