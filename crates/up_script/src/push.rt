//! Appends to texts.
ghost use Rattle.std.specs.Prelude.{◌≡◌, ◌++◌, OnOk};
ghost use Rattle.std.specs.Fmt.{decimal};
ghost use Rattle.up_model.specs.Signals.{signal_text};

use std::alloc::AllocError;
use up_conf::signal_name;

pub(crate) fn push(text: &mut Vec<u8>, more: &str) -> Result<(), AllocError>
    ensures { OnOk result (text.new.items ≡ text.old.items ++ more.now) }
{
    text.extend_from_slice(more.as_bytes())
}

pub(crate) fn push_decimal(text: &mut Vec<u8>, number: u64) -> Result<(), AllocError>
    ensures { OnOk result (text.new.items ≡ text.old.items ++ decimal number) }
{
    let digits = number.to_string(*text.allocator())?;
    push(text, digits.as_str())
}

/// Appends a signal by its name, or by its number if it has none.
pub(crate) fn push_signal(text: &mut Vec<u8>, signal: u8) -> Result<(), AllocError>
    ensures { OnOk result (text.new.items ≡ text.old.items ++ signal_text signal) }
{
    match signal_name(signal) {
        Some(name) => push(text, name),
        None => push_decimal(text, u64::from(signal)),
    }
}
