//! Appending to texts.
ghost use Rattle.std.specs.Prelude.{◌≡◌, ◌++◌, OnOk};
ghost use Rattle.std.specs.Fmt.{decimal};
ghost use Rattle.std.specs.List.{flat_map};
ghost use Rattle.up_chart.specs.Svg.{attribute, escaped};

use std::alloc::AllocError;

pub(crate) fn push(text: &mut Vec<u8>, more: &str) -> Result<(), AllocError>
    ensures { OnOk result (text.new.items ≡ text.old.items ++ more.now) }
{
    text.extend_from_slice(more.as_bytes())
}

pub(crate) fn push_decimal(text: &mut Vec<u8>, number: u64) -> Result<(), AllocError>
    ensures { OnOk result (text.new.items ≡ text.old.items ++ decimal number) }
{
    let digits = number.to_string(*text.allocator())?;
    push(text, digits.as_str())
}

#[tactic(auto, unfolding(crate::specs::Svg::escaped))]
fn push_escaped(text: &mut Vec<u8>, byte: u8) -> Result<(), AllocError>
    ensures { OnOk result (text.new.items ≡ text.old.items ++ escaped byte) }
{
    match byte {
        b'&' => push(text, "&amp;"),
        b'<' => push(text, "&lt;"),
        b'>' => push(text, "&gt;"),
        0..=31 => push(text, "?"),
        _ => {
            text.push(byte)?;
            Ok(())
        }
    }
}

/// Appends a text, escaped for XML between two tags. Control bytes become `?`.
pub(crate) fn push_all_escaped(text: &mut Vec<u8>, bytes: &[u8]) -> Result<(), AllocError>
    ensures { OnOk result (text.new.items ≡ text.old.items ++ flat_map escaped bytes.now) }
{
    for byte in bytes {
        push_escaped(text, *byte)?;
    }
    Ok(())
}

/// Appends ` NAME="VALUE"`.
#[tactic(auto, unfolding(crate::specs::Svg::attribute))]
pub(crate) fn push_attribute(text: &mut Vec<u8>, name: &str, value: u64) -> Result<(), AllocError>
    ensures { OnOk result (text.new.items ≡ text.old.items ++ attribute name.now value) }
{
    push(text, " ")?;
    push(text, name)?;
    push(text, "=\"")?;
    push_decimal(text, value)?;
    push(text, "\"")
}
