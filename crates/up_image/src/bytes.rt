//! Writes numbers and texts. A number has its highest byte first.
ghost use Rattle.std.specs.Prelude.{◌≡◌, ◌++◌, ◌∷◌, [], OnOk, length};
ghost use Rattle.byteorder.specs.Endian.{big_bytes};
ghost use Rattle.up_image.specs.Texts.{text_part};

use byteorder::{BigEndian, ByteOrder};
use std::alloc::AllocError;

pub(crate) fn put_byte(out: &mut Vec<u8>, byte: u8) -> Result<(), AllocError>
    ensures { OnOk result (out.new.items ≡ out.old.items ++ byte ∷ []) }
{
    out.push(byte)?;
    Ok(())
}

/// Appends the lowest two bytes of a number.
pub(crate) fn push_u16(out: &mut Vec<u8>, number: u64) -> Result<(), AllocError>
    ensures { OnOk result (out.new.items ≡ out.old.items ++ big_bytes 2 number) }
{
    let mut bytes = [0; 8];
    BigEndian::write_u64(&mut bytes, number);
    out.extend_from_slice(&bytes[6..])?;
    Ok(())
}

/// Appends the lowest four bytes of a number.
pub(crate) fn push_u32(out: &mut Vec<u8>, number: u64) -> Result<(), AllocError>
    ensures { OnOk result (out.new.items ≡ out.old.items ++ big_bytes 4 number) }
{
    let mut bytes = [0; 8];
    BigEndian::write_u64(&mut bytes, number);
    out.extend_from_slice(&bytes[4..])?;
    Ok(())
}

/// Appends a text: its length, then its bytes.
pub(crate) fn put_text(out: &mut Vec<u8>, text: &str) -> Result<(), AllocError>
    ensures { OnOk result (out.new.items ≡ out.old.items ++ text_part text.now) }
{
    push_u32(out, text.len() as u64)?;
    out.extend_from_slice(text.as_bytes())?;
    Ok(())
}
