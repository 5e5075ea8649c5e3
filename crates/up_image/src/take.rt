//! Reads numbers and texts. Each call returns what it read from the front of the bytes, and the bytes after it. Memory is taken for
//! bytes that are there, never for a length that an image only claims.
ghost use Rattle.std.specs.Prelude.{◌≡◌, ◌++◌, ◌∷◌, [], OnOk};
ghost use Rattle.up_image.specs.Finding.{Reads, byte_at, items_at, list_at, name_at, number_at, split_at, text_at};

use crate::read_fault::ReadFault;
use byteorder::{BigEndian, ByteOrder};
use std::alloc::{AllocError, Global};
use std::str;
use up_text::{Items, Name, Text, TextFault};

pub(crate) fn push<T: Drop>(items: &mut Vec<T>, item: T) -> Result<(), AllocError>
    ensures { OnOk result (items.new.items ≡ items.old.items ++ item ∷ []) }
{
    items.push(item)?;
    Ok(())
}

fn take_bytes(bytes: &[u8], len: usize) -> Result<(&[u8], &[u8]), ReadFault>
    ensures { Reads (λ x. (x.0.now, x.1.now)) result (split_at (len, bytes.now)) }
{
    if len > bytes.len() {
        return Err(ReadFault::BadTable);
    }
    Ok(bytes.split_at(len))
}

pub(crate) fn take_byte(bytes: &[u8]) -> Result<(u8, &[u8]), ReadFault>
    ensures { Reads (λ x. (x.0, x.1.now)) result (byte_at bytes.now) }
{
    match bytes.split_first() {
        Some((byte, rest)) => Ok((*byte, rest)),
        None => Err(ReadFault::BadTable),
    }
}

pub(crate) fn take_two(bytes: &[u8]) -> Result<(u16, &[u8]), ReadFault>
    ensures { Reads (λ x. (x.0, x.1.now)) result (number_at 2 bytes.now) }
{
    if bytes.len() < 2 {
        return Err(ReadFault::BadTable);
    }
    let number = BigEndian::read_u16(bytes);
    Ok((number, &bytes[2..]))
}

pub(crate) fn take_four(bytes: &[u8]) -> Result<(u32, &[u8]), ReadFault>
    ensures { Reads (λ x. (x.0, x.1.now)) result (number_at 4 bytes.now) }
{
    if bytes.len() < 4 {
        return Err(ReadFault::BadTable);
    }
    let number = BigEndian::read_u32(bytes);
    Ok((number, &bytes[4..]))
}

#[tactic(auto, unfolding(crate::specs::Finding::text_at), using(crate::proofs::Utf8::is_text, crate::proofs::Utf8::is_no_text))]
fn take_str(bytes: &[u8]) -> Result<(&str, &[u8]), ReadFault>
    ensures { Reads (λ x. (x.0.now, x.1.now)) result (text_at bytes.now) }
{
    let (len, rest) = take_four(bytes)?;
    let (text, rest) = take_bytes(rest, len as usize)?;
    match str::from_utf8(text) {
        Ok(text) => Ok((text, rest)),
        Err(_) => Err(ReadFault::BadTable),
    }
}

pub(crate) fn take_text(alloc: Global, bytes: &[u8]) -> Result<(Text, &[u8]), ReadFault>
    ensures { Reads (λ x. (x.0, x.1.now)) result (text_at bytes.now) }
{
    let (text, rest) = take_str(bytes)?;
    Ok((Text::from_str(alloc, text)?, rest))
}

#[tactic(auto, unfolding(crate::specs::Finding::name_at))]
pub(crate) fn take_name(alloc: Global, bytes: &[u8]) -> Result<(Name, &[u8]), ReadFault>
    ensures { Reads (λ x. (x.0, x.1.now)) result (name_at bytes.now) }
{
    let (text, rest) = take_str(bytes)?;
    match Name::new(alloc, text) {
        Ok(name) => Ok((name, rest)),
        Err(TextFault::Memory) => Err(ReadFault::Memory),
        Err(_) => Err(ReadFault::BadTable),
    }
}

#[tactic(auto, using(crate::proofs::Counting::items_left))]
fn take_many(alloc: Global, bytes: &[u8], count: u16) -> Result<(Items<Text>, &[u8]), ReadFault>
    ensures { Reads (λ x. (x.0, x.1.now)) result (items_at text_at count [] bytes.now) }
{
    let mut rest = bytes;
    let mut texts = Vec::new(alloc);
    for i in 0..count {
        let (text, after) = take_text(alloc, rest)?;
        push(&mut texts, text)?;
        rest = after;
    }
    Ok((Items::new(texts), rest))
}

pub(crate) fn take_texts(alloc: Global, bytes: &[u8]) -> Result<(Items<Text>, &[u8]), ReadFault>
    ensures { Reads (λ x. (x.0, x.1.now)) result (list_at text_at bytes.now) }
{
    let (count, rest) = take_two(bytes)?;
    take_many(alloc, rest, count)
}
