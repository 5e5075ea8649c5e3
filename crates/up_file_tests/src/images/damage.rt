//! Images that were damaged.
use crate::images::folders::{
    BOTH, MANY, OLD_STARTUP_IMAGE, STARTUP_IMAGE, are_bytes, comes_back, image_of, refusal,
};
use crate::images::holds;
use std::alloc::{AllocError, Global};
use std::test::Fail;
use up_image::ImageError;

// The first length to which an image is cut without being refused for it.
fn first_whole(alloc: Global, image: &[u8]) -> usize {
    for len in 0..image.len() {
        if refusal(alloc, &image[..len]) != Some(ImageError::Truncated) {
            return len;
        }
    }
    image.len()
}

// The bytes from a place to another.
fn part(image: &[u8], from: usize, to: usize) -> &[u8] {
    image.get(from..to).unwrap_or(&[])
}

fn join(bytes: &mut Vec<u8>, parts: &[&[u8]]) -> Result<(), AllocError> {
    for part in parts {
        bytes.extend_from_slice(*part)?;
    }
    Ok(())
}

// Why these parts, one after another, are refused.
fn refusal_of(alloc: Global, parts: &[&[u8]]) -> Option<ImageError> {
    let mut bytes = Vec::new(alloc);
    let joined = join(&mut bytes, parts);
    let refusal = refusal(alloc, bytes.as_slice());
    drop(bytes);
    if joined.is_ok() {
        refusal
    } else {
        Some(ImageError::Memory)
    }
}

/// Why an image is refused with another byte at a place.
pub(crate) fn with_byte(alloc: Global, image: &[u8], place: usize, byte: u8) -> Option<ImageError> {
    let rest = part(image, place.saturating_add(1), image.len());
    refusal_of(alloc, &[part(image, 0, place), &[byte], rest])
}

// A byte at a place of an image, and why the image is refused with it, if it is.
type Change = (usize, u8, Option<ImageError>);

// Fails with the first place at which another thing comes of a change.
fn check_changes(alloc: Global, image: &[u8], changes: &[Change]) -> Result<(), Fail> {
    for change in changes {
        if with_byte(alloc, image, change.0, change.1) != change.2 {
            return Err(Fail::from(change.0));
        }
    }
    Ok(())
}

/// Why an image is refused with a byte more.
pub(crate) fn longer(alloc: Global, image: &[u8]) -> Option<ImageError> {
    refusal_of(alloc, &[image, b"\0"])
}

const HEAD: &'static [Change] = &[
    (0, 0x56, Some(ImageError::BadMagic)),
    (5, 0, Some(ImageError::BadVersion)),
    (5, 1, Some(ImageError::BadTable)),
    (5, 3, Some(ImageError::BadVersion)),
];

const OLD_HEAD: &'static [Change] = &[
    (5, 2, Some(ImageError::BadTable)),
    (5, 3, Some(ImageError::BadVersion)),
];

fn check_image(alloc: Global, image: &[u8], len: usize, changes: &[Change]) -> Result<(), Fail> {
    if first_whole(alloc, image) != len {
        return Err(Fail::from("a part of it isn't refused as truncated"));
    }
    if longer(alloc, image) != Some(ImageError::Trailing) {
        return Err(Fail::from("a byte more isn't refused"));
    }
    check_changes(alloc, image, changes)
}

#[test]
fn damaged_images(rt: HostRuntime) -> Result<(), Fail> {
    check_image(rt.alloc(), STARTUP_IMAGE, 113, HEAD)?;
    check_image(rt.alloc(), OLD_STARTUP_IMAGE, 112, OLD_HEAD)
}

// Whether an image is refused as none that a table has.
fn is_bad(refusal: Option<ImageError>) -> bool {
    refusal == Some(ImageError::BadTable)
}

// Why an image is refused with its last entries exchanged. An entry for a name of one letter has 14 bytes.
fn exchanged(alloc: Global, image: &[u8]) -> Option<ImageError> {
    let second = image.len().saturating_sub(14);
    let first = second.saturating_sub(14);
    let front = part(image, 0, first);
    refusal_of(
        alloc,
        &[
            front,
            part(image, second, image.len()),
            part(image, first, second),
        ],
    )
}

// After the last node there are the number of nodes of `stop on`, the number of entries and two entries: 34 bytes, before which the
// node names its sides in four.
fn sides_are_refused(alloc: Global, image: &[u8]) -> bool {
    let first = image.len().saturating_sub(37);
    let second = image.len().saturating_sub(35);
    image.get(second) == Some(&1)
        && is_bad(with_byte(alloc, image, first, 2))
        && is_bad(with_byte(alloc, image, second, 3))
}

fn disorder_is_refused(alloc: Global, image: &[u8]) -> bool {
    refusal(alloc, image).is_none()
        && is_bad(exchanged(alloc, image))
        && sides_are_refused(alloc, image)
}

// So is a node that names a later one.
#[test]
fn an_index_out_of_order_is_refused(rt: HostRuntime) -> Result<(), Fail> {
    let image = image_of(rt.alloc(), BOTH)?;
    let refused = disorder_is_refused(rt.alloc(), image.as_slice());
    drop(image);
    if !refused {
        return Err(Fail::from("it isn't refused"));
    }
    Ok(())
}

// The lengths and numbers of the first job's name, its processes and the index.
const LENGTHS: &'static [usize] = &[
    12, 18, 22, 40, 42, 44, 47, 49, 62, 71, 74, 85, 87, 89, 93, 104,
];

// Fails with the first of some places at which an image has this byte and isn't refused.
fn check_places(alloc: Global, image: &[u8], places: &[usize], byte: u8) -> Result<(), Fail> {
    for place in places {
        if !is_bad(with_byte(alloc, image, *place, byte)) {
            return Err(Fail::from(*place));
        }
    }
    Ok(())
}

#[test]
fn a_length_that_wraps_is_refused(rt: HostRuntime) -> Result<(), Fail> {
    check_places(rt.alloc(), STARTUP_IMAGE, LENGTHS, 0xff)
}

// Whether bytes are refused, or read as a table whose image they are.
fn is_exact(alloc: Global, bytes: &[u8]) -> bool {
    match comes_back(alloc, bytes) {
        Ok(is_itself) => is_itself,
        Err(_) => true,
    }
}

// The first place at which another byte is taken for what it isn't.
fn first_inexact(alloc: Global, image: &mut [u8]) -> Option<usize> {
    for place in 0..image.len() {
        let kept = image[place];
        for step in 1..256u16 {
            image[place] = ((u16::from(kept) + step) % 256) as u8;
            if !is_exact(alloc, image) {
                return Some(place);
            }
        }
        image[place] = kept;
    }
    None
}

#[test]
fn each_byte_altered(rt: HostRuntime) -> Result<(), Fail> {
    let mut image = Vec::from_slice(rt.alloc(), STARTUP_IMAGE)?;
    let inexact = first_inexact(rt.alloc(), image.as_mut_slice());
    drop(image);
    match inexact {
        Some(place) => Err(Fail::from(place)),
        None => Ok(()),
    }
}

#[test]
fn a_cut_image_of_many_jobs_is_refused(rt: HostRuntime) -> Result<(), Fail> {
    let image = image_of(rt.alloc(), MANY)?;
    let is_whole = first_whole(rt.alloc(), image.as_slice()) == image.len();
    drop(image);
    if !is_whole {
        return Err(Fail::from("a part of it isn't refused as truncated"));
    }
    Ok(())
}

// The bytes of an image of one job with so many bytes for its second word, the `x` at a place. The length of the image stands at 8, and that
// of the word before it.
fn push_image(bytes: &mut Vec<u8>, image: &[u8], word: usize, len: u32) -> Result<(), AllocError> {
    let whole = u32::try_from(image.len()).unwrap_or(u32::MAX);
    let long = whole.saturating_add(len).saturating_sub(1).to_be_bytes();
    let front = part(image, 12, word.saturating_sub(4));
    join(
        bytes,
        &[part(image, 0, 8), &long, front, &len.to_be_bytes()],
    )?;
    bytes.resize(bytes.len().saturating_add(len as usize), b'x')?;
    bytes.extend_from_slice(part(image, word.saturating_add(1), image.len()))
}

fn with_long_word(
    alloc: Global,
    image: &[u8],
    word: usize,
    len: u32,
) -> Result<Vec<u8>, AllocError> {
    let mut bytes: Vec<u8> = Vec::new(alloc);
    match push_image(&mut bytes, image, word, len) {
        Ok(()) => Ok(bytes),
        Err(refused) => {
            drop(bytes);
            Err(refused)
        }
    }
}

// Whether an image with a word of one byte is the image itself.
fn is_itself(alloc: Global, image: &[u8], word: usize) -> Result<bool, AllocError> {
    Ok(are_bytes(with_long_word(alloc, image, word, 1)?, image))
}

fn reads_long_word(alloc: Global, len: u32) -> Result<bool, ImageError> {
    let image = with_long_word(alloc, STARTUP_IMAGE, 66, len)?;
    let back = comes_back(alloc, image.as_slice());
    drop(image);
    back
}

// No job file with such a word is read, but one could have it.
#[test]
fn a_word_longer_than_files_is_read(rt: HostRuntime) {
    assert!(rt;
        holds(is_itself(rt.alloc(), STARTUP_IMAGE, 66))
            && holds(reads_long_word(rt.alloc(), 3_000_000))
    );
}

// Why an image of version 1 with such a word is refused.
fn old_refusal(alloc: Global, len: u32) -> Result<Option<ImageError>, AllocError> {
    let image = with_long_word(alloc, OLD_STARTUP_IMAGE, 65, len)?;
    let refusal = refusal(alloc, image.as_slice());
    drop(image);
    Ok(refusal)
}

// With a word of 16,777,105 bytes it has 16,777,216, and that of version 2 would have one more.
fn old_is_refused(alloc: Global) -> Result<bool, AllocError> {
    Ok(old_refusal(alloc, 16_777_104)?.is_none() && is_bad(old_refusal(alloc, 16_777_105)?))
}

#[test]
fn an_old_image_without_a_new_one_is_refused(rt: HostRuntime) {
    assert!(rt;
        holds(is_itself(rt.alloc(), OLD_STARTUP_IMAGE, 65)) && holds(old_is_refused(rt.alloc()))
    );
}

// Fails with the first of these bytes at a place of an image with which it isn't refused.
fn check_bytes(alloc: Global, image: &[u8], place: usize, bytes: &[u8]) -> Result<(), Fail> {
    for byte in bytes {
        if !is_bad(with_byte(alloc, image, place, *byte)) {
            return Err(Fail::from(*byte));
        }
    }
    Ok(())
}

// The word `x` of the job stands at 66, and the name of its event from 78 on.
#[test]
fn texts_that_no_file_gives_are_refused(rt: HostRuntime) -> Result<(), Fail> {
    check_bytes(rt.alloc(), STARTUP_IMAGE, 66, b"\0\t\n #$;'\"\\()~")?;
    check_bytes(rt.alloc(), STARTUP_IMAGE, 78, b"\0\t\n #$='\"\\()")?;
    check_changes(rt.alloc(), STARTUP_IMAGE, &[(66, b'y', None)])
}

/// A job of the shell.
const SHELL: &'static str = "%file a.conf\nexec /a 'b' c\n";

// At 63 stands the `c`.
const TAKEN: &'static [Change] = &[(63, b'c', None), (63, b'd', None), (63, b'\n', None)];

// An image is taken with these bytes, and refused with others.
fn check_command(alloc: Global, image: &[u8]) -> Result<(), Fail> {
    check_changes(alloc, image, TAKEN)?;
    check_bytes(alloc, image, 63, b" \t\0#\\'\"")?;
    check_bytes(alloc, image, 56, b" \t\n\0#'\"")
}

// What the shell gets is `exec /a 'b' c`, from 51 on. With a line feed for the `c` it is a script.
#[test]
fn commands_that_do_not_read_as_themselves_are_refused(rt: HostRuntime) -> Result<(), Fail> {
    let image = image_of(rt.alloc(), SHELL)?;
    let checked = check_command(rt.alloc(), image.as_slice());
    drop(image);
    checked
}
