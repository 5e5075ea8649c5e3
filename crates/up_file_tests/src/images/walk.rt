//! A random walk over damaged images.
use crate::images::distribution::DISTRIBUTION;
use crate::images::folders::{comes_back, image_of};
use crate::images::holds;
use std::alloc::Global;
use up_image::ImageError;

/// How many images the walk passes.
const STEPS: u32 = 10_000;

// The number after this one, of a sequence without order.
fn next(number: u32) -> u32 {
    number.wrapping_mul(1_664_525).wrapping_add(1_013_904_223)
}

// Alters a byte. It stays so if the image is read then, and is taken back if it is refused. Whether it is read, and as itself.
fn damage(alloc: Global, image: &mut [u8], place: u32, byte: u8) -> Option<bool> {
    if image.is_empty() {
        return None;
    }
    let place = place as usize % image.len();
    let kept = image[place];
    image[place] = byte;
    match comes_back(alloc, image) {
        Ok(is_itself) => Some(is_itself),
        Err(_) => {
            image[place] = kept;
            None
        }
    }
}

// Whether some images of a walk were read and others refused, and none was read as another.
fn is_mixed(alloc: Global, image: &mut [u8]) -> bool {
    let mut number = 1;
    let mut was_read = false;
    let mut was_refused = false;
    for _ in 0..STEPS {
        let place = next(number);
        number = next(place);
        match damage(alloc, image, place >> 8, (number >> 24) as u8) {
            None => was_refused = true,
            Some(true) => was_read = true,
            Some(false) => return false,
        }
    }
    was_read && was_refused
}

fn walks(alloc: Global, files: &str) -> Result<bool, ImageError> {
    let mut image = image_of(alloc, files)?;
    let mixed = is_mixed(alloc, image.as_mut_slice());
    drop(image);
    Ok(mixed)
}

#[test]
fn a_walk_over_damaged_images(rt: HostRuntime) {
    assert!(rt; holds(walks(rt.alloc(), DISTRIBUTION)));
}
