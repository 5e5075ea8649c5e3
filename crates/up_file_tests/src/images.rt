//! Tables and their images.
mod damage;
mod distribution;
mod files;
pub(crate) mod folders;
mod limits;
mod memory;
mod walk;

use crate::images::folders::{
    EMPTY_IMAGE, MANY, OLD_EMPTY_IMAGE, OLD_STARTUP_IMAGE, STARTUP, STARTUP_IMAGE, becomes,
    comes_back, has_image, image_of,
};
use std::alloc::Global;
use std::test::Fail;
use up_image::{ImageError, Table};

/// Whether something holds, and could be tried.
pub(crate) fn holds<E: Drop>(held: Result<bool, E>) -> bool {
    match held {
        Ok(is_so) => is_so,
        Err(_) => false,
    }
}

// Whether the files of a folder have this image, and both it and that of version 1 are read.
fn is_kept(alloc: Global, files: &str, image: &[u8], old: &[u8]) -> bool {
    holds(has_image(alloc, files, image))
        && holds(comes_back(alloc, image))
        && holds(becomes(alloc, old, image))
}

#[test]
fn image_bytes(rt: HostRuntime) {
    assert!(rt;
        is_kept(rt.alloc(), STARTUP, STARTUP_IMAGE, OLD_STARTUP_IMAGE)
            && is_kept(rt.alloc(), "", EMPTY_IMAGE, OLD_EMPTY_IMAGE)
    );
}

// Whether an image is that of one job, with this name, or of none.
fn is_of(alloc: Global, image: &[u8], name: Option<&str>) -> bool {
    match Table::from_bytes(alloc, image) {
        Ok(table) => {
            let is_its = has_job(&table, name);
            drop(table);
            is_its
        }
        Err(_) => false,
    }
}

fn has_job(table: &Table, name: Option<&str>) -> bool {
    match name {
        Some(name) => table.len() == 1 && table.job(0).name.as_str() == name,
        None => table.len() == 0,
    }
}

#[test]
fn an_image_gives_its_table_back(rt: HostRuntime) {
    assert!(rt;
        is_of(rt.alloc(), STARTUP_IMAGE, Some("a")) && is_of(rt.alloc(), EMPTY_IMAGE, None)
    );
}

/// Whether the image of a folder with every stanza is read and written again.
pub(crate) fn many_come_back(alloc: Global) -> Result<bool, ImageError> {
    let image = image_of(alloc, MANY)?;
    let back = comes_back(alloc, image.as_slice());
    drop(image);
    back
}

#[test]
fn every_stanza_comes_back(rt: HostRuntime) {
    assert!(rt; holds(many_come_back(rt.alloc())));
}

const ERRORS: &'static [(ImageError, u8, &'static str)] = &[
    (ImageError::ImageTooLarge, 22, "ImageTooLarge"),
    (ImageError::BadMagic, 30, "BadMagic"),
    (ImageError::BadVersion, 31, "BadVersion"),
    (ImageError::Truncated, 32, "Truncated"),
    (ImageError::Trailing, 33, "Trailing"),
    (ImageError::BadTable, 34, "BadTable"),
    (ImageError::Memory, 42, "Memory"),
];

fn check_errors(errors: &[(ImageError, u8, &'static str)]) -> Result<(), Fail> {
    for error in errors {
        if error.0.number() != error.1 || error.0.name() != error.2 {
            return Err(Fail::from(error.2));
        }
    }
    Ok(())
}

#[test]
fn refusals_of_images_have_numbers_and_names() -> Result<(), Fail> {
    check_errors(ERRORS)
}
