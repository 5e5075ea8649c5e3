//! Images near the limit of their size.
use crate::conf::add_numbered;
use crate::images::folders::{comes_back, compiled, written};
use crate::images::holds;
use std::alloc::{AllocError, Global};
use up_conf::Folder;
use up_image::{ImageError, Table};

// Adds a word of 1,000,000 bytes.
fn push_word(text: &mut Vec<u8>) -> Result<(), AllocError> {
    text.resize(1_000_005, b'x')?;
    text.extend_from_slice(b"\n")
}

fn add_large_job(alloc: Global, folder: &mut Folder, number: u32) -> Result<(), AllocError> {
    let mut text = Vec::from_slice(alloc, b"exec ")?;
    let added = match push_word(&mut text) {
        Ok(()) => add_numbered(alloc, folder, number, ".conf", text.as_slice()),
        refused => refused,
    };
    drop(text);
    added
}

fn add_large_jobs(alloc: Global, folder: &mut Folder, jobs: u32) -> Result<(), AllocError> {
    for number in 0..jobs {
        add_large_job(alloc, folder, number)?;
    }
    Ok(())
}

// The table of a folder with so many jobs, each with a command of 1,000,000 bytes.
fn large_table(alloc: Global, jobs: u32) -> Result<Table, ImageError> {
    let mut folder = Folder::new(alloc);
    let table = match add_large_jobs(alloc, &mut folder, jobs) {
        Ok(()) => compiled(alloc, &folder),
        Err(refused) => Err(ImageError::from(refused)),
    };
    drop(folder);
    table
}

// Whether 16 of them have a large image, which is read.
fn is_read(alloc: Global) -> Result<bool, ImageError> {
    let image = written(alloc, large_table(alloc, 16)?)?;
    let large = image.len() > 16_000_000;
    let back = comes_back(alloc, image.as_slice());
    drop(image);
    Ok(large && back?)
}

// Whether 17 of them have no table.
fn is_too_large(alloc: Global) -> Result<bool, ImageError> {
    match large_table(alloc, 17) {
        Ok(table) => {
            drop(table);
            Ok(false)
        }
        Err(ImageError::ImageTooLarge) => Ok(true),
        Err(error) => Err(error),
    }
}

#[test]
fn images_near_the_limit(rt: HostRuntime) {
    assert!(rt; holds(is_read(rt.alloc())), "a large image isn't read");
    assert!(rt;
        holds(is_too_large(rt.alloc())),
        "a table is too large for an image"
    );
}
