//! Folders as texts, and their images as the format's byte listing gives them.
use crate::conf::add;
use std::alloc::{AllocError, Global};
use up_conf::Folder;
use up_image::{CompileError, ImageError, Table, compile};

/// A job that `startup` starts.
pub(crate) const STARTUP: &'static str = r#"%file a.conf
start on startup
exec /bin/true x
"#;

/// Its image.
pub(crate) const STARTUP_IMAGE: &'static [u8] =
    b"\x55\x50\x54\x42\x00\x02\x00\x01\x00\x00\x00\x71\x00\x00\x00\x01\x61\x00\x00\x00\x00\x00\x00\x00\x00\x00\x00\x00\x00\x0a\x00\x00\x00\x05\x0f\x01\x00\x00\x00\x05\x00\x00\x00\x00\x00\x00\x01\x00\x02\x00\x00\x00\x09\x2f\x62\x69\x6e\x2f\x74\x72\x75\x65\x00\x00\x00\x01\x78\x00\x00\x00\x00\x00\x01\x00\x00\x00\x00\x07\x73\x74\x61\x72\x74\x75\x70\x00\x00\x00\x00\x00\x00\x00\x01\x00\x00\x00\x07\x73\x74\x61\x72\x74\x75\x70\x00\x00\x00\x01\x00\x00\x01\x00\x00";

/// Its image of version 1.
pub(crate) const OLD_STARTUP_IMAGE: &'static [u8] =
    b"\x55\x50\x54\x42\x00\x01\x00\x01\x00\x00\x00\x70\x00\x00\x00\x01\x61\x00\x00\x00\x00\x00\x00\x00\x00\x00\x00\x00\x00\x0a\x00\x00\x00\x05\x0f\x00\x00\x00\x05\x00\x00\x00\x00\x00\x00\x01\x00\x02\x00\x00\x00\x09\x2f\x62\x69\x6e\x2f\x74\x72\x75\x65\x00\x00\x00\x01\x78\x00\x00\x00\x00\x00\x01\x00\x00\x00\x00\x07\x73\x74\x61\x72\x74\x75\x70\x00\x00\x00\x00\x00\x00\x00\x01\x00\x00\x00\x07\x73\x74\x61\x72\x74\x75\x70\x00\x00\x00\x01\x00\x00\x01\x00\x00";

/// The image of an empty folder.
pub(crate) const EMPTY_IMAGE: &'static [u8] =
    b"\x55\x50\x54\x42\x00\x02\x00\x00\x00\x00\x00\x10\x00\x00\x00\x00";

/// Its image of version 1.
pub(crate) const OLD_EMPTY_IMAGE: &'static [u8] =
    b"\x55\x50\x54\x42\x00\x01\x00\x00\x00\x00\x00\x10\x00\x00\x00\x00";

/// A job that waits for two events.
pub(crate) const BOTH: &'static str = r#"%file a.conf
start on A and B
exec /bin/d
"#;

/// Jobs with every stanza that an image keeps, an override, and values that want quotes.
pub(crate) const MANY: &'static str = r##"%file net/b.conf
task
respawn
respawn limit 7 9
console none
instance $TTY
chdir "/a b"
kill signal HUP
reload signal USR1
kill timeout 8
normal exit 0 7 TERM
env A=1
env B
env C="x 'y' \"z\""
env D=
export A B
exec /bin/true a b
pre-start script
echo hi # "all"
end script
post-start exec echo $A | cat
pre-stop script
end script
post-stop exec /bin/x
start on (a X=1 or b Y!="2 3") and (c "p q" Z=4 or d) and "and"
stop on (b or (a and c))
%file a.conf
env K=v
start on runlevel [23] or stopped net/b RESULT=failed
%file a.override
env L=\\
stop on b PLACE="#1"
"##;

/// The table of a folder.
pub(crate) fn compiled(alloc: Global, folder: &Folder) -> Result<Table, ImageError> {
    match compile(alloc, folder) {
        Ok((table, report)) => {
            drop(report);
            Ok(table)
        }
        Err(CompileError::Memory) => Err(ImageError::Memory),
        Err(CompileError::ImageTooLarge) => Err(ImageError::ImageTooLarge),
        Err(_) => Err(ImageError::BadTable),
    }
}

fn add_files(alloc: Global, folder: &mut Folder, text: &str) -> Result<(), AllocError> {
    for file in text.split("%file ") {
        if let Some((path, stanzas)) = file.split_once('\n') {
            add(alloc, folder, path, stanzas.as_bytes())?;
        }
    }
    Ok(())
}

/// The folder of a text, in which a line `%file PATH` stands before each file. Large values are dropped by a call, here and below: the
/// prover would go through each field of what a scope drops.
pub(crate) fn folder_of(alloc: Global, text: &str) -> Result<Folder, AllocError> {
    let mut folder = Folder::new(alloc);
    match add_files(alloc, &mut folder, text) {
        Ok(()) => Ok(folder),
        Err(refused) => {
            drop(folder);
            Err(refused)
        }
    }
}

pub(crate) fn table_of(alloc: Global, text: &str) -> Result<Table, ImageError> {
    let folder = folder_of(alloc, text)?;
    let table = compiled(alloc, &folder);
    drop(folder);
    table
}

/// The image of a table.
pub(crate) fn written(alloc: Global, table: Table) -> Result<Vec<u8>, ImageError> {
    let image = table.to_bytes(alloc);
    drop(table);
    image
}

pub(crate) fn image_of(alloc: Global, text: &str) -> Result<Vec<u8>, ImageError> {
    written(alloc, table_of(alloc, text)?)
}

/// Why bytes are refused, if they are.
pub(crate) fn refusal(alloc: Global, bytes: &[u8]) -> Option<ImageError> {
    match Table::from_bytes(alloc, bytes) {
        Ok(table) => {
            drop(table);
            None
        }
        Err(error) => Some(error),
    }
}

pub(crate) fn are_bytes(bytes: Vec<u8>, wanted: &[u8]) -> bool {
    let are_wanted = bytes.as_slice() == wanted;
    drop(bytes);
    are_wanted
}

/// Whether the files of a folder have this image.
pub(crate) fn has_image(alloc: Global, text: &str, image: &[u8]) -> Result<bool, ImageError> {
    Ok(are_bytes(image_of(alloc, text)?, image))
}

/// Whether the table that is read from an image has this image.
pub(crate) fn becomes(alloc: Global, image: &[u8], wanted: &[u8]) -> Result<bool, ImageError> {
    let table = Table::from_bytes(alloc, image)?;
    Ok(are_bytes(written(alloc, table)?, wanted))
}

/// Whether the table that is read from an image has the same image.
pub(crate) fn comes_back(alloc: Global, image: &[u8]) -> Result<bool, ImageError> {
    becomes(alloc, image, image)
}
