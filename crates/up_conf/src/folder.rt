//! A folder of files.
ghost use Rattle.std.specs.Prelude.{◌≡◌, [], ◌∷◌, ◌++◌, OnOk, OnErr};

use std::alloc::{AllocError, Global};
use std::marker::Model;
use up_text::{Items, Text};

/// A file with its path below the folder.
#[derive(Drop)]
pub struct File {
    pub path: Text,
    pub bytes: Items<u8>,
}

/// A folder, seen by contracts as the list of its files in order.
#[derive(Drop)]
pub struct Folder {
    files: Vec<File>,
}

impl Model for Folder {
    ghost use Rattle.std.specs.Prelude.{List};
    ghost use Rattle.up_conf.specs.declared.folder.File.{File};

    ghost Value = { List File };

    ghost view = { λ f. f.files.items };
}

impl Folder {
    pub fn new(alloc: Global) -> Self
        ensures { result ≡ [] }
    {
        Folder {
            files: Vec::new(alloc),
        }
    }

    pub fn add(&mut self, path: Text, bytes: Items<u8>) -> Result<(), AllocError>
        ensures added { OnOk result (self.new ≡ self.old ++ record { path = path; bytes = bytes } ∷ []) }
        ensures unchanged { OnErr result (self.new ≡ self.old) }
    {
        self.files.push(File { path, bytes })?;
        Ok(())
    }

    pub fn as_slice(&self) -> &[File]
        ensures { result.now ≡ self.now }
    {
        self.files.as_slice()
    }
}
