//! Finds the files of a folder by their paths.
ghost use Rattle.std.specs.Prelude.{◌≡◌, List, ℕ, IfOk, OnOk, Some, option_map};
ghost use Rattle.up_value.specs.Values.{Bytes};
ghost use Rattle.up_conf.specs.Folders.{bytes_at, has_conf, is_read};
ghost use Rattle.up_conf.specs.Lookups.{found_at, also};

use crate::ending::{conf_path, job_name, overridden_name};
use crate::folder::{File, Folder};
use std::alloc::{AllocError, Global};
use std::collections::BTreeMap;
use std::marker::Model;

/// The files of a folder, with an index of their paths. Where several files have one path, the first is found. Contracts see the files.
#[derive(Drop)]
pub struct FolderIndex<'a> {
    files: &'a [File],
    map: BTreeMap<&'a str, &'a [u8]>,
}

impl<'a> Model for FolderIndex<'a> {
    ghost use Rattle.std.specs.Prelude.{◌≡◌, List, ℕ};
    ghost use Rattle.up_conf.specs.declared.folder.File.{File};
    ghost use Rattle.up_conf.specs.Folders.{bytes_at};
    ghost use Rattle.up_conf.specs.Lookups.{found_at};

    ghost Value = { List File };

    ghost view = { λ p. p.files.now };

    ghost invariant = { λ p. (path : List ℕ) → found_at path p.map ≡ bytes_at path p.files.now };
}

// Adds a file, if none has its path.
fn add<'a>(map: &mut BTreeMap<&'a str, &'a [u8]>, file: &'a File) -> Result<(), AllocError>
    ensures { OnOk result ((path : Bytes)
        → found_at path map.new ≡ also path file.now (found_at path map.old)) }
{
    let path = file.path.as_str();
    if map.contains_key(path) {
        return Ok(());
    }
    match map.insert(path, file.bytes.as_slice()) {
        Ok(_) => Ok(()),
        Err(_) => Err(AllocError),
    }
}

// The map of the files' bytes by their paths.
fn map_of<'a>(alloc: Global, files: &'a [File]) -> Result<BTreeMap<&'a str, &'a [u8]>, AllocError>
    ensures { IfOk result (λ map. (path : Bytes) → found_at path map ≡ bytes_at path files.now) }
{
    let mut map: BTreeMap<&str, &[u8]> = BTreeMap::new(alloc);
    for file in files {
        add(&mut map, file)?;
    }
    Ok(map)
}

impl<'a> FolderIndex<'a> {
    /// Indexes a folder: once, for all that asks what is in it.
    pub fn new(alloc: Global, folder: &'a Folder) -> Result<Self, AllocError>
        ensures { IfOk result (λ index. index ≡ folder.now) }
    {
        let files = folder.as_slice();
        let map = map_of(alloc, files)?;
        Ok(FolderIndex { files, map })
    }

    pub fn files(&self) -> &'a [File]
        ensures { result.now ≡ self.now }
    {
        self.files
    }

    pub(crate) fn bytes_at(&self, path: &str) -> Option<&'a [u8]>
        ensures { option_map (λ bytes. bytes.now) result ≡ bytes_at path.now self.now }
    {
        match self.map.get(path) {
            Some(bytes) => Some(*bytes),
            None => None,
        }
    }

    /// Whether the own file of a job of this name is there.
    pub(crate) fn has_conf(&self, alloc: Global, name: &str) -> Result<bool, AllocError>
        ensures { IfOk result (λ has. has ≡ has_conf self.now (Some name.now)) }
    {
        let path = conf_path(alloc, name)?;
        Ok(self.bytes_at(path.as_str()).is_some())
    }

    /// Whether a path is read: a job's, or an override's if the job's own file is there (init(5)).
    pub fn is_read(&self, alloc: Global, path: &str) -> Result<bool, AllocError>
        ensures { IfOk result (λ read. read ≡ is_read self.now path.now) }
    {
        if job_name(path).is_some() {
            return Ok(true);
        }
        match overridden_name(path) {
            Some(name) => self.has_conf(alloc, name),
            None => Ok(false),
        }
    }
}
