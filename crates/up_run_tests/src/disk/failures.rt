//! Folders of which the system refuses something.
use std::alloc::{Allocator, Global};
use std::fmt::Display;
use std::fs::{Files, Metadata, OpenFile, OpenOptions};
use std::io;
use std::io::{Eprint, ErrorKind, Read, Seek, SeekFrom, Write};
use up_disk::WalkError;
use up_disk::walk::walk;

// What fails.
#[derive(Clone, Copy, PartialEq, Eq)]
enum At {
    Nothing,
    List,
    Name,
    Look,
    Open,
    Read,
}

// Each folder has these names, each followed by a zero byte, and each name is that of a file of one byte.
#[derive(Clone, Copy)]
struct Fake {
    alloc: Global,
    names: &'static [u8],
    is_file: bool,
    at: At,
    kind: ErrorKind,
}

impl Fake {
    fn fail_at(&self, at: At) -> io::Result<()> {
        if self.at == at {
            return Err(self.kind.into());
        }
        Ok(())
    }
}

impl Alloc for Fake {
    type A = Global;

    fn alloc(&self) -> Global {
        self.alloc
    }
}

impl Eprint for Fake {
    fn eprint<D: Display + Drop>(&self, _value: D) -> io::Result<()> {
        Ok(())
    }

    fn eprintln<D: Display + Drop>(&self, _value: D) -> io::Result<()> {
        Ok(())
    }
}

// Gives its bytes, and then fails or ends.
#[derive(Drop)]
struct Bytes {
    left: &'static [u8],
    failure: Option<ErrorKind>,
}

impl Read for Bytes {
    fn read(&mut self, buf: &mut [u8]) -> io::Result<usize> {
        match self.failure {
            Some(kind) if self.left.is_empty() => Err(kind.into()),
            _ => self.left.read(buf),
        }
    }
}

impl Write for Bytes {
    fn write(&mut self, _buf: &[u8]) -> io::Result<usize> {
        Err(ErrorKind::Unsupported.into())
    }

    fn flush(&mut self) -> io::Result<()> {
        Ok(())
    }
}

impl Seek for Bytes {
    fn seek(&mut self, _to: SeekFrom) -> io::Result<u64> {
        Err(ErrorKind::Unsupported.into())
    }
}

impl OpenFile for Bytes {
    fn metadata(&self) -> io::Result<Metadata> {
        Err(ErrorKind::Unsupported.into())
    }

    fn set_len(&self, _size: u64) -> io::Result<()> {
        Err(ErrorKind::Unsupported.into())
    }

    fn sync_all(&self) -> io::Result<()> {
        Ok(())
    }

    fn sync_data(&self) -> io::Result<()> {
        Ok(())
    }
}

impl Files for Fake {
    type File = Bytes;

    type Dir = Bytes;

    fn open_file(&self, _how: &OpenOptions, _path: &str) -> io::Result<Bytes> {
        self.fail_at(At::Open)?;
        let failure = (self.at == At::Read).then_some(self.kind);
        Ok(Bytes {
            left: b"#",
            failure,
        })
    }

    fn open_dir(&self, _path: &str) -> io::Result<Bytes> {
        self.fail_at(At::List)?;
        let failure = (self.at == At::Name).then_some(self.kind);
        Ok(Bytes {
            left: self.names,
            failure,
        })
    }

    fn metadata(&self, _path: &str) -> io::Result<Metadata> {
        self.fail_at(At::Look)?;
        if self.is_file {
            Ok(Metadata::of_file(1))
        } else {
            Ok(Metadata::of_symlink(1))
        }
    }

    fn symlink_metadata(&self, path: &str) -> io::Result<Metadata> {
        self.metadata(path)
    }

    fn copy(&self, _from: &str, _to: &str) -> io::Result<u64> {
        Err(ErrorKind::Unsupported.into())
    }

    fn rename(&self, _from: &str, _to: &str) -> io::Result<()> {
        Err(ErrorKind::Unsupported.into())
    }

    fn remove_file(&self, _path: &str) -> io::Result<()> {
        Err(ErrorKind::Unsupported.into())
    }

    fn create_dir(&self, _path: &str) -> io::Result<()> {
        Err(ErrorKind::Unsupported.into())
    }

    fn remove_dir(&self, _path: &str) -> io::Result<()> {
        Err(ErrorKind::Unsupported.into())
    }

    fn remove_dir_all<B: Allocator>(&self, _alloc: B, _path: &str) -> io::Result<()> {
        Err(ErrorKind::Unsupported.into())
    }
}

// What a walk finds: so many job files, what it can't use, or that memory is refused.
#[derive(Drop)]
enum Found {
    Files(usize),
    Unusable(&'static str),
    Memory,
}

impl Found {
    fn is_count(&self, count: usize) -> bool {
        match self {
            Found::Files(wanted) => count == *wanted,
            Found::Unusable(_) | Found::Memory => false,
        }
    }

    fn is_path(&self, path: &str) -> bool {
        match self {
            Found::Unusable(wanted) => path == *wanted,
            Found::Files(_) | Found::Memory => false,
        }
    }
}

fn finds(fake: &Fake, dir: &str, found: &Found) -> bool {
    match walk(fake, dir) {
        Ok(folder) => {
            let is_count = found.is_count(folder.as_slice().len());
            drop(folder);
            is_count
        }
        Err(WalkError::Unusable(path)) => found.is_path(path.as_str()),
        Err(WalkError::Memory) => matches!(found, Found::Memory),
    }
}

// What fails, the names in the folder, and the path that is named.
static FAILURES: [(At, &[u8], &str); 6] = [
    (At::List, b"a.conf\0", "etc"),
    (At::Name, b"a.conf\0", "etc"),
    (At::Look, b"a.conf\0", "etc/a.conf"),
    (At::Look, b"a.override\0", "etc/a.override"),
    (At::Open, b"a.conf\0", "etc/a.conf"),
    (At::Read, b"a.conf\0", "etc/a.conf"),
];

// Whether the path is named; and if what fails does so because memory ran out, that is told.
fn is_named(alloc: Global, at: At, names: &'static [u8], path: &'static str) -> bool {
    let mut fake = Fake {
        alloc,
        names,
        is_file: true,
        at,
        kind: ErrorKind::Other,
    };
    let is_named = finds(&fake, "etc", &Found::Unusable(path));
    fake.kind = ErrorKind::OutOfMemory;
    is_named && finds(&fake, "etc", &Found::Memory)
}

#[test]
fn a_failure_is_named(rt: HostRuntime) {
    for (place, (at, names, path)) in FAILURES.iter().enumerate() {
        assert!(rt; is_named(rt.alloc(), *at, *names, *path), "at case {place}");
    }
}

// Names, whether they are those of files, what fails, the folder, and what a walk finds. The path of no folder is empty.
static PIPES: [(&[u8], bool, At, &str, Found); 6] = [
    (
        b"a\0a.conf\0",
        false,
        At::Nothing,
        "/",
        Found::Unusable("/a.conf"),
    ),
    (b"a\0a.conf\0", true, At::Nothing, "/", Found::Files(1)),
    (b"a\0a.conf\0", true, At::Nothing, "", Found::Unusable("")),
    (b"a\0b.txt\0", true, At::Open, "/", Found::Files(0)),
    (b"a\0b.txt\0", true, At::Look, "/", Found::Files(0)),
    // a name that is no text is passed over
    (b"a.conf\0\xff\0", true, At::Nothing, "etc", Found::Files(1)),
];

#[test]
fn a_pipe_is_no_job_file(rt: HostRuntime) {
    for (place, (names, is_file, at, dir, found)) in PIPES.iter().enumerate() {
        let fake = Fake {
            alloc: rt.alloc(),
            names: *names,
            is_file: *is_file,
            at: *at,
            kind: ErrorKind::Other,
        };
        assert!(rt; finds(&fake, dir, found), "at case {place}");
    }
}
