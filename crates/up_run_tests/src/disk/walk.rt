//! Folders on the disk.
use std::os::unix::fs::symlink;
use std::test::Fail;
use std::{env, fs, io, process};
use up_conf::{File, Folder};
use up_disk::walk::walk;
use up_disk::{WalkError, read_file};

// A new empty folder for a test, by its path.
pub(crate) fn scratch(rt: &HostRuntime, name: &str) -> io::Result<String> {
    let temp = env::temp_dir(rt)?;
    let id = process::id(rt.process());
    let path = format!(in rt.alloc(); "{}/initd-{name}-{id}", temp.as_str())?;
    fs::create_dir(rt, path.as_str())?;
    Ok(path)
}

// The path of what lies in a folder, or of the folder.
pub(crate) fn below(rt: &HostRuntime, dir: &str, path: &str) -> io::Result<String> {
    let between = if path.is_empty() { "" } else { "/" };
    Ok(format!(in rt.alloc(); "{dir}{between}{path}")?)
}

/// A text in which `@` stands for the path of the folder.
pub(crate) fn text_of(rt: &HostRuntime, dir: &str, text: &str) -> io::Result<String> {
    match text.split_once('@') {
        Some((before, after)) => Ok(format!(in rt.alloc(); "{before}{dir}{after}")?),
        None => Ok(String::from_str(rt.alloc(), text)?),
    }
}

pub(crate) fn make_file(rt: &HostRuntime, dir: &str, path: &str, bytes: &[u8]) -> io::Result<()> {
    fs::write(rt, below(rt, dir, path)?, bytes)
}

// A failure that tells what isn't so, and where.
pub(crate) fn expect(is_so: bool, what: &str, place: usize) -> Result<(), Fail> {
    if is_so {
        return Ok(());
    }
    Err(Fail::new(format_args!("not so: {what}, at {place}")))
}

// What is made in a folder, by its path there. The target of a link stands after its path, as `text_of` takes it.
enum Made {
    Folder(&'static str),
    File(&'static str, &'static [u8]),
    Link(&'static str, &'static str),
}

fn make(rt: &HostRuntime, dir: &str, made: &Made) -> io::Result<()> {
    match made {
        Made::Folder(path) => fs::create_dir(rt, below(rt, dir, path)?),
        Made::File(path, bytes) => make_file(rt, dir, path, bytes),
        Made::Link(path, target) => {
            let target = text_of(rt, dir, target)?;
            symlink(rt, target, below(rt, dir, path)?)
        }
    }
}

fn make_all(rt: &HostRuntime, dir: &str, all: &[Made]) -> io::Result<()> {
    for made in all {
        make(rt, dir, made)?;
    }
    Ok(())
}

// What a walk finds: these files alone, or what has this path, which it can't use.
enum Found {
    Files(&'static [(&'static str, &'static [u8])]),
    Unusable(&'static str),
}

fn has(files: &[File], path: &str, bytes: &[u8]) -> bool {
    files.iter().any(|file| file.path.is(path) && file.bytes.as_slice() == bytes)
}

fn has_all(files: &[File], all: &[(&str, &[u8])]) -> bool {
    files.len() == all.len() && all.iter().all(|(path, bytes)| has(files, path, bytes))
}

// Whether a walk finds these files and no other.
fn finds_files(rt: &HostRuntime, dir: &str, all: &[(&str, &[u8])]) -> bool {
    match walk(rt, dir) {
        Ok(folder) => {
            let has = has_all(folder.as_slice(), all);
            drop(folder);
            has
        }
        Err(_) => false,
    }
}

// Whether a walk can't use what has this path.
fn is_unusable(rt: &HostRuntime, dir: &str, path: &str) -> bool {
    match walk(rt, dir) {
        Err(WalkError::Unusable(found)) => found.is(path),
        Ok(folder) => {
            drop(folder);
            false
        }
        Err(WalkError::Memory) => false,
    }
}

fn finds(rt: &HostRuntime, dir: &str, path: &str, found: &Found) -> io::Result<bool> {
    let walked = below(rt, dir, path)?;
    match found {
        Found::Files(all) => Ok(finds_files(rt, walked.as_str(), all)),
        Found::Unusable(path) => {
            let path = below(rt, dir, path)?;
            Ok(is_unusable(rt, walked.as_str(), path.as_str()))
        }
    }
}

// What is made, the folder that is walked then, by its path, and what the walk finds.
type Step = (&'static [Made], &'static str, Found);

fn take_steps(rt: &HostRuntime, dir: &str, steps: &[Step]) -> Result<(), Fail> {
    for (place, (all, path, found)) in steps.iter().enumerate() {
        make_all(rt, dir, all)?;
        expect(finds(rt, dir, path, found)?, "a step's walk finds", place)?;
    }
    Ok(())
}

// Takes the steps in a new folder.
fn check_walks(rt: &HostRuntime, name: &str, steps: &[Step]) -> Result<(), Fail> {
    let dir = scratch(rt, name)?;
    take_steps(rt, dir.as_str(), steps)?;
    fs::remove_dir_all(rt, dir.as_str())?;
    Ok(())
}

static PATHS: [Step; 1] = [(
    &[
        Made::Folder("net"),
        Made::Folder("net/x.conf"),
        Made::Folder("empty"),
        Made::File(".a.conf", b"task\n"),
        Made::File("a.conf", b"exec x\n"),
        Made::File("a.override", b"manual\n"),
        Made::File("net/apache.conf", b"\xff"),
        Made::File("net/x.conf/y.conf", b""),
        Made::File("README", b"read me\n"),
        Made::File("a.conf.old", b"exec y\n"),
        Made::Link("link", "nowhere"),
    ],
    "",
    Found::Files(&[
        (".a.conf", b"task\n"),
        ("a.conf", b"exec x\n"),
        ("a.override", b"manual\n"),
        ("net/apache.conf", b"\xff"),
        ("net/x.conf/y.conf", b""),
    ]),
)];

#[test]
fn files_are_read_by_their_paths(rt: HostRuntime) -> Result<(), Fail> {
    check_walks(&rt, "paths", &PATHS)
}

static UNUSABLE: [Step; 3] = [
    (&[], "missing", Found::Unusable("missing")),
    (
        &[Made::File("a.conf", b"exec x\n")],
        "a.conf",
        Found::Unusable("a.conf"),
    ),
    (
        &[Made::Link("b.conf", "@/missing")],
        "",
        Found::Unusable("b.conf"),
    ),
];

#[test]
fn what_cannot_be_read_is_named(rt: HostRuntime) -> Result<(), Fail> {
    check_walks(&rt, "unusable", &UNUSABLE)
}

// The second link makes a folder lie in itself, which is too deep.
static LINKS: [Step; 2] = [
    (
        &[
            Made::Folder("jobs"),
            Made::File("a.txt", b"task\n"),
            Made::Link("jobs/a.conf", "../a.txt"),
        ],
        "jobs",
        Found::Files(&[("a.conf", b"task\n")]),
    ),
    (
        &[Made::Link("jobs/again", ".")],
        "jobs",
        Found::Unusable("jobs"),
    ),
];

#[test]
fn links_are_followed(rt: HostRuntime) -> Result<(), Fail> {
    check_walks(&rt, "links", &LINKS)
}

// Whether a walk finds one file.
fn has_one(rt: &HostRuntime, dir: &str) -> bool {
    match walk(rt, dir) {
        Ok(folder) => folder.as_slice().len() == 1,
        Err(_) => false,
    }
}

// Makes folders, each in the one before, and gives the path of the last.
fn make_deep(rt: &HostRuntime, dir: &str, count: usize) -> io::Result<String> {
    let mut path = String::from_str(rt.alloc(), dir)?;
    for _ in 0..count {
        path.push_str("/d")?;
        fs::create_dir(rt, path.as_str())?;
    }
    Ok(path)
}

fn walks_64_deep(rt: &HostRuntime, dir: &str) -> Result<(), Fail> {
    let last = make_deep(rt, dir, 64)?;
    make_file(rt, last.as_str(), "a.conf", b"")?;
    expect(has_one(rt, dir), "folders are walked", 64)?;
    make_deep(rt, last.as_str(), 1)?;
    expect(is_unusable(rt, dir, dir), "folders are too deep", 65)
}

#[test]
fn folders_lie_64_deep(rt: HostRuntime) -> Result<(), Fail> {
    let dir = scratch(&rt, "deep")?;
    walks_64_deep(&rt, dir.as_str())?;
    fs::remove_dir_all(&rt, dir.as_str())?;
    Ok(())
}

// Makes empty files that are no job files, by their numbers.
fn make_many(rt: &HostRuntime, dir: &str, count: usize) -> io::Result<()> {
    for n in 0..count {
        let path = format!(in rt.alloc(); "{dir}/{n}")?;
        fs::write(rt, path, b"".as_slice())?;
    }
    Ok(())
}

fn walks_65536_entries(rt: &HostRuntime, dir: &str) -> Result<(), Fail> {
    let many = below(rt, dir, "d")?;
    fs::create_dir(rt, many.as_str())?;
    make_many(rt, many.as_str(), 65_534)?;
    make_file(rt, dir, "a.conf", b"")?;
    expect(walk(rt, dir).is_ok(), "entries are walked", 65_536)?;
    make_file(rt, dir, "d/more", b"")?;
    expect(is_unusable(rt, dir, dir), "entries are too many", 65_537)
}

#[test]
fn a_folder_has_65536_entries(rt: HostRuntime) -> Result<(), Fail> {
    let dir = scratch(&rt, "many")?;
    walks_65536_entries(&rt, dir.as_str())?;
    fs::remove_dir_all(&rt, dir.as_str())?;
    Ok(())
}

// Makes a job file of so many comment bytes.
fn make_long_file(rt: &HostRuntime, dir: &str, path: &str, len: usize) -> io::Result<()> {
    let bytes = vec![in rt.alloc(); b'#'; len]?;
    make_file(rt, dir, path, bytes.as_slice())
}

// Whether a folder has a file of so many comment bytes.
fn has_long_file(files: &[File], path: &str, len: usize) -> bool {
    files.iter().any(|file| file.path.is(path) && is_comment(file.bytes.as_slice(), len))
}

fn is_comment(bytes: &[u8], len: usize) -> bool {
    bytes.len() == len && bytes.iter().all(|byte| *byte == b'#')
}

// Whether a walk finds both files, the longer one cut.
fn finds_long_files(rt: &HostRuntime, dir: &str) -> bool {
    match walk(rt, dir) {
        Ok(folder) => {
            let files = folder.as_slice();
            has_long_file(files, "a.conf", 1_048_577) && has_long_file(files, "b.conf", 1_048_576)
        }
        Err(_) => false,
    }
}

fn reads_three_bytes(rt: &HostRuntime, dir: &str) -> io::Result<bool> {
    let path = below(rt, dir, "a.conf")?;
    let read = read_file(rt, path.as_str(), 3)?;
    Ok(read.as_slice() == b"###".as_slice())
}

fn cuts_long_files(rt: &HostRuntime, dir: &str) -> Result<(), Fail> {
    make_long_file(rt, dir, "a.conf", 1_048_580)?;
    make_long_file(rt, dir, "b.conf", 1_048_576)?;
    expect(
        finds_long_files(rt, dir),
        "the most bytes of a file are",
        1_048_577,
    )?;
    expect(reads_three_bytes(rt, dir)?, "so many bytes are read", 3)
}

#[test]
fn a_long_file_is_cut(rt: HostRuntime) -> Result<(), Fail> {
    let dir = scratch(&rt, "long")?;
    cuts_long_files(&rt, dir.as_str())?;
    fs::remove_dir_all(&rt, dir.as_str())?;
    Ok(())
}
