//! Checks and replays of folders on the disk.
mod failures;
mod walk;

use crate::disk::walk::{below, expect, make_file, scratch, text_of};
use std::test::Fail;
use std::{fs, io};
use up_disk::print::print;
use up_disk::{check_dir, compile_dir, read_bytes, replay_dir, replay_image, replay_source};
use up_model::ExitStatus;
use up_print::Printed;
use up_text::{Env, Items};

// Files that are written, by their paths in the folder; what is printed then, as `text_of` takes it; and the status.
type Step = (&'static [(&'static str, &'static [u8])], &'static str, u8);

fn make_files(rt: &HostRuntime, dir: &str, files: &[(&str, &[u8])]) -> io::Result<()> {
    for (path, bytes) in files {
        make_file(rt, dir, path, bytes)?;
    }
    Ok(())
}

// Whether this was printed. What was is dropped by a call: the prover would go through each field of what a scope drops.
fn is_printed(
    rt: &HostRuntime,
    dir: &str,
    made: Printed,
    (printed, status): (&str, u8),
) -> io::Result<bool> {
    let is_so = match text_of(rt, dir, printed) {
        Ok(text) => Ok(made.text.as_slice() == text.as_bytes() && made.status.number() == status),
        Err(error) => Err(error),
    };
    drop(made);
    is_so
}

// Whether a check of what lies in a folder prints this, with this status.
fn checks(rt: &HostRuntime, dir: &str, path: &str, wanted: (&str, u8)) -> Result<bool, Fail> {
    let checked = below(rt, dir, path)?;
    let made = check_dir(rt, checked.as_str())?;
    Ok(is_printed(rt, dir, made, wanted)?)
}

// Whether a replay of the folder's script prints this, with this status.
fn replays(rt: &HostRuntime, dir: &str, wanted: (&str, u8)) -> Result<bool, Fail> {
    let script = below(rt, dir, "up.script")?;
    let made = replay_dir(rt, dir, Env::new(rt.alloc()), script.as_str())?;
    Ok(is_printed(rt, dir, made, wanted)?)
}

static CHECKS: [Step; 3] = [
    (
        &[("x.conf", b"# one\n# two\nsetuid root\n")],
        "x.conf:3: 2 NotInProfile\n0 jobs, 1 faults\n",
        1,
    ),
    (&[("x.conf", b"exec x\n")], "1 jobs, 0 faults\n", 0),
    (
        &[("a=b.conf", b"exec x\n"), ("b.conf", b"exec \xff\n")],
        "a=b.conf:1: 12 BadName\nb.conf:1: 15 NotText\n1 jobs, 2 faults\n",
        1,
    ),
];

fn take_checks(rt: &HostRuntime, dir: &str) -> Result<(), Fail> {
    for (place, (files, printed, status)) in CHECKS.iter().enumerate() {
        make_files(rt, dir, files)?;
        expect(checks(rt, dir, "", (printed, *status))?, printed, place)?;
    }
    let missing = checks(rt, dir, "missing", ("initd: cannot use @/missing\n", 3))?;
    expect(missing, "a missing folder is named", CHECKS.len())
}

#[test]
fn a_folder_is_checked(rt: HostRuntime) -> Result<(), Fail> {
    let dir = scratch(&rt, "check")?;
    take_checks(&rt, dir.as_str())?;
    fs::remove_dir_all(&rt, dir.as_str())?;
    Ok(())
}

static REPLAYS: [Step; 5] = [
    (&[], "initd: cannot use @/up.script\n", 3),
    (
        &[
            ("a.conf", b"start on go\nexec /bin/e \"a  b\" # c\n"),
            ("up.script", b"emit go\nturn 3\n"),
        ],
        "event starting JOB=\"a\" INSTANCE=\"\"\nspawn a main \"/bin/sh\" \"-e\" \"-c\" \"exec /bin/e \\\"a  b\\\"\"\n  UPSTART_EVENTS=\"go\"\n  UPSTART_JOB=\"a\"\n  UPSTART_INSTANCE=\"\"\n",
        0,
    ),
    (
        &[("a.override", b"manual\nbogus x\n")],
        "a.override:2: 1 UnknownStanza\nevent starting JOB=\"a\" INSTANCE=\"\"\nspawn a main \"/bin/sh\" \"-e\" \"-c\" \"exec /bin/e \\\"a  b\\\"\"\n  UPSTART_EVENTS=\"go\"\n  UPSTART_JOB=\"a\"\n  UPSTART_INSTANCE=\"\"\n",
        1,
    ),
    (
        &[("up.script", b"emit go\nturn 3 3\n")],
        "a.override:2: 1 UnknownStanza\n@/up.script:2: bad step\n",
        2,
    ),
    (
        &[("up.script", b"emit go\n\nload 1\n")],
        "a.override:2: 1 UnknownStanza\n@/up.script:3: bad step\n",
        2,
    ),
];

fn take_replays(rt: &HostRuntime, dir: &str) -> Result<(), Fail> {
    for (place, (files, printed, status)) in REPLAYS.iter().enumerate() {
        make_files(rt, dir, files)?;
        expect(replays(rt, dir, (printed, *status))?, printed, place)?;
    }
    Ok(())
}

#[test]
fn a_folder_is_replayed(rt: HostRuntime) -> Result<(), Fail> {
    let dir = scratch(&rt, "replay")?;
    take_replays(&rt, dir.as_str())?;
    fs::remove_dir_all(&rt, dir.as_str())?;
    Ok(())
}

// Whether a folder is compiled without a fault.
fn is_stored(rt: &HostRuntime, dir: &str, image: &str) -> Result<bool, Fail> {
    let stored = compile_dir(rt, dir, image)?;
    let is_so = stored.status.number() == 0;
    drop(stored);
    Ok(is_so)
}

// Whether a replay over the image of a folder prints this, by its path and as what it is, and over the folder too.
fn replays_alike(rt: &HostRuntime, dir: &str, wanted: (&str, u8)) -> Result<bool, Fail> {
    let image = below(rt, dir, "jobs.image")?;
    let image = image.as_str();
    let script = below(rt, dir, "up.script")?;
    let script = script.as_str();
    let stored = is_stored(rt, dir, image)?;
    let over_image = replay_image(rt, image, Env::new(rt.alloc()), script)?;
    let over_image = is_printed(rt, dir, over_image, wanted)?;
    let over_file = replay_source(rt, image, Env::new(rt.alloc()), script)?;
    let over_file = is_printed(rt, dir, over_file, wanted)?;
    let over_folder = replay_source(rt, dir, Env::new(rt.alloc()), script)?;
    let over_folder = is_printed(rt, dir, over_folder, wanted)?;
    Ok(stored && over_image && over_file && over_folder)
}

#[test]
fn an_image_is_replayed(rt: HostRuntime) -> Result<(), Fail> {
    let dir = scratch(&rt, "image")?;
    make_files(&rt, dir.as_str(), REPLAYS[1].0)?;
    let wanted = (REPLAYS[1].1, REPLAYS[1].2);
    expect(
        replays_alike(&rt, dir.as_str(), wanted)?,
        "the image's jobs are replayed",
        0,
    )?;
    fs::remove_dir_all(&rt, dir.as_str())?;
    Ok(())
}

// Whether the bytes of a file are read as those of an image.
fn reads_bytes(rt: &HostRuntime, dir: &str) -> Result<bool, Fail> {
    make_file(rt, dir, "jobs.image", b"UPIM\n\xff")?;
    let image = below(rt, dir, "jobs.image")?;
    let read = read_bytes(rt, image.as_str())?;
    let is_so = match &read {
        Some(bytes) => bytes.as_slice() == b"UPIM\n\xff".as_slice(),
        None => false,
    };
    drop(read);
    Ok(is_so)
}

#[test]
fn the_bytes_of_an_image_are_read(rt: HostRuntime) -> Result<(), Fail> {
    let dir = scratch(&rt, "bytes")?;
    expect(reads_bytes(&rt, dir.as_str())?, "its six bytes", 0)?;
    fs::remove_dir_all(&rt, dir.as_str())?;
    Ok(())
}

// The line goes to the standard output of the tests.
#[test]
fn what_is_printed_has_its_status(rt: HostRuntime) -> Result<(), Fail> {
    let mut text: Vec<u8> = Vec::new(rt.alloc());
    text.extend_from_slice(b"0 jobs, 1 faults\n")?;
    let made = Printed {
        text: Items::new(text),
        status: ExitStatus::Failed,
    };
    expect(print(&rt, Ok(made))?.number() == 1, "the status is 1", 0)
}

// The bytes of a script of empty lines, what its replay prints, and the status.
static LENGTHS: [(usize, &str, u8); 2] = [
    (67_108_864, "", 0),
    (67_108_865, "initd: cannot use @/up.script\n", 3),
];

fn make_script(rt: &HostRuntime, dir: &str, len: usize) -> io::Result<()> {
    let bytes = vec![in rt.alloc(); b'\n'; len]?;
    make_file(rt, dir, "up.script", bytes.as_slice())
}

fn take_lengths(rt: &HostRuntime, dir: &str) -> Result<(), Fail> {
    for (len, printed, status) in &LENGTHS {
        make_script(rt, dir, *len)?;
        expect(
            replays(rt, dir, (printed, *status))?,
            "it is a script",
            *len,
        )?;
    }
    Ok(())
}

#[test]
fn a_script_has_64_mebibytes(rt: HostRuntime) -> Result<(), Fail> {
    let dir = scratch(&rt, "script")?;
    take_lengths(&rt, dir.as_str())?;
    fs::remove_dir_all(&rt, dir.as_str())?;
    Ok(())
}
