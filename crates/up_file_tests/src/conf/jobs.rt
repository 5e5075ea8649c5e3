//! What stanzas make of a job.
use crate::conf::{are_texts, is_event, runs};
use std::alloc::{AllocError, Global};
use std::test::Fail;
use up_conf::{ConfFault, Exit, JobDef, Setting, Stanza, apply_override, job_of, read_conf};
use up_text::{Items, Name};

fn name(alloc: Global) -> Result<Name, AllocError> {
    match Name::new(alloc, "a") {
        Ok(name) => Ok(name),
        Err(_) => Err(AllocError),
    }
}

// The job `a` of a file's stanzas, and of its override if it has one.
fn job_of_stanzas(
    alloc: Global,
    name: Name,
    conf: &Items<Stanza>,
    over: Option<&[u8]>,
) -> Result<JobDef, ConfFault> {
    let Some(over) = over else {
        return Ok(job_of(alloc, name, conf)?);
    };
    match read_conf(alloc, over) {
        Ok(over) => {
            let job = apply_override(alloc, name, conf, &over);
            drop(over);
            Ok(job?)
        }
        Err(fault) => {
            drop(name);
            Err(fault)
        }
    }
}

fn job(alloc: Global, conf: &[u8], over: Option<&[u8]>) -> Result<JobDef, ConfFault> {
    let conf = read_conf(alloc, conf)?;
    let job = match name(alloc) {
        Ok(name) => job_of_stanzas(alloc, name, &conf, over),
        Err(refused) => Err(ConfFault::from(refused)),
    };
    drop(conf);
    job
}

// Something that a job says.
pub(crate) enum Fact {
    // Whether `task`, `respawn` and `console none` stand.
    Marks(bool, bool, bool),
    // The texts of its instances and its folder.
    Texts(&'static str, &'static str),
    // The signal that ends it, the time after which it is killed, and how often it is respawned in which time.
    Numbers(u8, u32, u32, u32),
    // The signal at which it reads its configuration again.
    Reload(u8),
    // `task` stands.
    Task,
    // Its main process runs these words.
    Main(&'static [&'static str]),
    // It has no main process.
    NoMain,
    // Its main process and its pre-start run these words, and it has no other process.
    Processes(&'static [&'static str], &'static [&'static str]),
    // It starts on this event alone.
    StartsOn(&'static str),
    // It starts on no event.
    NeverStarts,
    // It stops on this event alone.
    StopsOn(&'static str),
    // What it sets, and the keys that it exports.
    Env(&'static [(&'static str, Option<&'static str>)]),
    Export(&'static [&'static str]),
    // How many keys it sets, and how many it exports.
    Keys(usize, usize),
    // Its normal exits are the status 0, TERM and the status 15.
    Exits,
}

/// Whether a setting has this key and this value.
pub(crate) fn is_setting(setting: &Setting, key: &str, value: Option<&str>) -> bool {
    let has_value = match &setting.value {
        Some(found) => value == Some(found.as_str()),
        None => value.is_none(),
    };
    has_value && setting.key.is(key)
}

// Whether settings are these.
fn are_settings(settings: &[Setting], expected: &[(&str, Option<&str>)]) -> bool {
    if settings.len() != expected.len() {
        return false;
    }
    for place in 0..expected.len() {
        if !is_setting(&settings[place], expected[place].0, expected[place].1) {
            return false;
        }
    }
    true
}

// Whether these stand: `task`, `respawn` and `console none`.
fn has_marks(job: &JobDef, task: bool, respawn: bool, silent: bool) -> bool {
    job.task == task && job.respawn == respawn && job.silent == silent
}

// Whether its instances and its folder are these texts.
fn has_texts(job: &JobDef, instance: &str, dir: &str) -> bool {
    job.instance.is(instance) && job.dir.is(dir)
}

// Whether it is ended by this signal, killed after this time, and respawned so often.
fn has_numbers(job: &JobDef, signal: u8, seconds: u32, count: u32, interval: u32) -> bool {
    job.kill_signal.number() == signal
        && job.kill_timeout == seconds
        && job.limit.count == count
        && job.limit.interval == interval
}

// Whether it has no process but these two.
fn has_processes(job: &JobDef, main: &[&str], pre_start: &[&str]) -> bool {
    runs(&job.main, main)
        && runs(&job.pre_start, pre_start)
        && job.post_start.is_none()
        && job.pre_stop.is_none()
        && job.post_stop.is_none()
}

// Whether it sets and exports so many keys.
fn has_keys(job: &JobDef, set: usize, exported: usize) -> bool {
    job.env.as_slice().len() == set && job.export.as_slice().len() == exported
}

// Whether the normal exits are the status 0, TERM and the status 15.
fn are_expected_exits(exits: &[Exit]) -> bool {
    match exits {
        [
            Exit::Status(first),
            Exit::Signal(signal),
            Exit::Status(last),
        ] => { *first == 0 && signal.number() == 15 && *last == 15 }
        _ => false,
    }
}

fn states(job: &JobDef, fact: &Fact) -> bool {
    match fact {
        Fact::Marks(task, respawn, silent) => has_marks(job, *task, *respawn, *silent),
        Fact::Texts(instance, dir) => has_texts(job, *instance, *dir),
        Fact::Reload(signal) => job.reload_signal.number() == *signal,
        Fact::Numbers(signal, seconds, count, interval) => {
            has_numbers(job, *signal, *seconds, *count, *interval)
        }
        Fact::Task => job.task,
        Fact::Main(words) => runs(&job.main, *words),
        Fact::NoMain => job.main.is_none(),
        Fact::Processes(main, pre_start) => has_processes(job, *main, *pre_start),
        Fact::StartsOn(event) => is_event(&job.start_on, *event),
        Fact::NeverStarts => job.start_on.is_none(),
        Fact::StopsOn(event) => is_event(&job.stop_on, *event),
        Fact::Env(settings) => are_settings(job.env.as_slice(), *settings),
        Fact::Export(keys) => are_texts(job.export.as_slice(), *keys),
        Fact::Keys(set, exported) => has_keys(job, *set, *exported),
        Fact::Exits => are_expected_exits(job.normal.as_slice()),
    }
}

// Whether a job states all these facts.
pub(crate) fn states_all(job: &JobDef, facts: &[Fact]) -> bool {
    for fact in facts {
        if !states(job, fact) {
            return false;
        }
    }
    true
}

fn check_job(
    alloc: Global,
    name: &'static str,
    conf: &[u8],
    over: Option<&[u8]>,
    facts: &[Fact],
) -> Result<(), Fail> {
    let job = job(alloc, conf, over)?;
    let states_all = states_all(&job, facts);
    drop(job);
    if states_all {
        Ok(())
    } else {
        Err(Fail::from(name))
    }
}

// A file, its override if it has one, and what its job says.
struct Case {
    name: &'static str,
    conf: &'static [u8],
    over: Option<&'static [u8]>,
    facts: &'static [Fact],
}

fn check(alloc: Global, cases: &[Case]) -> Result<(), Fail> {
    for case in cases {
        check_job(alloc, case.name, case.conf, case.over, case.facts)?;
    }
    Ok(())
}

const LAST_OF_EACH_KIND: &'static [Case] = &[
    Case {
        name: "settings",
        conf: b"task\nrespawn\ninstance a\ninstance $X\nchdir /a\nchdir /b\nconsole none\nconsole output\nkill timeout 7\nkill timeout 0\nkill signal INT\nkill signal 9\nreload signal USR2\nreload signal SIGUSR1\nrespawn limit 3 4\nrespawn limit unlimited\n",
        over: None,
        facts: &[
            Fact::Marks(true, true, false),
            Fact::Texts("$X", "/b"),
            Fact::Numbers(9, 0, 0, 0),
            Fact::Reload(10),
        ],
    },
    Case {
        name: "processes",
        conf: b"script\nb\nend script\nexec /bin/a\npre-start exec p\npre-start exec q\nrespawn limit 3 4\nconsole none\nstart on a\nstart on b\nstop on c\nstop on d\n",
        over: None,
        facts: &[
            Fact::Marks(false, false, true),
            Fact::Processes(&["/bin/a"], &["q"]),
            Fact::StartsOn("b"),
            Fact::StopsOn("d"),
            Fact::Numbers(15, 5, 3, 4),
        ],
    },
    Case {
        name: "empty",
        conf: b"",
        over: None,
        facts: &[
            Fact::Marks(false, false, false),
            Fact::Texts("", ""),
            Fact::Numbers(15, 5, 10, 5),
            Fact::Reload(1),
            Fact::NoMain,
        ],
    },
];

#[test]
fn the_last_of_each_kind_counts(rt: HostRuntime) -> Result<(), Fail> {
    check(rt.alloc(), LAST_OF_EACH_KIND)
}

const OTHERS: &'static [Case] = &[
    Case {
        name: "sums",
        conf: b"env A=1\nenv B\nenv A\nenv C=\nexport A B\nexport B C A\nnormal exit 0 TERM\nnormal exit 15 SIGTERM 0\n",
        over: None,
        facts: &[
            Fact::Env(&[("A", None), ("B", None), ("C", Some(""))]),
            Fact::Export(&["A", "B", "C"]),
            Fact::Exits,
        ],
    },
    Case {
        name: "manual",
        conf: b"start on a\nmanual\nstop on b\n",
        over: None,
        facts: &[Fact::NeverStarts, Fact::StopsOn("b")],
    },
    Case {
        name: "started",
        conf: b"start on a\nmanual\nstart on b\n",
        over: None,
        facts: &[Fact::StartsOn("b")],
    },
    Case {
        name: "overridden",
        conf: b"start on a\nexec x\nenv A=1\nenv B=2\nexport B\ntask\n",
        over: Some(b"env B=3\nenv C\nexport A B\nexec y z\nmanual\n"),
        facts: &[
            Fact::Env(&[("A", Some("1")), ("B", Some("3")), ("C", None)]),
            Fact::Export(&["B", "A"]),
            Fact::Main(&["y", "z"]),
            Fact::Marks(true, false, false),
            Fact::NeverStarts,
        ],
    },
];

#[test]
fn others_add_up(rt: HostRuntime) -> Result<(), Fail> {
    check(rt.alloc(), OTHERS)
}

fn push_keys(text: &mut String, count: u32) -> Result<(), AllocError> {
    for n in 0..count {
        write!(text, "env K{n}={n}\nexport K{n}\n")?;
    }
    Ok(())
}

const MANY_KEYS: &'static [Fact] = &[Fact::Keys(30_000, 30_000)];

#[test]
fn many_keys_are_set(rt: HostRuntime) -> Result<(), Fail> {
    let mut text = String::new(rt.alloc());
    let checked = match push_keys(&mut text, 30_000) {
        Ok(()) => check_job(rt.alloc(), "many keys", text.as_bytes(), None, MANY_KEYS),
        Err(refused) => Err(Fail::from(refused)),
    };
    drop(text);
    checked
}
