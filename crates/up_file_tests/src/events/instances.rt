//! Instances of a few jobs.
use crate::events::files::files_of;
use crate::images::holds;
use std::alloc::{AllocError, Global};
use std::slice::from_ref;
use std::test::Fail;
use up_conf::Limit;
use up_image::JobFile;
use up_job::{Change, InstanceKey, Instances, JobFault, Moments};
use up_marks::{Index, Trigger};
use up_model::State;
use up_text::Name;

// A job whose main process is killed after seven seconds.
const JOB: &'static [&'static str] = &["stop on b or c\nkill timeout 7"];

// What is done with the instances of a job, or seen of them.
enum Act {
    // They are made by the file, one after another.
    Makes(&'static [&'static str]),
    // As many are made as a job may have.
    Fills,
    // One more isn't made, and the refusal has this number.
    Refuses(&'static str, u8),
    // One is made by a file that is dropped then.
    MakesOfOwnFile(&'static str),
    // One is removed by its name, or by its place among those of the first job.
    Removes(&'static str),
    RemovesAt(usize),
    // One runs.
    Runs(&'static str),
    // Main of the first job's instances is sent a signal at these moments; what the alarm reads then, before and after it is set.
    Alarms(&'static [u64], u128, u128),
    // What the alarm reads once it is set.
    SetsAlarm(u128),
    // The job in force is the file's alone.
    Replaces,
    // One is in this state, or isn't there.
    IsIn(&'static str, Option<State>),
    // One is killed after so many seconds.
    IsKilled(&'static str, u32),
    // They have these names, in this order.
    AreNamed(&'static [&'static str]),
    // There are so many.
    Count(usize),
    // The first and the second job have so many.
    Counts(usize, usize),
    // One of the first job is at this place.
    IsAt(&'static str, Option<usize>),
    // Of so many leaves that may stop instances the job's name is the event.
    Stops(usize),
}

// A job, and what is done with its instances.
type Step = (&'static str, Act);

struct Case {
    name: &'static str,
    steps: &'static [Step],
}

const CASES: &'static [Case] = &[
    Case {
        name: "instances_stand_in_byte_order",
        steps: &[
            ("job", Act::Makes(&["b", "a", "c", "ab", ""])),
            ("job", Act::AreNamed(&["", "a", "ab", "b", "c"])),
        ],
    },
    Case {
        name: "a_full_job_leaves_others_room",
        steps: &[
            ("job", Act::Fills),
            ("job", Act::Count(1024)),
            ("job", Act::Refuses("one more", 43)),
            ("other", Act::Makes(&["one more"])),
            ("job", Act::Count(1024)),
            ("other", Act::Count(1)),
        ],
    },
    Case {
        name: "a_removed_one_is_not_found",
        steps: &[
            ("job", Act::Makes(&["a", "b"])),
            ("other", Act::Makes(&["a"])),
            ("job", Act::Removes("a")),
            ("job", Act::IsIn("a", None)),
            ("job", Act::IsIn("b", Some(State::Waiting))),
            ("other", Act::IsIn("a", Some(State::Waiting))),
        ],
    },
    Case {
        name: "a_changed_one_is_found_so",
        steps: &[
            ("job", Act::Makes(&["a", "b"])),
            ("job", Act::Runs("b")),
            ("job", Act::IsIn("a", Some(State::Waiting))),
            ("job", Act::IsIn("b", Some(State::Running))),
        ],
    },
    Case {
        name: "keys_are_places_in_order",
        steps: &[
            ("job", Act::Makes(&["a", "c"])),
            ("job", Act::IsAt("c", Some(1))),
            ("job", Act::Makes(&["b"])),
            ("job", Act::IsAt("c", Some(2))),
            ("job", Act::RemovesAt(0)),
            ("job", Act::IsAt("c", Some(1))),
            ("job", Act::IsAt("a", None)),
            ("job", Act::Counts(2, 0)),
        ],
    },
    // Each is killed seven seconds after its signal, as its file says.
    Case {
        name: "the_alarm_is_the_first_kill",
        steps: &[
            ("job", Act::Makes(&["a", "b"])),
            ("job", Act::SetsAlarm(u128::MAX)),
            ("job", Act::Alarms(&[2000, 1000], 1000, 8000)),
            ("job", Act::RemovesAt(1)),
            ("job", Act::Alarms(&[], 8000, 9000)),
        ],
    },
    Case {
        name: "a_shared_file_outlives_its_owners",
        steps: &[
            ("job", Act::MakesOfOwnFile("a")),
            ("job", Act::IsKilled("a", 7)),
        ],
    },
    Case {
        name: "a_job_in_force_keeps_its_instances",
        steps: &[
            ("0", Act::Makes(&["a", "b"])),
            ("other", Act::Makes(&["a"])),
            ("0", Act::Replaces),
            ("0", Act::Count(2)),
            ("other", Act::Count(0)),
        ],
    },
    Case {
        name: "each_instance_has_its_leaves",
        steps: &[
            ("job", Act::Makes(&["a", "b"])),
            ("other", Act::Makes(&["a"])),
            ("b", Act::Stops(3)),
            ("job", Act::Stops(0)),
        ],
    },
];

// Makes an instance by a file, if it isn't there yet, and returns the number of its refusal, or 0.
fn make(alloc: Global, file: &JobFile, instances: &mut Instances, job: &Name, name: &str) -> u8 {
    let there = instances.find(job, name).is_some();
    if there {
        return 1;
    }
    match both(file.share(), Trigger::new(alloc, &None)) {
        Some((file, stop_on)) => match instances.add(job, name, file, stop_on) {
            Ok(()) => 0,
            Err(fault) => fault.number(),
        },
        None => 42,
    }
}

// Both values, if there was memory for them.
fn both<A: Drop, B: Drop>(
    first: Result<A, AllocError>,
    second: Result<B, AllocError>,
) -> Option<(A, B)> {
    match first {
        Ok(first) => match second {
            Ok(second) => Some((first, second)),
            Err(_) => None,
        },
        Err(_) => None,
    }
}

fn make_each(
    alloc: Global,
    file: &JobFile,
    instances: &mut Instances,
    job: &Name,
    names: &[&str],
) -> bool {
    for name in names {
        if make(alloc, file, instances, job, *name) != 0 {
            return false;
        }
    }
    true
}

fn make_numbered(
    alloc: Global,
    file: &JobFile,
    instances: &mut Instances,
    job: &Name,
    number: u32,
) -> Result<bool, AllocError> {
    let name = format!(in alloc; "{number}")?;
    let made = make(alloc, file, instances, job, name.as_str());
    drop(name);
    Ok(made == 0)
}

// Whether as many instances are made as a job may have.
fn fill(alloc: Global, file: &JobFile, instances: &mut Instances, job: &Name) -> bool {
    for number in 0..1024u32 {
        if !holds(make_numbered(alloc, file, instances, job, number)) {
            return false;
        }
    }
    true
}

fn make_of_own_file(alloc: Global, instances: &mut Instances, job: &Name, name: &str) -> bool {
    match files_of(alloc, JOB) {
        Ok(files) => {
            let made = match files.first() {
                Some(file) => make(alloc, file, instances, job, name) == 0,
                None => false,
            };
            drop(files);
            made
        }
        Err(_) => false,
    }
}

// Removes an instance, if it is there.
fn remove(instances: &mut Instances, job: &Name, name: &str) -> bool {
    let there = instances.find(job, name).is_some();
    if there {
        drop(instances.remove(job, name));
    }
    there
}

fn remove_at(instances: &mut Instances, at: usize) -> bool {
    match instances.remove_at(InstanceKey { job: 0, at }) {
        Some(instance) => {
            drop(instance);
            true
        }
        None => false,
    }
}

// Lets an instance run, if it is there.
fn run(instances: &mut Instances, job: &Name, name: &str) -> bool {
    let there = instances.find(job, name).is_some();
    if there {
        instances.change(job, name, Change::Enters(State::Running));
    }
    there
}

fn is_in(instances: &Instances, job: &Name, name: &str, state: Option<State>) -> bool {
    match instances.find(job, name) {
        Some(instance) => state == Some(instance.state),
        None => state.is_none(),
    }
}

fn is_killed(instances: &Instances, job: &Name, name: &str, seconds: u32) -> bool {
    match instances.find(job, name) {
        Some(instance) => instance.file.job().kill_timeout == seconds,
        None => false,
    }
}

fn are_named(instances: &Instances, job: &Name, names: &[&str]) -> bool {
    let list = instances.of(job);
    if list.len() != names.len() {
        return false;
    }
    for at in 0..names.len() {
        if !list[at].name.is(names[at]) {
            return false;
        }
    }
    true
}

// Whether the first job's instance of this name is at this place.
fn is_at(instances: &Instances, name: &str, place: Option<usize>) -> bool {
    match instances.position(0, name) {
        Some(key) => place == Some(key.at),
        None => place.is_none(),
    }
}

// Whether the alarm reads this once it is set.
fn reads_alarm(instances: &mut Instances, late: u128) -> bool {
    instances.set_alarm();
    instances.alarm() == late
}

fn has_alarms(instances: &mut Instances, moments: &[u64], early: u128, late: u128) -> bool {
    for (at, moment) in moments.iter().enumerate() {
        instances.change_at(InstanceKey { job: 0, at }, Change::Signals(Some(*moment)));
    }
    instances.alarm() == early && reads_alarm(instances, late)
}

fn stops(
    alloc: Global,
    instances: &Instances,
    event: &Name,
    count: usize,
) -> Result<bool, AllocError> {
    let index = Index::of_places(instances.stop_places(alloc)?)?;
    let stops = index.places(event).len() == count;
    drop(index);
    Ok(stops)
}

// Whether what is seen is so.
fn is_so(instances: &Instances, job: &Name, act: &Act) -> bool {
    match act {
        Act::IsIn(name, state) => is_in(instances, job, *name, *state),
        Act::IsKilled(name, seconds) => is_killed(instances, job, *name, *seconds),
        Act::AreNamed(names) => are_named(instances, job, *names),
        Act::Count(count) => instances.of(job).len() == *count,
        Act::Counts(first, second) => instances.count(0) == *first && instances.count(1) == *second,
        Act::IsAt(name, place) => is_at(instances, *name, *place),
        _ => false,
    }
}

// Whether what is done succeeds. What takes no memory is here, and the rest below.
fn succeeds(instances: &mut Instances, job: &Name, act: &Act) -> bool {
    match act {
        Act::Removes(name) => remove(instances, job, *name),
        Act::RemovesAt(at) => remove_at(instances, *at),
        Act::Runs(name) => run(instances, job, *name),
        Act::Alarms(moments, early, late) => has_alarms(instances, *moments, *early, *late),
        Act::SetsAlarm(late) => reads_alarm(instances, *late),
        other => is_so(instances, job, other),
    }
}

fn takes(alloc: Global, file: &JobFile, instances: &mut Instances, job: &Name, act: &Act) -> bool {
    match act {
        Act::Makes(names) => make_each(alloc, file, instances, job, *names),
        Act::Fills => fill(alloc, file, instances, job),
        Act::Refuses(name, number) => make(alloc, file, instances, job, *name) == *number,
        Act::MakesOfOwnFile(name) => make_of_own_file(alloc, instances, job, *name),
        Act::Replaces => instances.replace(alloc, from_ref(file)).is_ok(),
        Act::Stops(count) => holds(stops(alloc, instances, job, *count)),
        other => succeeds(instances, job, other),
    }
}

fn takes_step(alloc: Global, file: &JobFile, instances: &mut Instances, step: &Step) -> bool {
    match Name::new(alloc, step.0) {
        Ok(job) => {
            let takes = takes(alloc, file, instances, &job, &step.1);
            drop(job);
            takes
        }
        Err(_) => false,
    }
}

// The place of the first step that goes otherwise.
fn first_other(
    alloc: Global,
    file: &JobFile,
    instances: &mut Instances,
    steps: &[Step],
) -> Option<usize> {
    for (place, step) in steps.iter().enumerate() {
        if !takes_step(alloc, file, instances, step) {
            return Some(place);
        }
    }
    None
}

fn check_case(alloc: Global, file: &JobFile, case: &Case) -> Result<(), Fail> {
    let mut instances = Instances::new(alloc);
    let other = first_other(alloc, file, &mut instances, case.steps);
    drop(instances);
    match other {
        Some(place) => Err(Fail::from((case.name, place))),
        None => Ok(()),
    }
}

fn check(alloc: Global, files: &[JobFile], cases: &[Case]) -> Result<(), Fail> {
    let [file] = files else {
        return Err(Fail::from("there isn't one job"));
    };
    for case in cases {
        check_case(alloc, file, case)?;
    }
    Ok(())
}

#[test]
fn instances_of_a_few_jobs(rt: HostRuntime) -> Result<(), Fail> {
    let files = files_of(rt.alloc(), JOB)?;
    let checked = check(rt.alloc(), files.as_slice(), CASES);
    drop(files);
    checked
}

// A respawn at a moment, or whether there may be one then.
enum Beat {
    Notes(u64),
    May(u64),
    MayNot(u64),
}

// Three respawns in five seconds.
const LIMIT: Limit = Limit {
    count: 3,
    interval: 5,
};

const SLIDING: &'static [Beat] = &[
    Beat::Notes(1000),
    Beat::Notes(2000),
    Beat::May(2000),
    Beat::Notes(3000),
    Beat::MayNot(5999),
    Beat::May(6000),
    Beat::Notes(6000),
    Beat::MayNot(6000),
    Beat::May(7000),
];

const UNLIMITED: Limit = Limit {
    count: 0,
    interval: 5,
};

const UNCOUNTED: &'static [Beat] = &[Beat::Notes(1000), Beat::Notes(1000), Beat::May(1000)];

fn beats(moments: &mut Moments, limit: Limit, beat: &Beat) -> bool {
    match beat {
        Beat::Notes(moment) => {
            moments.note(*moment);
            true
        }
        Beat::May(moment) => moments.may_respawn(limit, *moment),
        Beat::MayNot(moment) => !moments.may_respawn(limit, *moment),
    }
}

fn all_beat(moments: &mut Moments, limit: Limit, all: &[Beat]) -> bool {
    for beat in all {
        if !beats(moments, limit, beat) {
            return false;
        }
    }
    true
}

fn is_limited(alloc: Global, limit: Limit, all: &[Beat]) -> Result<bool, AllocError> {
    let mut moments = Moments::new(alloc, limit)?;
    let beat = all_beat(&mut moments, limit, all);
    drop(moments);
    Ok(beat)
}

// No limit counts nothing.
#[test]
fn the_respawn_limit_slides(rt: HostRuntime) {
    assert!(rt;
        holds(is_limited(rt.alloc(), LIMIT, SLIDING))
            && holds(is_limited(rt.alloc(), UNLIMITED, UNCOUNTED))
    );
}

#[test]
fn refusals_have_numbers(rt: HostRuntime) {
    assert!(rt; JobFault::Memory.number() == 42 && JobFault::Full.number() == 43);
}
