//! Checks whether files can define jobs.
ghost use Rattle.std.specs.Prelude.{◌≡◌, ◌≤◌, IfOk, drop, length, map};
ghost use Rattle.std.specs.List.{list_all, list_any};
ghost use Rattle.up_stanza.specs.Exits.{same_exit};
ghost use Rattle.up_text.specs.Names.{is_key};
ghost use Rattle.up_image.specs.Compiling.{has_twice};
ghost use Rattle.up_image.specs.Definable as definable;

use crate::definable_events::can_await;
use crate::definable_texts::{is_name, is_shell_text, is_token, is_word};
use crate::limits::{MAX_COUNT, MAX_ITEMS, MAX_KEYS, MAX_SECONDS};
use crate::twice::has_twice;
use std::alloc::{AllocError, Global};
use up_conf::JobDef;
use up_stanza::{Action, Exit, Setting};
use up_text::env::is_key;
use up_text::{Text, is_expandable};

fn is_setting(setting: &Setting) -> bool
    ensures { result ≡ definable.is_setting setting.now }
{
    is_key(setting.key.as_str())
        && match &setting.value {
            None => true,
            Some(value) => is_token(value.as_str()),
        }
}

fn are_settings(settings: &[Setting]) -> bool
    ensures { result ≡ list_all definable.is_setting settings.now }
{
    settings.iter().all(|setting| is_setting(setting))
}

fn are_keys(keys: &[Text]) -> bool
    ensures { result ≡ list_all is_key keys.now }
{
    keys.iter().all(|key| is_key(key.as_str()))
}

fn keys_of(alloc: Global, settings: &[Setting]) -> Result<Vec<&[u8]>, AllocError>
    ensures { IfOk result (λ keys. map (λ key. key.now) keys.items
        ≡ map (λ setting. setting.key) settings.now) }
{
    let mut keys: Vec<&[u8]> = Vec::new(alloc);
    for setting in settings {
        keys.push(setting.key.as_str().as_bytes())?;
    }
    Ok(keys)
}

fn bytes_of(alloc: Global, texts: &[Text]) -> Result<Vec<&[u8]>, AllocError>
    ensures { IfOk result (λ all. map (λ bytes. bytes.now) all.items ≡ texts.now) }
{
    let mut all: Vec<&[u8]> = Vec::new(alloc);
    for text in texts {
        all.push(text.as_str().as_bytes())?;
    }
    Ok(all)
}

#[tactic(auto, using(crate::proofs::Repeats::few_keys))]
fn can_set(alloc: Global, settings: &[Setting]) -> Result<bool, AllocError>
    ensures { IfOk result (λ can. can ≡ definable.can_set settings.now) }
{
    if settings.len() > MAX_KEYS || !are_settings(settings) {
        return Ok(false);
    }
    if settings.len() < 2 {
        return Ok(true);
    }
    let keys = keys_of(alloc, settings)?;
    let twice = has_twice(alloc, keys.as_slice())?;
    Ok(!twice)
}

#[tactic(auto, using(crate::proofs::Repeats::few_apart))]
fn can_export(alloc: Global, keys: &[Text]) -> Result<bool, AllocError>
    ensures { IfOk result (λ can. can ≡ definable.can_export keys.now) }
{
    if keys.len() > MAX_KEYS || !are_keys(keys) {
        return Ok(false);
    }
    if keys.len() < 2 {
        return Ok(true);
    }
    let keys = bytes_of(alloc, keys)?;
    let twice = has_twice(alloc, keys.as_slice())?;
    Ok(!twice)
}

fn has_exit(exits: &[Exit], exit: Exit) -> bool
    ensures { result ≡ list_any (same_exit exit) exits.now }
{
    exits.iter().any(|other| exit.is(*other))
}

fn exits_from(exits: &[Exit], i: usize) -> &[Exit]
    requires { i ≤ length exits.now }
    ensures { result.now ≡ drop i exits.now }
{
    &exits[i..]
}

// Whether exits are distinct. Goes backwards, so that each is compared with no more exits than there are different ones.
fn are_apart(exits: &[Exit]) -> bool
    ensures { result ≡ definable.are_apart exits.now }
{
    let mut i = exits.len();
    while i > 0 {
        if has_exit(exits_from(exits, i), exits[i - 1]) {
            return false;
        }
        i -= 1;
    }
    true
}

// Whether an exit is a status or a signal.
fn is_exit(exit: Exit) -> bool
    ensures { result ≡ definable.is_exit exit }
{
    match exit {
        Exit::Status(status) => status <= 255,
        Exit::Signal(signal) => matches!(signal.number(), 1..=31),
    }
}

fn are_all_exits(exits: &[Exit]) -> bool
    ensures { result ≡ list_all definable.is_exit exits.now }
{
    exits.iter().all(|exit| is_exit(*exit))
}

fn are_exits(exits: &[Exit]) -> bool
    ensures { result ≡ definable.are_exits exits.now }
{
    are_all_exits(exits) && are_apart(exits)
}

fn are_all_words(words: &[Text]) -> bool
    ensures { result ≡ list_all definable.is_word words.now }
{
    words.iter().all(|word| is_word(word.as_str()))
}

fn are_words(words: &[Text]) -> bool
    ensures { result ≡ definable.are_words words.now }
{
    !words.is_empty() && words.len() <= MAX_ITEMS && are_all_words(words)
}

fn can_run(alloc: Global, action: &Option<Action>) -> Result<bool, AllocError>
    ensures { IfOk result (λ can. can ≡ definable.can_run action.now) }
{
    match action {
        None => Ok(true),
        Some(Action::Words(words)) => Ok(are_words(words.as_slice())),
        Some(Action::Shell(text)) => is_shell_text(alloc, text.as_str()),
    }
}

fn has_texts(job: &JobDef) -> bool
    ensures { result ≡ definable.has_texts job.now }
{
    is_name(&job.name)
        && is_token(job.instance.as_str())
        && is_expandable(job.instance.as_str())
        && is_token(job.dir.as_str())
}

fn has_numbers(job: &JobDef) -> bool
    ensures { result ≡ definable.has_numbers job.now }
{
    job.limit.count <= MAX_COUNT
        && job.limit.interval <= MAX_SECONDS
        && matches!(job.kill_signal.number(), 1..=31)
        && job.kill_timeout <= MAX_SECONDS
        && matches!(job.reload_signal.number(), 1..=31)
}

fn has_lists(alloc: Global, job: &JobDef) -> Result<bool, AllocError>
    ensures { IfOk result (λ has. has ≡ definable.has_lists job.now) }
{
    let sets = can_set(alloc, job.env.as_slice())?;
    let exports = can_export(alloc, job.export.as_slice())?;
    Ok(sets && exports && are_exits(job.normal.as_slice()))
}

fn has_processes(alloc: Global, job: &JobDef) -> Result<bool, AllocError>
    ensures { IfOk result (λ has. has ≡ definable.has_processes job.now) }
{
    let main = can_run(alloc, &job.main)?;
    let pre_start = can_run(alloc, &job.pre_start)?;
    let post_start = can_run(alloc, &job.post_start)?;
    let pre_stop = can_run(alloc, &job.pre_stop)?;
    let post_stop = can_run(alloc, &job.post_stop)?;
    Ok(main && pre_start && post_start && pre_stop && post_stop)
}

fn has_events(job: &JobDef) -> bool
    ensures { result ≡ definable.has_events job.now }
{
    can_await(&job.start_on) && can_await(&job.stop_on)
}

#[tactic(auto, unfolding(crate::specs::Definable::is_definable))]
fn is_definable(alloc: Global, job: &JobDef) -> Result<bool, AllocError>
    ensures { IfOk result (λ can. can ≡ definable.is_definable job.now) }
{
    let lists = has_lists(alloc, job)?;
    let processes = has_processes(alloc, job)?;
    Ok(has_texts(job) && has_numbers(job) && lists && processes && has_events(job))
}

fn are_each_definable(alloc: Global, jobs: &[JobDef]) -> Result<bool, AllocError>
    ensures { IfOk result (λ can. can ≡ list_all definable.is_definable jobs.now) }
{
    for job in jobs {
        if !is_definable(alloc, job)? {
            return Ok(false);
        }
    }
    Ok(true)
}

// Whether names are distinct and in byte order.
fn are_ascending(jobs: &[JobDef]) -> bool
    ensures { result ≡ definable.are_ascending (map (λ job. job.name) jobs.now) }
{
    for i in 1..jobs.len() {
        if jobs[i - 1].name.as_str() >= jobs[i].name.as_str() {
            return false;
        }
    }
    true
}

/// Whether files can define these jobs.
#[tactic(auto, unfolding(crate::specs::Definable::are_definable))]
pub(crate) fn are_definable(alloc: Global, jobs: &[JobDef]) -> Result<bool, AllocError>
    ensures { IfOk result (λ can. can ≡ definable.are_definable jobs.now) }
{
    if !are_ascending(jobs) {
        return Ok(false);
    }
    are_each_definable(alloc, jobs)
}
