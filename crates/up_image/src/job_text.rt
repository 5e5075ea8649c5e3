//! Writes jobs as the files that define them.

use crate::stanza_text::{put_action, put_expr, put_keyed, put_token, put_tokens};
use std::alloc::{AllocError, Global};
use up_conf::{Folder, JobDef};
use up_expr::Condition;
use up_stanza::{Action, Exit, Setting, signal_name};
use up_text::{Items, Text};

/// The longest file that is read, in bytes.
const MAX_FILE: usize = 1_048_576;

/// The most keys that a file sets, and that it exports.
const MAX_FILE_KEYS: usize = 30_000;

// The files of a job: what doesn't fit into the first one goes into its override.
#[derive(Drop)]
struct Draft {
    conf: String,
    over: String,
}

impl Draft {
    // Adds a stanza, to the override if `over` or if the first file has no room; returns whether it went there.
    fn add(&mut self, stanza: &str, over: bool) -> Result<bool, AllocError> {
        if over || stanza.len() > MAX_FILE.saturating_sub(self.conf.len()) {
            self.over.push_str(stanza)?;
            return Ok(true);
        }
        self.conf.push_str(stanza)?;
        Ok(false)
    }

    fn add_line(&mut self, alloc: Global, words: &str) -> Result<(), AllocError> {
        let mut line = String::from_str(alloc, words)?;
        line.push('\n')?;
        self.add(line.as_str(), false)?;
        Ok(())
    }

    fn add_token(&mut self, alloc: Global, word: &str, token: &str) -> Result<(), AllocError> {
        let mut line = String::from_str(alloc, word)?;
        put_token(&mut line, token)?;
        line.push('\n')?;
        self.add(line.as_str(), false)?;
        Ok(())
    }
}

fn setting_line(alloc: Global, setting: &Setting) -> Result<String, AllocError> {
    let mut line = String::from_str(alloc, "env")?;
    match &setting.value {
        Some(value) => put_keyed(alloc, &mut line, setting.key.as_str(), "=", value.as_str())?,
        None => put_token(&mut line, setting.key.as_str())?,
    }
    line.push('\n')?;
    Ok(line)
}

// Settings keep their order: once one goes into the override, all later ones do.
fn add_settings(alloc: Global, draft: &mut Draft, settings: &[Setting]) -> Result<(), AllocError> {
    let mut over = false;
    for (place, setting) in settings.iter().enumerate() {
        let line = setting_line(alloc, setting)?;
        over = draft.add(line.as_str(), over || place >= MAX_FILE_KEYS)?;
    }
    Ok(())
}

fn add_keys(
    alloc: Global,
    draft: &mut Draft,
    keys: &[Text],
    over: bool,
) -> Result<bool, AllocError> {
    if keys.is_empty() {
        return Ok(over);
    }
    let mut line = String::from_str(alloc, "export")?;
    put_tokens(&mut line, keys)?;
    line.push('\n')?;
    draft.add(line.as_str(), over)
}

fn add_exports(alloc: Global, draft: &mut Draft, keys: &[Text]) -> Result<(), AllocError> {
    let (first, others) = keys.split_at(keys.len().min(MAX_FILE_KEYS));
    add_keys(alloc, draft, first, false)?;
    add_keys(alloc, draft, others, true)?;
    Ok(())
}

fn put_exit(alloc: Global, line: &mut String, exit: Exit) -> Result<(), AllocError> {
    match exit {
        Exit::Status(status) => {
            let text = format!(in alloc; " {status}")?;
            line.push_str(text.as_str())
        }
        Exit::Signal(signal) => match signal_name(signal.number()) {
            Some(name) => put_token(line, name),
            None => Ok(()),
        },
    }
}

fn add_exits(alloc: Global, draft: &mut Draft, exits: &[Exit]) -> Result<(), AllocError> {
    if exits.is_empty() {
        return Ok(());
    }
    let mut line = String::from_str(alloc, "normal exit")?;
    for exit in exits {
        put_exit(alloc, &mut line, *exit)?;
    }
    line.push('\n')?;
    draft.add(line.as_str(), false)?;
    Ok(())
}

fn add_action(
    alloc: Global,
    draft: &mut Draft,
    process: &str,
    action: &Option<Action>,
) -> Result<(), AllocError> {
    let Some(action) = action else {
        return Ok(());
    };
    let mut stanza = String::new(alloc);
    put_action(&mut stanza, process, action)?;
    draft.add(stanza.as_str(), false)?;
    Ok(())
}

fn add_condition(
    alloc: Global,
    draft: &mut Draft,
    words: &str,
    condition: &Option<Condition>,
) -> Result<(), AllocError> {
    let Some(condition) = condition else {
        return Ok(());
    };
    let mut line = String::from_str(alloc, words)?;
    put_expr(alloc, &mut line, &condition.root(), false)?;
    line.push('\n')?;
    draft.add(line.as_str(), false)?;
    Ok(())
}

fn add_flags(alloc: Global, draft: &mut Draft, job: &JobDef) -> Result<(), AllocError> {
    if job.task {
        draft.add_line(alloc, "task")?;
    }
    if job.respawn {
        draft.add_line(alloc, "respawn")?;
    }
    if job.silent {
        draft.add_line(alloc, "console none")?;
    }
    Ok(())
}

fn add_texts(alloc: Global, draft: &mut Draft, job: &JobDef) -> Result<(), AllocError> {
    if !job.instance.as_str().is_empty() {
        draft.add_token(alloc, "instance", job.instance.as_str())?;
    }
    if !job.dir.as_str().is_empty() {
        draft.add_token(alloc, "chdir", job.dir.as_str())?;
    }
    Ok(())
}

fn add_numbers(alloc: Global, draft: &mut Draft, job: &JobDef) -> Result<(), AllocError> {
    let count = job.limit.count;
    let interval = job.limit.interval;
    let signal = job.kill_signal.number();
    let timeout = job.kill_timeout;
    let reload = job.reload_signal.number();
    let lines = format!(in alloc;
        "respawn limit {count} {interval}\nkill signal {signal}\nkill timeout {timeout}\nreload signal {reload}\n"
    )?;
    draft.add(lines.as_str(), false)?;
    Ok(())
}

fn add_actions(alloc: Global, draft: &mut Draft, job: &JobDef) -> Result<(), AllocError> {
    add_action(alloc, draft, "", &job.main)?;
    add_action(alloc, draft, "pre-start ", &job.pre_start)?;
    add_action(alloc, draft, "post-start ", &job.post_start)?;
    add_action(alloc, draft, "pre-stop ", &job.pre_stop)?;
    add_action(alloc, draft, "post-stop ", &job.post_stop)?;
    Ok(())
}

fn draft_of(alloc: Global, job: &JobDef) -> Result<Draft, AllocError> {
    let mut draft = Draft {
        conf: String::new(alloc),
        over: String::new(alloc),
    };
    add_flags(alloc, &mut draft, job)?;
    add_texts(alloc, &mut draft, job)?;
    add_numbers(alloc, &mut draft, job)?;
    add_exits(alloc, &mut draft, job.normal.as_slice())?;
    add_settings(alloc, &mut draft, job.env.as_slice())?;
    add_exports(alloc, &mut draft, job.export.as_slice())?;
    add_actions(alloc, &mut draft, job)?;
    add_condition(alloc, &mut draft, "start on", &job.start_on)?;
    add_condition(alloc, &mut draft, "stop on", &job.stop_on)?;
    Ok(draft)
}

fn add_file(
    alloc: Global,
    folder: &mut Folder,
    name: &str,
    ending: &str,
    text: &str,
) -> Result<(), AllocError> {
    let mut path = String::from_str(alloc, name)?;
    path.push_str(ending)?;
    let bytes = Vec::from_slice(alloc, text.as_bytes())?;
    folder.add(Text::new(path), Items::new(bytes))
}

fn add_job(alloc: Global, folder: &mut Folder, job: &JobDef) -> Result<(), AllocError> {
    let draft = draft_of(alloc, job)?;
    let name = job.name.as_str();
    add_file(alloc, folder, name, ".conf", draft.conf.as_str())?;
    if !draft.over.is_empty() {
        add_file(alloc, folder, name, ".override", draft.over.as_str())?;
    }
    Ok(())
}

/// A folder of files that define these jobs, if any files within the limits of length do. The caller must check what else it defines:
/// nothing is promised here.
pub(crate) fn folder_of(alloc: Global, jobs: &[JobDef]) -> Result<Folder, AllocError> {
    let mut folder = Folder::new(alloc);
    for job in jobs {
        add_job(alloc, &mut folder, job)?;
    }
    Ok(folder)
}
