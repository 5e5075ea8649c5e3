//! Whether two values of a job's field are the same.
ghost use Rattle.std.specs.Prelude.{◌≡◌};
ghost use Rattle.std.specs.Cmp.Lexicographic.{pointwise};
ghost use Rattle.std.specs.Str.{bytes_eq};
ghost use Rattle.up_stanza.specs.Exits.{same_exit};
ghost use Rattle.up_tools.specs.Same.{same_action, same_flag, same_limit, same_option, same_setting};

use up_stanza::{Action, Exit, Limit, Setting};
use up_text::Text;

pub(crate) fn same_flag(flag: bool, other: bool) -> bool
    ensures { result ≡ same_flag flag other }
{
    if flag { other } else { !other }
}

pub(crate) fn same_limit(limit: &Limit, other: &Limit) -> bool
    ensures { result ≡ same_limit limit.now other.now }
{
    limit.count == other.count && limit.interval == other.interval
}

pub(crate) fn same_texts(texts: &[Text], others: &[Text]) -> bool
    ensures { result ≡ pointwise bytes_eq texts.now others.now }
{
    if texts.len() != others.len() {
        return false;
    }
    for i in 0..texts.len() {
        if texts[i].as_str() != others[i].as_str() {
            return false;
        }
    }
    true
}

fn same_value(value: &Option<Text>, other: &Option<Text>) -> bool
    ensures { result ≡ same_option bytes_eq value.now other.now }
{
    match (value, other) {
        (None, None) => true,
        (Some(value), Some(other)) => value.as_str() == other.as_str(),
        _ => false,
    }
}

fn same_setting(setting: &Setting, other: &Setting) -> bool
    ensures { result ≡ same_setting setting.now other.now }
{
    setting.key.as_str() == other.key.as_str() && same_value(&setting.value, &other.value)
}

pub(crate) fn same_settings(settings: &[Setting], others: &[Setting]) -> bool
    ensures { result ≡ pointwise same_setting settings.now others.now }
{
    if settings.len() != others.len() {
        return false;
    }
    for i in 0..settings.len() {
        if !same_setting(&settings[i], &others[i]) {
            return false;
        }
    }
    true
}

pub(crate) fn same_exits(exits: &[Exit], others: &[Exit]) -> bool
    ensures { result ≡ pointwise same_exit exits.now others.now }
{
    if exits.len() != others.len() {
        return false;
    }
    for i in 0..exits.len() {
        if !exits[i].is(others[i]) {
            return false;
        }
    }
    true
}

fn same_action(action: &Action, other: &Action) -> bool
    ensures { result ≡ same_action action.now other.now }
{
    match (action, other) {
        (Action::Words(words), Action::Words(others)) => {
            same_texts(words.as_slice(), others.as_slice())
        }
        (Action::Shell(text), Action::Shell(other)) => text.as_str() == other.as_str(),
        _ => false,
    }
}

/// Whether two processes are the same, or both are missing.
pub(crate) fn same_process(action: &Option<Action>, other: &Option<Action>) -> bool
    ensures { result ≡ same_option same_action action.now other.now }
{
    match (action, other) {
        (None, None) => true,
        (Some(action), Some(other)) => same_action(action, other),
        _ => false,
    }
}
