//! Reads stanzas whose arguments are the tokens up to the stanza's end.
ghost use Rattle.std.specs.Prelude.{◌≡◌, IfOk, OnErr, is_ok, is_some, option_map, option_and_then, codes, true};
ghost use Rattle.std.specs.Result.{result_ok};
ghost use Rattle.up_stanza.specs.declared.listed.TheConstants.{MAX_COUNT, MAX_SECONDS};
ghost use Rattle.up_stanza.specs.Arguments.{single, none, each, one_or_more, some, after, unlimited, limit_by, limit_of, respawn_of, kill_of, reload_of, normal_of, listed_of};
ghost use Rattle.up_stanza.specs.Numbers.{number_in};
ghost use Rattle.up_stanza.specs.Settings.{key_in, setting_in, exit_in, expandable_in, console_in};
ghost use Rattle.up_stanza.specs.Signals.{signal_in};
ghost use Rattle.up_stanza.specs.declared.stanza.Stanza.TheVariants.{About, Emits, Env, Export, Instance, Chdir, Console, RespawnLimit, KillTimeout, KillSignal};

use crate::argument::{
    as_number, as_signal, read_console, read_exit, read_instance, read_key, read_setting,
};
use crate::exit::Exit;
use crate::fault::FaultCode;
use crate::kind::Listed;
use crate::limit::Limit;
use crate::signal::Signal;
use crate::stanza::Stanza;
use std::alloc::{AllocError, Global};
use up_text::env::is_key;
use up_text::{Items, Text};

/// The greatest number of times that a job may be respawned within an interval.
const MAX_COUNT: u32 = 65_535;

/// The greatest number of seconds of an interval and of a timeout.
const MAX_SECONDS: u32 = 2_147_483_647;

// The only argument.
fn single(texts: &[Text]) -> Result<&Text, FaultCode>
    ensures { option_map (λ text. text.now) (result_ok result) ≡ single texts.now }
{
    match texts.split_first() {
        Some((text, others)) => {
            if others.is_empty() {
                Ok(text)
            } else {
                Err(FaultCode::UnexpectedToken)
            }
        }
        None => Err(FaultCode::ExpectedToken),
    }
}

fn alone(stanza: Stanza, texts: &[Text]) -> Result<Stanza, FaultCode>
    ensures { result_ok result ≡ none stanza texts.now }
{
    if texts.is_empty() {
        return Ok(stanza);
    }
    drop(stanza);
    Err(FaultCode::UnexpectedToken)
}

fn one_or_more(texts: Items<Text>) -> Result<Items<Text>, FaultCode>
    ensures { result_ok result ≡ one_or_more texts }
{
    if texts.as_slice().is_empty() {
        Err(FaultCode::ExpectedToken)
    } else {
        Ok(texts)
    }
}

fn after<'a>(texts: &'a [Text], word: &str) -> Result<&'a [Text], FaultCode>
    ensures { option_map (λ others. others.now) (result_ok result) ≡ after word.now texts.now }
{
    match texts.split_first() {
        Some((text, others)) => {
            if text.is(word) {
                Ok(others)
            } else {
                Err(FaultCode::UnknownStanza)
            }
        }
        None => Err(FaultCode::ExpectedToken),
    }
}

fn are_keys(texts: &[Text]) -> bool
    ensures { result ≡ is_some (each key_in texts.now) }
{
    for text in texts {
        if !is_key(text.as_str()) {
            return false;
        }
    }
    true
}

// Fails if one of the arguments isn't a normal exit.
fn check_exits(texts: &[Text]) -> Result<(), FaultCode>
    ensures { is_ok result ≡ is_some (each exit_in texts.now) }
{
    for text in texts {
        read_exit(text.as_str())?;
    }
    Ok(())
}

fn read_each_key(
    alloc: Global,
    texts: &[Text],
) -> Result<Result<Items<Text>, FaultCode>, AllocError>
    ensures { IfOk result (λ read. result_ok read ≡ each key_in texts.now) }
{
    let mut keys: Vec<Text> = Vec::new(alloc);
    for text in texts {
        match read_key(alloc, text.as_str())? {
            Ok(key) => keys.push(key)?,
            Err(code) => return Ok(Err(code)),
        }
    }
    Ok(Ok(Items::new(keys)))
}

fn read_each_exit(
    alloc: Global,
    texts: &[Text],
) -> Result<Result<Items<Exit>, FaultCode>, AllocError>
    ensures { IfOk result (λ read. result_ok read ≡ each exit_in texts.now) }
{
    let mut exits: Vec<Exit> = Vec::new(alloc);
    for text in texts {
        match read_exit(text.as_str()) {
            Ok(exit) => exits.push(exit)?,
            Err(code) => return Ok(Err(code)),
        }
    }
    Ok(Ok(Items::new(exits)))
}

fn read_keys(alloc: Global, texts: &[Text]) -> Result<Result<Items<Text>, FaultCode>, AllocError>
    ensures read { IfOk result (λ read. result_ok read ≡ some key_in texts.now) }
    ensures memory { OnErr result (is_some (some key_in texts.now) ≡ true) }
{
    if texts.is_empty() {
        return Ok(Err(FaultCode::ExpectedToken));
    }
    if !are_keys(texts) {
        return Ok(Err(FaultCode::BadName));
    }
    read_each_key(alloc, texts)
}

fn read_exits(alloc: Global, texts: &[Text]) -> Result<Result<Items<Exit>, FaultCode>, AllocError>
    ensures read { IfOk result (λ read. result_ok read ≡ some exit_in texts.now) }
    ensures memory { OnErr result (is_some (some exit_in texts.now) ≡ true) }
{
    if texts.is_empty() {
        return Ok(Err(FaultCode::ExpectedToken));
    }
    if let Err(code) = check_exits(texts) {
        return Ok(Err(code));
    }
    read_each_exit(alloc, texts)
}

// Reads `unlimited`, the limit of 0 and 0.
fn read_unlimited(text: &Text) -> Result<Limit, FaultCode>
    ensures { result_ok result ≡ unlimited text.now }
{
    if text.is("unlimited") {
        Ok(Limit {
            count: 0,
            interval: 0,
        })
    } else {
        Err(FaultCode::ExpectedToken)
    }
}

// The fault of a text before another that isn't a count: nothing may follow `unlimited`.
fn no_count(text: &Text) -> FaultCode {
    if text.is("unlimited") {
        FaultCode::UnexpectedToken
    } else {
        FaultCode::BadNumber
    }
}

fn read_pair(count: &Text, interval: &Text) -> Result<Limit, FaultCode>
    ensures { result_ok result
        ≡ limit_by (number_in 0 MAX_COUNT count.now) (number_in 0 MAX_SECONDS interval.now) }
{
    match as_number(count.as_str(), MAX_COUNT) {
        Ok(count) => match as_number(interval.as_str(), MAX_SECONDS) {
            Ok(interval) => Ok(Limit { count, interval }),
            Err(code) => Err(code),
        },
        Err(_) => Err(no_count(count)),
    }
}

// Reads COUNT INTERVAL, or `unlimited`.
fn read_limit(texts: &[Text]) -> Result<Limit, FaultCode>
    ensures { result_ok result ≡ limit_of texts.now }
{
    match texts.split_first() {
        Some((first, others)) => match others.split_first() {
            Some((second, rest)) => {
                if rest.is_empty() {
                    read_pair(first, second)
                } else {
                    Err(FaultCode::UnexpectedToken)
                }
            }
            None => read_unlimited(first),
        },
        None => Err(FaultCode::ExpectedToken),
    }
}

// Reads `limit` and its arguments.
fn read_respawn_limit(texts: &[Text]) -> Result<Stanza, FaultCode>
    ensures { result_ok result
        ≡ option_map RespawnLimit (option_and_then limit_of (after (codes "limit") texts.now)) }
{
    match after(texts, "limit") {
        Ok(others) => match read_limit(others) {
            Ok(limit) => Ok(Stanza::RespawnLimit(limit)),
            Err(code) => Err(code),
        },
        Err(_) => Err(FaultCode::UnexpectedToken),
    }
}

// Reads nothing, or `limit` and its arguments.
fn read_respawn(texts: &[Text]) -> Result<Stanza, FaultCode>
    ensures { result_ok result ≡ respawn_of texts.now }
{
    if texts.is_empty() {
        Ok(Stanza::Respawn)
    } else {
        read_respawn_limit(texts)
    }
}

// Reads the seconds before a kill.
fn read_timeout(texts: &[Text]) -> Result<Stanza, FaultCode>
    ensures { result_ok result
        ≡ option_map KillTimeout (option_and_then (number_in 0 MAX_SECONDS) (single texts.now)) }
{
    match single(texts) {
        Ok(text) => match as_number(text.as_str(), MAX_SECONDS) {
            Ok(seconds) => Ok(Stanza::KillTimeout(seconds)),
            Err(code) => Err(code),
        },
        Err(code) => Err(code),
    }
}

fn read_one_signal(texts: &[Text]) -> Result<Signal, FaultCode>
    ensures { result_ok result ≡ option_and_then signal_in (single texts.now) }
{
    match single(texts) {
        Ok(text) => as_signal(text.as_str()),
        Err(code) => Err(code),
    }
}

fn read_kill_signal(texts: &[Text]) -> Result<Stanza, FaultCode>
    ensures { result_ok result ≡ option_map KillSignal (option_and_then signal_in (single texts.now)) }
{
    match read_one_signal(texts) {
        Ok(signal) => Ok(Stanza::KillSignal(signal)),
        Err(code) => Err(code),
    }
}

// Reads `timeout` or `signal`, and its argument.
fn read_kill(texts: &[Text]) -> Result<Stanza, FaultCode>
    ensures { result_ok result ≡ kill_of texts.now }
{
    match texts.split_first() {
        Some((text, others)) => {
            if text.is("timeout") {
                return read_timeout(others);
            }
            if text.is("signal") {
                return read_kill_signal(others);
            }
            Err(FaultCode::UnknownStanza)
        }
        None => Err(FaultCode::ExpectedToken),
    }
}

// Reads `signal` and its argument.
fn read_reload(texts: &[Text]) -> Result<Stanza, FaultCode>
    ensures { result_ok result ≡ reload_of texts.now }
{
    match after(texts, "signal") {
        Ok(others) => match read_one_signal(others) {
            Ok(signal) => Ok(Stanza::ReloadSignal(signal)),
            Err(code) => Err(code),
        },
        Err(code) => Err(code),
    }
}

// Reads `exit` and its arguments.
fn read_normal(alloc: Global, texts: &[Text]) -> Result<Result<Stanza, FaultCode>, AllocError>
    ensures { IfOk result (λ read. result_ok read ≡ normal_of texts.now) }
{
    match after(texts, "exit") {
        Ok(others) => match read_exits(alloc, others)? {
            Ok(exits) => Ok(Ok(Stanza::NormalExit(exits))),
            Err(code) => Ok(Err(code)),
        },
        Err(code) => Ok(Err(code)),
    }
}

// Reads one text, which has no effect.
fn read_about(texts: &[Text]) -> Result<Result<Stanza, FaultCode>, AllocError>
    ensures read { IfOk result (λ read. result_ok read ≡ option_map About (single texts.now)) }
    ensures memory { OnErr result (is_some (single texts.now) ≡ true) }
{
    match single(texts) {
        Ok(text) => {
            let text = text.copy()?;
            Ok(Ok(Stanza::About(text)))
        }
        Err(code) => Ok(Err(code)),
    }
}

// Reads one KEY=VALUE or KEY.
fn read_env(alloc: Global, texts: &[Text]) -> Result<Result<Stanza, FaultCode>, AllocError>
    ensures read { IfOk result (λ read. result_ok read
        ≡ option_map Env (option_and_then setting_in (single texts.now))) }
    ensures memory { OnErr result (is_some (option_and_then setting_in (single texts.now)) ≡ true) }
{
    match single(texts) {
        Ok(text) => match read_setting(alloc, text.as_str())? {
            Ok(setting) => Ok(Ok(Stanza::Env(setting))),
            Err(code) => Ok(Err(code)),
        },
        Err(code) => Ok(Err(code)),
    }
}

fn read_export(alloc: Global, texts: &[Text]) -> Result<Result<Stanza, FaultCode>, AllocError>
    ensures read { IfOk result (λ read. result_ok read ≡ option_map Export (some key_in texts.now)) }
    ensures memory { OnErr result (is_some (some key_in texts.now) ≡ true) }
{
    match read_keys(alloc, texts)? {
        Ok(keys) => Ok(Ok(Stanza::Export(keys))),
        Err(code) => Ok(Err(code)),
    }
}

fn read_instance_name(
    alloc: Global,
    texts: &[Text],
) -> Result<Result<Stanza, FaultCode>, AllocError>
    ensures read { IfOk result (λ read. result_ok read
        ≡ option_map Instance (option_and_then expandable_in (single texts.now))) }
    ensures memory { OnErr result (is_some (option_and_then expandable_in (single texts.now)) ≡ true) }
{
    match single(texts) {
        Ok(text) => match read_instance(alloc, text.as_str())? {
            Ok(instance) => Ok(Ok(Stanza::Instance(instance))),
            Err(code) => Ok(Err(code)),
        },
        Err(code) => Ok(Err(code)),
    }
}

// The fault of `console` with more or fewer words than one: `console owner` isn't supported, whatever comes after it.
fn no_output(texts: &[Text], code: FaultCode) -> FaultCode {
    match texts.first() {
        Some(text) => {
            if text.is("owner") {
                FaultCode::NotInProfile
            } else {
                code
            }
        }
        None => code,
    }
}

fn read_console_name(texts: &[Text]) -> Result<Stanza, FaultCode>
    ensures { result_ok result ≡ option_map Console (option_and_then console_in (single texts.now)) }
{
    match single(texts) {
        Ok(text) => match read_console(text.as_str()) {
            Ok(console) => Ok(Stanza::Console(console)),
            Err(code) => Err(code),
        },
        Err(code) => Err(no_output(texts, code)),
    }
}

fn read_chdir(texts: &[Text]) -> Result<Result<Stanza, FaultCode>, AllocError>
    ensures { IfOk result (λ read. result_ok read ≡ option_map Chdir (single texts.now)) }
{
    match single(texts) {
        Ok(text) => {
            let text = text.copy()?;
            Ok(Ok(Stanza::Chdir(text)))
        }
        Err(code) => Ok(Err(code)),
    }
}

fn read_emits(texts: Items<Text>) -> Result<Stanza, FaultCode>
    ensures { result_ok result ≡ option_map Emits (one_or_more texts) }
{
    match one_or_more(texts) {
        Ok(texts) => Ok(Stanza::Emits(texts)),
        Err(code) => Err(code),
    }
}

/// Reads a stanza of this kind from its arguments.
pub(crate) fn read_listed(
    alloc: Global,
    kind: Listed,
    texts: Items<Text>,
) -> Result<Result<Stanza, FaultCode>, AllocError>
    ensures { IfOk result (λ read. result_ok read ≡ listed_of kind texts) }
{
    match kind {
        Listed::Description => read_about(texts.as_slice()),
        Listed::Author => read_about(texts.as_slice()),
        Listed::Version => read_about(texts.as_slice()),
        Listed::Usage => read_about(texts.as_slice()),
        Listed::Emits => Ok(read_emits(texts)),
        Listed::Env => read_env(alloc, texts.as_slice()),
        Listed::Export => read_export(alloc, texts.as_slice()),
        Listed::Task => Ok(alone(Stanza::Task, texts.as_slice())),
        Listed::Manual => Ok(alone(Stanza::Manual, texts.as_slice())),
        Listed::Respawn => Ok(read_respawn(texts.as_slice())),
        Listed::Normal => read_normal(alloc, texts.as_slice()),
        Listed::Kill => Ok(read_kill(texts.as_slice())),
        Listed::Reload => Ok(read_reload(texts.as_slice())),
        Listed::Instance => read_instance_name(alloc, texts.as_slice()),
        Listed::Console => Ok(read_console_name(texts.as_slice())),
        Listed::Chdir => read_chdir(texts.as_slice()),
    }
}
