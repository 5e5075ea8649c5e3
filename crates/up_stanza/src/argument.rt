//! Reads single tokens of a list of arguments.
ghost use Rattle.std.specs.Prelude.{◌≡◌, IfOk, OnErr, true, is_some, option_map};
ghost use Rattle.up_text.specs.Names.{is_key};
ghost use Rattle.std.specs.Result.{result_ok};
ghost use Rattle.up_stanza.specs.declared.exit.Exit.TheVariants as exit;
ghost use Rattle.up_stanza.specs.Settings.{key_in, setting_with, setting_in, exit_in, expandable_in, console_in};
ghost use Rattle.up_stanza.specs.Numbers.{number_in};
ghost use Rattle.up_stanza.specs.Signals.{signal_in};

use crate::exit::Exit;
use crate::fault::FaultCode;
use crate::number::{are_digits, number_in};
use crate::setting::Setting;
use crate::signal::{Signal, signal_named};
use crate::stanza::Console;
use std::alloc::{AllocError, Global};
use up_text::env::{is_key, split_pair};
use up_text::{Text, is_expandable};

pub(crate) fn read_key(alloc: Global, text: &str) -> Result<Result<Text, FaultCode>, AllocError>
    ensures read { IfOk result (λ read. result_ok read ≡ key_in text.now) }
    ensures memory { OnErr result (is_some (key_in text.now) ≡ true) }
{
    if !is_key(text) {
        return Ok(Err(FaultCode::BadName));
    }
    let key = Text::from_str(alloc, text)?;
    Ok(Ok(key))
}

fn copy_value(alloc: Global, value: Option<&str>) -> Result<Option<Text>, AllocError>
    ensures { IfOk result (λ copied. copied ≡ option_map (λ text. text.now) value.entry) }
{
    match value {
        Some(value) => {
            let value = Text::from_str(alloc, value)?;
            Ok(Some(value))
        }
        None => Ok(None),
    }
}

// Fails with `BadName` if the key isn't one.
fn setting_with(
    alloc: Global,
    key: &str,
    value: Option<&str>,
) -> Result<Result<Setting, FaultCode>, AllocError>
    ensures read { IfOk result (λ read. result_ok read
        ≡ setting_with key.now (option_map (λ text. text.now) value.entry)) }
    ensures memory { OnErr result (is_key key.now ≡ true) }
{
    if !is_key(key) {
        return Ok(Err(FaultCode::BadName));
    }
    let value = copy_value(alloc, value)?;
    let key = Text::from_str(alloc, key)?;
    Ok(Ok(Setting { key, value }))
}

/// Reads KEY=VALUE or KEY.
#[tactic(auto, unfolding(crate::specs::Settings::setting_in))]
pub(crate) fn read_setting(
    alloc: Global,
    text: &str,
) -> Result<Result<Setting, FaultCode>, AllocError>
    ensures read { IfOk result (λ read. result_ok read ≡ setting_in text.now) }
    ensures memory { OnErr result (is_some (setting_in text.now) ≡ true) }
{
    match split_pair(text) {
        Some((key, value)) => setting_with(alloc, key, Some(value)),
        None => setting_with(alloc, text, None),
    }
}

fn read_status(text: &str) -> Result<Exit, FaultCode>
    ensures { result_ok result ≡ option_map exit.Status (number_in 0 255 text.now) }
{
    match number_in(0, 255, text) {
        Some(number) => Ok(Exit::Status(number as u8)),
        None => Err(FaultCode::BadNumber),
    }
}

/// Reads a normal exit: a status from 0 to 255, or the name of a signal.
pub(crate) fn read_exit(text: &str) -> Result<Exit, FaultCode>
    ensures { result_ok result ≡ exit_in text.now }
{
    if are_digits(text) {
        return read_status(text);
    }
    match signal_named(text) {
        Some(signal) => Ok(Exit::Signal(signal)),
        None => Err(FaultCode::BadSignal),
    }
}

pub(crate) fn as_signal(text: &str) -> Result<Signal, FaultCode>
    ensures { result_ok result ≡ signal_in text.now }
{
    match Signal::read(text) {
        Some(signal) => Ok(signal),
        None => Err(FaultCode::BadSignal),
    }
}

/// Reads a number from 0 to `most`.
pub(crate) fn as_number(text: &str, most: u32) -> Result<u32, FaultCode>
    ensures { result_ok result ≡ number_in 0 most text.now }
{
    match number_in(0, u64::from(most), text) {
        Some(number) => Ok(number as u32),
        None => Err(FaultCode::BadNumber),
    }
}

pub(crate) fn read_instance(
    alloc: Global,
    text: &str,
) -> Result<Result<Text, FaultCode>, AllocError>
    ensures read { IfOk result (λ read. result_ok read ≡ expandable_in text.now) }
    ensures memory { OnErr result (is_some (expandable_in text.now) ≡ true) }
{
    if !is_expandable(text) {
        return Ok(Err(FaultCode::BadExpansion));
    }
    let instance = Text::from_str(alloc, text)?;
    Ok(Ok(instance))
}

// The fault of a text that isn't a console: `owner` is known, but not supported.
fn no_console(text: &str) -> FaultCode {
    if text == "owner" {
        FaultCode::NotInProfile
    } else {
        FaultCode::UnexpectedToken
    }
}

/// Reads an argument of `console`.
pub(crate) fn read_console(text: &str) -> Result<Console, FaultCode>
    ensures { result_ok result ≡ console_in text.now }
{
    match text {
        "none" => Ok(Console::None),
        "log" => Ok(Console::Log),
        "output" => Ok(Console::Output),
        _ => Err(no_console(text)),
    }
}
