//! Writes what a job sets, exports and runs.
ghost use Rattle.std.specs.Prelude.{◌≡◌, ◌++◌, OnOk, length};
ghost use Rattle.std.specs.List.{flat_map};
ghost use Rattle.up_image.specs.Image.{action_part, exit_part, list_part, setting_part, value_part};
ghost use Rattle.up_image.specs.Texts.{text_part};

use crate::bytes::{push_u16, put_byte, put_text};
use std::alloc::AllocError;
use up_stanza::{Action, Exit, Setting};
use up_text::Text;

fn put_each_text(out: &mut Vec<u8>, texts: &[Text]) -> Result<(), AllocError>
    ensures { OnOk result (out.new.items ≡ out.old.items ++ flat_map text_part texts.now) }
{
    for text in texts {
        put_text(out, text.as_str())?;
    }
    Ok(())
}

pub(crate) fn put_texts(out: &mut Vec<u8>, texts: &[Text]) -> Result<(), AllocError>
    ensures { OnOk result (out.new.items ≡ out.old.items ++ list_part text_part texts.now) }
{
    push_u16(out, texts.len() as u64)?;
    put_each_text(out, texts)?;
    Ok(())
}

fn put_value(out: &mut Vec<u8>, value: &Option<Text>) -> Result<(), AllocError>
    ensures { OnOk result (out.new.items ≡ out.old.items ++ value_part value.now) }
{
    match value {
        None => put_byte(out, 0)?,
        Some(value) => {
            put_byte(out, 1)?;
            put_text(out, value.as_str())?;
        }
    }
    Ok(())
}

fn put_setting(out: &mut Vec<u8>, setting: &Setting) -> Result<(), AllocError>
    ensures { OnOk result (out.new.items ≡ out.old.items ++ setting_part setting.now) }
{
    put_text(out, setting.key.as_str())?;
    put_value(out, &setting.value)?;
    Ok(())
}

fn put_each_setting(out: &mut Vec<u8>, settings: &[Setting]) -> Result<(), AllocError>
    ensures { OnOk result (out.new.items ≡ out.old.items ++ flat_map setting_part settings.now) }
{
    for setting in settings {
        put_setting(out, setting)?;
    }
    Ok(())
}

pub(crate) fn put_settings(out: &mut Vec<u8>, settings: &[Setting]) -> Result<(), AllocError>
    ensures { OnOk result (out.new.items ≡ out.old.items ++ list_part setting_part settings.now) }
{
    push_u16(out, settings.len() as u64)?;
    put_each_setting(out, settings)?;
    Ok(())
}

fn put_exit(out: &mut Vec<u8>, exit: Exit) -> Result<(), AllocError>
    ensures { OnOk result (out.new.items ≡ out.old.items ++ exit_part exit) }
{
    match exit {
        Exit::Status(status) => {
            put_byte(out, 0)?;
            put_byte(out, status)?;
        }
        Exit::Signal(signal) => {
            put_byte(out, 1)?;
            put_byte(out, signal.number())?;
        }
    }
    Ok(())
}

fn put_each_exit(out: &mut Vec<u8>, exits: &[Exit]) -> Result<(), AllocError>
    ensures { OnOk result (out.new.items ≡ out.old.items ++ flat_map exit_part exits.now) }
{
    for exit in exits {
        put_exit(out, *exit)?;
    }
    Ok(())
}

/// Appends the exits that are no failure.
pub(crate) fn put_exits(out: &mut Vec<u8>, exits: &[Exit]) -> Result<(), AllocError>
    ensures { OnOk result (out.new.items ≡ out.old.items ++ list_part exit_part exits.now) }
{
    push_u16(out, exits.len() as u64)?;
    put_each_exit(out, exits)?;
    Ok(())
}

pub(crate) fn put_action(out: &mut Vec<u8>, action: &Option<Action>) -> Result<(), AllocError>
    ensures { OnOk result (out.new.items ≡ out.old.items ++ action_part action.now) }
{
    match action {
        None => put_byte(out, 0)?,
        Some(Action::Words(words)) => {
            put_byte(out, 1)?;
            put_texts(out, words.as_slice())?;
        }
        Some(Action::Shell(text)) => {
            put_byte(out, 2)?;
            put_text(out, text.as_str())?;
        }
    }
    Ok(())
}
