//! The command that starts an order's process.
ghost use Rattle.std.specs.Prelude.{◌≡◌, ◌++◌, ◌∷◌, [], codes, MatchOption, Some, IfOk, OnOk, map, option_map, true, List, ℕ};
ghost use Rattle.std.specs.Process.{command_program, command_args, command_var, command_dir, clears_env, SameProgramAndArgs, SameEnv, SameDir, SameOtherVars};
ghost use Rattle.up_text.specs.Bindings.{value_of};
ghost use Rattle.up_edge.specs.Commands.{HasEnv, IsCommandOf, IsKill, kill_words};

use std::alloc::{AllocError, Global};
use std::process::{Command, Stdio};
use up_model::Order;
use up_text::{Env, Text};

fn add_words(command: &mut Command, words: &[Text]) -> Result<(), AllocError>
    ensures words { OnOk result (command_args command.new ≡ command_args command.old ++ words.now) }
    ensures program { OnOk result (command_program command.new ≡ command_program command.old) }
{
    for word in words {
        command.arg(word.as_str())?;
    }
    Ok(())
}

fn set_var(command: &mut Command, key: &str, value: &str) -> Result<(), AllocError>
    ensures set { OnOk result (command_var command.new key.now ≡ Some (Some value.now)) }
    ensures others { OnOk result (SameOtherVars command.old command.new key.now) }
    ensures clears { OnOk result (clears_env command.new ≡ clears_env command.old) }
    ensures words { OnOk result (SameProgramAndArgs command.old command.new) }
    ensures dir { OnOk result (SameDir command.old command.new) }
{
    match command.env(key, value) {
        Ok(_) => Ok(()),
        Err(error) => Err(error),
    }
}

// Sets the pairs, and no other variable. A key that occurs twice keeps its first value, so the last pair is set first.
fn set_env(command: &mut Command, env: &Env) -> Result<(), AllocError>
    ensures env { OnOk result (HasEnv command.new env.now) }
    ensures words { OnOk result (SameProgramAndArgs command.old command.new) }
    ensures dir { OnOk result (SameDir command.old command.new) }
{
    command.env_clear();
    let mut count = env.len();
    while count > 0 {
        count -= 1;
        let (key, value) = env.at(count);
        set_var(command, key, value)?;
    }
    Ok(())
}

// Standard input is the null device, and so is the output of a silent process; other processes inherit the daemon's output.
fn set_streams(command: &mut Command, silent: bool)
    ensures env { SameEnv command.old command.new }
    ensures words { SameProgramAndArgs command.old command.new }
    ensures dir { SameDir command.old command.new }
{
    command.stdin(Stdio::null());
    if silent {
        command.stdout(Stdio::null());
        command.stderr(Stdio::null());
    }
}

// All of an order's command except its program.
fn fill(command: &mut Command, words: &[Text], order: &Order) -> Result<(), AllocError>
    ensures words { OnOk result (command_args command.new ≡ command_args command.old ++ words.now) }
    ensures program { OnOk result (command_program command.new ≡ command_program command.old) }
    ensures dir { OnOk result (command_dir command.new ≡ Some order.now.dir) }
    ensures env { OnOk result (HasEnv command.new order.now.env) }
{
    add_words(command, words)?;
    command.current_dir(order.dir.as_str())?;
    set_env(command, &order.env)?;
    set_streams(command, order.silent);
    Ok(())
}

/// The command of an order; none for an order without words.
pub(crate) fn command_of(alloc: Global, order: &Order) -> Result<Option<Command>, AllocError>
    ensures { IfOk result (λ found. MatchOption found (order.now.argv ≡ []) (λ command. IsCommandOf order.now command)) }
{
    let Some((program, words)) = order.argv.as_slice().split_first() else {
        return Ok(None);
    };
    let mut command = Command::new(alloc, program.as_str())?;
    match fill(&mut command, words, order) {
        Ok(()) => Ok(Some(command)),
        Err(error) => {
            drop(command);
            Err(error)
        }
    }
}

// The arguments with which a shell runs a line, without any output.
fn fill_shell(command: &mut Command, line: &str) -> Result<(), AllocError>
    ensures words { OnOk result (command_args command.new ≡ command_args command.old ++ codes "-c" ∷ line.now ∷ []) }
    ensures program { OnOk result (command_program command.new ≡ command_program command.old) }
{
    command.arg("-c")?;
    command.arg(line)?;
    set_streams(command, true);
    Ok(())
}

// The arguments with which a shell sends a signal by its name (kill(1)).
fn fill_kill(alloc: Global, command: &mut Command, name: &str, pid: u32) -> Result<(), AllocError>
    ensures words { OnOk result (command_args command.new ≡ command_args command.old ++ kill_words name.now pid) }
    ensures program { OnOk result (command_program command.new ≡ command_program command.old) }
{
    let line = format!(in alloc; "kill -s {name} {pid}")?;
    let filled = fill_shell(command, line.as_str());
    drop(line);
    filled
}

/// The command that sends a signal by its name.
pub(crate) fn kill_command(alloc: Global, name: &str, pid: u32) -> Result<Command, AllocError>
    ensures { IfOk result (λ command. IsKill name.now pid command) }
{
    let mut command = Command::new(alloc, "/bin/sh")?;
    match fill_kill(alloc, &mut command, name, pid) {
        Ok(()) => Ok(command),
        Err(error) => {
            drop(command);
            Err(error)
        }
    }
}
