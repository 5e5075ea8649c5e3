//! The requests of clients, and their answers.
ghost use Rattle.std.specs.Prelude.{◌≡◌, IfOk, Some, None, if◌then◌else◌};
ghost use Rattle.up_model.specs.Requests.{command_name, command_named, may_wait, is_alone, is_request};

use std::alloc::AllocError;
use std::marker::Model;
use up_text::{Env, Text, is_name};

/// A command of initctl(8).
#[derive(Clone, Copy, Debug, PartialEq, Eq, Hash)]
pub enum Command {
    Start,
    Stop,
    Restart,
    Status,
    List,
    Emit,
    Reload,
    ReloadConfiguration,
    Version,
}

impl Command {
    pub fn name(self) -> &'static str
        ensures { result.now ≡ command_name self }
    {
        match self {
            Command::Start => "start",
            Command::Stop => "stop",
            Command::Restart => "restart",
            Command::Status => "status",
            Command::List => "list",
            Command::Emit => "emit",
            Command::Reload => "reload",
            Command::ReloadConfiguration => "reload-configuration",
            Command::Version => "version",
        }
    }

    pub fn from_name(name: &str) -> Option<Self>
        ensures { result ≡ command_named name.now }
    {
        match name {
            "start" => Some(Command::Start),
            "stop" => Some(Command::Stop),
            "restart" => Some(Command::Restart),
            "status" => Some(Command::Status),
            "reload" => Some(Command::Reload),
            "emit" => Some(Command::Emit),
            "list" => Some(Command::List),
            "reload-configuration" => Some(Command::ReloadConfiguration),
            "version" => Some(Command::Version),
            _ => None,
        }
    }

    /// Whether a client may choose not to wait for the answer.
    pub fn may_wait(self) -> bool
        ensures { result ≡ may_wait self }
    {
        match self {
            Command::Start | Command::Stop | Command::Restart | Command::Emit => true,
            Command::Status
            | Command::List
            | Command::Reload
            | Command::ReloadConfiguration
            | Command::Version => false,
        }
    }

    /// Whether the command takes no name and no variables.
    pub fn is_alone(self) -> bool
        ensures { result ≡ is_alone self }
    {
        match self {
            Command::List | Command::ReloadConfiguration | Command::Version => true,
            Command::Start
            | Command::Stop
            | Command::Restart
            | Command::Status
            | Command::Emit
            | Command::Reload => false,
        }
    }
}

/// A client's request: a command about a job or an event, with variables. `wait` asks for the answer once the command is done.
///
/// Each has the name of a job or an event, or for `list`, `version` and `reload-configuration` an empty name and no variables; and
/// only `start`, `stop`, `restart` and `emit` may be without `wait`.
#[derive(Drop)]
pub struct Request {
    pub command: Command,
    pub wait: bool,
    pub name: Text,
    pub vars: Env,
}

impl Model for Request {
    ghost use Rattle.std.specs.Prelude.{◌≡◌, true};
    ghost use Rattle.up_model.specs.Requests.{RequestValue, is_request};

    ghost Value = { RequestValue };

    ghost view = { λ r. record { command = r.command; wait = r.wait; name = r.name; vars = r.vars } };

    ghost invariant = { λ r. is_request r.command r.wait r.name r.vars ≡ true };
}

fn is_request(command: Command, wait: bool, name: &Text, vars: &Env) -> bool
    ensures { result ≡ is_request command wait name.now vars.now }
{
    if !wait && !command.may_wait() {
        false
    } else if command.is_alone() {
        name.is("") && vars.is_empty()
    } else {
        is_name(name.as_str())
    }
}

impl Request {
    /// `None` if the parts aren't a valid request.
    pub fn new(command: Command, wait: bool, name: Text, vars: Env) -> Option<Self>
        ensures { result
            ≡ (if is_request command wait name vars
            then Some (record { command = command; wait = wait; name = name; vars = vars }) else None) }
    {
        if is_request(command, wait, &name, &vars) {
            Some(Request {
                command,
                wait,
                name,
                vars,
            })
        } else {
            None
        }
    }

    pub fn copy(&self) -> Result<Self, AllocError>
        ensures { IfOk result (λ request. request ≡ self.now) }
    {
        let name = self.name.copy()?;
        let vars = self.vars.copy()?;
        Ok(Request {
            command: self.command,
            wait: self.wait,
            name,
            vars,
        })
    }
}

/// The answer to a request.
#[derive(Debug, Drop)]
pub struct Answer {
    pub ok: bool,
    pub text: Text,
}

impl Answer {
    pub fn copy(&self) -> Result<Self, AllocError>
        ensures { IfOk result (λ answer. answer ≡ self.now) }
    {
        let text = self.text.copy()?;
        Ok(Answer { ok: self.ok, text })
    }
}
