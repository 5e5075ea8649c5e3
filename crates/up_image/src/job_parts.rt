//! The parts of a job, as an image has them one after another.

use up_expr::Condition;
use up_stanza::{Action, Exit, Limit, Setting, Signal};
use up_text::{Items, Name, Text};

/// Its name, its flags in one byte, its instance and its directory.
#[derive(Drop)]
pub(crate) struct Texts {
    pub name: Name,
    pub flags: u8,
    pub instance: Text,
    pub dir: Text,
}

/// Its numbers, those of its signals too.
#[derive(Clone, Copy)]
pub(crate) struct Numbers {
    pub limit: Limit,
    pub kill_signal: u8,
    pub kill_timeout: u32,
    pub reload_signal: u8,
}

/// Its signals.
#[derive(Clone, Copy)]
pub(crate) struct Signals {
    pub kill: Signal,
    pub reload: Signal,
}

/// What it sets and exports, and its normal exits.
#[derive(Drop)]
pub(crate) struct Lists {
    pub env: Items<Setting>,
    pub export: Items<Text>,
    pub normal: Items<Exit>,
}

/// Its five processes, main first.
#[derive(Drop)]
pub(crate) struct Processes {
    pub main: Option<Action>,
    pub pre_start: Option<Action>,
    pub post_start: Option<Action>,
    pub pre_stop: Option<Action>,
    pub post_stop: Option<Action>,
}

/// Its expressions.
#[derive(Drop)]
pub(crate) struct Events {
    pub start_on: Option<Condition>,
    pub stop_on: Option<Condition>,
}
