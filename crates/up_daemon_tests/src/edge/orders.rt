//! The orders that the tests give, and the paths of their files.
use crate::parts::{both, push};
use std::alloc::{AllocError, Global};
use std::test::Fail;
use std::{env, process};
use up_model::{Order, Process, Who};
use up_text::{Env, Items, Name, Text, TextFault};

// The name is good, so memory alone may refuse it.
fn job(alloc: Global) -> Result<Name, AllocError> {
    match Name::new(alloc, "a") {
        Ok(name) => Ok(name),
        Err(_) => Err(AllocError),
    }
}

/// An instance of the job `a`.
pub(crate) fn who_of(alloc: Global, instance: &str) -> Result<Who, AllocError> {
    match both(job(alloc), Text::from_str(alloc, instance)) {
        Ok((job, instance)) => Ok(Who { job, instance }),
        Err(refused) => Err(refused),
    }
}

/// The instance of every order.
pub(crate) fn who(alloc: Global) -> Result<Who, AllocError> {
    who_of(alloc, "tty1")
}

fn push_words(alloc: Global, texts: &mut Vec<Text>, words: &[&str]) -> Result<(), AllocError> {
    for word in words {
        push(texts, Text::from_str(alloc, word)?)?;
    }
    Ok(())
}

fn words(alloc: Global, words: &[&str]) -> Result<Items<Text>, AllocError> {
    let mut texts: Vec<Text> = Vec::new(alloc);
    match push_words(alloc, &mut texts, words) {
        Ok(()) => Ok(Items::new(texts)),
        Err(refused) => {
            drop(texts);
            Err(refused)
        }
    }
}

fn set_both(env: &mut Env) -> Result<(), TextFault> {
    env.set("B", "2 3")?;
    env.set("A", "1")
}

fn env_of(alloc: Global) -> Result<Env, AllocError> {
    let mut env = Env::new(alloc);
    match set_both(&mut env) {
        Ok(()) => Ok(env),
        Err(_) => {
            drop(env);
            Err(AllocError)
        }
    }
}

/// An order to run these words in a folder, with the environment of two variables.
pub(crate) fn order_in(
    alloc: Global,
    dir: &str,
    argv: &[&str],
    silent: bool,
) -> Result<Order, AllocError> {
    let who_argv = both(who(alloc), words(alloc, argv));
    let dir_env = both(Text::from_str(alloc, dir), env_of(alloc));
    match both(who_argv, dir_env) {
        Ok(((who, argv), (dir, env))) => Ok(Order {
            who,
            process: Process::Main,
            argv,
            dir,
            silent,
            env,
        }),
        Err(fault) => Err(fault),
    }
}

/// An order for the shell to run a line.
pub(crate) fn shell(alloc: Global, line: &str) -> Result<Order, AllocError> {
    order_in(alloc, "/", &["/bin/sh", "-c", line], true)
}

/// A path of this test run. That of a socket may have 101 bytes.
pub(crate) fn path_of(rt: &HostRuntime, name: &str) -> Result<String, Fail> {
    let folder = env::temp_dir(rt)?;
    let pid = process::id(rt.process());
    let path = format!(in rt.alloc(); "{}/up_edge-{name}-{pid}", folder.as_path().as_str());
    drop(folder);
    Ok(path?)
}
