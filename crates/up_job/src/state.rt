//! The next state.
ghost use Rattle.std.specs.Prelude.{◌≡◌, true};
ghost use Rattle.up_model.specs.declared.state.Goal.TheVariants as aim;
ghost use Rattle.up_model.specs.Life as life;
ghost use Rattle.up_model.specs.Life.{may_move};

use up_model::{Goal, State};

fn whole_or_gone(has_main: bool, lives: bool) -> State
    ensures { result ≡ life.if_whole has_main lives }
{
    if !has_main || lives {
        State::Running
    } else {
        State::Stopping
    }
}

fn next_after_start(from: State, has_main: bool, lives: bool) -> State
    ensures { result ≡ life.next_state aim.Start from has_main lives }
{
    match from {
        State::Waiting => State::Starting,
        State::Starting => State::PreStart,
        State::PreStart => State::Spawned,
        State::Spawned => State::PostStart,
        State::PostStart => whole_or_gone(has_main, lives),
        State::Running => State::Stopping,
        State::PreStop => whole_or_gone(has_main, lives),
        State::Stopping => State::Killed,
        State::Killed => State::PostStop,
        State::PostStop => State::Starting,
    }
}

fn next_after_stop(from: State, has_main: bool, lives: bool) -> State
    ensures { result ≡ life.next_state aim.Stop from has_main lives }
{
    match from {
        State::Waiting => State::Waiting,
        State::Starting | State::PreStart | State::Spawned | State::PostStart | State::PreStop =>
            State::Stopping,
        State::Running => {
            if lives {
                State::PreStop
            } else {
                State::Stopping
            }
        }
        State::Stopping => State::Killed,
        State::Killed => State::PostStop,
        State::PostStop => State::Waiting,
    }
}

/// The next state (the Upstart Cookbook's table of states). `has_main` is whether the job has a main process, and `lives` whether it
/// lives. An instance that waits and isn't to start has no next state.
pub fn next_state(goal: Goal, from: State, has_main: bool, lives: bool) -> State
    requires { may_move goal from ≡ true }
    ensures { result ≡ life.next_state goal from has_main lives }
{
    match goal {
        Goal::Start => next_after_start(from, has_main, lives),
        Goal::Stop => next_after_stop(from, has_main, lives),
    }
}
