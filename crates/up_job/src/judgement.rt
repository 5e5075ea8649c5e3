//! What the end or the refusal of a process does to its instance.
ghost use Rattle.std.specs.Prelude.{◌≡◌, ◌&&◌, ◌||◌, if◌then◌else◌, Some};
ghost use Rattle.up_model.specs.declared.failure.Verdict.TheVariants as verdict;
ghost use Rattle.up_model.specs.Judgement as model;
ghost use Rattle.up_model.specs.Predicates.{is_start};
ghost use Rattle.up_stanza.specs.declared.process.Process.TheVariants as process;

use up_model::{Cause, End, EndRules, Failure, Goal, How, Process, State, Verdict};

fn failure_of(process: Process, how: Option<How>) -> Failure
    ensures { result ≡ model.failure_of process how }
{
    Failure {
        cause: Cause::Process(process),
        how,
    }
}

fn is_success(how: How) -> bool
    ensures { result ≡ model.is_success how }
{
    match how {
        How::Exit(status) => status == 0,
        How::Signal(_) => false,
    }
}

// Whether main is to be respawned, if it may be.
fn is_respawned(how: How, rules: EndRules) -> bool
    ensures { result ≡ model.is_respawned how rules }
{
    rules.respawns && !rules.is_normal && !(rules.is_task && is_success(how))
}

fn respawned(may: bool) -> Verdict
    ensures { result ≡ (if may then verdict.Respawn else verdict.Fail model.too_many) }
{
    if may {
        Verdict::Respawn
    } else {
        Verdict::Fail(Failure {
            cause: Cause::Respawn,
            how: None,
        })
    }
}

fn stopped_or_failed(how: How, normal: bool) -> Verdict
    ensures { result ≡ (if model.is_success how || normal then verdict.Stop
        else verdict.Fail (model.failure_of process.Main (Some how))) }
{
    if is_success(how) || normal {
        Verdict::Stop
    } else {
        Verdict::Fail(failure_of(Process::Main, Some(how)))
    }
}

fn judge_main(how: How, rules: EndRules) -> Verdict
    ensures { result ≡ model.judge_main how rules }
{
    if is_respawned(how, rules) {
        respawned(rules.may_respawn)
    } else {
        stopped_or_failed(how, rules.is_normal)
    }
}

fn judge_other(process: Process, how: How) -> Verdict
    ensures { result ≡ model.judge_other process how }
{
    if is_success(how) {
        Verdict::Note
    } else {
        Verdict::Fail(failure_of(process, Some(how)))
    }
}

fn is_judged_in(state: State) -> bool
    ensures { result ≡ model.is_judged_in state }
{
    matches!(state, State::PostStart | State::Running | State::PreStop)
}

// Whether the end of main counts.
fn counts(goal: Goal, state: State) -> bool
    ensures { result ≡ (is_start goal && model.is_judged_in state) }
{
    goal.is_start() && is_judged_in(state)
}

/// What the end or the refusal of a process does to its instance.
pub fn judge_end(goal: Goal, state: State, process: Process, end: End, rules: EndRules) -> Verdict
    ensures { result ≡ model.judge goal state process end rules }
{
    match (process, end) {
        (Process::PostStart, _) | (Process::PreStop, _) => Verdict::Note,
        (Process::Main, End::Refused) => Verdict::Fail(failure_of(Process::Main, None)),
        (Process::Main, End::Ended(how)) => {
            if counts(goal, state) {
                judge_main(how, rules)
            } else {
                Verdict::Note
            }
        }
        (Process::PreStart, End::Refused) => Verdict::Fail(failure_of(Process::PreStart, None)),
        (Process::PreStart, End::Ended(how)) => judge_other(Process::PreStart, how),
        (Process::PostStop, End::Refused) => Verdict::Fail(failure_of(Process::PostStop, None)),
        (Process::PostStop, End::Ended(how)) => judge_other(Process::PostStop, how),
    }
}
