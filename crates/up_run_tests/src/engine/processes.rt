//! Rows of the five processes and of failures, step by step.
use crate::engine::check_cases;
use std::process::Abort;
use std::test::Fail;
use up_job::{entering, judge_end, next_state};
use up_model::{End, EndRules, Goal, How, JobEvent, Process, State, Verdict};

static CASES: &str = r#"
%case pre_stop_then_goal_start
%file a.conf
start on go
stop on go
exec /bin/d
pre-stop exec /bin/p
%script
emit go #> 1 live, turn
turn #> 2 live, turn
#> event starting JOB="a" INSTANCE=""
turn #> 2 live, turn
turn #> 1 live
#> spawn a main "/bin/d"
#>   UPSTART_EVENTS="go"
#>   UPSTART_JOB="a"
#>   UPSTART_INSTANCE=""
spawned a "" main 100 #> 2 live, turn
#> event started JOB="a" INSTANCE=""
turn #> 1 live, turn
turn #> 1 live, turn
turn #> 0 live
emit go #> 1 live, turn
turn #> 1 live
#> spawn a pre-stop "/bin/p"
#>   UPSTART_EVENTS="go"
#>   UPSTART_JOB="a"
#>   UPSTART_INSTANCE=""
#>   UPSTART_STOP_EVENTS="go"
spawned a "" pre-stop 101 #> 1 live
ended a "" pre-stop exit 0 #> 1 live, turn
turn #> 0 live

# After the failure the event that started the job isn't held any more, and is spoilt.
%case pre_start_fails
%file a.conf
start on go
exec /bin/d
pre-start exec /bin/p
%script
emit go #> 1 live, turn
turn #> 2 live, turn
#> event starting JOB="a" INSTANCE=""
turn #> 2 live, turn
turn #> 1 live
#> spawn a pre-start "/bin/p"
#>   UPSTART_EVENTS="go"
#>   UPSTART_JOB="a"
#>   UPSTART_INSTANCE=""
spawned a "" pre-start 5 #> 1 live
ended a "" pre-start exit 2 #> 2 live, turn
#> event stopping JOB="a" INSTANCE="" RESULT="failed" PROCESS="pre-start" EXIT_STATUS="2"
turn #> 2 live, turn
#> event go/failed
turn #> 2 live, turn
turn #> 2 live, turn
#> event stopped JOB="a" INSTANCE="" RESULT="failed" PROCESS="pre-start" EXIT_STATUS="2"

%case pre_start_fails, with post-start refused
%file a.conf
start on go
exec /bin/d
respawn
post-start exec /bin/w
%script
emit go #> 1 live, turn
turn #> 2 live, turn
#> event starting JOB="a" INSTANCE=""
turn #> 2 live, turn
turn #> 1 live
#> spawn a main "/bin/d"
#>   UPSTART_EVENTS="go"
#>   UPSTART_JOB="a"
#>   UPSTART_INSTANCE=""
spawned a "" main 100 #> 1 live
#> spawn a post-start "/bin/w"
#>   UPSTART_EVENTS="go"
#>   UPSTART_JOB="a"
#>   UPSTART_INSTANCE=""
refused a "" post-start #> 2 live, turn
#> event started JOB="a" INSTANCE=""

# The failure of post-stop doesn't replace that of pre-start.
%case first_failure_is_kept
%file a.conf
start on go
exec /bin/d
pre-start exec /bin/p
post-stop exec /bin/q
%script
emit go #> 1 live, turn
turn #> 2 live, turn
#> event starting JOB="a" INSTANCE=""
turn #> 2 live, turn
turn #> 1 live
#> spawn a pre-start "/bin/p"
#>   UPSTART_EVENTS="go"
#>   UPSTART_JOB="a"
#>   UPSTART_INSTANCE=""
spawned a "" pre-start 5 #> 1 live
ended a "" pre-start exit 2 #> 2 live, turn
#> event stopping JOB="a" INSTANCE="" RESULT="failed" PROCESS="pre-start" EXIT_STATUS="2"
turn #> 2 live, turn
#> event go/failed
turn #> 2 live, turn
turn #> 1 live, turn
#> spawn a post-stop "/bin/q"
#>   UPSTART_EVENTS="go"
#>   UPSTART_JOB="a"
#>   UPSTART_INSTANCE=""
spawned a "" post-stop 6 #> 1 live, turn
ended a "" post-stop signal KILL #> 2 live, turn
#> event stopped JOB="a" INSTANCE="" RESULT="failed" PROCESS="pre-start" EXIT_STATUS="2"

%case main_is_killed
%file a.conf
start on go
exec /bin/d
%script
emit go #> 1 live, turn
turn #> 2 live, turn
#> event starting JOB="a" INSTANCE=""
turn #> 2 live, turn
turn #> 1 live
#> spawn a main "/bin/d"
#>   UPSTART_EVENTS="go"
#>   UPSTART_JOB="a"
#>   UPSTART_INSTANCE=""
spawned a "" main 100 #> 2 live, turn
#> event started JOB="a" INSTANCE=""
turn #> 1 live, turn
turn #> 1 live, turn
turn #> 0 live
ended a "" main signal KILL #> 1 live, turn
#> event stopping JOB="a" INSTANCE="" RESULT="failed" PROCESS="main" EXIT_SIGNAL="KILL"

# What isn't awaited is no answer, and what doesn't live has no end, whichever process it is of.
%case strangers
%file a.conf
start on go
exec /bin/d
pre-start exec /bin/p
%script
spawned a "" pre-start 5 #> 0 live
#> refused 40 NotExpected
refused a "" post-start #> 0 live
#> refused 40 NotExpected
ended a "" pre-stop exit 0 #> 0 live
#> refused 40 NotExpected
ended a "" post-stop exit 0 #> 0 live
#> refused 40 NotExpected
emit go #> 1 live, turn
turn #> 2 live, turn
#> event starting JOB="a" INSTANCE=""
"#;

#[test]
fn processes_and_failures(rt: HostRuntime) -> Result<(), Fail> {
    check_cases(&rt, rt.alloc(), CASES)
}

#[test]
fn a_stop_passes_pre_stop_if_main_lives(rt: HostRuntime) {
    let living = next_state(Goal::Stop, State::Running, true, true);
    let gone = next_state(Goal::Stop, State::Running, true, false);
    assert_eq!(rt; (living.name(), gone.name()), ("pre-stop", "stopping"));
}

#[test]
fn a_crash_respawns_and_a_refused_post_start_does_nothing(rt: HostRuntime) {
    let rules = EndRules {
        is_task: false,
        respawns: true,
        is_normal: false,
        may_respawn: true,
    };
    let crashed = End::Ended(How::Exit(1));
    let respawned = judge_end(Goal::Start, State::Running, Process::Main, crashed, rules);
    let noted = judge_end(
        Goal::Start,
        State::PostStart,
        Process::PostStart,
        End::Refused,
        rules,
    );
    assert!(rt; matches!(respawned, Verdict::Respawn) && matches!(noted, Verdict::Note));
}

#[test]
fn an_instance_announces_that_it_is_starting(rt: HostRuntime) {
    let actions = entering(State::Starting, State::Waiting, false);
    assert!(rt; matches!(actions.emits, Some(JobEvent::Starting)) && actions.refreshes);
}
