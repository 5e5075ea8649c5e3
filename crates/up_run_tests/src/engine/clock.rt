//! Rows of the clock: respawns, normal exits, kill signals and timeouts, step by step.
use crate::engine::{check_case, check_cases};
use std::test::Fail;

// The third end within five seconds is one too many.
pub(crate) static RESPAWN_LIMIT: &str = r#"sliding_respawn_limit
%file a.conf
start on go
exec /bin/d
respawn
respawn limit 2 5
%script
emit go #> 1 live, turn
turn #> 2 live, turn
#> event starting JOB="a" INSTANCE=""
turn #> 2 live, turn
turn #> 1 live
#> spawn a main "/bin/d"
#>   UPSTART_EVENTS="go"
#>   UPSTART_JOB="a"
#>   UPSTART_INSTANCE=""
spawned a "" main 100 #> 2 live, turn
#> event started JOB="a" INSTANCE=""
turn #> 1 live, turn
turn #> 1 live, turn
turn #> 0 live
clock 0 #> 0 live
ended a "" main exit 1 #> 1 live, turn
#> event stopping JOB="a" INSTANCE="" RESULT="ok"
turn #> 1 live, turn
turn #> 1 live, turn
#> event starting JOB="a" INSTANCE=""
turn #> 1 live, turn
turn #> 0 live
#> spawn a main "/bin/d"
#>   UPSTART_EVENTS="go"
#>   UPSTART_JOB="a"
#>   UPSTART_INSTANCE=""
spawned a "" main 101 #> 1 live, turn
#> event started JOB="a" INSTANCE=""
turn #> 1 live, turn
turn #> 0 live
clock 1000 #> 0 live
ended a "" main exit 1 #> 1 live, turn
#> event stopping JOB="a" INSTANCE="" RESULT="ok"
turn #> 1 live, turn
turn #> 1 live, turn
#> event starting JOB="a" INSTANCE=""
turn #> 1 live, turn
turn #> 0 live
#> spawn a main "/bin/d"
#>   UPSTART_EVENTS="go"
#>   UPSTART_JOB="a"
#>   UPSTART_INSTANCE=""
spawned a "" main 102 #> 1 live, turn
#> event started JOB="a" INSTANCE=""
turn #> 1 live, turn
turn #> 0 live
clock 2000 #> 0 live
ended a "" main exit 1 #> 1 live, turn
#> event stopping JOB="a" INSTANCE="" RESULT="failed" PROCESS="respawn"
"#;

static CASES: &str = r#"
# The clock doesn't go back, and the timer kills once. What stops the job is held until it has stopped.
%case kill_timeout
%file a.conf
start on go
stop on halt
exec /bin/d
%script
emit go #> 1 live, turn
turn #> 2 live, turn
#> event starting JOB="a" INSTANCE=""
turn #> 2 live, turn
turn #> 1 live
#> spawn a main "/bin/d"
#>   UPSTART_EVENTS="go"
#>   UPSTART_JOB="a"
#>   UPSTART_INSTANCE=""
spawned a "" main 100 #> 2 live, turn
#> event started JOB="a" INSTANCE=""
turn #> 1 live, turn
turn #> 1 live, turn
turn #> 0 live
clock 3000 #> 0 live
clock 1 #> 0 live
emit halt #> 1 live, turn
turn #> 2 live, turn
#> event stopping JOB="a" INSTANCE="" RESULT="ok"
turn #> 2 live, turn
turn #> 1 live
#> signal a 100 TERM
clock 7999 #> 1 live
clock 8000 #> 1 live
#> signal a 100 KILL
clock 20000 #> 1 live
ended a "" main signal KILL #> 2 live, turn
#> event stopped JOB="a" INSTANCE="" RESULT="ok"

# The job's own signal; the clock may read the greatest number.
%case kill_signal
%file a.conf
start on go
stop on halt
exec /bin/d
kill signal INT
kill timeout 2147483647
%script
emit go #> 1 live, turn
turn #> 2 live, turn
#> event starting JOB="a" INSTANCE=""
turn #> 2 live, turn
turn #> 1 live
#> spawn a main "/bin/d"
#>   UPSTART_EVENTS="go"
#>   UPSTART_JOB="a"
#>   UPSTART_INSTANCE=""
spawned a "" main 100 #> 2 live, turn
#> event started JOB="a" INSTANCE=""
turn #> 1 live, turn
turn #> 1 live, turn
turn #> 0 live
emit halt #> 1 live, turn
turn #> 2 live, turn
#> event stopping JOB="a" INSTANCE="" RESULT="ok"
turn #> 2 live, turn
turn #> 1 live
#> signal a 100 INT
clock 18446744073709551615 #> 1 live
#> signal a 100 KILL

%case normal_exit
%file a.conf
start on go
exec /bin/d
respawn
normal exit 3
%script
emit go #> 1 live, turn
turn #> 2 live, turn
#> event starting JOB="a" INSTANCE=""
turn #> 2 live, turn
turn #> 1 live
#> spawn a main "/bin/d"
#>   UPSTART_EVENTS="go"
#>   UPSTART_JOB="a"
#>   UPSTART_INSTANCE=""
spawned a "" main 100 #> 2 live, turn
#> event started JOB="a" INSTANCE=""
turn #> 1 live, turn
turn #> 1 live, turn
turn #> 0 live
ended a "" main exit 3 #> 1 live, turn
#> event stopping JOB="a" INSTANCE="" RESULT="ok"
turn #> 1 live, turn
turn #> 1 live, turn
#> event stopped JOB="a" INSTANCE="" RESULT="ok"

# After five seconds the first respawn counts no longer; 999 milliseconds later the second still does.
%case sliding_respawn_limit, later
%file a.conf
start on go
exec /bin/d
respawn
respawn limit 2 5
%script
emit go #> 1 live, turn
turn #> 2 live, turn
#> event starting JOB="a" INSTANCE=""
turn #> 2 live, turn
turn #> 1 live
#> spawn a main "/bin/d"
#>   UPSTART_EVENTS="go"
#>   UPSTART_JOB="a"
#>   UPSTART_INSTANCE=""
spawned a "" main 100 #> 2 live, turn
#> event started JOB="a" INSTANCE=""
turn #> 1 live, turn
turn #> 1 live, turn
turn #> 0 live
clock 0 #> 0 live
ended a "" main exit 1 #> 1 live, turn
#> event stopping JOB="a" INSTANCE="" RESULT="ok"
turn #> 1 live, turn
turn #> 1 live, turn
#> event starting JOB="a" INSTANCE=""
turn #> 1 live, turn
turn #> 0 live
#> spawn a main "/bin/d"
#>   UPSTART_EVENTS="go"
#>   UPSTART_JOB="a"
#>   UPSTART_INSTANCE=""
spawned a "" main 101 #> 1 live, turn
#> event started JOB="a" INSTANCE=""
turn #> 1 live, turn
turn #> 0 live
clock 1000 #> 0 live
ended a "" main exit 1 #> 1 live, turn
#> event stopping JOB="a" INSTANCE="" RESULT="ok"
turn #> 1 live, turn
turn #> 1 live, turn
#> event starting JOB="a" INSTANCE=""
turn #> 1 live, turn
turn #> 0 live
#> spawn a main "/bin/d"
#>   UPSTART_EVENTS="go"
#>   UPSTART_JOB="a"
#>   UPSTART_INSTANCE=""
spawned a "" main 102 #> 1 live, turn
#> event started JOB="a" INSTANCE=""
turn #> 1 live, turn
turn #> 0 live
clock 5000 #> 0 live
ended a "" main exit 1 #> 1 live, turn
#> event stopping JOB="a" INSTANCE="" RESULT="ok"
turn #> 1 live, turn
turn #> 1 live, turn
#> event starting JOB="a" INSTANCE=""
turn #> 1 live, turn
turn #> 0 live
#> spawn a main "/bin/d"
#>   UPSTART_EVENTS="go"
#>   UPSTART_JOB="a"
#>   UPSTART_INSTANCE=""
spawned a "" main 103 #> 1 live, turn
#> event started JOB="a" INSTANCE=""
turn #> 1 live, turn
turn #> 0 live
clock 5999 #> 0 live
ended a "" main exit 1 #> 1 live, turn
#> event stopping JOB="a" INSTANCE="" RESULT="failed" PROCESS="respawn"

# A task isn't respawned once it has succeeded.
%case task_that_succeeds
%file a.conf
start on go
exec /bin/d
respawn
task
%script
emit go #> 1 live, turn
turn #> 2 live, turn
#> event starting JOB="a" INSTANCE=""
turn #> 2 live, turn
turn #> 1 live
#> spawn a main "/bin/d"
#>   UPSTART_EVENTS="go"
#>   UPSTART_JOB="a"
#>   UPSTART_INSTANCE=""
spawned a "" main 100 #> 2 live, turn
#> event started JOB="a" INSTANCE=""
ended a "" main exit 0 #> 3 live, turn
#> event stopping JOB="a" INSTANCE="" RESULT="ok"
"#;

#[test]
fn respawns_and_timeouts(rt: HostRuntime) -> Result<(), Fail> {
    check_case(&rt, rt.alloc(), RESPAWN_LIMIT)?;
    check_cases(&rt, rt.alloc(), CASES)
}
