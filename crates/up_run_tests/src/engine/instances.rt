//! Rows of environments, exports and instances, step by step.
use crate::engine::check_cases;
use std::test::Fail;

static CASES: &str = r#"
# An exported key is on each event of the job's life.
%case exports
%file a.conf
start on go
exec /bin/d
env X=1
export X
%script
emit go #> 1 live, turn
turn #> 2 live, turn
#> event starting JOB="a" INSTANCE="" X="1"
turn #> 2 live, turn
turn #> 1 live
#> spawn a main "/bin/d"
#>   X="1"
#>   UPSTART_EVENTS="go"
#>   UPSTART_JOB="a"
#>   UPSTART_INSTANCE=""
spawned a "" main 100 #> 2 live, turn
#> event started JOB="a" INSTANCE="" X="1"

# A start that waits for the stop comes into force with the next starting, and its exports with it.
%case exports_are_renewed
%file a.conf
start on go
stop on go
exec /bin/d
export X
%script
emit go X=1 #> 1 live, turn
turn #> 2 live, turn
#> event starting JOB="a" INSTANCE="" X="1"
turn #> 2 live, turn
turn #> 1 live
#> spawn a main "/bin/d"
#>   X="1"
#>   UPSTART_EVENTS="go"
#>   UPSTART_JOB="a"
#>   UPSTART_INSTANCE=""
spawned a "" main 100 #> 2 live, turn
#> event started JOB="a" INSTANCE="" X="1"
turn #> 1 live, turn
turn #> 1 live, turn
turn #> 0 live
emit go X=2 #> 1 live, turn
turn #> 2 live, turn
#> event stopping JOB="a" INSTANCE="" RESULT="ok" X="1"
turn #> 2 live, turn
turn #> 1 live
#> signal a 100 TERM
ended a "" main signal TERM #> 2 live, turn
#> event starting JOB="a" INSTANCE="" X="2"

# `env KEY` is the value of the base, if it has one.
%case env_of_the_base: K=b
%file a.conf
start on go
exec /bin/d
env K
env L
env M=1
%script
emit go #> 1 live, turn
turn #> 2 live, turn
#> event starting JOB="a" INSTANCE=""
turn #> 2 live, turn
turn #> 1 live
#> spawn a main "/bin/d"
#>   K="b"
#>   M="1"
#>   UPSTART_EVENTS="go"
#>   UPSTART_JOB="a"
#>   UPSTART_INSTANCE=""

# A value of `start on` expands by the environment of the job.
%case value_by_job
%file a.conf
start on A X=$Z
exec /bin/d
env Z=1
%script
emit A X=2 #> 1 live, turn
turn #> 1 live, turn
turn #> 0 live
emit A X=1 #> 1 live, turn
turn #> 2 live, turn
#> event starting JOB="a" INSTANCE=""

# Without its key there is no start, and the event isn't held. Each instance stops by its own value.
%case instances
%file a.conf
start on go
stop on halt TTY=$TTY
instance $TTY
exec /bin/d
%script
emit go #> 1 live, turn
turn #> 1 live, turn
turn #> 0 live
emit go TTY=tty1 #> 1 live, turn
turn #> 2 live, turn
#> event starting JOB="a" INSTANCE="tty1"
turn #> 2 live, turn
turn #> 1 live
#> spawn a (tty1) main "/bin/d"
#>   TTY="tty1"
#>   UPSTART_EVENTS="go"
#>   UPSTART_JOB="a"
#>   UPSTART_INSTANCE="tty1"
emit go TTY=tty0 #> 2 live, turn
turn #> 3 live, turn
#> event starting JOB="a" INSTANCE="tty0"
turn #> 3 live, turn
turn #> 2 live
#> spawn a (tty0) main "/bin/d"
#>   TTY="tty0"
#>   UPSTART_EVENTS="go"
#>   UPSTART_JOB="a"
#>   UPSTART_INSTANCE="tty0"
spawned a tty1 main 100 #> 3 live, turn
#> event started JOB="a" INSTANCE="tty1"
spawned a tty0 main 101 #> 4 live, turn
#> event started JOB="a" INSTANCE="tty0"
turn #> 3 live, turn
turn #> 2 live, turn
turn #> 2 live, turn
turn #> 1 live, turn
turn #> 1 live, turn
turn #> 0 live
emit halt TTY=tty0 #> 1 live, turn
turn #> 2 live, turn
#> event stopping JOB="a" INSTANCE="tty0" RESULT="ok"

# One event that stops all instances stops them in byte order of their names.
%case instances_in_order
%file a.conf
start on go
stop on down
instance $TTY
exec /bin/d
%script
emit go TTY=tty1 #> 1 live, turn
turn #> 2 live, turn
#> event starting JOB="a" INSTANCE="tty1"
emit go TTY=tty0 #> 3 live, turn
turn #> 3 live, turn
turn #> 2 live, turn
#> spawn a (tty1) main "/bin/d"
#>   TTY="tty1"
#>   UPSTART_EVENTS="go"
#>   UPSTART_JOB="a"
#>   UPSTART_INSTANCE="tty1"
turn #> 3 live, turn
#> event starting JOB="a" INSTANCE="tty0"
turn #> 3 live, turn
turn #> 2 live
#> spawn a (tty0) main "/bin/d"
#>   TTY="tty0"
#>   UPSTART_EVENTS="go"
#>   UPSTART_JOB="a"
#>   UPSTART_INSTANCE="tty0"
spawned a tty1 main 100 #> 3 live, turn
#> event started JOB="a" INSTANCE="tty1"
spawned a tty0 main 101 #> 4 live, turn
#> event started JOB="a" INSTANCE="tty0"
turn #> 3 live, turn
turn #> 2 live, turn
turn #> 2 live, turn
turn #> 1 live, turn
turn #> 1 live, turn
turn #> 0 live
emit down #> 1 live, turn
turn #> 3 live, turn
#> event stopping JOB="a" INSTANCE="tty0" RESULT="ok"
#> event stopping JOB="a" INSTANCE="tty1" RESULT="ok"
"#;

#[test]
fn environments_and_instances(rt: HostRuntime) -> Result<(), Fail> {
    check_cases(&rt, rt.alloc(), CASES)
}
