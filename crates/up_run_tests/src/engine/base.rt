//! Rows of a base environment, and of what overrides it, step by step.
use crate::engine::check_cases;
use std::test::Fail;

static CASES: &str = r#"
# A value of `start on` expands by the base environment.
%case value_by_base: PATH=/bin, X=1
%file a.conf
start on go X=$X
exec /bin/d
%script
emit go X=2 #> 1 live, turn
turn #> 1 live, turn
turn #> 0 live
emit go X=1 #> 1 live, turn
turn #> 2 live, turn
#> event starting JOB="a" INSTANCE=""
turn #> 2 live, turn
turn #> 1 live
#> spawn a main "/bin/d"
#>   PATH="/bin"
#>   X="1"
#>   UPSTART_EVENTS="go"
#>   UPSTART_JOB="a"
#>   UPSTART_INSTANCE=""

# A variable of the event stands in the place of the base's.
%case event_overrides_base: PATH=/bin, X=1
%file a.conf
start on go
exec /bin/d
%script
emit go PATH=/sbin #> 1 live, turn
turn #> 2 live, turn
#> event starting JOB="a" INSTANCE=""
turn #> 2 live, turn
turn #> 1 live
#> spawn a main "/bin/d"
#>   PATH="/sbin"
#>   X="1"
#>   UPSTART_EVENTS="go"
#>   UPSTART_JOB="a"
#>   UPSTART_INSTANCE=""

%case later_event_overrides
%file a.conf
start on A and B
exec /bin/d
%script
emit A Y=1 #> 1 live, turn
turn #> 1 live
emit B Y=2 #> 2 live, turn
turn #> 3 live, turn
#> event starting JOB="a" INSTANCE=""
turn #> 3 live, turn
turn #> 2 live
#> spawn a main "/bin/d"
#>   Y="2"
#>   UPSTART_EVENTS="A B"
#>   UPSTART_JOB="a"
#>   UPSTART_INSTANCE=""

# A value of `stop on` expands by the environment in force, which has the variables of the event that started the job.
%case stop_by_environment_in_force, by another value
%file a.conf
start on go
stop on halt Y=$Y
exec /bin/d
%script
emit go Y=1 #> 1 live, turn
turn #> 2 live, turn
#> event starting JOB="a" INSTANCE=""
turn #> 2 live, turn
turn #> 1 live
#> spawn a main "/bin/d"
#>   Y="1"
#>   UPSTART_EVENTS="go"
#>   UPSTART_JOB="a"
#>   UPSTART_INSTANCE=""
spawned a "" main 100 #> 2 live, turn
#> event started JOB="a" INSTANCE=""
turn #> 1 live, turn
turn #> 1 live, turn
turn #> 0 live
emit halt Y=2 #> 1 live, turn
turn #> 1 live, turn
turn #> 0 live

%case stop_by_environment_in_force: Y=2
%file a.conf
start on go
stop on halt Y=$Y
exec /bin/d
%script
emit go Y=1 #> 1 live, turn
turn #> 2 live, turn
#> event starting JOB="a" INSTANCE=""
turn #> 2 live, turn
turn #> 1 live
#> spawn a main "/bin/d"
#>   Y="1"
#>   UPSTART_EVENTS="go"
#>   UPSTART_JOB="a"
#>   UPSTART_INSTANCE=""
spawned a "" main 100 #> 2 live, turn
#> event started JOB="a" INSTANCE=""
turn #> 1 live, turn
turn #> 1 live, turn
turn #> 0 live
emit halt Y=1 #> 1 live, turn
turn #> 2 live, turn
#> event stopping JOB="a" INSTANCE="" RESULT="ok"
turn #> 2 live, turn
"#;

#[test]
fn base_environments(rt: HostRuntime) -> Result<(), Fail> {
    check_cases(&rt, rt.alloc(), CASES)
}
