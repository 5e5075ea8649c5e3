//! Rows of tasks and of events that are spoilt, step by step.
use crate::engine::check_cases;
use std::test::Fail;

static CASES: &str = r#"
# What starts a task is held until the task has ended.
%case task
%file a.conf
start on go
task
exec /bin/t
%script
emit go #> 1 live, turn
turn #> 2 live, turn
#> event starting JOB="a" INSTANCE=""
turn #> 2 live, turn
turn #> 1 live
#> spawn a main "/bin/t"
#>   UPSTART_EVENTS="go"
#>   UPSTART_JOB="a"
#>   UPSTART_INSTANCE=""
spawned a "" main 100 #> 2 live, turn
#> event started JOB="a" INSTANCE=""
turn #> 2 live, turn
turn #> 1 live
ended a "" main exit 0 #> 2 live, turn
#> event stopping JOB="a" INSTANCE="" RESULT="ok"
turn #> 2 live, turn
turn #> 2 live, turn
#> event stopped JOB="a" INSTANCE="" RESULT="ok"
turn #> 1 live, turn
turn #> 1 live, turn
turn #> 0 live
turn #> 0 live

# A task that fails spoils what started it. That is told with the variables of the event, and of the telling event nothing is told.
%case failing_task
%file a.conf
start on go
task
exec /bin/t
%script
emit go X=1 #> 1 live, turn
turn #> 2 live, turn
#> event starting JOB="a" INSTANCE=""
turn #> 2 live, turn
turn #> 1 live
#> spawn a main "/bin/t"
#>   X="1"
#>   UPSTART_EVENTS="go"
#>   UPSTART_JOB="a"
#>   UPSTART_INSTANCE=""
spawned a "" main 100 #> 2 live, turn
#> event started JOB="a" INSTANCE=""
turn #> 2 live, turn
turn #> 1 live
ended a "" main exit 1 #> 2 live, turn
#> event stopping JOB="a" INSTANCE="" RESULT="failed" PROCESS="main" EXIT_STATUS="1"
turn #> 2 live, turn
#> event go/failed X="1"
turn #> 2 live, turn
turn #> 2 live, turn
#> event stopped JOB="a" INSTANCE="" RESULT="failed" PROCESS="main" EXIT_STATUS="1"
turn #> 2 live, turn
turn #> 1 live, turn
turn #> 1 live, turn
turn #> 0 live
turn #> 0 live
turn #> 0 live

%case failure_of_a_failure
%file a.conf
start on go/failed
exec /bin/t
%script
emit go/failed #> 1 live, turn
turn #> 2 live, turn
#> event starting JOB="a" INSTANCE=""
turn #> 2 live, turn
turn #> 1 live
#> spawn a main "/bin/t"
#>   UPSTART_EVENTS="go/failed"
#>   UPSTART_JOB="a"
#>   UPSTART_INSTANCE=""
refused a "" main #> 2 live, turn
#> event stopping JOB="a" INSTANCE="" RESULT="failed" PROCESS="main"
turn #> 1 live, turn
turn #> 1 live, turn
turn #> 1 live, turn
#> event stopped JOB="a" INSTANCE="" RESULT="failed" PROCESS="main"

# A service whose main process fails after it was running has let its starter go before.
%case failing_service
%file a.conf
start on go
exec /bin/t
%script
emit go #> 1 live, turn
turn #> 2 live, turn
#> event starting JOB="a" INSTANCE=""
turn #> 2 live, turn
turn #> 1 live
#> spawn a main "/bin/t"
#>   UPSTART_EVENTS="go"
#>   UPSTART_JOB="a"
#>   UPSTART_INSTANCE=""
spawned a "" main 100 #> 2 live, turn
#> event started JOB="a" INSTANCE=""
ended a "" main exit 1 #> 3 live, turn
#> event stopping JOB="a" INSTANCE="" RESULT="failed" PROCESS="main" EXIT_STATUS="1"
turn #> 2 live, turn
turn #> 2 live, turn
turn #> 1 live, turn
turn #> 1 live, turn
turn #> 1 live, turn
#> event stopped JOB="a" INSTANCE="" RESULT="failed" PROCESS="main" EXIT_STATUS="1"
turn #> 1 live, turn
turn #> 0 live
"#;

#[test]
fn tasks_and_spoilt_events(rt: HostRuntime) -> Result<(), Fail> {
    check_cases(&rt, rt.alloc(), CASES)
}
