//! Rows of a job that is started more than once, step by step, with the live events.
use crate::engine::{check_case, check_cases};
use std::alloc::{AllocError, Global};
use std::test::Fail;

static CASES: &str = r#"
# Another start of a running job does nothing, and holds nothing.
%case start_while_running
%file a.conf
start on go
exec /bin/d
%script
emit go #> 1 live, turn
turn #> 2 live, turn
#> event starting JOB="a" INSTANCE=""
turn #> 2 live, turn
turn #> 1 live
#> spawn a main "/bin/d"
#>   UPSTART_EVENTS="go"
#>   UPSTART_JOB="a"
#>   UPSTART_INSTANCE=""
spawned a "" main 100 #> 2 live, turn
#> event started JOB="a" INSTANCE=""
turn #> 1 live, turn
turn #> 1 live, turn
turn #> 0 live
emit go X=2 #> 1 live, turn
turn #> 1 live, turn
turn #> 0 live

# An instance that goes lets go of what its `stop on` keeps, and the next one begins with none of it.
%case half_a_stop_on
%file a.conf
start on go
stop on A and B
exec /bin/d
%script
emit go #> 1 live, turn
turn #> 2 live, turn
#> event starting JOB="a" INSTANCE=""
turn #> 2 live, turn
turn #> 1 live
#> spawn a main "/bin/d"
#>   UPSTART_EVENTS="go"
#>   UPSTART_JOB="a"
#>   UPSTART_INSTANCE=""
spawned a "" main 100 #> 2 live, turn
#> event started JOB="a" INSTANCE=""
turn #> 1 live, turn
turn #> 1 live, turn
turn #> 0 live
emit A #> 1 live, turn
turn #> 1 live
ended a "" main exit 0 #> 2 live, turn
#> event stopping JOB="a" INSTANCE="" RESULT="ok"
turn #> 2 live, turn
turn #> 2 live, turn
#> event stopped JOB="a" INSTANCE="" RESULT="ok"
turn #> 1 live, turn
turn #> 1 live, turn
turn #> 0 live
emit go #> 1 live, turn
turn #> 2 live, turn
#> event starting JOB="a" INSTANCE=""
turn #> 2 live, turn
turn #> 1 live
#> spawn a main "/bin/d"
#>   UPSTART_EVENTS="go"
#>   UPSTART_JOB="a"
#>   UPSTART_INSTANCE=""
spawned a "" main 101 #> 2 live, turn
#> event started JOB="a" INSTANCE=""
turn #> 1 live, turn
turn #> 1 live, turn
turn #> 0 live
emit B #> 1 live, turn
turn #> 1 live
emit A #> 2 live, turn
turn #> 3 live, turn
#> event stopping JOB="a" INSTANCE="" RESULT="ok"
"#;

#[test]
fn starts_after_others(rt: HostRuntime) -> Result<(), Fail> {
    check_cases(&rt, rt.alloc(), CASES)
}

// A job that starts once it has stopped and stops once it has started, up to its first start.
static RESTARTING: &str = r#"self_restarting_job
%file a.conf
start on stopped a or startup
stop on started a
%script
emit startup #> 1 live, turn
turn #> 2 live, turn
#> event starting JOB="a" INSTANCE=""
turn #> 2 live, turn
"#;

// The turns that follow, over and over.
static CYCLE: &str = r#"
turn #> 2 live, turn
#> event started JOB="a" INSTANCE=""
turn #> 1 live, turn
turn #> 2 live, turn
#> event stopping JOB="a" INSTANCE="" RESULT="ok"
turn #> 2 live, turn
turn #> 2 live, turn
#> event stopped JOB="a" INSTANCE="" RESULT="ok"
turn #> 1 live, turn
turn #> 2 live, turn
#> event starting JOB="a" INSTANCE=""
turn #> 2 live, turn
"#;

// The case of the first two turns and of six cycles: 50 turns.
fn restarting(alloc: Global) -> Result<String, AllocError> {
    let mut text = String::from_str(alloc, RESTARTING)?;
    for _ in 0..6 {
        text.push_str(CYCLE)?;
    }
    Ok(text)
}

#[test]
fn self_restarting_job(rt: HostRuntime) -> Result<(), Fail> {
    let text = restarting(rt.alloc())?;
    check_case(&rt, rt.alloc(), text.as_str())
}
