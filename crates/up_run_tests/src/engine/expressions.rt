//! The worked rows on expressions, step by step.
use crate::engine::check_cases;
use std::test::Fail;

static CASES: &str = r#"
%case and_keeps_first
%file a.conf
start on A and B
exec /bin/d
%script
emit A X=1 #> 1 live, turn
emit A X=2 #> 2 live, turn
emit B #> 3 live, turn
turn #> 3 live, turn
turn #> 3 live, turn
turn #> 2 live, turn
turn #> 3 live, turn
#> event starting JOB="a" INSTANCE=""
turn #> 3 live, turn
turn #> 2 live
#> spawn a main "/bin/d"
#>   X="1"
#>   UPSTART_EVENTS="A B"
#>   UPSTART_JOB="a"
#>   UPSTART_INSTANCE=""

%case and_of_same_event
%file a.conf
start on A and A
exec /bin/d
%script
emit A #> 1 live, turn
turn #> 2 live, turn
#> event starting JOB="a" INSTANCE=""
turn #> 2 live, turn
turn #> 1 live
#> spawn a main "/bin/d"
#>   UPSTART_EVENTS="A A"
#>   UPSTART_JOB="a"
#>   UPSTART_INSTANCE=""

%case or_after_half_an_and
%file a.conf
start on (A and D) or B
exec /bin/d
%script
emit A #> 1 live, turn
emit B #> 2 live, turn
turn #> 2 live, turn
turn #> 3 live, turn
#> event starting JOB="a" INSTANCE=""
turn #> 2 live, turn
turn #> 2 live, turn
turn #> 1 live
#> spawn a main "/bin/d"
#>   UPSTART_EVENTS="B"
#>   UPSTART_JOB="a"
#>   UPSTART_INSTANCE=""

%case job_blocks_itself
%file a.conf
start on go
stop on starting JOB=a
exec /bin/d
%script
emit go #> 1 live, turn
turn #> 2 live, turn
#> event starting JOB="a" INSTANCE=""
turn #> 2 live, turn
turn #> 1 live
turn #> 1 live
turn #> 1 live
turn #> 1 live
turn #> 1 live
turn #> 1 live

# A value that is an expansion, of which the base environment has no key.
%case value_by_default
%file a.conf
start on A X=${Z-1}
exec /bin/d
%script
emit A X=2 #> 1 live, turn
turn #> 1 live, turn
turn #> 0 live
emit A X=1 #> 1 live, turn
turn #> 2 live, turn
#> event starting JOB="a" INSTANCE=""

# What an order says of where and how its process runs.
%case folder_and_console
%file a.conf
start on go
exec /bin/d
chdir /tmp
console none
%script
emit go #> 1 live, turn
turn #> 2 live, turn
#> event starting JOB="a" INSTANCE=""
turn #> 2 live, turn
turn #> 1 live
#> spawn a main "/bin/d"
#>   UPSTART_EVENTS="go"
#>   UPSTART_JOB="a"
#>   UPSTART_INSTANCE=""
#>   in /tmp silent=true
"#;

#[test]
fn worked_rows(rt: HostRuntime) -> Result<(), Fail> {
    check_cases(&rt, rt.alloc(), CASES)
}
