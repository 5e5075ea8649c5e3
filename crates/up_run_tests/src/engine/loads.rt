//! Rows of loads, step by step.
use crate::engine::check_cases;
use std::test::Fail;

static CASES: &str = r#"
# A job that was removed goes on, is known while it has an instance, and can't be started.
%case a job that was removed
%file a.conf
start on go
exec /bin/d
%folder
%file b.conf
start on go
exec /bin/b
%script
emit go #> 1 live, turn
turn #> 2 live, turn
#> event starting JOB="a" INSTANCE=""
turn #> 2 live, turn
turn #> 1 live
#> spawn a main "/bin/d"
#>   UPSTART_EVENTS="go"
#>   UPSTART_JOB="a"
#>   UPSTART_INSTANCE=""
spawned a "" main 100 #> 2 live, turn
#> event started JOB="a" INSTANCE=""
turn #> 1 live, turn
turn #> 1 live, turn
turn #> 0 live
load 1 #> 0 live
#> reply 1 ok ""
request 2 list #> 0 live
#> reply 2 ok "a start/running, process 100\nb stop/waiting"
request 3 start a #> 0 live
#> reply 3 failed "Unknown job: a"
request 4 stop a #> 1 live, turn
#> event stopping JOB="a" INSTANCE="" RESULT="ok"
turn #> 1 live, turn
turn #> 0 live
#> signal a 100 TERM
ended a "" main signal TERM #> 1 live, turn
#> event stopped JOB="a" INSTANCE="" RESULT="ok"
#> reply 4 ok "a stop/waiting"
request 5 status a #> 1 live, turn
#> reply 5 failed "Unknown job: a"
request 6 list #> 1 live, turn
#> reply 6 ok "b stop/waiting"

# What a `start on` had seen is forgotten, though the file is the same.
%case a start on that had seen an event
%file a.conf
start on A and B
exec /bin/d
%folder
%file a.conf
start on A and B
exec /bin/d
%script
emit A #> 1 live, turn
turn #> 1 live
load 1 #> 1 live, turn
#> reply 1 ok ""
turn #> 0 live
emit B #> 1 live, turn
turn #> 1 live
turn #> 1 live

# What isn't loaded changes nothing: after it the steps are those of `startup`.
%case loads that aren't carried out
%file a.conf
start on startup
exec /bin/true x
%script
load 1 refused 32 #> 0 live
#> reply 1 failed "Configuration refused: 32"
load 2 unread #> 0 live
#> reply 2 failed "Configuration not read"
emit startup #> 1 live, turn
turn #> 2 live, turn
#> event starting JOB="a" INSTANCE=""
turn #> 2 live, turn
turn #> 1 live
#> spawn a main "/bin/true" "x"
#>   UPSTART_EVENTS="startup"
#>   UPSTART_JOB="a"
#>   UPSTART_INSTANCE=""

# An instance goes by the file by which it was made until it is over. The next one has the new file.
%case an instance with its own file
%file a.conf
start on go
exec /bin/d
%folder
%file a.conf
start on go
stop on halt
respawn
exec /bin/e
%script
emit go #> 1 live, turn
turn #> 2 live, turn
#> event starting JOB="a" INSTANCE=""
turn #> 2 live, turn
turn #> 1 live
#> spawn a main "/bin/d"
#>   UPSTART_EVENTS="go"
#>   UPSTART_JOB="a"
#>   UPSTART_INSTANCE=""
spawned a "" main 100 #> 2 live, turn
#> event started JOB="a" INSTANCE=""
turn #> 1 live, turn
turn #> 1 live, turn
turn #> 0 live
load 1 #> 0 live
#> reply 1 ok ""
# the new file's `stop on` isn't the instance's
emit halt #> 1 live, turn
turn #> 1 live, turn
turn #> 0 live
# and it doesn't respawn
ended a "" main exit 0 #> 1 live, turn
#> event stopping JOB="a" INSTANCE="" RESULT="ok"
turn #> 1 live, turn
turn #> 1 live, turn
#> event stopped JOB="a" INSTANCE="" RESULT="ok"
turn #> 1 live, turn
turn #> 0 live
emit go #> 1 live, turn
turn #> 2 live, turn
#> event starting JOB="a" INSTANCE=""
turn #> 2 live, turn
turn #> 1 live
#> spawn a main "/bin/e"
#>   UPSTART_EVENTS="go"
#>   UPSTART_JOB="a"
#>   UPSTART_INSTANCE=""
spawned a "" main 101 #> 2 live, turn
#> event started JOB="a" INSTANCE=""
turn #> 1 live, turn
turn #> 1 live, turn
turn #> 0 live
# it respawns
ended a "" main exit 0 #> 1 live, turn
#> event stopping JOB="a" INSTANCE="" RESULT="ok"
turn #> 1 live, turn
turn #> 1 live, turn
#> event starting JOB="a" INSTANCE=""
"#;

#[test]
fn loads(rt: HostRuntime) -> Result<(), Fail> {
    check_cases(&rt, rt.alloc(), CASES)
}
