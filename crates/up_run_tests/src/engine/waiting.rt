//! A job that waits long for its second event.
use crate::engine::check_case;
use std::alloc::{AllocError, Global};
use std::test::Fail;

static BEGINS: &str = r#"long_wait
%file a.conf
start on A and B
exec /bin/d
%script
emit A X=1 #> 1 live, turn
turn #> 1 live
"#;

// An event for which nobody waits.
static PASSES: &str = r#"emit Z #> 2 live, turn
turn #> 2 live, turn
turn #> 1 live
"#;

static ENDS: &str = r#"emit B #> 2 live, turn
turn #> 3 live, turn
#> event starting JOB="a" INSTANCE=""
turn #> 3 live, turn
turn #> 2 live
#> spawn a main "/bin/d"
#>   X="1"
#>   UPSTART_EVENTS="A B"
#>   UPSTART_JOB="a"
#>   UPSTART_INSTANCE=""
"#;

fn bundle(alloc: Global) -> Result<String, AllocError> {
    let mut text = String::new(alloc);
    text.push_str(BEGINS)?;
    for _ in 0..100_000u32 {
        text.push_str(PASSES)?;
    }
    text.push_str(ENDS)?;
    Ok(text)
}

#[test]
fn long_wait(rt: HostRuntime) -> Result<(), Fail> {
    let text = bundle(rt.alloc())?;
    check_case(&rt, rt.alloc(), text.as_str())
}
