//! Expressions as deep as a job file may have them.
use crate::engine::check_case;
use std::alloc::{AllocError, Global};
use std::test::Fail;

/// The most leaves that a job file may have in an expression.
const MAX_LEAVES: usize = 2_048;

// The event A for each leaf but the last, with this between.
fn leaves(alloc: Global, between: &str, last: &str) -> Result<String, AllocError> {
    let mut text = String::new(alloc);
    for _ in 1..MAX_LEAVES {
        text.push_str("A")?;
        text.push_str(between)?;
    }
    text.push_str(last)?;
    Ok(text)
}

// The case of a job file with the chain `A and A and ..`, which groups to the left, and of these steps. The last one gives what is spawned if
// the chain is true by one event a leaf.
fn chain(alloc: Global, name: &str, last: &str, steps: &str) -> Result<String, AllocError> {
    let expression = leaves(alloc, " and ", last)?;
    let events = leaves(alloc, " ", last)?;
    let text = format!(in alloc;
        r#"{name}
%file a.conf
start on {}
exec /bin/d
%script
{steps}#>   UPSTART_EVENTS="{}"
#>   UPSTART_JOB="a"
#>   UPSTART_INSTANCE=""
"#,
        expression.as_str(),
        events.as_str()
    )?;
    Ok(text)
}

static TRUE_BY_ONE: &str = r#"emit A #> 1 live, turn
turn #> 2 live, turn
#> event starting JOB="a" INSTANCE=""
turn #> 2 live, turn
turn #> 1 live
#> spawn a main "/bin/d"
"#;

#[test]
fn deepest_chain(rt: HostRuntime) -> Result<(), Fail> {
    let text = chain(rt.alloc(), "deepest_chain", "A", TRUE_BY_ONE)?;
    check_case(&rt, rt.alloc(), text.as_str())
}

// The chain keeps A until it is true.
static TRUE_BY_TWO: &str = r#"emit A #> 1 live, turn
turn #> 1 live
emit B #> 2 live, turn
turn #> 3 live, turn
#> event starting JOB="a" INSTANCE=""
turn #> 3 live, turn
turn #> 2 live
#> spawn a main "/bin/d"
"#;

#[test]
fn deepest_chain_keeps_an_event(rt: HostRuntime) -> Result<(), Fail> {
    let text = chain(rt.alloc(), "deepest_chain_keeps_an_event", "B", TRUE_BY_TWO)?;
    check_case(&rt, rt.alloc(), text.as_str())
}
