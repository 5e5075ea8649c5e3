//! The events of jobs (starting(7), started(7), stopping(7), stopped(7)).
ghost use Rattle.std.specs.Prelude.{◌≡◌, option_copied};
ghost use Rattle.up_expr.specs.JobEvents.{is_job_event, wanted_job};

use crate::expr::Test;
use up_text::Text;

/// Whether jobs make the events of this name.
#[tactic(auto, unfolding(crate::specs::JobEvents::is_job_event))]
pub fn is_job_event(event: &str) -> bool
    ensures { result ≡ is_job_event event.now }
{
    event == "starting" || event == "started" || event == "stopping" || event == "stopped"
}

/// The job whose event these tests want, by the first positional value or the variable JOB, whichever comes first.
pub fn wanted_job(tests: &[Test]) -> Option<&Text>
    ensures { option_copied result ≡ wanted_job tests.now }
{
    for test in tests {
        match test {
            Test::Place(value) => return Some(value),
            Test::Same(key, value) => {
                if key.as_str() == "JOB" {
                    return Some(value);
                }
            }
            Test::Differs(_, _) => {}
        }
    }
    None
}
