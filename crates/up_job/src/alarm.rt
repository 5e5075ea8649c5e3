//! The alarm: a reading of the clock before which the timer kills nobody.
ghost use Rattle.std.specs.Prelude.{◌≡◌, ◌≤◌, nat_lt, if◌then◌else◌};
ghost use Rattle.up_job.specs.Alarms.{alarm_after, AreFrom, AllFrom};

use crate::change::Change;
use crate::instance::Instance;
use crate::instances::JobInstances;
use crate::timer::kill_at;

fn earlier(at: u128, alarm: u128) -> u128
    ensures { result ≡ (if nat_lt at alarm then at else alarm) }
{
    if at < alarm { at } else { alarm }
}

pub(crate) fn alarm_after(its: &Change, alarm: u128) -> u128
    ensures { result ≡ alarm_after its.now alarm }
{
    match its {
        Change::Signals(Some(moment)) => earlier(u128::from(*moment), alarm),
        _ => alarm,
    }
}

fn earliest_of(instances: &[Instance], alarm: u128) -> u128
    ensures earlier { result ≤ alarm }
    ensures alarm { AreFrom result instances.now }
{
    let mut earliest = alarm;
    for instance in instances {
        if let Some(at) = kill_at(instance) {
            earliest = earlier(at, earliest);
        }
    }
    earliest
}

/// The earliest moment at which main of one of these jobs' instances is to be killed; a later one than any if there is none.
pub(crate) fn earliest(jobs: &[JobInstances]) -> u128
    ensures { AllFrom result jobs.now }
{
    let mut earliest = u128::MAX;
    for job in jobs {
        earliest = earliest_of(job.instances.as_slice(), earliest);
    }
    earliest
}
