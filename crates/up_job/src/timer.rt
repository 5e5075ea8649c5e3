//! When the timer kills main.
ghost use Rattle.std.specs.Prelude.{◌≡◌, ℕ};
ghost use Rattle.up_model.specs.Chronicle.{Chronicle};
ghost use Rattle.up_model.specs.Clock as clock;
ghost use Rattle.up_job.specs.Timers.{is_dying, is_overdue, kill_at, IsKept};

use crate::child::child_of;
use crate::instance::Instance;
use crate::moments::milliseconds;
use up_model::{Process, State};

fn is_killed(state: State) -> bool
    ensures { result ≡ clock.is_killed state }
{
    matches!(state, State::Killed)
}

fn has_passed(moment: Option<u64>, now: u64, span: u64) -> bool
    ensures { result ≡ clock.has_passed moment now span }
{
    match moment {
        Some(moment) => span <= now.saturating_sub(moment),
        None => false,
    }
}

fn is_dying(instance: &Instance) -> bool
    ensures { result ≡ is_dying instance.now }
{
    is_killed(instance.state) && child_of(&instance.children, Process::Main).pid.is_some()
}

fn overdue(instance: &Instance, now: u64) -> bool
    ensures { result ≡ is_overdue now instance.now }
{
    is_dying(instance)
        && has_passed(
            instance.kill_moment,
            now,
            milliseconds(instance.file.job().kill_timeout),
        )
}

/// The reading of the clock at which the timer is to kill main, if it is to.
pub(crate) fn kill_at(instance: &Instance) -> Option<u128>
    ensures { result ≡ kill_at instance.now }
{
    match instance.kill_moment {
        Some(moment) => {
            Some(u128::from(moment) + u128::from(milliseconds(instance.file.job().kill_timeout)))
        }
        None => None,
    }
}

/// Whether the timer is to kill main at this reading of the clock, in milliseconds (init(5), `kill timeout`).
pub fn is_overdue(instance: &Instance, now: u64) -> bool
    ensures kept { result ≡ is_overdue now instance.now }
    ensures model { (i : ℕ) (c : Chronicle) → now ≡ clock.now c
        → IsKept i c instance.now → result ≡ clock.kill_due instance.now.file i c }
{
    overdue(instance, now)
}
