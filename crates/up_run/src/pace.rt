//! How long a run pauses between rounds.
ghost use Rattle.std.specs.Prelude.{◌≡◌, ◌≤◌, ◌<◌, ◌+◌, ◌/◌, ◌-◌, ◌^◌, min, true, false};
ghost use Rattle.std.specs.List.{list_all};
ghost use Rattle.up_run.specs.Paces.{gave_nothing, is_idle, is_nothing, is_short, longer, pause_of};
ghost use Rattle.up_run.specs.declared.pace.TheConstants.{FIRST_PAUSE, GROWTH, SHORT_PAUSES};

use up_daemon::Round;
use up_edge::Passed;
use up_model::Output;
use up_text::Items;

/// The default of the longest pause of a run, in milliseconds.
pub const MOST_PAUSE: u64 = 10;

/// How many pauses are short after something happened.
const SHORT_PAUSES: u64 = 8;

/// The length of a short pause, in microseconds.
pub(crate) const SHORT_PAUSE: u64 = 100;

/// The first pause after the short ones, in microseconds.
const FIRST_PAUSE: u64 = 1_000;

/// Each further pause is longer by this fraction of the one before, in whole milliseconds. So no pause is longer than a millisecond and a
/// twelfth of the time for which nothing has happened.
const GROWTH: u64 = 16;

/// How long a run pauses: briefly right after something happened, and longer the longer nothing does.
#[derive(Clone, Copy)]
pub(crate) struct Pace {
    // how many rounds have done nothing since one did something
    quiet: u64,
    // the next pause that isn't short, in microseconds
    next: u64,
    // the longest pause, in milliseconds; 0 for none
    most: u64,
}

impl Pace {
    /// A run that has just begun, with a longest pause in milliseconds; with 0 it never pauses.
    pub(crate) fn new(most: u64) -> Self
        ensures { (result.quiet ≡ 0) × (result.next ≡ FIRST_PAUSE) × (result.most ≡ most) }
    {
        Pace {
            quiet: 0,
            next: FIRST_PAUSE,
            most,
        }
    }

    // The pause after the next one, in microseconds.
    fn longer(&self) -> u64
        ensures value { result ≡ longer self.now.quiet self.now.next self.now.most }
        ensures same { self.now.quiet < SHORT_PAUSES → result ≡ self.now.next }
        ensures most { result ≤ self.now.next + self.now.next / GROWTH }
        ensures least { self.now.next ≤ result }
    {
        if self.quiet < SHORT_PAUSES || self.next / 1_000 >= self.most {
            return self.next;
        }
        self.next.saturating_add(self.next / GROWTH)
    }

    /// Notes that a round is over, which did nothing if `idle`.
    pub(crate) fn note(&mut self, idle: bool)
        ensures most { self.new.most ≡ self.old.most }
        ensures busy { idle ≡ false → (self.new.quiet ≡ 0) × (self.new.next ≡ FIRST_PAUSE) }
        ensures idle { idle ≡ true → (self.new.quiet ≡ min (self.old.quiet + 1) (2 ^ 64 - 1))
            × (self.new.next ≡ longer self.old.quiet self.old.next self.old.most) }
        ensures grows { idle ≡ true → self.new.next ≤ self.old.next + self.old.next / GROWTH }
    {
        if idle {
            self.next = self.longer();
            self.quiet = self.quiet.saturating_add(1);
        } else {
            self.quiet = 0;
            self.next = FIRST_PAUSE;
        }
    }

    /// How many milliseconds to pause now; 0 for no pause.
    pub(crate) fn pause(&self) -> u64
        ensures value { result ≡ pause_of self.now.quiet self.now.next self.now.most }
        ensures most { result ≤ self.now.most }
        ensures busy { self.now.quiet ≡ 0 → result ≡ 0 }
        ensures idle { 0 < self.now.quiet → 0 < self.now.most → 0 < result }
    {
        if self.quiet == 0 {
            return 0;
        }
        (self.next / 1_000).max(1).min(self.most)
    }

    /// Whether to pause now for a tenth of a millisecond instead.
    pub(crate) fn is_short(&self) -> bool
        ensures value { result ≡ is_short self.now.quiet self.now.most }
        ensures none { self.now.most ≡ 0 → result ≡ false }
        ensures busy { self.now.quiet ≡ 0 → result ≡ false }
        ensures lately { 0 < self.now.most → 0 < self.now.quiet → self.now.quiet ≤ 8 → result ≡ true }
        ensures later { 8 < self.now.quiet → result ≡ false }
    {
        self.most > 0 && self.quiet > 0 && self.quiet <= SHORT_PAUSES
    }
}

// Whether a call of the door found nothing to do.
fn is_nothing(passed: &Passed) -> bool
    ensures { result ≡ is_nothing passed.now }
{
    match passed {
        Passed::Accepted(None) | Passed::Read(_, None) => true,
        Passed::Wrote(_, bytes) => bytes.as_slice().is_empty(),
        Passed::Accepted(Some(_)) | Passed::Read(_, Some(_)) | Passed::Closed(_) => false,
    }
}

fn gave_nothing(outputs: &Items<Output>) -> bool
    ensures { result ≡ gave_nothing outputs.now }
{
    outputs.as_slice().is_empty()
}

fn all_gave_nothing(gave: &[Items<Output>]) -> bool
    ensures { result ≡ list_all gave_nothing gave.now }
{
    gave.iter().all(|outputs| gave_nothing(outputs))
}

fn are_nothing(passed: &[Passed]) -> bool
    ensures { result ≡ list_all is_nothing passed.now }
{
    passed.iter().all(|entry| is_nothing(entry))
}

/// Whether a round did nothing: it was fed only a reading of the clock, without any output, and no byte and no client came or went.
pub(crate) fn is_idle(round: &Round, passed: &[Passed]) -> bool
    ensures { result ≡ is_idle round.now passed.now }
{
    round.fed.as_slice().len() <= 1
        && all_gave_nothing(round.gave.as_slice())
        && are_nothing(passed)
}
