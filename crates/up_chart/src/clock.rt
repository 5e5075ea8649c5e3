//! The time of a run: milliseconds since the first reading of its clock.
ghost use Rattle.std.specs.Prelude.{◌≡◌, None};
ghost use Rattle.up_chart.specs.Moments.{clock_after, no_clock, time_of};

use up_model::Input;

/// The readings of the clock so far: the first, and the greatest.
#[derive(Clone, Copy)]
pub struct Clock {
    first: Option<u64>,
    greatest: u64,
}

impl Clock {
    pub fn new() -> Self
        ensures { result ≡ no_clock }
    {
        Clock {
            first: None,
            greatest: 0,
        }
    }

    pub fn after(self, given: &Input) -> Self
        ensures { result ≡ clock_after self given.now }
    {
        match given {
            Input::Clock(reading) => Clock {
                first: Some(self.first.unwrap_or(*reading)),
                greatest: self.greatest.max(*reading),
            },
            _ => self,
        }
    }

    /// Milliseconds from the first reading to the greatest; 0 before the first.
    pub fn time(self) -> u64
        ensures { result ≡ time_of self }
    {
        match self.first {
            Some(first) => self.greatest.saturating_sub(first),
            None => 0,
        }
    }
}
