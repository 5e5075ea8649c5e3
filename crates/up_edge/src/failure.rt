//! Which calls of a script fail.
ghost use Rattle.std.specs.Prelude.{◌≡◌, ◌+◌, ◌==◌, nat_le, min};
ghost use Rattle.std.specs.List.{list_any};
ghost use Rattle.up_edge.specs.Failing.{is_failing, fails, call_after};

/// Calls that fail, by their number, counted from 0.
#[derive(Clone, Copy)]
pub enum Failure {
    /// This call alone.
    Once(u64),
    /// This call, and each later one.
    From(u64),
}

/// The calls that fail, and the number of the next call.
#[derive(Drop)]
pub struct Failures {
    failures: Vec<Failure>,
    call: u64,
}

impl Failure {
    pub fn is_failing(self, call: u64) -> bool
        ensures { result ≡ is_failing self call }
    {
        match self {
            Failure::Once(failing) => failing == call,
            Failure::From(first) => first <= call,
        }
    }
}

impl Failures {
    /// These calls fail; none was made yet.
    pub fn new(failures: Vec<Failure>) -> Self
        ensures failures { result.failures.items ≡ failures.items }
        ensures call { result.call ≡ 0 }
    {
        Failures { failures, call: 0 }
    }

    /// Whether the next call fails; it counts as made.
    pub fn next_fails(&mut self) -> bool
        ensures fails { result ≡ fails self.old.failures.items self.old.call }
        ensures call { self.new.call ≡ call_after self.old.call }
        ensures failures { self.new.failures ≡ self.old.failures }
    {
        let call = self.call;
        self.call = call.saturating_add(1);
        self.failures.iter().any(|failure| failure.is_failing(call))
    }
}
