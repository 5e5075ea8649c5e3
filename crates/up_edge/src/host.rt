//! The contract of a host's calls.
ghost use Rattle.std.specs.Prelude.{◌≡◌, ℕ};
ghost use Rattle.up_edge.specs.Calls.{Calls, Reports, emptied};
ghost use Rattle.up_edge.specs.Living.{LivesAfterSpawn, LivesAfterPoll};
ghost use Rattle.up_edge.specs.declared.happened.Happened.{Happened};
ghost use Rattle.up_edge.specs.declared.happened.Happened.TheVariants.{Spawned, Polled, Signalled, Now};

use crate::happened::Happened;
use crate::host_fault::HostFault;
use up_model::{How, Order, Process, Who};

/// Starts processes, finds their ends, sends them signals, and reads a clock.
///
/// A call that succeeds adds one entry to the record, and one that fails adds one to the count of faults. No call waits.
pub trait Host {
    /// The record, and how many calls succeeded and failed.
    ghost calls: { Self → Calls Happened };

    /// How many processes were spawned whose end was not reported.
    ghost living: { Self → ℕ };

    /// Starts a process, and returns its process number.
    fn spawn(&mut self, order: &Order) -> Result<u32, HostFault>
        ensures reports { Reports (λ pid. Spawned order.now pid) (calls self.old) result (calls self.new) }
        ensures lives { LivesAfterSpawn (living self.old) result (living self.new) };

    /// One end of a process that was not reported before, if one is found.
    fn poll(&mut self) -> Result<Option<(Who, Process, How)>, HostFault>
        ensures reports { Reports Polled (calls self.old) result (calls self.new) }
        ensures lives { LivesAfterPoll (living self.old) result (living self.new) };

    fn signal(&mut self, who: &Who, pid: u32, signal: u8) -> Result<(), HostFault>
        ensures reports { Reports (λ _. Signalled who.now pid signal) (calls self.old) result
            (calls self.new) }
        ensures lives { living self.new ≡ living self.old };

    /// A reading of the clock, in milliseconds.
    fn now(&mut self) -> Result<u64, HostFault>
        ensures reports { Reports Now (calls self.old) result (calls self.new) }
        ensures lives { living self.new ≡ living self.old };

    fn faults(&self) -> u64
        ensures { result ≡ (calls self.now).faults };

    /// The record, oldest first.
    fn happened(&self) -> &[Happened]
        ensures { result.now ≡ (calls self.now).entries };

    fn clear_record(&mut self)
        ensures reports { calls self.new ≡ emptied (calls self.old) }
        ensures lives { living self.new ≡ living self.old };
}
