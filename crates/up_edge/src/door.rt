//! The contract of a door's calls.
ghost use Rattle.std.specs.Prelude.{◌≡◌, ◌≤◌, ℕ, Bool, length, take, option_map, IfOk, IfSome};
ghost use Rattle.up_edge.specs.Calls.{Calls, Reports, emptied};
ghost use Rattle.up_edge.specs.Connecting.{ConnectsOnAccept, Disconnects, SameClients};
ghost use Rattle.up_edge.specs.Closing.{ReportsClose};
ghost use Rattle.up_edge.specs.declared.passed.Passed.{Passed};
ghost use Rattle.up_edge.specs.declared.passed.Passed.TheVariants.{Accepted, Read, Wrote, Closed};

use crate::door_fault::DoorFault;
use crate::passed::Passed;

/// Lets clients in, and carries bytes from them and to them.
///
/// A call that succeeds adds one entry to the record, and one that fails adds one to the count of faults. No call waits.
pub trait Door {
    /// The record, and how many calls succeeded and failed.
    ghost calls: { Self → Calls Passed };

    /// Whether a client with this number is connected.
    ghost connected: { Self → ℕ → Bool };

    /// The number of a client that waited to be let in, if any. No connected client has that number.
    fn accept(&mut self) -> Result<Option<u32>, DoorFault>
        ensures reports { Reports Accepted (calls self.old) result (calls self.new) }
        ensures connects { ConnectsOnAccept (connected self.old) result (connected self.new) };

    /// How many of the client's bytes were put at the start of the buffer; `None` if none has come yet, and 0 if it sends no more.
    fn read(&mut self, client: u32, buffer: &mut [u8]) -> Result<Option<usize>, DoorFault>
        ensures reports { Reports (λ found. Read client (option_map (λ count. take count buffer.new) found))
            (calls self.old) result (calls self.new) }
        ensures within { IfOk result (λ found. IfSome found (λ count. count ≤ length buffer.new)) }
        ensures connects { SameClients (connected self.old) (connected self.new) };

    /// The number of bytes that were taken for the client, from the first on; 0 if it takes none now.
    fn write(&mut self, client: u32, bytes: &[u8]) -> Result<usize, DoorFault>
        ensures reports { Reports (λ count. Wrote client (take count bytes.now)) (calls self.old) result
            (calls self.new) }
        ensures within { IfOk result (λ count. count ≤ length bytes.now) }
        ensures connects { SameClients (connected self.old) (connected self.new) };

    /// Closes the client, in any case. Without room for its entry the record leaves it out, and a fault is counted.
    fn close(&mut self, client: u32)
        ensures reports { ReportsClose client (calls self.old) (calls self.new) }
        ensures connects { Disconnects client (connected self.old) (connected self.new) };

    fn faults(&self) -> u64
        ensures { result ≡ (calls self.now).faults };

    /// The record, oldest first.
    fn happened(&self) -> &[Passed]
        ensures { result.now ≡ (calls self.now).entries };

    fn clear_record(&mut self)
        ensures reports { calls self.new ≡ emptied (calls self.old) }
        ensures connects { SameClients (connected self.old) (connected self.new) };
}
