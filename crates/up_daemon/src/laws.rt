//! Laws of a round, for the relation that defines its effects.
ghost use Rattle.up_daemon.specs.Laws.{BeginsAtRest, ClosesForCause, CountsCalls, LosesNothing, NumbersRequests, StaysAtRest};

/// A daemon without clients is at rest at a door without clients: the door's clients are its own, no two of them and no two of their
/// requests have one number, and none has broken a frame.
pub fn begins_at_rest()
    ensures { BeginsAtRest }
{}

/// A daemon that was at rest before a round is so after it.
pub fn stays_at_rest()
    ensures { StaysAtRest }
{}

/// No request and no reply is lost: the bytes written to a client and those that still wait are the frames of the replies to its
/// requests, after what waited before; its requests that entered and those that still wait are those of the bytes read from it.
pub fn loses_nothing()
    ensures { LosesNothing }
{}

/// The requests of a round are numbered one after another.
pub fn numbers_requests()
    ensures { NumbersRequests }
{}

/// No call of the host or the door is made before the records are emptied, and the calls of the host are those of a round's parts and
/// orders: each is an entry of the record or one fault.
pub fn counts_calls()
    ensures { CountsCalls }
{}

/// A client is closed only if it sends no more, if bytes that were read from it break a frame, or if a read or a write of it failed.
pub fn closes_for_cause()
    ensures { ClosesForCause }
{}
