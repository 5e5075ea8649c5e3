//! The moments of respawns that a limit counts.
ghost use Rattle.std.specs.Prelude.{◌≡◌, ℕ, ◌*◌, [], take, IfOk};
ghost use Rattle.circular_buffer.specs.Buffer.{buffer};
ghost use Rattle.up_model.specs.Chronicle.{Chronicle};
ghost use Rattle.up_model.specs.Clock as clock;
ghost use Rattle.up_job.specs.Moments.{allows, moments_of, noted, recent, room, Falls};

use circular_buffer::HeapCircularBuffer;
use std::alloc::{AllocError, Global};
use std::marker::Model;
use up_stanza::Limit;

/// The moments of an instance's last respawns in milliseconds, as many as the limit counts. Contracts see
/// them as a list, newest first, and how many there may be.
#[derive(Drop)]
pub struct Moments {
    ring: HeapCircularBuffer<u64>,
}

impl Model for Moments {
    ghost use Rattle.std.specs.Prelude.{ℕ};
    ghost use Rattle.circular_buffer.specs.Buffer.{Buffer};

    ghost Value = { Buffer ℕ };

    ghost view = { λ m. m.ring };
}

fn is_unlimited(limit: Limit) -> bool
    ensures { result ≡ clock.is_unlimited limit }
{
    limit.count == 0 || limit.interval == 0
}

fn room(limit: Limit) -> usize
    ensures { result ≡ room limit }
{
    if is_unlimited(limit) {
        0
    } else {
        limit.count as usize
    }
}

pub(crate) fn milliseconds(seconds: u32) -> u64
    ensures { result ≡ clock.milliseconds seconds }
{
    u64::from(seconds) * 1000
}

impl Moments {
    /// Allocates all room that the limit ever needs.
    pub fn new(alloc: Global, limit: Limit) -> Result<Self, AllocError>
        ensures { IfOk result (λ moments. moments ≡ buffer [] (room limit)) }
    {
        let ring = HeapCircularBuffer::with_capacity(alloc, room(limit))?;
        Ok(Moments { ring })
    }

    /// Notes a respawn. If there is no room, drops the oldest one.
    pub fn note(&mut self, moment: u64)
        ensures { self.new ≡ noted moment self.old }
    {
        self.ring.push_front(moment);
    }

    // The number of moments less than a span ago.
    fn recent(&self, now: u64, span: u64) -> usize
        ensures { result ≡ recent now span self.now.items }
    {
        self.ring
            .iter()
            .filter(|moment: &&u64| now.saturating_sub(**moment) < span)
            .count()
    }

    /// Whether the limit allows one more respawn (init(5), `respawn limit`).
    pub fn may_respawn(&self, limit: Limit, now: u64) -> bool
        ensures counted { result ≡ allows limit now self.now.items }
        ensures model { (instance : ℕ) (c : Chronicle) → now ≡ clock.now c
            → self.now.items ≡ take (room limit) (moments_of instance c)
            → Falls now (moments_of instance c) → result ≡ clock.may_respawn limit instance c }
    {
        is_unlimited(limit) || self.recent(now, milliseconds(limit.interval)) < limit.count as usize
    }
}
