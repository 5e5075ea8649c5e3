//! The clients of a scripted door.
ghost use Rattle.std.specs.Prelude.{◌≡◌, ◌≤◌};
ghost use Rattle.up_edge.specs.Speaking.{IsWithin};

use crate::buffer::copy_of;
use std::alloc::Global;
use up_text::Items;

/// A client of a scripted door.
#[derive(Drop)]
pub struct Visitor {
    says: Vec<Option<Items<u8>>>,
    said: usize,
    within: usize,
    takes: Vec<usize>,
    taken: usize,
}

impl Visitor {
    /// A client that sends these pieces, one or more reads each: `None` means nothing yet, and an empty one the end. After the last it
    /// sends nothing. Its writes take at most these numbers of bytes; after the last one they take all.
    pub fn new(says: Vec<Option<Items<u8>>>, takes: Vec<usize>) -> Self
        ensures says { result.says ≡ says }
        ensures takes { result.takes ≡ takes }
        ensures begins { (result.said ≡ 0) × (result.within ≡ 0) × (result.taken ≡ 0) }
    {
        Visitor {
            says,
            said: 0,
            within: 0,
            takes,
            taken: 0,
        }
    }

    // The rest of the piece that the client sends next; `None` for nothing yet.
    fn piece(&self) -> Option<&[u8]> {
        match self.says.get(self.said) {
            Some(Some(piece)) => piece.as_slice().get(self.within..),
            Some(None) | None => None,
        }
    }

    // Skips `count` bytes of the piece; at its end goes on to the next.
    fn advance(&mut self, count: usize, left: usize) {
        if count < left {
            self.within = self.within.saturating_add(count);
        } else {
            self.within = 0;
            self.said = self.said.saturating_add(1);
        }
    }

    /// How many of `count` bytes the next write takes.
    pub(crate) fn take(&mut self, count: usize) -> usize
        ensures { result ≤ count }
    {
        match self.takes.get(self.taken) {
            Some(most) => {
                let most = *most;
                self.taken += 1;
                count.min(most)
            }
            None => count,
        }
    }

    /// The bytes of the next read, at most `most`; `None` for nothing yet.
    pub(crate) fn speak(&mut self, alloc: Global, most: usize) -> Spoken
        ensures { IsWithin most result }
    {
        let Some(piece) = self.piece() else {
            self.said = self.said.saturating_add(1);
            return Spoken::Nothing;
        };
        let left = piece.len();
        let count = left.min(most);
        match copy_of(alloc, &piece[..count]) {
            Ok(bytes) => {
                self.advance(count, left);
                Spoken::Bytes(bytes)
            }
            Err(_) => Spoken::Failed,
        }
    }
}

/// The outcome of a read of a script.
pub(crate) enum Spoken {
    Bytes(Vec<u8>),
    Nothing,
    /// Out of memory for it.
    Failed,
}
