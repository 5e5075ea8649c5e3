//! The source that plays a script.
ghost use Rattle.std.specs.Prelude.{◌≡◌};
ghost use Rattle.up_edge.specs.Journals.{calls_of};
ghost use Rattle.up_edge.specs.Calls.{no_calls};

use crate::journal::Journal;
use crate::source::{Source, report_load};
use crate::source_fault::SourceFault;
use std::alloc::Global;
use up_model::Loaded;

/// A source that plays a script: it returns one configuration per call.
pub struct ScriptSource {
    alloc: Global,
    loads: Vec<Option<Loaded>>,
    next: usize,
    journal: Journal<Loaded>,
}

// Written out, so that what drops a source is proved here once, and not in each crate above.
impl Drop for ScriptSource {
    fn drop(self) {
        let ScriptSource {
            alloc: _,
            loads: _,
            next: _,
            journal: _,
        } = self;
    }
}

impl ScriptSource {
    /// A source that returns these, one per call: `None` is a call that fails, and after the last one each call fails.
    pub fn new(alloc: Global, loads: Vec<Option<Loaded>>) -> Self
        ensures loads { result.loads ≡ loads }
        ensures calls { calls_of result.journal ≡ no_calls }
    {
        ScriptSource {
            alloc,
            loads,
            next: 0,
            journal: Journal::new(alloc),
        }
    }

    // The configuration of this call, unless the call fails or is out of memory.
    fn next_load(&mut self) -> Option<Loaded>
        ensures { self.new.journal ≡ self.old.journal }
    {
        let at = self.next;
        self.next = at.saturating_add(1);
        match self.loads.get(at) {
            Some(Some(loaded)) => loaded.copy(self.alloc).ok(),
            Some(None) | None => None,
        }
    }
}

impl Source for ScriptSource {
    ghost use Rattle.up_edge.specs.Journals.{calls_of};

    ghost calls = { λ source. calls_of source.journal };

    fn load(&mut self) -> Result<Loaded, SourceFault> {
        let found = self.next_load();
        report_load(&mut self.journal, self.alloc, found)
    }

    fn faults(&self) -> u64 {
        self.journal.faults()
    }

    fn happened(&self) -> &[Loaded] {
        self.journal.entries()
    }

    fn clear_record(&mut self) {
        self.journal.clear();
    }
}
