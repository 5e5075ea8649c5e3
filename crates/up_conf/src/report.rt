//! The faults of a folder.
ghost use Rattle.std.specs.Prelude.{◌≡◌, [], ◌↔◌, IsTrue, length};

use std::marker::Model;
use up_stanza::FaultCode;
use up_text::Text;

/// A fault of a file, at one of its lines.
#[derive(Drop)]
pub struct Fault {
    pub path: Text,
    /// The line, counted from 1.
    pub line: u32,
    pub code: FaultCode,
}

/// The faults of a folder's files, seen by contracts as their list in byte order of paths.
#[derive(Drop)]
pub struct Report {
    faults: Vec<Fault>,
}

impl Model for Report {
    ghost use Rattle.std.specs.Prelude.{List};
    ghost use Rattle.up_conf.specs.declared.report.Fault.{Fault};

    ghost Value = { List Fault };

    ghost view = { λ r. r.faults.items };
}

impl Report {
    pub(crate) fn new(faults: Vec<Fault>) -> Self
        ensures { result ≡ faults.items }
    {
        Report { faults }
    }

    pub fn len(&self) -> usize
        ensures { result ≡ length self.now }
    {
        self.faults.len()
    }

    pub fn is_empty(&self) -> bool
        ensures { IsTrue result ↔ (self.now ≡ []) }
    {
        self.faults.is_empty()
    }

    pub fn as_slice(&self) -> &[Fault]
        ensures { result.now ≡ self.now }
    {
        self.faults.as_slice()
    }
}
