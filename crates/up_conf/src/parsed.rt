//! The parsed overrides, so that each is parsed once: its job takes the stanzas, and the report the fault.
ghost use Rattle.std.specs.Prelude.{IfOk};
ghost use Rattle.up_stanza.specs.Confs.{conf_of};
ghost use Rattle.up_stanza.specs.Reading.{IsConf};

use std::alloc::{AllocError, Global};
use std::collections::BTreeMap;
use std::marker::Model;
use up_stanza::{ConfFault, Stanzas, read_bytes};

/// The result of parsing an override: contracts see the bytes.
#[derive(Drop)]
struct Parsed<'a> {
    bytes: &'a [u8],
    read: Result<Stanzas, ConfFault>,
}

impl<'a> Model for Parsed<'a> {
    ghost use Rattle.std.specs.Prelude.{List, ℕ};
    ghost use Rattle.up_stanza.specs.Confs.{conf_of};
    ghost use Rattle.up_stanza.specs.Reading.{IsConf};

    ghost Value = { List ℕ };

    ghost view = { λ p. p.bytes.now };

    ghost invariant = { λ p. IsConf (conf_of p.bytes.now) p.read };
}

/// The overrides parsed so far, by the names of their jobs.
#[derive(Drop)]
pub(crate) struct Overrides<'a> {
    parsed: BTreeMap<&'a str, Parsed<'a>>,
}

impl<'a> Overrides<'a> {
    pub(crate) fn new(alloc: Global) -> Self {
        Overrides {
            parsed: BTreeMap::new(alloc),
        }
    }

    /// The stanzas of an override, or its fault: taken out if these bytes were parsed before, else parsed now.
    pub(crate) fn take(
        &mut self,
        alloc: Global,
        name: &str,
        bytes: &[u8],
    ) -> Result<Result<Stanzas, ConfFault>, AllocError>
        ensures { IfOk result (λ read. IsConf (conf_of bytes.now) read) }
    {
        match self.parsed.remove(name) {
            Some(parsed) => {
                let Parsed { bytes: known, read } = parsed;
                if known == bytes {
                    Ok(read)
                } else {
                    drop(read);
                    read_bytes(alloc, bytes)
                }
            }
            None => read_bytes(alloc, bytes),
        }
    }

    /// Keeps the result of parsing an override.
    pub(crate) fn keep(
        &mut self,
        name: &'a str,
        bytes: &'a [u8],
        read: Result<Stanzas, ConfFault>,
    ) -> Result<(), AllocError>
        requires { IsConf (conf_of bytes.now) read }
    {
        match self.parsed.insert(name, Parsed { bytes, read }) {
            Ok(_) => Ok(()),
            Err(_) => Err(AllocError),
        }
    }
}
