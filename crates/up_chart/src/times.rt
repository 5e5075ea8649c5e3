//! The times of each event, by its name.
ghost use Rattle.std.specs.Prelude.{◌≡◌, [], OnOk, string_bytes};
ghost use Rattle.up_chart.specs.Rows.{all_named, entry_of, set_entry};

use crate::row::Came;
use indexmap::IndexMap;
use std::alloc::{AllocError, Global};
use std::marker::Model;

/// The times of each event. Contracts see it as the list of the names and times.
#[derive(Drop)]
pub struct Times {
    times: IndexMap<String, Came>,
}

impl Model for Times {
    ghost use Rattle.std.specs.Prelude.{List, ℕ};
    ghost use Rattle.up_chart.specs.declared.row.Came.{Came};
    ghost use Rattle.up_chart.specs.Rows.{all_named};

    ghost Value = { List (List ℕ × Came) };

    ghost view = { λ times. all_named times.times.entries };
}

fn insert_time(
    times: &mut IndexMap<String, Came>,
    name: String,
    came: Came,
) -> Result<(), AllocError>
    ensures { OnOk result (all_named times.new.entries ≡ set_entry (string_bytes name) came (all_named times.old.entries)) }
{
    match times.insert(name, came) {
        Ok(_) => Ok(()),
        Err(refused) => {
            drop(refused);
            Err(AllocError)
        }
    }
}

impl Times {
    pub(crate) fn new(alloc: Global) -> Self
        ensures { result ≡ [] }
    {
        Times {
            times: IndexMap::new(alloc),
        }
    }

    pub(crate) fn get(&self, name: &str) -> Option<Came>
        ensures { result ≡ entry_of name.now self.now }
    {
        match self.times.get(name) {
            Some(came) => Some(*came),
            None => None,
        }
    }

    pub(crate) fn set(&mut self, alloc: Global, name: &str, came: Came) -> Result<(), AllocError>
        ensures { OnOk result (self.new ≡ set_entry name.now came self.old) }
    {
        let name = String::from_str(alloc, name)?;
        insert_time(&mut self.times, name, came)
    }
}
