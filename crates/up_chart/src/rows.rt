//! The state of each instance, by its name.
ghost use Rattle.std.specs.Prelude.{◌≡◌, ◌<◌, [], length, OnOk, Some, slice_get, string_bytes};
ghost use Rattle.up_chart.specs.Rows.{all_named, entry_of, set_entry};

use crate::row::Row;
use indexmap::IndexMap;
use std::alloc::{AllocError, Global};
use std::marker::Model;

/// Instances by their names, in the order in which they were first seen. Contracts see them as the list of their names and rows.
#[derive(Drop)]
pub struct Rows {
    rows: IndexMap<String, Row>,
}

impl Model for Rows {
    ghost use Rattle.std.specs.Prelude.{List, ℕ};
    ghost use Rattle.up_chart.specs.declared.row.Row.{Row};
    ghost use Rattle.up_chart.specs.Rows.{all_named};

    ghost Value = { List (List ℕ × Row) };

    ghost view = { λ rows. all_named rows.rows.entries };
}

fn insert(rows: &mut IndexMap<String, Row>, name: String, row: Row) -> Result<(), AllocError>
    ensures { OnOk result (all_named rows.new.entries ≡ set_entry (string_bytes name) row (all_named rows.old.entries)) }
{
    match rows.insert(name, row) {
        Ok(_) => Ok(()),
        Err(refused) => {
            drop(refused);
            Err(AllocError)
        }
    }
}

impl Rows {
    pub(crate) fn new(alloc: Global) -> Self
        ensures { result ≡ [] }
    {
        Rows {
            rows: IndexMap::new(alloc),
        }
    }

    pub(crate) fn len(&self) -> usize
        ensures { result ≡ length self.now }
    {
        self.rows.len()
    }

    pub(crate) fn get(&self, name: &str) -> Option<Row>
        ensures { result ≡ entry_of name.now self.now }
    {
        match self.rows.get(name) {
            Some(row) => Some(*row),
            None => None,
        }
    }

    pub(crate) fn at(&self, i: usize) -> (&str, Row)
        requires { i < length self.now }
        ensures { slice_get self.now i ≡ Some (result.0.now, result.1) }
    {
        match self.rows.get_index(i) {
            Some((name, row)) => (name.as_str(), *row),
            None => unreachable!(),
        }
    }

    /// An existing one keeps its position, and a new one goes last.
    pub(crate) fn set(&mut self, alloc: Global, name: &str, row: Row) -> Result<(), AllocError>
        ensures { OnOk result (self.new ≡ set_entry name.now row self.old) }
    {
        let name = String::from_str(alloc, name)?;
        insert(&mut self.rows, name, row)
    }
}
