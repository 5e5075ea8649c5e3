//! Sets of names.
ghost use Rattle.std.specs.Prelude.{◌≡◌, ◌++◌, ◌∷◌, [], List, OnErr, OnOk, length};
ghost use Rattle.std.specs.List.{list_any};
ghost use Rattle.std.specs.Str.{bytes_eq};
ghost use Rattle.up_conf.specs.Gathering.{AreSeen};
ghost use Rattle.up_conf.specs.Jobs.{with_new_item};
ghost use Rattle.up_value.specs.Values.{Bytes};
ghost use Rattle.up_lint.specs.Names.{texts, with_names};

use std::alloc::{AllocError, Global};
use std::collections::BTreeSet;
use std::marker::Model;
use up_text::Text;

/// Names, each once, in the order in which they were added. They are looked up in a tree.
#[derive(Drop)]
pub(crate) struct Names<'a> {
    list: Vec<&'a [u8]>,
    seen: BTreeSet<&'a [u8]>,
}

impl<'a> Model for Names<'a> {
    ghost use Rattle.std.specs.Prelude.{List, ℕ};
    ghost use Rattle.up_conf.specs.Gathering.{AreSeen};
    ghost use Rattle.up_lint.specs.Names.{texts};

    ghost Value = { List (List ℕ) };

    ghost view = { λ n. texts n.list.items };

    ghost invariant = { λ n. AreSeen n.seen (texts n.list.items) };
}

// Adds a new name. Out of memory, neither collection contains it.
fn append<'a>(
    list: &mut Vec<&'a [u8]>,
    seen: &mut BTreeSet<&'a [u8]>,
    name: &'a [u8],
) -> Result<(), AllocError>
    ensures list { OnOk result (texts list.new.items ≡ texts list.old.items ++ name.now ∷ []) }
    ensures seen { OnOk result ((names : List Bytes) → AreSeen seen.old names
        → AreSeen seen.new (with_new_item bytes_eq names name.now)) }
    ensures same_list { OnErr result (texts list.new.items ≡ texts list.old.items) }
    ensures same_seen { OnErr result ((names : List Bytes) → AreSeen seen.old names → AreSeen seen.new names) }
{
    list.push(name)?;
    match seen.insert(name) {
        Ok(_) => Ok(()),
        Err(refused) => {
            drop(refused);
            list.pop();
            Err(AllocError)
        }
    }
}

// Adds a name, unless it is present already.
fn add_to<'a>(
    list: &mut Vec<&'a [u8]>,
    seen: &mut BTreeSet<&'a [u8]>,
    name: &'a [u8],
) -> Result<(), AllocError>
    requires { AreSeen seen.old (texts list.old.items) }
    ensures seen { AreSeen seen.new (texts list.new.items) }
    ensures added { OnOk result (texts list.new.items ≡ with_new_item bytes_eq (texts list.old.items) name.now) }
{
    if seen.contains(name) {
        return Ok(());
    }
    append(list, seen, name)?;
    Ok(())
}

impl<'a> Names<'a> {
    pub(crate) fn new(alloc: Global) -> Self
        ensures { result ≡ [] }
    {
        Names {
            list: Vec::new(alloc),
            seen: BTreeSet::new(alloc),
        }
    }

    /// Adds a name, unless it is present already.
    pub(crate) fn add(&mut self, name: &'a [u8]) -> Result<(), AllocError>
        ensures { OnOk result (self.new ≡ with_new_item bytes_eq self.old name.now) }
    {
        add_to(&mut self.list, &mut self.seen, name)
    }

    pub(crate) fn len(&self) -> usize
        ensures { result ≡ length self.now }
    {
        self.list.len()
    }

    pub(crate) fn has(&self, name: &[u8]) -> bool
        ensures { result ≡ list_any (bytes_eq name.now) self.now }
    {
        self.seen.contains(name)
    }
}

pub(crate) fn add_texts<'a>(names: &mut Names<'a>, texts: &'a [Text]) -> Result<(), AllocError>
    ensures { OnOk result (names.new ≡ with_names names.old texts.now) }
{
    for text in texts {
        names.add(text.as_str().as_bytes())?;
    }
    Ok(())
}
