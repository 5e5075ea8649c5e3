//! The pairs of an environment.
ghost use Rattle.std.specs.Prelude.{◌≡◌, ◌<◌, [], ◌∷◌, ◌++◌, IfOk, OnErr, OnOk, Some, length, option_map, position, slice_get, string_bytes, true};
ghost use Rattle.up_value.specs.Bindings.{are_bindings, bindings_of, is_of, set_in, value_of};
ghost use Rattle.up_value.specs.Pairs.{pairs_bindings};

use crate::text::Text;
use indexmap::IndexMap;
use std::alloc::{AllocError, Global};

/// So many pairs are sought in a list, which takes less time and memory than a map.
const FEW: usize = 16;

/// Room for the variables that most events have.
const FIRST_ROOM: usize = 4;

/// Few pairs are kept in a list, and many in a map.
#[derive(Debug, Drop)]
pub(crate) enum Pairs {
    Few(Vec<(Text, Text)>),
    Many(IndexMap<String, Text>),
}

fn is_of(key: &str, pair: &(Text, Text)) -> bool
    ensures { result ≡ is_of key.now pair.now }
{
    key == pair.0.as_str()
}

fn place_of(pairs: &[(Text, Text)], key: &str) -> Option<usize>
    ensures { result ≡ position (is_of key.now) pairs.now }
{
    pairs.iter().position(|pair| is_of(key, pair))
}

fn value_in_list<'a>(pairs: &'a [(Text, Text)], key: &str) -> Option<&'a str>
    ensures { option_map (λ value. value.now) result ≡ value_of key.now pairs.now }
{
    match place_of(pairs, key) {
        Some(place) => Some(pairs[place].1.as_str()),
        None => None,
    }
}

fn value_in_map<'a>(pairs: &'a IndexMap<String, Text>, key: &str) -> Option<&'a str>
    ensures { option_map (λ value. value.now) result ≡ value_of key.now (bindings_of pairs.now.entries) }
{
    match pairs.get(key) {
        Some(value) => Some(value.as_str()),
        None => None,
    }
}

fn count_of_map(pairs: &IndexMap<String, Text>) -> usize
    ensures { result ≡ length (bindings_of pairs.now.entries) }
{
    pairs.len()
}

fn pair_of_map(pairs: &IndexMap<String, Text>, i: usize) -> (&str, &str)
    requires { i < length (bindings_of pairs.now.entries) }
    ensures { slice_get (bindings_of pairs.now.entries) i ≡ Some (result.0.now, result.1.now) }
{
    match pairs.get_index(i) {
        Some((key, value)) => (key.as_str(), value.as_str()),
        None => unreachable!(),
    }
}

fn insert(pairs: &mut IndexMap<String, Text>, key: String, value: Text) -> Result<(), AllocError>
    ensures set { OnOk result (bindings_of pairs.new.entries
        ≡ set_in (string_bytes key) value (bindings_of pairs.old.entries)) }
    ensures unchanged { OnErr result (pairs.new.entries ≡ pairs.old.entries) }
{
    match pairs.insert(key, value) {
        Ok(earlier) => {
            drop(earlier);
            Ok(())
        }
        Err(refused) => {
            drop(refused);
            Err(AllocError)
        }
    }
}

// Adds a key that isn't among the others.
fn add(
    alloc: Global,
    pairs: &mut Vec<(Text, Text)>,
    key: &str,
    value: Text,
) -> Result<(), AllocError>
    ensures added { OnOk result (pairs.new.items ≡ pairs.old.items ++ (key.now, value) ∷ []) }
    ensures unchanged { OnErr result (pairs.new.items ≡ pairs.old.items) }
{
    let key = Text::from_str(alloc, key)?;
    pairs.push((key, value))?;
    Ok(())
}

fn set_in_list(
    alloc: Global,
    pairs: &mut Vec<(Text, Text)>,
    key: &str,
    value: Text,
) -> Result<(), AllocError>
    ensures set { OnOk result (pairs.new.items ≡ set_in key.now value pairs.old.items) }
    ensures unchanged { OnErr result (pairs.new.items ≡ pairs.old.items) }
{
    match place_of(pairs, key) {
        Some(place) => {
            pairs[place].1 = value;
            Ok(())
        }
        None => add(alloc, pairs, key, value),
    }
}

// The pairs of a list in memory of their own.
fn copied(alloc: Global, pairs: &[(Text, Text)]) -> Result<Vec<(Text, Text)>, AllocError>
    ensures { IfOk result (λ copied. copied.items ≡ pairs.now) }
{
    let mut copied = Vec::with_capacity(alloc, pairs.len() + 1)?;
    for pair in pairs {
        copied.push((pair.0.copy()?, pair.1.copy()?))?;
    }
    Ok(copied)
}

impl Pairs {
    /// A first key with its value.
    pub(crate) fn of_one(alloc: Global, key: &str, value: Text) -> Result<Self, AllocError>
        ensures { IfOk result (λ pairs. pairs_bindings pairs ≡ (key.now, value) ∷ []) }
    {
        let mut few = Vec::with_capacity(alloc, FIRST_ROOM)?;
        add(alloc, &mut few, key, value)?;
        Ok(Pairs::Few(few))
    }

    pub(crate) fn len(&self) -> usize
        ensures { result ≡ length (pairs_bindings self.now) }
    {
        match self {
            Pairs::Few(few) => few.len(),
            Pairs::Many(many) => count_of_map(many),
        }
    }

    pub(crate) fn get(&self, key: &str) -> Option<&str>
        ensures { option_map (λ value. value.now) result ≡ value_of key.now (pairs_bindings self.now) }
    {
        match self {
            Pairs::Few(few) => value_in_list(few, key),
            Pairs::Many(many) => value_in_map(many, key),
        }
    }

    pub(crate) fn at(&self, i: usize) -> (&str, &str)
        requires { i < length (pairs_bindings self.now) }
        ensures { slice_get (pairs_bindings self.now) i ≡ Some (result.0.now, result.1.now) }
    {
        match self {
            Pairs::Few(few) => (few[i].0.as_str(), few[i].1.as_str()),
            Pairs::Many(many) => pair_of_map(many, i),
        }
    }

    // The same pairs in a map of their own.
    fn mapped(&self, alloc: Global) -> Result<IndexMap<String, Text>, AllocError>
        requires { are_bindings (pairs_bindings self.now) ≡ true }
        ensures { IfOk result (λ map. bindings_of map.entries ≡ pairs_bindings self.now) }
    {
        let mut map = IndexMap::new(alloc);
        for i in 0..self.len() {
            let (key, value) = self.at(i);
            let value = Text::from_str(alloc, value)?;
            let key = String::from_str(alloc, key)?;
            insert(&mut map, key, value)?;
        }
        Ok(map)
    }

    /// The same pairs, in memory of their own.
    pub(crate) fn copy(&self, alloc: Global) -> Result<Self, AllocError>
        requires { are_bindings (pairs_bindings self.now) ≡ true }
        ensures { IfOk result (λ pairs. pairs_bindings pairs ≡ pairs_bindings self.now) }
    {
        match self {
            Pairs::Few(few) => Ok(Pairs::Few(copied(alloc, few)?)),
            Pairs::Many(_) => Ok(Pairs::Many(self.mapped(alloc)?)),
        }
    }

    // Whether these are as many pairs as a list has.
    fn is_full_list(&self) -> bool {
        match self {
            Pairs::Few(few) => few.len() >= FEW,
            Pairs::Many(_) => false,
        }
    }

    /// Sets a key: an existing key keeps its position, and a new one goes last. Out of memory nothing changes.
    pub(crate) fn set(&mut self, alloc: Global, key: &str, value: Text) -> Result<(), AllocError>
        requires { are_bindings (pairs_bindings self.old) ≡ true }
        ensures set { OnOk result (pairs_bindings self.new ≡ set_in key.now value (pairs_bindings self.old)) }
        ensures unchanged { OnErr result (pairs_bindings self.new ≡ pairs_bindings self.old) }
    {
        if self.is_full_list() {
            *self = Pairs::Many(self.mapped(alloc)?);
        }
        match self {
            Pairs::Few(few) => set_in_list(alloc, few, key, value),
            Pairs::Many(many) => insert(many, String::from_str(alloc, key)?, value),
        }
    }
}
