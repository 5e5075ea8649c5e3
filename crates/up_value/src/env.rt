//! Environments: distinct keys with values, in order.
ghost use Rattle.std.specs.Prelude.{◌≡◌, ◌<◌, ◌↔◌, [], ◌∷◌, MatchOption, false, true, length, OnOk, OnErr, IfOk, IfErr, IsTrue, if◌then◌else◌, ◌&&◌, slice_get, option_map, Some};
ghost use Rattle.std.specs.List.{after_first, before_first, list_all};
ghost use Rattle.up_value.specs.Names.{has_equals, is_equals, is_key, is_key_start, is_key_byte, is_value};
ghost use Rattle.up_value.specs.Bindings.{value_of, set_in, set_all, are_bindings};
ghost use Rattle.up_value.specs.Pairs.{pairs_bindings, shared_bindings};

use crate::fault::TextFault;
use crate::pairs::Pairs;
use crate::text::Text;
use std::alloc::{AllocError, Global};
use std::marker::Model;
use std::rc::Rc;

/// Distinct keys with values, seen by contracts as the list of their pairs in order. Copies share the pairs until one of them changes.
#[derive(Debug)]
pub struct Env {
    alloc: Global,
    // `None` if there is no pair.
    pairs: Option<Rc<Pairs>>,
}

impl Model for Env {
    ghost use Rattle.std.specs.Prelude.{◌≡◌, List, ℕ, true};
    ghost use Rattle.up_value.specs.Bindings.{are_bindings};
    ghost use Rattle.up_value.specs.Pairs.{shared_bindings};

    ghost Value = { List (List ℕ × List ℕ) };

    ghost view = { λ e. shared_bindings e.pairs };

    ghost invariant = { λ e. are_bindings (shared_bindings e.pairs) ≡ true };
}

/// Whether a key may begin with the byte: a letter or `_`.
#[tactic(auto, unfolding(crate::specs::Names::is_key_start))]
pub fn is_key_start(byte: u8) -> bool
    ensures { result ≡ is_key_start byte }
{
    matches!(byte, b'A'..=b'Z' | b'a'..=b'z' | b'_')
}

/// Whether a key may have the byte: a letter, a digit or `_`.
#[tactic(auto, unfolding(crate::specs::Names::is_key_byte))]
pub fn is_key_byte(byte: u8) -> bool
    ensures { result ≡ is_key_byte byte }
{
    is_key_start(byte) || matches!(byte, b'0'..=b'9')
}

fn are_key_bytes(bytes: &[u8]) -> bool
    ensures { result ≡ list_all is_key_byte bytes.now }
{
    bytes.iter().all(|byte| is_key_byte(*byte))
}

/// Whether the text is a key: a letter or `_`, then letters, digits and `_`.
pub fn is_key(text: &str) -> bool
    ensures { result ≡ is_key text.now }
{
    match text.as_bytes().split_first() {
        Some((first, rest)) => is_key_start(*first) && are_key_bytes(rest),
        None => false,
    }
}

/// The parts of a text before and after its first `=`, or `None` if it has none.
pub fn split_pair(text: &str) -> Option<(&str, &str)>
    ensures { MatchOption result (has_equals text.now ≡ false) (λ parts. (has_equals text.now ≡ true)
        × (parts.0.now ≡ before_first is_equals text.now) × (parts.1.now ≡ after_first is_equals text.now)) }
{
    text.split_once('=')
}

/// Whether the text may be a value: it has no byte 0.
pub fn is_value(text: &str) -> bool
    ensures { result ≡ is_value text.now }
{
    text.as_bytes().iter().all(|byte| *byte != 0)
}

// Gives these pairs memory of their own if others share them.
fn unshare(alloc: Global, pairs: &mut Rc<Pairs>) -> Result<(), AllocError>
    requires { are_bindings (pairs_bindings pairs.old.value) ≡ true }
    ensures { pairs_bindings pairs.new.value ≡ pairs_bindings pairs.old.value }
{
    if Rc::strong_count(pairs) == 1 {
        return Ok(());
    }
    let shared: &Rc<Pairs> = pairs;
    let own = shared.as_ref().copy(alloc)?;
    *pairs = Rc::new(alloc, own)?;
    Ok(())
}

// Sets a key of pairs that others may share; what these see stays.
fn insert_shared(
    alloc: Global,
    pairs: &mut Rc<Pairs>,
    key: &str,
    value: Text,
) -> Result<(), AllocError>
    requires { are_bindings (pairs_bindings pairs.old.value) ≡ true }
    ensures set { OnOk result (pairs_bindings pairs.new.value
        ≡ set_in key.now value (pairs_bindings pairs.old.value)) }
    ensures unchanged { OnErr result (pairs_bindings pairs.new.value
        ≡ pairs_bindings pairs.old.value) }
{
    unshare(alloc, pairs)?;
    match Rc::get_mut(pairs) {
        Some(own) => own.set(alloc, key, value),
        // Only a weak reference could be in the way, and none is ever made.
        None => Err(AllocError),
    }
}

// The pairs of a first key.
fn first_pair(alloc: Global, key: &str, value: Text) -> Result<Rc<Pairs>, AllocError>
    ensures { IfOk result (λ pairs. pairs_bindings pairs.value ≡ (key.now, value) ∷ []) }
{
    let pairs = Pairs::of_one(alloc, key, value)?;
    let pairs = Rc::new(alloc, pairs)?;
    Ok(pairs)
}

// Sets a key; out of memory nothing changes.
fn insert_in(
    alloc: Global,
    pairs: &mut Option<Rc<Pairs>>,
    key: &str,
    value: Text,
) -> Result<(), AllocError>
    requires { are_bindings (shared_bindings pairs.old) ≡ true }
    ensures set { OnOk result (shared_bindings pairs.new
        ≡ set_in key.now value (shared_bindings pairs.old)) }
    ensures unchanged { OnErr result (shared_bindings pairs.new ≡ shared_bindings pairs.old) }
{
    match pairs {
        Some(shared) => insert_shared(alloc, shared, key, value),
        None => {
            *pairs = Some(first_pair(alloc, key, value)?);
            Ok(())
        }
    }
}

fn share(pairs: &Option<Rc<Pairs>>) -> Result<Option<Rc<Pairs>>, AllocError>
    ensures { IfOk result (λ shared. shared_bindings shared ≡ shared_bindings pairs.now) }
{
    match pairs {
        Some(pairs) => {
            let shared = pairs.clone()?;
            Ok(Some(shared))
        }
        None => Ok(None),
    }
}

// Written out, so that a caller sees one call where it drops an environment, with or without pairs.
impl Drop for Env {
    fn drop(self) {
        let Env { alloc: _, pairs } = self;
        drop(pairs);
    }
}

impl Env {
    /// An empty environment.
    pub fn new(alloc: Global) -> Self
        ensures { result ≡ [] }
    {
        Env { alloc, pairs: None }
    }

    pub fn len(&self) -> usize
        ensures { result ≡ length self.now }
    {
        match &self.pairs {
            Some(pairs) => pairs.as_ref().len(),
            None => 0,
        }
    }

    pub fn is_empty(&self) -> bool
        ensures { IsTrue result ↔ (self.now ≡ []) }
    {
        self.len() == 0
    }

    /// The value of a key. Takes no memory.
    pub fn get(&self, key: &str) -> Option<&str>
        ensures { option_map (λ value. value.now) result ≡ value_of key.now self.now }
    {
        match &self.pairs {
            Some(pairs) => pairs.as_ref().get(key),
            None => None,
        }
    }

    /// The key and the value at a position. Takes no memory.
    pub fn at(&self, i: usize) -> (&str, &str)
        requires { i < length self.now }
        ensures pair { slice_get self.now i ≡ Some (result.0.now, result.1.now) }
        ensures key { is_key result.0.now ≡ true }
        ensures value { is_value result.1.now ≡ true }
    {
        match &self.pairs {
            Some(pairs) => pairs.as_ref().at(i),
            None => unreachable!(),
        }
    }

    /// Sets a key: an existing key keeps its position and takes the new value, and a new one goes last. Fails with `BadName` for a bad key
    /// or value; on failure nothing changes.
    pub fn set(&mut self, key: &str, value: &str) -> Result<(), TextFault>
        ensures ok { OnOk result ((self.new ≡ set_in key.now value.now self.old)
            × IsTrue (is_key key.now && is_value value.now)) }
        ensures refused { IfErr result (λ fault. fault
            ≡ (if is_key key.now && is_value value.now then TextFault.Memory else TextFault.BadName)) }
        ensures unchanged { OnErr result (self.new ≡ self.old) }
    {
        if !is_key(key) || !is_value(value) {
            return Err(TextFault::BadName);
        }
        self.put(key, value)?;
        Ok(())
    }

    // Sets a key that is already known to be valid.
    fn put(&mut self, key: &str, value: &str) -> Result<(), AllocError>
        requires key { is_key key.now ≡ true }
        requires value { is_value value.now ≡ true }
        ensures ok { OnOk result (self.new ≡ set_in key.now value.now self.old) }
        ensures unchanged { OnErr result (self.new ≡ self.old) }
    {
        let value = Text::from_str(self.alloc, value)?;
        insert_in(self.alloc, &mut self.pairs, key, value)
    }

    // Sets each key of `other` in turn. Out of memory, those set so far stay.
    fn put_all(&mut self, other: &Env) -> Result<(), AllocError>
        ensures { OnOk result (self.new ≡ set_all self.old other.now) }
    {
        for i in 0..other.len() {
            let (key, value) = other.at(i);
            self.put(key, value)?;
        }
        Ok(())
    }

    /// Sets each key of `other` in turn. Works on a copy, so a failure changes nothing.
    pub fn append(&mut self, other: &Env) -> Result<(), AllocError>
        ensures ok { OnOk result (self.new ≡ set_all self.old other.now) }
        ensures unchanged { OnErr result (self.new ≡ self.old) }
    {
        if self.is_empty() {
            self.pairs = share(&other.pairs)?;
            return Ok(());
        }
        let mut both = self.copy()?;
        both.put_all(other)?;
        *self = both;
        Ok(())
    }

    /// The same pairs, which both share until one of them changes.
    pub fn copy(&self) -> Result<Self, AllocError>
        ensures { IfOk result (λ env. env ≡ self.now) }
    {
        let pairs = share(&self.pairs)?;
        Ok(Env {
            alloc: self.alloc,
            pairs,
        })
    }
}
