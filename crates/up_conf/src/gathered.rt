//! Gathers the keys that stanzas set and export. A job may have many, so each is looked up in a tree: keys chosen by the author of a file
//! cost no more than others.
ghost use Rattle.std.specs.Prelude.{◌≡◌, ◌<◌, ◌++◌, ◌∷◌, [], List, ℕ, IfOk, OnOk, Some, not, if◌then◌else◌, length, slice_set};
ghost use Rattle.std.specs.List.{list_any};
ghost use Rattle.std.specs.BTreeMap.{get_by};
ghost use Rattle.std.specs.Cmp.Lexicographic.{slice_cmp};
ghost use Rattle.std.specs.Ordering.{nat_cmp};
ghost use Rattle.std.specs.Str.{bytes_eq};
ghost use Rattle.up_value.specs.Values.{Bytes};
ghost use Rattle.up_conf.specs.Gathering.{AreIndexed, AreSeen};
ghost use Rattle.up_conf.specs.Jobs.{with_new_items, with_new_item, env_with, export_with, put, fold_stanzas};

use std::alloc::{AllocError, Global};
use std::collections::{BTreeMap, BTreeSet};
use up_stanza::{Setting, Stanza};
use up_text::{Items, Text};

/// The positions of the keys that are gathered so far.
type Places<'a> = BTreeMap<&'a str, usize>;

fn find(places: &Places, key: &str) -> Option<usize>
    ensures { result ≡ get_by (λ k. slice_cmp nat_cmp key.now k.now) places.now }
{
    match places.get(key) {
        Some(place) => Some(*place),
        None => None,
    }
}

// Records the position of a key.
fn index<'a>(places: &mut Places<'a>, key: &'a str, place: usize) -> Result<(), AllocError>
    ensures { OnOk result ((other : Bytes)
        → get_by (λ k. slice_cmp nat_cmp other k.now) places.new
        ≡ (if bytes_eq key.now other then Some place
        else get_by (λ k. slice_cmp nat_cmp other k.now) places.old)) }
{
    places.insert(key, place)?;
    Ok(())
}

fn replace(settings: &mut Vec<Setting>, place: usize, setting: Setting)
    requires { place < length settings.old.items }
    ensures { settings.new.items ≡ slice_set settings.old.items place setting }
{
    settings[place] = setting;
}

// Adds a setting whose key is new.
fn add<'a>(
    settings: &mut Vec<Setting>,
    places: &mut Places<'a>,
    key: &'a str,
    setting: Setting,
) -> Result<(), AllocError>
    ensures settings { OnOk result (settings.new.items ≡ settings.old.items ++ setting ∷ []) }
    ensures places { OnOk result ((other : Bytes)
        → get_by (λ k. slice_cmp nat_cmp other k.now) places.new
        ≡ (if bytes_eq key.now other then Some (length settings.old.items)
        else get_by (λ k. slice_cmp nat_cmp other k.now) places.old)) }
{
    index(places, key, settings.len())?;
    settings.push(setting)?;
    Ok(())
}

// An existing key keeps its position; the new value replaces the old.
fn put<'a>(
    settings: &mut Vec<Setting>,
    places: &mut Places<'a>,
    alloc: Global,
    setting: &'a Setting,
) -> Result<(), AllocError>
    requires { AreIndexed places.old settings.old.items }
    ensures put { OnOk result (settings.new.items ≡ put setting.now settings.old.items) }
    ensures indexed { OnOk result (AreIndexed places.new settings.new.items) }
{
    let copied = setting.copy()?;
    let key = setting.key.as_str();
    match find(places, key) {
        Some(place) => replace(settings, place, copied),
        None => add(settings, places, key, copied)?,
    }
    Ok(())
}

fn put_stanza<'a>(
    settings: &mut Vec<Setting>,
    places: &mut Places<'a>,
    alloc: Global,
    stanza: &'a Stanza,
) -> Result<(), AllocError>
    requires { AreIndexed places.old settings.old.items }
    ensures put { OnOk result (settings.new.items ≡ env_with settings.old.items stanza.now) }
    ensures indexed { OnOk result (AreIndexed places.new settings.new.items) }
{
    match stanza {
        Stanza::Env(setting) => put(settings, places, alloc, setting),
        _ => Ok(()),
    }
}

fn put_stanzas<'a>(
    settings: &mut Vec<Setting>,
    places: &mut Places<'a>,
    alloc: Global,
    stanzas: &'a [Stanza],
) -> Result<(), AllocError>
    requires { AreIndexed places.old settings.old.items }
    ensures put { OnOk result (settings.new.items ≡ fold_stanzas env_with settings.old.items stanzas.now) }
    ensures indexed { OnOk result (AreIndexed places.new settings.new.items) }
{
    for stanza in stanzas {
        put_stanza(settings, places, alloc, stanza)?;
    }
    Ok(())
}

/// The settings of two files' stanzas; those of the second replace those of the first.
#[tactic(auto, using(crate::proofs::Gathers::summed_both))]
pub(crate) fn gather_env(
    alloc: Global,
    conf: &[Stanza],
    over: &[Stanza],
) -> Result<Items<Setting>, AllocError>
    ensures { IfOk result (λ env. env ≡ fold_stanzas env_with [] (conf.now ++ over.now)) }
{
    let mut settings: Vec<Setting> = Vec::new(alloc);
    let mut places: Places = BTreeMap::new(alloc);
    put_stanzas(&mut settings, &mut places, alloc, conf)?;
    put_stanzas(&mut settings, &mut places, alloc, over)?;
    Ok(Items::new(settings))
}

// Records a key, and returns whether it is new.
fn note<'a>(seen: &mut BTreeSet<&'a str>, key: &'a str) -> Result<bool, AllocError>
    ensures new { IfOk result (λ new. (keys : List Bytes) → AreSeen seen.old keys
        → new ≡ not (list_any (bytes_eq key.now) keys)) }
    ensures seen { OnOk result ((keys : List Bytes) → AreSeen seen.old keys
        → AreSeen seen.new (with_new_item bytes_eq keys key.now)) }
{
    let new = seen.insert(key)?;
    Ok(new)
}

// Adds a key, unless it is present already.
fn add_key<'a>(
    keys: &mut Vec<Text>,
    seen: &mut BTreeSet<&'a str>,
    alloc: Global,
    key: &'a str,
) -> Result<(), AllocError>
    requires { AreSeen seen.old keys.old.items }
    ensures added { OnOk result (keys.new.items ≡ with_new_item bytes_eq keys.old.items key.now) }
    ensures seen { OnOk result (AreSeen seen.new keys.new.items) }
{
    let new = note(seen, key)?;
    if new {
        let copied = Text::from_str(alloc, key)?;
        keys.push(copied)?;
    }
    Ok(())
}

fn add_keys<'a>(
    keys: &mut Vec<Text>,
    seen: &mut BTreeSet<&'a str>,
    alloc: Global,
    others: &'a [Text],
) -> Result<(), AllocError>
    requires { AreSeen seen.old keys.old.items }
    ensures added { OnOk result (keys.new.items ≡ with_new_items bytes_eq keys.old.items others.now) }
    ensures seen { OnOk result (AreSeen seen.new keys.new.items) }
{
    for other in others {
        add_key(keys, seen, alloc, other.as_str())?;
    }
    Ok(())
}

fn add_stanza<'a>(
    keys: &mut Vec<Text>,
    seen: &mut BTreeSet<&'a str>,
    alloc: Global,
    stanza: &'a Stanza,
) -> Result<(), AllocError>
    requires { AreSeen seen.old keys.old.items }
    ensures added { OnOk result (keys.new.items ≡ export_with keys.old.items stanza.now) }
    ensures seen { OnOk result (AreSeen seen.new keys.new.items) }
{
    match stanza {
        Stanza::Export(others) => add_keys(keys, seen, alloc, others.as_slice()),
        _ => Ok(()),
    }
}

fn add_stanzas<'a>(
    keys: &mut Vec<Text>,
    seen: &mut BTreeSet<&'a str>,
    alloc: Global,
    stanzas: &'a [Stanza],
) -> Result<(), AllocError>
    requires { AreSeen seen.old keys.old.items }
    ensures added { OnOk result (keys.new.items ≡ fold_stanzas export_with keys.old.items stanzas.now) }
    ensures seen { OnOk result (AreSeen seen.new keys.new.items) }
{
    for stanza in stanzas {
        add_stanza(keys, seen, alloc, stanza)?;
    }
    Ok(())
}

/// The keys that the stanzas of two files export, each once.
#[tactic(auto, using(crate::proofs::Gathers::summed_both))]
pub(crate) fn gather_export(
    alloc: Global,
    conf: &[Stanza],
    over: &[Stanza],
) -> Result<Items<Text>, AllocError>
    ensures { IfOk result (λ export. export ≡ fold_stanzas export_with [] (conf.now ++ over.now)) }
{
    let mut keys: Vec<Text> = Vec::new(alloc);
    let mut seen: BTreeSet<&str> = BTreeSet::new(alloc);
    add_stanzas(&mut keys, &mut seen, alloc, conf)?;
    add_stanzas(&mut keys, &mut seen, alloc, over)?;
    Ok(Items::new(keys))
}
