//! Names, environments, texts and lists.
mod expansion;
mod fnmatch_table;
mod lexer;
mod pattern;

use crate::tables::{Pair, env_of, is_printed};
use std::alloc::{AllocError, Global};
use std::test::Fail;
use up_text::{Env, Items, Name, Text, TextFault};

// Texts, and whether each is a name.
const NAMES: &'static [(&'static str, bool)] = &[
    ("a", true),
    ("net/apache", true),
    ("x!~", true),
    ("", false),
    ("a b", false),
    ("a=b", false),
    ("a(b", false),
    ("a#", false),
    ("\u{e9}", false),
    ("a\"b", false),
];

// Whether a name bears its text, and is equal to its copy alone.
fn is_named(name: &Name, text: &str, other: &Name) -> Result<bool, AllocError> {
    let copied = name.copy()?;
    let is_same = copied.is(name);
    drop(copied);
    Ok(name.as_str() == text && is_same && !other.is(name))
}

// Whether a text is a name, or is refused as none.
fn is_name(alloc: Global, text: &str, named: bool, other: &Name) -> Result<bool, TextFault> {
    match Name::new(alloc, text) {
        Ok(name) => {
            let is_named = is_named(&name, text, other);
            drop(name);
            Ok(is_named? && named)
        }
        Err(TextFault::BadName) => Ok(!named),
        Err(fault) => Err(fault),
    }
}

fn check_names(alloc: Global, names: &[(&'static str, bool)], other: &Name) -> Result<(), Fail> {
    for case in names {
        if !is_name(alloc, case.0, case.1, other)? {
            return Err(Fail::from(case.0));
        }
    }
    Ok(())
}

#[test]
fn names(rt: HostRuntime) -> Result<(), Fail> {
    let other = Name::new(rt.alloc(), "b")?;
    let checked = check_names(rt.alloc(), NAMES, &other);
    drop(other);
    checked
}

fn is_pair(env: &Env, at: usize, key: &str, value: &str) -> bool {
    if at >= env.len() {
        return false;
    }
    let found = env.at(at);
    found.0 == key && found.1 == value && env.get(key) == Some(value)
}

// Whether these keys, and no others, have these values, in this order.
fn has_pairs(env: &Env, pairs: &[Pair]) -> bool {
    for (at, pair) in pairs.iter().enumerate() {
        if !is_pair(env, at, pair.0, pair.1) {
            return false;
        }
    }
    env.len() == pairs.len() && env.is_empty() == pairs.is_empty() && env.get("C").is_none()
}

// Keys that are set, an environment that is appended then, and what both give.
struct Case {
    name: &'static str,
    set: &'static [Pair],
    appended: &'static [Pair],
    given: &'static [Pair],
}

const ENVIRONMENTS: &'static [Case] = &[
    Case {
        name: "an_environment_begins_empty",
        set: &[],
        appended: &[],
        given: &[],
    },
    Case {
        name: "keys_are_set",
        set: &[("A", "0"), ("B", "2"), ("A", "3")],
        appended: &[],
        given: &[("A", "3"), ("B", "2")],
    },
    Case {
        name: "environments_are_appended",
        set: &[("A", "1")],
        appended: &[("A", "3"), ("B", "2")],
        given: &[("A", "3"), ("B", "2")],
    },
];

const BAD_PAIRS: &'static [Pair] = &[("", "x"), ("1a", "x"), ("a-b", "x"), ("A", "x\0y")];

fn refuses_all(env: &mut Env, pairs: &[Pair]) -> bool {
    for pair in pairs {
        if env.set(pair.0, pair.1) != Err(TextFault::BadName) {
            return false;
        }
    }
    true
}

fn append(alloc: Global, env: &mut Env, pairs: &[Pair]) -> Result<(), TextFault> {
    let appended = env_of(alloc, pairs)?;
    let done = env.append(&appended);
    drop(appended);
    Ok(done?)
}

// Whether a copy gives these pairs, and a new value once that is set.
fn copy_gives(env: &Env, pairs: &[Pair]) -> Result<bool, TextFault> {
    let mut copied = env.copy()?;
    let has_pairs = has_pairs(&copied, pairs);
    let set = copied.set("A", "new");
    let is_set = copied.get("A") == Some("new");
    drop(copied);
    set?;
    Ok(has_pairs && is_set)
}

// Whether an environment gives what it should after another is appended, and no less after its copy was changed, and after what it refuses.
fn gives(alloc: Global, env: &mut Env, case: &Case) -> Result<bool, TextFault> {
    append(alloc, env, case.appended)?;
    Ok(copy_gives(env, case.given)? && refuses_all(env, BAD_PAIRS) && has_pairs(env, case.given))
}

fn check_environments(alloc: Global, cases: &[Case]) -> Result<(), Fail> {
    for case in cases {
        let mut env = env_of(alloc, case.set)?;
        let gives = gives(alloc, &mut env, case);
        drop(env);
        if !gives? {
            return Err(Fail::from(case.name));
        }
    }
    Ok(())
}

#[test]
fn environments(rt: HostRuntime) -> Result<(), Fail> {
    check_environments(rt.alloc(), ENVIRONMENTS)
}

// More keys than any environment here has.
const KEYS: &'static str = "\
K0 K1 K2 K3 K4 K5 K6 K7 K8 K9 K10 K11 K12 K13 K14 K15 K16 K17 K18 K19 K20 K21 K22 K23 K24 K25 K26 K27 K28 K29 K30 K31 K32 K33 K34 K35 K36 \
K37 K38 K39 K40 K41 K42 K43 K44 K45 K46 K47 K48 K49 K50 K51 K52 K53 K54 K55 K56 K57 K58 K59 K60 K61 K62 K63 K64 K65 K66 K67 K68 K69 K70 K71 \
K72 K73 K74 K75 K76 K77 K78 K79 K80 K81 K82 K83 K84 K85 K86 K87 K88 K89 K90 K91 K92 K93 K94 K95 K96 K97 K98 K99 K100 K101 K102";

// Sets so many of these keys, each to its own name.
fn set_many(env: &mut Env, count: usize) -> Result<(), TextFault> {
    for (place, key) in KEYS.split(' ').enumerate() {
        if place < count {
            env.set(key, key)?;
        }
    }
    Ok(())
}

// Whether these are all keys, in this order.
fn has_many(env: &Env, count: usize) -> bool {
    for (place, key) in KEYS.split(' ').enumerate() {
        if place < count && !is_pair(env, place, key, key) {
            return false;
        }
    }
    env.len() == count && env.get("K").is_none()
}

// Whether a copy gets more keys, and all of them once again, while the environment keeps its own.
fn grows_apart(env: &Env, count: usize) -> Result<bool, TextFault> {
    let more_keys = count.saturating_add(3);
    let mut copied = env.copy()?;
    let more = set_many(&mut copied, more_keys);
    let again = set_many(&mut copied, more_keys);
    let has_more = has_many(&copied, more_keys);
    drop(copied);
    more?;
    again?;
    Ok(has_more && has_many(env, count))
}

fn many_grow_apart(alloc: Global, count: usize) -> Result<bool, TextFault> {
    let mut env = Env::new(alloc);
    let set = set_many(&mut env, count);
    let apart = grows_apart(&env, count);
    drop(env);
    set?;
    apart
}

const COUNTS: &'static [usize] = &[0, 13, 14, 15, 16, 17, 100];

fn check_counts(alloc: Global, counts: &[usize]) -> Result<(), Fail> {
    for count in counts {
        if !many_grow_apart(alloc, *count)? {
            return Err(Fail::from(*count));
        }
    }
    Ok(())
}

// Up to 16 keys are in a list, and more in a map.
#[test]
fn environments_of_many_keys(rt: HostRuntime) -> Result<(), Fail> {
    check_counts(rt.alloc(), COUNTS)
}

// A short text, which lies in the value itself, and one that doesn't.
const TEXTS: &'static [&'static str] = &["", "a\u{e9}", "a text of more than twenty-four bytes"];

fn is_text(text: &Text, wanted: &str) -> bool {
    text.as_str() == wanted && text.is(wanted) && !text.is("a")
}

// Whether a text is this one, and its copies are.
fn copies_are(text: Result<Text, AllocError>, wanted: &str) -> Result<bool, AllocError> {
    let text = text?;
    let copied = text.copy()?;
    let cloned = text.clone()?;
    Ok(is_text(&text, wanted) && is_text(&copied, wanted) && is_text(&cloned, wanted))
}

fn check_texts(alloc: Global, texts: &[&'static str]) -> Result<(), Fail> {
    for text in texts {
        if !copies_are(Text::from_str(alloc, text), text)?
            || !copies_are(Ok(Text::new(String::from_str(alloc, text)?)), text)?
        {
            return Err(Fail::from(*text));
        }
    }
    Ok(())
}

const ITEMS: &'static [u8] = &[3, 1];

fn are_items(alloc: Global) -> Result<bool, AllocError> {
    let items = Items::new(vec![in alloc; 3, 1]?);
    let are_lent = items.as_slice() == ITEMS;
    let taken = items.into_vec();
    Ok(are_lent && taken.as_slice() == ITEMS)
}

#[test]
fn texts_and_items(rt: HostRuntime) -> Result<(), Fail> {
    assert!(rt; copies_are(Ok(Text::empty()), "")? && are_items(rt.alloc())?);
    check_texts(rt.alloc(), TEXTS)
}

const FAULTS: &'static [(TextFault, u8, &'static str)] = &[
    (TextFault::UnterminatedQuote, 5, "UnterminatedQuote"),
    (TextFault::TrailingBackslash, 7, "TrailingBackslash"),
    (TextFault::BadName, 12, "BadName"),
    (TextFault::BadExpansion, 14, "BadExpansion"),
    (TextFault::Memory, 42, "Memory"),
];

fn check_faults(alloc: Global, faults: &[(TextFault, u8, &'static str)]) -> Result<(), Fail> {
    for case in faults {
        if case.0.number() != case.1 || !is_printed(alloc, &case.0, case.2)? {
            return Err(Fail::from(case.2));
        }
    }
    Ok(())
}

#[test]
fn faults_of_texts(rt: HostRuntime) -> Result<(), Fail> {
    check_faults(rt.alloc(), FAULTS)
}
