//! What texts expand to.
use crate::tables::{Pair, env_of, fields};
use std::alloc::Global;
use std::test::Fail;
use up_text::{Env, Expanded, TextFault, expand, is_expandable};

// The keys that are set; all others are not.
const SET: &'static [Pair] = &[("K", ""), ("J", "y"), ("KEY", "v"), ("_9", "u")];

// In each row a text, and what it gives with these keys, or the key that it lacks, or that it is malformed, whatever is set.
const ROWS: &'static str = "\
# Plain text.
|gives|
plain } {text}|gives|plain } {text}
5$|gives|5$
$|gives|$
$5|gives|$5
$ J|gives|$ J
$$J|gives|$y
$\u{e9}|gives|$\u{e9}
# Keys.
$Z|lacks|Z
${Z}|lacks|Z
$J$J|gives|yy
$_9${_9}|gives|uu
$Z$Y|lacks|Z
$KEYx|lacks|KEYx
${KEY}x|gives|vx
$KEY.x|gives|v.x
$K-x|gives|-x
$J0|lacks|J0
$J\u{e9}|gives|y\u{e9}
# Texts that stand in.
${K:-x}$J|gives|xy
${K-x}$J|gives|y
${K:-}|gives|
${Z-}|gives|
${Z:-x}|gives|x
${J:-x}|gives|y
${Z-a}b}|gives|ab}
${Z-{a}b}|gives|{ab}
${Z-$}|gives|$
${Z-a-b:-c}|gives|a-b:-c
\u{e9}$J\u{20ac}${Z-\u{fc}}\u{1f600}|gives|\u{e9}y\u{20ac}\u{fc}\u{1f600}
# Texts in texts.
${J-$Z}|gives|y
${J:-${Z}}$J|gives|yy
${J-${Z:-${Y}}}-|gives|y-
${Z-${Y-${J}}}|gives|y
${Z-${J-${Y}}w}|gives|yw
${K:-$J${K-n}}|gives|y
${J-}$Z${Y}|lacks|Z
${Z-a$Y}|lacks|Y
# Sixteen deep.
${A-${A-${A-${A-${A-${A-${A-${A-${A-${A-${A-${A-${A-${A-${A-${A-z}}}}}}}}}}}}}}}}|gives|z
${A-${A-${A-${A-${A-${A-${A-${A-${A-${A-${A-${A-${A-${A-${A-${A-$J}}}}}}}}}}}}}}}}|gives|y
${A-${A-${A-${A-${A-${A-${A-${A-${A-${A-${A-${A-${A-${A-${A-${J}}}}}}}}}}}}}}}}|gives|y
${J-${A-${A-${A-${A-${A-${A-${A-${A-${A-${A-${A-${A-${A-${A-${A-z}}}}}}}}}}}}}}}}|gives|y
# Seventeen deep.
${A-${A-${A-${A-${A-${A-${A-${A-${A-${A-${A-${A-${A-${A-${A-${A-${A-z}}}}}}}}}}}}}}}}}|malformed|
${A-${A-${A-${A-${A-${A-${A-${A-${A-${A-${A-${A-${A-${A-${A-${A-${J}}}}}}}}}}}}}}}}}|malformed|
${J-${A-${A-${A-${A-${A-${A-${A-${A-${A-${A-${A-${A-${A-${A-${A-${A-z}}}}}}}}}}}}}}}}}|malformed|
# Malformed.
${Z|malformed|
${}|malformed|
${|malformed|
${J|malformed|
${J-|malformed|
${J-x|malformed|
${J+x}|malformed|
${J:x}|malformed|
${J:|malformed|
${J:-|malformed|
${J:+x}|malformed|
${5}|malformed|
${ J}|malformed|
${J }|malformed|
${J=x}|malformed|
${J\u{e9}}|malformed|
# Malformed where it isn't needed.
${J-${}}|malformed|
${J-${Z}|malformed|
${J-${Z+x}}|malformed|
$Z${|malformed|
${Z-${5}}|malformed|
";

// What a text came to, in the words of a row.
fn is_outcome(expanded: &Result<Expanded, TextFault>, outcome: &str, wanted: &str) -> bool {
    match expanded {
        Ok(Expanded::Text(text)) => outcome == "gives" && text.is(wanted),
        Ok(Expanded::Unset(key)) => outcome == "lacks" && key.is(wanted),
        Err(fault) => outcome == "malformed" && *fault == TextFault::BadExpansion,
    }
}

fn comes_to(alloc: Global, text: &str, env: &Env, outcome: &str, wanted: &str) -> bool {
    let expanded = expand(alloc, text, env);
    let is_outcome = is_outcome(&expanded, outcome, wanted);
    drop(expanded);
    is_outcome
}

fn holds(alloc: Global, row: &str, env: &Env, none: &Env) -> bool {
    let Some((text, outcome, wanted)) = fields(row) else {
        return row.starts_with('#');
    };
    let malformed = outcome == "malformed";
    is_expandable(text) != malformed
        && comes_to(alloc, text, env, outcome, wanted)
        && (!malformed || comes_to(alloc, text, none, outcome, wanted))
}

fn check(alloc: Global, rows: &'static str, env: &Env) -> Result<(), Fail> {
    let none = Env::new(alloc);
    for row in rows.lines() {
        if !holds(alloc, row, env, &none) {
            return Err(Fail::from(row));
        }
    }
    Ok(())
}

#[test]
fn texts_expand(rt: HostRuntime) -> Result<(), Fail> {
    let env = env_of(rt.alloc(), SET)?;
    let checked = check(rt.alloc(), ROWS, &env);
    drop(env);
    checked
}
