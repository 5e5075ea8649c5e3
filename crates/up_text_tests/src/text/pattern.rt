//! Patterns.
use crate::tables::{Long, long_text};
use crate::text::fnmatch_table::ROWS;
use std::alloc::{AllocError, Global};
use std::test::Fail;
use up_text::{glob, supported};

// In each row a pattern, and behind it texts that it matches, after a `+`, and texts that it doesn't, after a `-`. Tables are texts, as that of
// fnmatch(3) is, since the prover would go through each string of an array.
const WORKED_OUT: &'static str = r"# The worked rows of the format.
tty[!0-9]* +ttyS0 +tty/ +tty-1 -tty1 -tty -TTYS0
[ab +[ab -a -b -[a
a\* +a* -ab -a\* -a\b -a
[:a] +: +a -[ -[:a] -
# Bytes that mean themselves, `/`, a leading dot and `^` among them.
 + -a
abc +abc -ab -abcd -abd - -ABC
]-!^ +]-!^ -] -
# Runs.
* + +a +/a/.b +.a
a* +a +ab +a/b - -ba
*b +b +.b +bb +abab - -ba
*ab*ba* +abba +ababba +xabxbax -aba -baab
a*b*c +abc +abbcbc +aXbYc -acb -abcb -ac
** + +ab
*a? +ab +aaa +xaa +aab -a -abb -
# One byte.
? +a +/ +. - -ab -é
a?c +abc +a?c -ac -abbc
# A backslash.
\a\? +a? -ab -\a\?
\\ +\ -\\ -
\[a] +[a] -a -\a
a\ -a -a\ -a\\ -
*\ - -\ -a
# Sets and ranges.
[ab] +a +b - -c -ab -[ab]
[a-c]x +ax +bx +cx -dx --x -x -Ax
[!a-c] +d +! +- +/ -a -b -c - -dd
[c-a] -a -b -c --
[!c-a] +a +b +- - -bb
# Sets of odd items.
[]] +] - -[]] -[
[]a] +] +a -[ -a] -]a]
[!]a] +b +! -] -a -!a]
[]-a] +] +^ +_ +a -- -\ -b
[a-] +a +- -b -,
[--0] +- +. +/ +0 -, -1
[a-c-e] +a +b +c +- +e -d
[^a] +^ +a -b -^a
# Sets of special bytes.
[a!] +a +! -b
[*?[] +* +? +[ -a - -]
[\]a\-c\\] +] +a +- +c +\ -b -[
[\a-\c] +a +b +c -\ -- -d
[\!a] +! +a -b -\
[-a] +- +a -b -.
[!-a] +b +. -- -a
[!!] +a +- -! -
# Sets with brackets.
[a-\]] -a -] -- -\ -a]
[Z-\]] +Z +[ +\ +] -Y -^ --
[\--0] +- +/ +0 -, -\ -1
[[] +[ -] -[]
[[-]] +[] +-] -[ -]] -\]
[a]] +a] -a -]]
[a[b]c +ac +[c +bc -[a[b]c -]c
[a]-[b] +a-b -ab -a
*[0-9] +0 +a9 +9a9 - -9a
# Sets that aren't closed.
[ +[ - -[[
[] +[] -] -[
[!] +[!] -a -! -[]
[a- +[a- -a -- -[a
[a* +[a +[abc -a -[b -*
[?b +[xb +[?b -? -b -[b
[a\] +[a] -a -] -\
[\ -[ -[\ -\
[[a +[[a -[a -a
[[!] +[ +! -a -[[!]
*[!] +[!] +a[!] -a -
# Each `[` before `:` here stands after a backslash, or before one, or begins the set, or is outside of one.
[a\[:x] +a +[ +: +x -\ -b
[[\:x] +[ +: +x -\
[a-\[:x] +: +x -a -[ --
\[[:x] +[: +[x -: -[[:x]
[[x]:] +[:] +x:] -: -[
[: +[: -: -[
[.-=] +. +/ +9 += -- ->
# Sets behind the item after a star: of those up to the next star the longest is kept while the text is gone through.
*?[ab]c +xac +aabc +xcxbc +ccac -ac -xxc -xacx -bc
*x[a-c][!de]*[fg] +xbbf +xxaag +xaxbbxf -xbdf -xbf -xabh
*[ab][a-f]z +adz +aaadz +bbz -az -dbz -adzz
*?[abc][a-cx]? +aabc +xxbxb +aaabbb -abc -xdxb -aadb
*?[a][bc]*?[de][f] +xabxdf +aacaaef +xabxabxef -abxdf -xabdf -xabxdfx
";

// Whether a pattern matches the texts after `+`, and doesn't match those after `-`.
fn are_told(pattern: &[u8], items: &str) -> bool {
    for item in items.split(' ') {
        let is_told = match item.strip_prefix('+') {
            Some(text) => glob(pattern, text.as_bytes()),
            None => match item.strip_prefix('-') {
                Some(text) => !glob(pattern, text.as_bytes()),
                None => false,
            },
        };
        if !is_told {
            return false;
        }
    }
    true
}

fn holds(row: &str) -> bool {
    match row.split_once(' ') {
        Some((pattern, items)) => supported(pattern.as_bytes())
            && are_told(pattern.as_bytes(), items),
        None => false,
    }
}

fn check(rows: &'static str) -> Result<(), Fail> {
    for row in rows.lines() {
        if !row.starts_with('#') && !holds(row) {
            return Err(Fail::from(row));
        }
    }
    Ok(())
}

// Patterns and texts that aren't in UTF-8, and whether they match.
const BYTES: &'static [(&'static [u8], &'static [u8], bool)] = &[
    (b"\xff\x00", b"\xff\x00", true),
    (b"\xff\x00", b"\xff", false),
    (b"\xff\x00", b"\xff0", false),
    (b"?", b"\x80", true),
];

fn check_bytes(cases: &[(&[u8], &[u8], bool)]) -> Result<(), Fail> {
    for (place, case) in cases.iter().enumerate() {
        if !supported(case.0) || glob(case.0, case.1) != case.2 {
            return Err(Fail::from(place));
        }
    }
    Ok(())
}

// The worked rows of the format, and what fnmatch(3) says.
#[test]
fn worked_rows() -> Result<(), Fail> {
    check(WORKED_OUT)?;
    check(ROWS)?;
    check_bytes(BYTES)
}

const UNSUPPORTED: &'static str =
    "[[:x] [[:] [[:alpha:]] [a[.x] [a[=x [[: [![:x] [][:a] [a-[:b] [a-[=b [a[:-z] x*[ab][[.a] [a]b[[= [a[b[:";

// A pattern that isn't supported matches nothing, itself neither.
fn check_unsupported(patterns: &'static str) -> Result<(), Fail> {
    for pattern in patterns.split(' ') {
        let bytes = pattern.as_bytes();
        if supported(bytes) || glob(bytes, bytes) || !are_told(bytes, "- -[ -: -a -x -b -xa.") {
            return Err(Fail::from(pattern));
        }
    }
    Ok(())
}

#[test]
fn classes() -> Result<(), Fail> {
    check_unsupported(UNSUPPORTED)
}

// A long pattern, and whether it matches a long text.
struct LongCase {
    pattern: Long,
    text: Long,
    matches: bool,
}

// To look for the end of each set, or to read what follows the star at each byte again, would be quadratic, and run out of time under `rt try`.
const LONG: &'static [LongCase] = &[
    // A run of opening brackets matches itself alone.
    LongCase {
        pattern: ("", "[", 5_000, "", 0),
        text: ("", "[", 5_000, "", 0),
        matches: true,
    },
    LongCase {
        pattern: ("", "[", 5_000, "", 0),
        text: ("", "[", 1, "", 0),
        matches: false,
    },
    LongCase {
        pattern: ("*", "[", 50_000, "", 0),
        text: ("", "a", 50_000, "", 0),
        matches: false,
    },
    LongCase {
        pattern: ("*[", "a", 50_000, "]c", 0),
        text: ("", "b", 50_000, "", 0),
        matches: false,
    },
    LongCase {
        pattern: ("*?[", "a", 50_000, "]c", 0),
        text: ("", "b", 50_000, "", 0),
        matches: false,
    },
];

fn is_matched(alloc: Global, pattern: &[u8], case: &LongCase) -> Result<bool, AllocError> {
    let text = long_text(alloc, &case.text)?;
    let matches = glob(pattern, text.as_bytes());
    drop(text);
    Ok(supported(pattern) && matches == case.matches)
}

fn check_long(alloc: Global, cases: &[LongCase]) -> Result<(), Fail> {
    for (place, case) in cases.iter().enumerate() {
        let pattern = long_text(alloc, &case.pattern)?;
        let is_matched = is_matched(alloc, pattern.as_bytes(), case);
        drop(pattern);
        if !is_matched? {
            return Err(Fail::from(place));
        }
    }
    Ok(())
}

#[test]
fn long_patterns_are_passed_once(rt: HostRuntime) -> Result<(), Fail> {
    check_long(rt.alloc(), LONG)
}
