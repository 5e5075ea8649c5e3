//! Patterns over bytes, by fnmatch(3).
ghost use Rattle.std.specs.Prelude.{◌≡◌, ◌<◌, ◌≤◌, ◌+◌, drop, ◌≢◌, ◌&&◌, nat_le, [], ◌∷◌, length, false, MatchOption, IfSome, None, replicate};
ghost use Rattle.std.specs.Option.{ForSome};
ghost use Rattle.up_pattern.specs.declared.pattern.Symbol.TheVariants.{Bare};
ghost use Rattle.up_pattern.specs.Pattern.{symbols, is_bare, is_class_mark, is_not, is_open, is_close, byte_of, body, inner, ranges, is_among, lone_item, set_item, more, all_items, admits_byte, is_class, supported, glob};
ghost use Rattle.up_pattern.specs.Lists.{begins};
ghost use Rattle.up_pattern.specs.Matching.{First, Kept, AdmitLone, admits_lone, items_match, EndsSo, IsFlat, MeansItem, RunGives, SearchGives, Settled, IsEnd, Knows, TakesNone, TakesOne, range_end, item_of_part, is_run, star_from, unclosed_width};

pub mod laws;

/// A symbol of a pattern: a bare byte, a byte after a backslash, or a backslash at the pattern's end.
#[derive(Clone, Copy)]
enum Symbol {
    Bare(u8),
    Escaped(u8),
    Trailing,
}

/// An item of a pattern. A set is its bytes from the first item on.
#[derive(Clone, Copy)]
enum Part<'a> {
    Run,
    Any,
    Only(u8),
    Among { inverted: bool, set: &'a [u8] },
    Never,
    Class,
}

/// How a set ends: it contains a class, it isn't closed, or it is closed and this is the rest after its `]`.
#[derive(Clone, Copy)]
enum SetEnd<'a> {
    Class,
    Open,
    Closed(&'a [u8]),
}

/// An item, the rest after it, and whether a set may follow: after one that isn't closed, none does.
#[derive(Clone, Copy)]
struct Reading<'a> {
    part: Part<'a>,
    rest: &'a [u8],
    ahead: bool,
}

/// A set that was read: the index of its item in the text, the rest after it, and for each byte whether it matches, if known.
#[derive(Clone, Copy)]
struct Memo<'a> {
    index: usize,
    part: Part<'a>,
    rest: &'a [u8],
    known: [Option<bool>; 256],
}

/// A text with at most `unclosed` bytes after the last `]`, whose sets contain no class.
#[derive(Clone, Copy)]
struct Segment<'a> {
    text: &'a [u8],
    unclosed: usize,
    ghost settled: { Settled unclosed text.now },
}

/// The outcome of the items up to the next `*`: they are the last and match, they fail, or this is left after the `*`.
#[derive(Clone, Copy)]
enum Outcome<'a, 'b> {
    Matches,
    Fails,
    Run { rest: &'a [u8], left: &'b [u8] },
}

#[tactic(auto, using(crate::proofs::SetReading::firsts))]
fn next_symbol(text: &[u8]) -> Option<(Symbol, &[u8])>
    ensures { MatchOption result (symbols text.now ≡ []) (λ next. First text.now next.0 next.1.now) }
{
    let Some((byte, rest)) = text.split_first() else {
        return None;
    };
    if *byte != b'\\' {
        return Some((Symbol::Bare(*byte), rest));
    }
    match rest.split_first() {
        Some((escaped, beyond)) => Some((Symbol::Escaped(*escaped), beyond)),
        None => Some((Symbol::Trailing, rest)),
    }
}

// The rest after this byte, which isn't a backslash, or `None` if the text doesn't begin with it.
#[tactic(auto, using(crate::proofs::SetReading::firsts))]
fn strip(text: &[u8], byte: u8) -> Option<&[u8]>
    requires { byte ≢ 92 }
    ensures { MatchOption result (begins (is_bare byte) (symbols text.now)
        ≡ false) (λ rest. First text.now (Bare byte) rest.now) }
{
    let Some((first, rest)) = text.split_first() else {
        return None;
    };
    if *first == byte {
        return Some(rest);
    }
    None
}

fn begins(text: &[u8], byte: u8) -> bool
    requires { byte ≢ 92 }
    ensures { result ≡ begins (is_bare byte) (symbols text.now) }
{
    match strip(text, byte) {
        Some(_) => true,
        None => false,
    }
}

#[tactic(auto, using(crate::proofs::SetReading::marks))]
fn begins_class_mark(text: &[u8]) -> bool
    ensures { result ≡ begins is_class_mark (symbols text.now) }
{
    begins(text, b':') || begins(text, b'.') || begins(text, b'=')
}

fn is_open(symbol: Symbol) -> bool
    ensures { result ≡ is_open symbol }
{
    match symbol {
        Symbol::Bare(byte) => byte == b'[',
        Symbol::Escaped(_) => false,
        Symbol::Trailing => false,
    }
}

fn is_close(symbol: Symbol) -> bool
    ensures { result ≡ is_close symbol }
{
    match symbol {
        Symbol::Bare(byte) => byte == b']',
        Symbol::Escaped(_) => false,
        Symbol::Trailing => false,
    }
}

// The number of bytes after the pattern's last bare `]`, all of them if it has none. No set is closed among these bytes.
#[tactic(auto, using(crate::proofs::Unclosed::unclosed_lengths))]
fn unclosed_length(pattern: &[u8]) -> usize
    ensures { result ≡ unclosed_width (symbols pattern.now) }
{
    let mut length = pattern.len();
    let mut rest = pattern;
    'symbols: while let Some((symbol, beyond)) = next_symbol(rest) {
        if is_close(symbol) {
            length = beyond.len();
        }
        rest = beyond;
    }
    length
}

fn byte_of(symbol: Symbol) -> u8
    ensures { result ≡ byte_of symbol }
{
    match symbol {
        Symbol::Bare(byte) => byte,
        Symbol::Escaped(byte) => byte,
        Symbol::Trailing => b'\\',
    }
}

// Whether this symbol of a set, followed by these bytes, begins a class.
fn begins_class(symbol: Symbol, beyond: &[u8]) -> bool
    ensures { result ≡ (is_open symbol && begins is_class_mark (symbols beyond.now)) }
{
    is_open(symbol) && begins_class_mark(beyond)
}

// How the set that begins with these bytes ends.
#[tactic(auto, using(crate::proofs::SetReading::set_ends))]
fn set_end(set: &[u8]) -> SetEnd<'_>
    ensures { EndsSo result set.now }
{
    let mut rest = set;
    'items: while let Some((symbol, beyond)) = next_symbol(rest) {
        if begins_class(symbol, beyond) {
            return SetEnd::Class;
        }
        if let Some(end) = strip(beyond, b']') {
            return SetEnd::Closed(end);
        }
        rest = beyond;
    }
    SetEnd::Open
}

// The last byte of the range that begins with this item, and the rest after it.
#[tactic(auto, using(crate::proofs::SetReading::range_ends))]
fn range_end(low: u8, beyond: &[u8]) -> (u8, &[u8])
    ensures shorter { length result.1.now ≤ length beyond.now }
    ensures end { (result.0, symbols result.1.now) ≡ range_end low (symbols beyond.now) }
{
    let Some(end) = strip(beyond, b'-') else {
        return (low, beyond);
    };
    if begins(end, b']') {
        return (low, beyond);
    }
    match next_symbol(end) {
        Some((high, rest)) => (byte_of(high), rest),
        None => (low, beyond),
    }
}

fn is_between(low: u8, byte: u8, high: u8) -> bool
    ensures { result ≡ (nat_le low byte && nat_le byte high) }
{
    low <= byte && byte <= high
}

// Whether the set that begins with these bytes contains this byte.
#[tactic(auto, using(crate::proofs::SetReading::amongs))]
fn is_among(set: &[u8], byte: u8) -> bool
    ensures { result ≡ is_among byte (ranges (body (symbols set.now))) }
{
    let mut rest = set;
    'items: while let Some((symbol, beyond)) = next_symbol(rest) {
        let low = byte_of(symbol);
        let (high, beyond) = range_end(low, beyond);
        if is_between(low, byte, high) {
            return true;
        }
        if begins(beyond, b']') {
            return false;
        }
        rest = beyond;
    }
    false
}

fn lone_part(symbol: Symbol) -> Part<'static>
    ensures { item_of_part result ≡ lone_item symbol }
{
    match symbol {
        Symbol::Bare(b'*') => Part::Run,
        Symbol::Bare(b'?') => Part::Any,
        Symbol::Bare(byte) => Part::Only(byte),
        Symbol::Escaped(byte) => Part::Only(byte),
        Symbol::Trailing => Part::Never,
    }
}

// The item that a `[` before this text begins; `set` is the text from the first item of the set on.
fn read_inner<'a>(text: &'a [u8], inverted: bool, set: &'a [u8]) -> Reading<'a>
    requires inverted { inverted ≡ begins is_not (symbols text.now) }
    requires inner { symbols set.now ≡ inner (symbols text.now) }
    requires shorter { length set.now ≤ length text.now }
    ensures { MeansItem (set_item (symbols text.now)) text.now result }
{
    match set_end(set) {
        SetEnd::Class => Reading {
            part: Part::Class,
            rest: text,
            ahead: true,
        },
        SetEnd::Open => Reading {
            part: Part::Only(b'['),
            rest: text,
            ahead: false,
        },
        SetEnd::Closed(rest) => Reading {
            part: Part::Among { inverted, set },
            rest,
            ahead: true,
        },
    }
}

// The item that a `[` before this text begins.
#[tactic(auto, using(crate::proofs::ItemReading::inners))]
fn read_set(text: &[u8]) -> Reading<'_>
    ensures { MeansItem (set_item (symbols text.now)) text.now result }
{
    match strip(text, b'!') {
        Some(set) => read_inner(text, true, set),
        None => read_inner(text, false, text),
    }
}

// The first item of a text. If no sets follow, each `[` is an ordinary byte.
#[tactic(auto, using(crate::proofs::ItemReading::readings))]
fn read(text: &[u8], ahead: bool) -> Option<Reading<'_>>
    requires { ahead ≡ false → IsFlat text.now }
    ensures none { MatchOption result (all_items text.now ≡ []) (λ reading. all_items text.now
        ≡ item_of_part reading.part ∷ all_items reading.rest.now) }
    ensures flat { IfSome result (λ reading. reading.ahead ≡ false → IsFlat reading.rest.now) }
    ensures end { IfSome result (λ reading. IsEnd (symbols reading.rest.now) (symbols text.now)) }
    ensures shorter { IfSome result (λ reading. length reading.rest.now < length text.now) }
{
    let (symbol, rest) = next_symbol(text)?;
    if ahead && is_open(symbol) {
        return Some(read_set(rest));
    }
    Some(Reading {
        part: lone_part(symbol),
        rest,
        ahead,
    })
}

// The first item of a text with at most this many bytes after the last `]`, whose sets contain no class.
#[tactic(auto, using(crate::proofs::Unclosed::settlings))]
fn read_settled(text: &[u8], unclosed: usize) -> Option<Reading<'_>>
    requires { Settled unclosed text.now }
    ensures none { MatchOption result (all_items text.now ≡ []) (λ reading. all_items text.now
        ≡ item_of_part reading.part ∷ all_items reading.rest.now) }
    ensures settled { IfSome result (λ reading. Settled unclosed reading.rest.now) }
    ensures shorter { IfSome result (λ reading. length reading.rest.now < length text.now) }
{
    read(text, unclosed < text.len())
}

fn admits(part: &Part, byte: u8) -> bool
    ensures { result ≡ admits_byte (item_of_part part.now) byte }
{
    match part {
        Part::Run => false,
        Part::Any => true,
        Part::Only(other) => *other == byte,
        Part::Among { inverted, set } => is_among(set, byte) != *inverted,
        Part::Never => false,
        Part::Class => false,
    }
}

fn is_run(part: &Part) -> bool
    ensures { result ≡ is_run (item_of_part part.now) }
{
    match part {
        Part::Run => true,
        Part::Any => false,
        Part::Only(_) => false,
        Part::Among { .. } => false,
        Part::Never => false,
        Part::Class => false,
    }
}

fn is_class(part: &Part) -> bool
    ensures { result ≡ is_class (item_of_part part.now) }
{
    match part {
        Part::Run => false,
        Part::Any => false,
        Part::Only(_) => false,
        Part::Among { .. } => false,
        Part::Never => false,
        Part::Class => true,
    }
}

// For no byte is it known yet whether an item matches it.
fn nothing_known() -> [Option<bool>; 256]
    ensures { result ≡ replicate 256 None }
{
    [None; 256]
}

// Whether the item matches the byte. The answer is kept, so a set is searched once for each byte.
fn recall(known: &mut [Option<bool>], part: &Part, byte: u8) -> bool
    requires room { length known.old ≡ 256 }
    requires knows { Knows known.old (item_of_part part.now) }
    ensures answer { result ≡ admits_byte (item_of_part part.now) byte }
    ensures room { length known.new ≡ 256 }
    ensures knows { Knows known.new (item_of_part part.now) }
{
    let place = usize::from(byte);
    match known[place] {
        Some(admitted) => admitted,
        None => {
            let admitted = admits(part, byte);
            known[place] = Some(admitted);
            admitted
        }
    }
}

// The length of a set in bytes with its `]`, and 0 for any other item. Which set is kept changes how long a match takes, never its answer.
fn set_width(part: &Part, rest: &[u8]) -> usize {
    match part {
        Part::Among { set, .. } => set.len().saturating_sub(rest.len()),
        Part::Run => 0,
        Part::Any => 0,
        Part::Only(_) => 0,
        Part::Never => 0,
        Part::Class => 0,
    }
}

// The item of this index, with which the rest of the text begins: the kept one, or else it is read.
fn read_kept<'a>(
    memo: &Option<Memo<'a>>,
    segment: &Segment<'a>,
    index: usize,
    rest: &'a [u8],
) -> Option<Reading<'a>>
    requires kept { ForSome memo.now (Kept segment.now.unclosed segment.now.text.now) }
    requires place { all_items rest.now ≡ drop index (all_items segment.now.text.now) }
    requires settled { Settled segment.now.unclosed rest.now }
    requires shorter { index + length rest.now ≤ length segment.now.text.now }
    ensures none { MatchOption result (all_items rest.now ≡ []) (λ reading. all_items rest.now
        ≡ item_of_part reading.part ∷ all_items reading.rest.now) }
    ensures settled { IfSome result (λ reading. Settled segment.now.unclosed reading.rest.now) }
    ensures shorter { IfSome result (λ reading. index + length reading.rest.now
        < length segment.now.text.now) }
{
    if let Some(kept) = memo {
        if kept.index == index {
            return Some(Reading {
                part: kept.part,
                rest: kept.rest,
                ahead: true,
            });
        }
    }
    read_settled(rest, segment.unclosed)
}

// The length of the kept set in bytes, 0 if none is kept.
fn kept_width(memo: &Option<Memo<'_>>) -> usize {
    match memo {
        Some(kept) => set_width(&kept.part, kept.rest),
        None => 0,
    }
}

// Keeps this set if it is longer than the kept one.
fn keep<'a>(memo: &mut Option<Memo<'a>>, segment: &Segment<'a>, index: usize, reading: &Reading<'a>)
    requires kept { ForSome memo.old (Kept segment.now.unclosed segment.now.text.now) }
    requires place { drop index (all_items segment.now.text.now) ≡ item_of_part reading.now.part
        ∷ all_items reading.now.rest.now }
    requires settled { Settled segment.now.unclosed reading.now.rest.now }
    requires shorter { index + length reading.now.rest.now < length segment.now.text.now }
    ensures { ForSome memo.new (Kept segment.now.unclosed segment.now.text.now) }
{
    if kept_width(memo) < set_width(&reading.part, reading.rest) {
        *memo = Some(Memo {
            index,
            part: reading.part,
            rest: reading.rest,
            known: nothing_known(),
        });
    }
}

// Whether the item of this index, which was read as `reading`, matches the byte.
fn admits_kept<'a>(
    memo: &mut Option<Memo<'a>>,
    segment: &Segment<'a>,
    index: usize,
    reading: &Reading<'a>,
    byte: u8,
) -> bool
    requires kept { ForSome memo.old (Kept segment.now.unclosed segment.now.text.now) }
    requires place { drop index (all_items segment.now.text.now) ≡ item_of_part reading.now.part
        ∷ all_items reading.now.rest.now }
    requires settled { Settled segment.now.unclosed reading.now.rest.now }
    requires shorter { index + length reading.now.rest.now < length segment.now.text.now }
    ensures answer { result ≡ admits_byte (item_of_part reading.now.part) byte }
    ensures kept { ForSome memo.new (Kept segment.now.unclosed segment.now.text.now) }
{
    if let Some(kept) = memo {
        if kept.index == index {
            return recall(&mut kept.known, &kept.part, byte);
        }
    }
    keep(memo, segment, index, reading);
    admits(&reading.part, byte)
}

// The rest after the first byte, or `None` if the item of this index doesn't match it.
fn take_byte<'a, 'b>(
    memo: &mut Option<Memo<'a>>,
    segment: &Segment<'a>,
    index: usize,
    reading: &Reading<'a>,
    bytes: &'b [u8],
) -> Option<&'b [u8]>
    requires kept { ForSome memo.old (Kept segment.now.unclosed segment.now.text.now) }
    requires place { drop index (all_items segment.now.text.now) ≡ item_of_part reading.now.part
        ∷ all_items reading.now.rest.now }
    requires settled { Settled segment.now.unclosed reading.now.rest.now }
    requires shorter { index + length reading.now.rest.now < length segment.now.text.now }
    ensures taken { MatchOption result (TakesNone (item_of_part reading.now.part) bytes.now)
        (λ beyond. TakesOne (item_of_part reading.now.part) bytes.now beyond.now) }
    ensures kept { ForSome memo.new (Kept segment.now.unclosed segment.now.text.now) }
{
    match bytes.split_first() {
        Some((byte, beyond)) => {
            if admits_kept(memo, segment, index, reading, *byte) {
                Some(beyond)
            } else {
                None
            }
        }
        None => None,
    }
}

// Whether this byte of a pattern is an item of one byte by itself, and matches the other byte.
fn admits_lone(byte: u8, other: u8) -> bool
    ensures { result ≡ admits_lone byte other }
{
    byte == b'?' || (byte == other && byte != b'*' && byte != b'[' && byte != b'\\')
}

// The number of bytes at the start of the text that are items by themselves and match the bytes at the same positions. Comparing them takes
// far less time than reading one item after another. The number changes how long a match takes, never its answer.
fn lone_length(text: &[u8], bytes: &[u8]) -> usize
    ensures text { result ≤ length text.now }
    ensures bytes { result ≤ length bytes.now }
    ensures admits { AdmitLone result text.now bytes.now }
{
    let both = text.len().min(bytes.len());
    'places: for index in 0..both {
        if !admits_lone(text[index], bytes[index]) {
            return index;
        }
    }
    both
}

// Takes one byte for each item up to a `*`. After an item that was read, those that are bytes by themselves are compared at once.
#[tactic(auto, using(crate::proofs::Matches::takings))]
fn take_items<'a, 'b>(
    memo: &mut Option<Memo<'a>>,
    segment: &Segment<'a>,
    bytes: &'b [u8],
) -> Outcome<'a, 'b>
    requires { ForSome memo.old (Kept segment.now.unclosed segment.now.text.now) }
    ensures gives { RunGives segment.now.unclosed result segment.now.text.now bytes.now }
    ensures kept { ForSome memo.new (Kept segment.now.unclosed segment.now.text.now) }
{
    let mut index = 0;
    let mut rest = segment.text;
    let mut left = bytes;
    'items: while let Some(reading) = read_kept(memo, segment, index, rest) {
        if is_run(&reading.part) {
            return Outcome::Run {
                rest: reading.rest,
                left,
            };
        }
        match take_byte(memo, segment, index, &reading, left) {
            Some(beyond) => left = beyond,
            None => return Outcome::Fails,
        }
        let lone = lone_length(reading.rest, left);
        rest = reading.rest.split_at(lone).1;
        left = left.split_at(lone).1;
        index = index + 1 + lone;
    }
    if left.is_empty() {
        Outcome::Matches
    } else {
        Outcome::Fails
    }
}

// Looks for the first position where this item and the items of the text after it match up to the next `*`. The item comes after a `*`, so
// it is read once and not again at each position.
fn search<'a, 'b>(part: &Part, text: &'a [u8], unclosed: usize, bytes: &'b [u8]) -> Outcome<'a, 'b>
    requires one { is_run (item_of_part part.now) ≡ false }
    requires settled { Settled unclosed text.now }
    ensures { SearchGives unclosed result (item_of_part part.now) text.now bytes.now }
{
    let mut known = nothing_known();
    let mut memo = None;
    let segment = Segment { text, unclosed };
    let mut left = bytes;
    'places: while let Some((byte, beyond)) = left.split_first() {
        if recall(&mut known, part, *byte) {
            match take_items(&mut memo, &segment, beyond) {
                Outcome::Matches => return Outcome::Matches,
                Outcome::Fails => {}
                Outcome::Run { rest, left } => return Outcome::Run { rest, left },
            }
        }
        left = beyond;
    }
    Outcome::Fails
}

// Whether the text's items match some end of the bytes. Only the last `*` is ever extended: if the items after it fail, a longer match of
// an earlier `*` wouldn't help.
fn matches_end(text: &[u8], unclosed: usize, bytes: &[u8]) -> bool
    requires { Settled unclosed text.now }
    ensures { result ≡ star_from (items_match (all_items text.now)) bytes.now }
{
    let mut rest = text;
    let mut left = bytes;
    'runs: while let Some(first) = read_settled(rest, unclosed) {
        if is_run(&first.part) {
            rest = first.rest;
            continue;
        }
        match search(&first.part, first.rest, unclosed, left) {
            Outcome::Matches => return true,
            Outcome::Fails => return false,
            Outcome::Run {
                rest: later,
                left: beyond,
            } => {
                rest = later;
                left = beyond;
            }
        }
    }
    true
}

/// Whether no set of the pattern, closed or not, contains a class: a `[` before `:`, `.` or `=`.
pub fn supported(pattern: &[u8]) -> bool
    ensures { result ≡ supported pattern.now }
{
    let mut ahead = true;
    let mut rest = pattern;
    'items: while let Some(reading) = read(rest, ahead) {
        if is_class(&reading.part) {
            return false;
        }
        rest = reading.rest;
        ahead = reading.ahead;
    }
    true
}

/// Whether the pattern matches all of the bytes, by fnmatch(3), with `/` and a leading dot as ordinary bytes. Classes in sets aren't
/// supported: a pattern that isn't `supported` matches nothing.
pub fn glob(pattern: &[u8], bytes: &[u8]) -> bool
    ensures { result ≡ glob pattern.now bytes.now }
{
    if !supported(pattern) {
        return false;
    }
    let unclosed = unclosed_length(pattern);
    let segment = Segment {
        text: pattern,
        unclosed,
    };
    match take_items(&mut None, &segment, bytes) {
        Outcome::Matches => true,
        Outcome::Fails => false,
        Outcome::Run { rest, left } => matches_end(rest, unclosed, left),
    }
}
