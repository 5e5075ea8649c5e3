//! Expressions, and the events that their leaves match.
use crate::tables::{Long, Pair, env_of, fields, is_number, is_printed, long_text};
use crate::written::is_written;
use std::alloc::{AllocError, Global};
use std::test::Fail;
use up_expr::{Condition, ExprFault, Leaf, Node, Root, Test, leaf_matches, parse_expr};
use up_text::{Env, Items, Lexer, Name, Text, TextFault, Token, next_word};

// The tokens of a stanza, where parentheses are tokens.
fn tokens_of(alloc: Global, text: &str) -> Result<Vec<Token>, Fail> {
    if text.len() >= 1_000_000 {
        return Err(Fail::from("the text is too long"));
    }
    let mut lexer = Lexer::new(text);
    lexer.parens(true);
    let mut tokens = Vec::new(alloc);
    for _ in 0..text.len() {
        match lexer.next(alloc)? {
            Some(token) => tokens.push(token)?,
            None => return Ok(tokens),
        }
    }
    Ok(tokens)
}

// Where one allocation is made to fail, the next call reads the same.
fn parse_tokens(alloc: Global, tokens: &[Token]) -> Result<Condition, ExprFault> {
    match parse_expr(alloc, tokens) {
        Err(ExprFault::Memory) => parse_expr(alloc, tokens),
        parsed => parsed,
    }
}

fn parse(alloc: Global, text: &str) -> Result<Result<Condition, ExprFault>, Fail> {
    let tokens = tokens_of(alloc, text)?;
    Ok(parse_tokens(alloc, tokens.as_slice()))
}

// Whether a tree is written so, and its copy too.
fn are_written(alloc: Global, condition: &Condition, tree: &str) -> Result<bool, AllocError> {
    let is_tree = is_written(alloc, condition, tree)?;
    let copied = condition.copy(alloc)?;
    let is_copied = is_written(alloc, &copied, tree);
    drop(copied);
    Ok(is_tree && is_copied?)
}

// In each row an expression, and the tree that it is, or the number of the fault for which it is refused.
const ROWS: &'static str = r#"# Operators group to the left.
a|is|a
a and b|is|(a and b)
a or b and c|is|((a or b) and c)
a and b or c and d|is|(((a and b) or c) and d)
a and (b or c)|is|(a and (b or c))
(a or b) and (c or d)|is|((a or b) and (c or d))
a or (b and (c or d) and e)|is|(a or ((b and (c or d)) and e))
((a))|is|a
# Leaves have values.
stopped a RESULT!=ok|is|stopped 'a' RESULT!='ok'
a x 'y z' K=v and b|is|(a 'x' 'y z' K='v' and b)
a "and" '(' \or|is|a 'and' '(' 'or'
"and" or 'or'|is|(and or or)
a K=v J!=w L!= M=b=c|is|a K='v' J!='w' L!='' M='b=c'
a k-x=1 =y !=z K!!=v|is|a 'k-x=1' '=y' '!=z' 'K!!=v'
a $X ${Y-b} [!c]* K=${Z}|is|a '$X' '${Y-b}' '[!c]*' K='${Z}'
a x K=v and (b or c J!=w)|is|(a 'x' K='v' and (b or c J!='w'))
# No expressions.
|refused|8
and|refused|8
x and|refused|8
or x|refused|8
x and or y|refused|8
x and )|refused|8
()|refused|8
(x|refused|8
x)|refused|8
(x) y|refused|8
x (y)|refused|8
(x) (y)|refused|8
(x and) y|refused|8
x K=v w|refused|9
x K!=v w|refused|9
x y K=v w and z|refused|9
# No names, patterns or values.
a=b|refused|12
'a b'|refused|12
$x|refused|12
x and ''|refused|12
a [[:x]|refused|13
a K=[[.b.]]|refused|13
a K!=x[a[=b]|refused|13
a ${Z|refused|14
a K=${Z|refused|14
a K!=${5}|refused|14
"#;

fn count_leaves(condition: &Condition) -> u32 {
    let mut count = 0u32;
    for node in condition.nodes().as_slice() {
        if matches!(node, Node::Leaf(_)) {
            count = count.wrapping_add(1);
        }
    }
    count
}

// Whether an expression is this tree, or has so many leaves, or is a leaf that matches an event, or differs from it.
fn is_outcome(
    alloc: Global,
    condition: &Condition,
    outcome: &str,
    wanted: &str,
    env: &Env,
) -> Result<bool, Fail> {
    match outcome {
        "is" => Ok(are_written(alloc, condition, wanted)?),
        "leaves" => Ok(is_number(wanted, count_leaves(condition))),
        "matches" | "differs" => {
            is_answered(alloc, condition, wanted, env, outcome == "matches")
        }
        _ => Ok(false),
    }
}

// Whether this is the outcome of an expression, or the number of the fault for which it is refused.
fn comes_to(
    alloc: Global,
    text: &str,
    outcome: &str,
    wanted: &str,
    env: &Env,
) -> Result<bool, Fail> {
    match parse(alloc, text)? {
        Ok(condition) => {
            let is_outcome = is_outcome(alloc, &condition, outcome, wanted, env);
            drop(condition);
            is_outcome
        }
        Err(fault) => Ok(outcome == "refused" && is_number(wanted, u32::from(fault.number()))),
    }
}

fn check(alloc: Global, rows: &'static str, env: &Env) -> Result<(), Fail> {
    for row in rows.lines() {
        let holds = match fields(row) {
            Some((text, outcome, wanted)) => comes_to(alloc, text, outcome, wanted, env)?,
            None => row.starts_with('#'),
        };
        if !holds {
            return Err(Fail::from(row));
        }
    }
    Ok(())
}

#[test]
fn expressions_are_parsed(rt: HostRuntime) -> Result<(), Fail> {
    check(rt.alloc(), ROWS, &Env::new(rt.alloc()))
}

// A long text, and with how many leaves it is read, or the number of its fault.
struct Large {
    name: &'static str,
    text: Long,
    outcome: &'static str,
    wanted: &'static str,
}

// At each limit a text and the next larger one; and one that ends a line within parentheses.
const LARGE: &'static [Large] = &[
    Large {
        name: "over lines",
        text: ("(a\n or b)", "", 0, "", 0),
        outcome: "is",
        wanted: "(a or b)",
    },
    // The tree is as deep as it has leaves.
    Large {
        name: "most leaves",
        text: ("", "a and ", 2_047, "a", 0),
        outcome: "leaves",
        wanted: "2048",
    },
    Large {
        name: "too many leaves",
        text: ("", "a and ", 2_048, "a", 0),
        outcome: "refused",
        wanted: "16",
    },
    Large {
        name: "most parentheses",
        text: ("", "(a and ", 256, "a", 256),
        outcome: "leaves",
        wanted: "257",
    },
    Large {
        name: "too many parentheses",
        text: ("", "(a and ", 257, "a", 257),
        outcome: "refused",
        wanted: "16",
    },
    Large {
        name: "most values",
        text: ("", "a ", 65_536, "", 0),
        outcome: "leaves",
        wanted: "1",
    },
    Large {
        name: "too many values",
        text: ("", "a ", 65_536, "a", 0),
        outcome: "refused",
        wanted: "16",
    },
];

fn check_large(alloc: Global, cases: &[Large], env: &Env) -> Result<(), Fail> {
    for case in cases {
        let text = long_text(alloc, &case.text)?;
        let comes = comes_to(alloc, text.as_str(), case.outcome, case.wanted, env);
        drop(text);
        if !comes? {
            return Err(Fail::from(case.name));
        }
    }
    Ok(())
}

#[test]
fn expressions_are_limited(rt: HostRuntime) -> Result<(), Fail> {
    check_large(rt.alloc(), LARGE, &Env::new(rt.alloc()))
}

// `K` is empty, and `P` no supported pattern.
const ENVIRONMENT: &'static [Pair] = &[("K", ""), ("J", "y"), ("P", "[[:x]")];

// In each row a leaf, and an event with its variables that it matches with these keys, or that it doesn't.
const MATCHES: &'static str = "\
# Names and values.
stopped a RESULT!=ok|matches|stopped JOB=a
stopped a RESULT!=ok|differs|stopped JOB=a RESULT=ok
stopped a RESULT!=ok|matches|stopped JOB=a RESULT=failed
stopped a RESULT!=ok|differs|stopped JOB=b
stopped a|differs|started JOB=a
e|matches|e X=a
e a b|matches|e X=a Y=b Z=c
e a b|differs|e Y=b X=a
e a b|differs|e X=a
e Y=b X=a|matches|e X=a Y=b
e a Y=b|differs|e X=a
# Patterns.
e tty[!0-9]*|matches|e D=ttyS0
e tty[!0-9]*|differs|e D=tty1
e X=*|matches|e X=
e X=*|differs|e
e X!=*|matches|e
e X!=*|differs|e X=a
# Expansions.
A X=${Z-1}|differs|A X=2
A X=${Z-1}|matches|A X=1
e ${K:-x}$J|matches|e X=xy
e X=$J|differs|e X=$J
e X=$K|matches|e X=
e X!=$J|differs|e X=y
e X=$Z|differs|e X=
e X!=$Z|differs|e
e X=$P|differs|e X=[[:x]
e X!=$P|differs|e X=a
";

// Where one allocation is made to fail, the next call answers the same.
fn matches(
    alloc: Global,
    leaf: &Leaf,
    event: &Name,
    vars: &Env,
    env: &Env,
) -> Result<bool, ExprFault> {
    match leaf_matches(alloc, leaf, event, vars, env) {
        Err(ExprFault::Memory) => leaf_matches(alloc, leaf, event, vars, env),
        found => found,
    }
}

// Sets the variables among words, each `KEY=VALUE`.
fn set_vars(vars: &mut Env, words: &str) -> Result<(), TextFault> {
    for word in words.split(' ') {
        if let Some((key, value)) = word.split_once('=') {
            vars.set(key, value)?;
        }
    }
    Ok(())
}

// Whether a leaf matches the event of these words, or doesn't.
fn answers_with(
    alloc: Global,
    leaf: &Leaf,
    words: &str,
    vars: &Env,
    env: &Env,
    matched: bool,
) -> Result<bool, Fail> {
    let event = Name::new(alloc, next_word(words).0)?;
    let found = matches(alloc, leaf, &event, vars, env);
    drop(event);
    Ok(found == Ok(matched))
}

fn answers(
    alloc: Global,
    leaf: &Leaf,
    words: &str,
    env: &Env,
    matched: bool,
) -> Result<bool, Fail> {
    let mut vars = Env::new(alloc);
    let answers = match set_vars(&mut vars, words) {
        Ok(()) => answers_with(alloc, leaf, words, &vars, env, matched),
        Err(fault) => Err(Fail::from(fault)),
    };
    drop(vars);
    answers
}

// Whether an expression is a leaf that does.
fn is_answered(
    alloc: Global,
    condition: &Condition,
    words: &str,
    env: &Env,
    matched: bool,
) -> Result<bool, Fail> {
    match condition.root().root() {
        Root::Leaf(leaf) => answers(alloc, leaf, words, env, matched),
        Root::And(_, _) | Root::Or(_, _) => Ok(false),
    }
}

// A leaf of the event e that no file may have: its variable X must not be a value, and another value may follow. An event, and whether it matches.
struct Made {
    differs: &'static str,
    place: Option<&'static str>,
    event: &'static str,
    matches: bool,
}

const MADE: &'static [Made] = &[
    // A malformed value fails its leaf too, also if it must not match.
    Made {
        differs: "${Z",
        place: None,
        event: "e",
        matches: false,
    },
    Made {
        differs: "${5}",
        place: None,
        event: "e",
        matches: false,
    },
    Made {
        differs: "[[:x]",
        place: None,
        event: "e",
        matches: false,
    },
    // The first positional value is for the first variable, whatever stands before it.
    Made {
        differs: "b",
        place: Some("a"),
        event: "e X=a",
        matches: true,
    },
    Made {
        differs: "b",
        place: Some("c"),
        event: "e X=a",
        matches: false,
    },
];

fn push_tests(alloc: Global, values: &mut Vec<Test>, case: &Made) -> Result<(), AllocError> {
    let key = Text::from_str(alloc, "X")?;
    let value = Text::from_str(alloc, case.differs)?;
    values.push(Test::Differs(key, value))?;
    if let Some(value) = case.place {
        let value = Text::from_str(alloc, value)?;
        values.push(Test::Place(value))?;
    }
    Ok(())
}

fn leaf_of(alloc: Global, case: &Made) -> Result<Leaf, TextFault> {
    let event = Name::new(alloc, "e")?;
    let mut values = Vec::new(alloc);
    match push_tests(alloc, &mut values, case) {
        Ok(()) => Ok(Leaf {
            event,
            values: Items::new(values),
        }),
        Err(refused) => {
            drop(event);
            drop(values);
            Err(TextFault::from(refused))
        }
    }
}

fn check_made(alloc: Global, cases: &[Made], env: &Env) -> Result<(), Fail> {
    for case in cases {
        let leaf = leaf_of(alloc, case)?;
        let answers = answers(alloc, &leaf, case.event, env, case.matches);
        drop(leaf);
        if !answers? {
            return Err(Fail::from(case.differs));
        }
    }
    Ok(())
}

#[test]
fn leaves_match(rt: HostRuntime) -> Result<(), Fail> {
    let env = env_of(rt.alloc(), ENVIRONMENT)?;
    let checked = match check(rt.alloc(), MATCHES, &env) {
        Ok(()) => check_made(rt.alloc(), MADE, &env),
        Err(fail) => Err(fail),
    };
    drop(env);
    checked
}

const FAULTS: &'static [(ExprFault, u8, &'static str)] = &[
    (ExprFault::BadExpression, 8, "BadExpression"),
    (ExprFault::ValueBeforeKey, 9, "ValueBeforeKey"),
    (ExprFault::BadName, 12, "BadName"),
    (ExprFault::BadPattern, 13, "BadPattern"),
    (ExprFault::BadExpansion, 14, "BadExpansion"),
    (ExprFault::TooLarge, 16, "TooLarge"),
    (ExprFault::Memory, 42, "Memory"),
];

fn check_faults(alloc: Global, faults: &[(ExprFault, u8, &'static str)]) -> Result<(), Fail> {
    for case in faults {
        if case.0.number() != case.1 || !is_printed(alloc, &case.0, case.2)? {
            return Err(Fail::from(case.2));
        }
    }
    Ok(())
}

#[test]
fn faults_of_expressions(rt: HostRuntime) -> Result<(), Fail> {
    check_faults(rt.alloc(), FAULTS)
}
