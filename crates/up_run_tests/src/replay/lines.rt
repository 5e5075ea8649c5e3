//! The lines of outputs.
use crate::engine::{Untried, both, environment};
use std::alloc::{AllocError, Global};
use std::test::Fail;
use up_model::{Answer, Event, Order, Output, Process, Who};
use up_print::{push_bad_step, push_output};
use up_text::{Items, Name, Text};

// An output, as a case writes it.
enum Sent {
    Start,
    Signal(u8),
    Event(&'static str),
    Reply(bool),
}

// A topic, an output, and its lines.
static CASES: [(&str, Sent, &str); 11] = [
    (
        "starts",
        Sent::Start,
        "spawn a (i j) pre-start \"/bin/x\" \"\\\"a\\\\b\\nc\\td\u{e9}'\r\" \"\"\n  B=\"1\\n2\"\n  A=\"\"\n",
    ),
    ("signals", Sent::Signal(0), "signal a (i) 7 0\n"),
    ("signals", Sent::Signal(1), "signal a (i) 7 HUP\n"),
    ("signals", Sent::Signal(15), "signal a (i) 7 TERM\n"),
    ("signals", Sent::Signal(31), "signal a (i) 7 SYS\n"),
    ("signals", Sent::Signal(32), "signal a (i) 7 32\n"),
    ("signals", Sent::Signal(255), "signal a (i) 7 255\n"),
    (
        "events",
        Sent::Event("K=a\tb, L="),
        "event go K=\"a\\tb\" L=\"\"\n",
    ),
    ("events", Sent::Event(""), "event go\n"),
    (
        "replies",
        Sent::Reply(true),
        "reply 18446744073709551615 ok \"a\\nb\"\n",
    ),
    (
        "replies",
        Sent::Reply(false),
        "reply 18446744073709551615 failed \"a\\nb\"\n",
    ),
];

static WORDS: [&str; 3] = ["/bin/x", "\"a\\b\nc\td\u{e9}'\r", ""];

static VARS: &str = "B=1\n2, A=";

fn who(alloc: Global, instance: &str) -> Result<Who, Untried> {
    let (job, instance) = both(Name::new(alloc, "a"), Text::from_str(alloc, instance))?;
    Ok(Who { job, instance })
}

fn keep(words: &mut Vec<Text>, word: Text) -> Result<(), AllocError> {
    words.push(word)?;
    Ok(())
}

fn keep_all(alloc: Global, words: &mut Vec<Text>) -> Result<(), AllocError> {
    for word in &WORDS {
        keep(words, Text::from_str(alloc, *word)?)?;
    }
    Ok(())
}

fn words(alloc: Global) -> Result<Items<Text>, AllocError> {
    let mut words: Vec<Text> = Vec::new(alloc);
    match keep_all(alloc, &mut words) {
        Ok(()) => Ok(Items::new(words)),
        Err(refused) => {
            drop(words);
            Err(refused)
        }
    }
}

fn order(alloc: Global) -> Result<Output, Untried> {
    let first = both(who(alloc, "i j"), words(alloc));
    let second = both(Text::from_str(alloc, "/"), environment(alloc, VARS));
    let ((who, argv), (dir, env)) = both(first, second)?;
    Ok(Output::Spawn(Order {
        who,
        process: Process::PreStart,
        argv,
        dir,
        silent: false,
        env,
    }))
}

fn event(alloc: Global, pairs: &str) -> Result<Output, Untried> {
    let (name, vars) = both(Name::new(alloc, "go"), environment(alloc, pairs))?;
    Ok(Output::Emitted(Event { name, vars }))
}

fn output(alloc: Global, sent: &Sent) -> Result<Output, Untried> {
    match sent {
        Sent::Start => order(alloc),
        Sent::Signal(signal) => Ok(Output::Signal {
            who: who(alloc, "i")?,
            pid: 7,
            signal: *signal,
        }),
        Sent::Event(pairs) => event(alloc, pairs),
        Sent::Reply(ok) => Ok(Output::Reply {
            id: u64::MAX,
            answer: Answer {
                ok: *ok,
                text: Text::from_str(alloc, "a\nb")?,
            },
        }),
    }
}

fn has_lines(alloc: Global, output: &Output, lines: &str) -> Result<bool, AllocError> {
    let mut text: Vec<u8> = Vec::new(alloc);
    push_output(&mut text, output)?;
    Ok(text.as_slice() == lines.as_bytes())
}

fn is_case(alloc: Global, sent: &Sent, lines: &str) -> Result<bool, Untried> {
    let output = output(alloc, sent)?;
    let has = has_lines(alloc, &output, lines);
    drop(output);
    Ok(has?)
}

#[test]
fn outputs(rt: HostRuntime) -> Result<(), Fail> {
    for (topic, sent, lines) in &CASES {
        assert!(rt; is_case(rt.alloc(), sent, lines)?, "{topic}: {lines}");
    }
    Ok(())
}

#[test]
fn bad_steps(rt: HostRuntime) -> Result<(), Fail> {
    let mut text: Vec<u8> = Vec::new(rt.alloc());
    push_bad_step(&mut text, "a.script", 12)?;
    assert_eq!(rt; text.as_slice(), b"a.script:12: bad step\n".as_slice());
    Ok(())
}
