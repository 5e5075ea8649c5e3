//! The client against peers: shells at the other end of a socket, and a stream that never has an answer.
use crate::wire::frames::START;
use std::alloc::{AllocError, Global};
use std::io;
use std::io::{Read, Write};
use std::os::fd::OwnedFd;
use std::os::unix::net::UnixStream;
use std::process::Command;
use std::test::Fail;
use up_client::run;
use up_client::talk::{MAX_READS, TalkFault, talk};
use up_model::Answer;

struct Peer {
    name: &'static str,
    // What the shell runs once it has read the request; its input and its output are the socket.
    line: &'static str,
    // Whether the answer is a good one, and its text.
    answer: Result<(bool, &'static str), TalkFault>,
}

const PEERS: &'static [Peer] = &[
    Peer {
        name: "a peer that answers at once",
        line: "printf '\\000\\000\\000\\003\\000ok'",
        answer: Ok((true, "ok")),
    },
    Peer {
        name: "a peer that fails the request",
        line: "printf '\\000\\000\\000\\007\\001failed'",
        answer: Ok((false, "failed")),
    },
    Peer {
        name: "a peer that answers late",
        line: "sleep 0.3; printf '\\000\\000\\000\\003\\000ok'",
        answer: Ok((true, "ok")),
    },
    Peer {
        name: "a peer that answers in single bytes",
        line: "for b in 000 000 000 003 000 157 153; do printf \"\\\\$b\"; sleep 0.01; done",
        answer: Ok((true, "ok")),
    },
    Peer {
        name: "a peer that answers twice",
        line: "printf '\\000\\000\\000\\002\\000a\\000\\000\\000\\002\\000b'",
        answer: Ok((true, "a")),
    },
    Peer {
        name: "a peer that closes early",
        line: "printf '\\000\\000\\000\\003\\000o'",
        answer: Err(TalkFault::Lost),
    },
    Peer {
        name: "a peer that says nothing and closes",
        line: "true",
        answer: Err(TalkFault::Lost),
    },
    Peer {
        name: "a peer that sends rubbish",
        line: "printf 'rubbish'",
        answer: Err(TalkFault::Lost),
    },
    Peer {
        name: "a peer whose text is no text",
        line: "printf '\\000\\000\\000\\002\\000\\377'",
        answer: Err(TalkFault::Lost),
    },
];

fn line_of(alloc: Global, line: &str) -> Result<String, AllocError> {
    format!(in alloc; "head -c 11 >/dev/null; {line}")
}

// Starts a shell whose input and output are a stream. It reads the request first: a peer that ends before the client has written is one that
// can't be written to. Large values are moved on or dropped by a call, here and below: the prover would go through each field of what a
// scope drops.
fn start(
    rt: &HostRuntime,
    command: &mut Command<Global>,
    line: &str,
    theirs: UnixStream,
) -> Result<(), Fail> {
    command.arg("-c")?;
    command.arg(line)?;
    command.stdin(OwnedFd::from(theirs.try_clone()?));
    command.stdout(OwnedFd::from(theirs));
    let _child = command.spawn(rt)?;
    Ok(())
}

fn start_shell(rt: &HostRuntime, line: &str, theirs: UnixStream) -> Result<(), Fail> {
    let mut command = Command::new(rt.alloc(), "/bin/sh")?;
    let started = start(rt, &mut command, line, theirs);
    drop(command);
    started
}

// A stream whose other end a shell reads and writes.
fn peer_of(rt: &HostRuntime, line: &str) -> Result<UnixStream, Fail> {
    let (ours, theirs) = UnixStream::pair(rt)?;
    match start_shell(rt, line, theirs) {
        Ok(()) => Ok(ours),
        Err(fail) => {
            drop(ours);
            Err(fail)
        }
    }
}

fn is_expected(
    answer: Result<Answer, TalkFault>,
    expected: &Result<(bool, &'static str), TalkFault>,
) -> bool {
    let is_expected = match (&answer, expected) {
        (Ok(answer), Ok((ok, text))) => answer.ok == *ok && answer.text.is(text),
        (Err(fault), Err(other)) => fault == other,
        _ => false,
    };
    drop(answer);
    is_expected
}

fn answers(rt: &HostRuntime, line: &str, peer: &Peer) -> Result<bool, Fail> {
    let mut stream = peer_of(rt, line)?;
    let answer = talk(rt.alloc(), &mut stream, START);
    drop(stream);
    Ok(is_expected(answer, &peer.answer))
}

fn try_peer(rt: &HostRuntime, peer: &Peer) -> Result<(), Fail> {
    let line = line_of(rt.alloc(), peer.line)?;
    let answered = answers(rt, line.as_str(), peer);
    drop(line);
    if answered? {
        Ok(())
    } else {
        Err(Fail::from(peer.name))
    }
}

fn try_peers(rt: &HostRuntime, peers: &[Peer]) -> Result<(), Fail> {
    for peer in peers {
        try_peer(rt, peer)?;
    }
    Ok(())
}

#[test]
fn peers_are_heard_or_lost(rt: HostRuntime) -> Result<(), Fail> {
    try_peers(&rt, PEERS)
}

// A peer that takes what is written and never has an answer.
#[derive(Drop)]
struct Silent {
    reads: u32,
}

impl Read for Silent {
    fn read(&mut self, _buf: &mut [u8]) -> io::Result<usize> {
        self.reads = self.reads.saturating_add(1);
        Err(io::Error::from(io::ErrorKind::Interrupted))
    }
}

impl Write for Silent {
    fn write(&mut self, buf: &[u8]) -> io::Result<usize> {
        Ok(buf.len())
    }

    fn flush(&mut self) -> io::Result<()> {
        Ok(())
    }
}

#[test]
fn a_peer_that_never_answers_is_given_up(rt: HostRuntime) -> Result<(), Fail> {
    let mut silent = Silent { reads: 0 };
    let answer = talk(rt.alloc(), &mut silent, START);
    assert!(rt; is_expected(answer, &Err(TalkFault::Lost)) && silent.reads == MAX_READS);
    Ok(())
}

struct Line {
    words: &'static [&'static str],
    status: u8,
}

const LINES: &'static [Line] = &[
    Line {
        words: &["initctl"],
        status: 0,
    },
    Line {
        words: &["initctl", "--version"],
        status: 0,
    },
    Line {
        words: &["initctl", "--help"],
        status: 0,
    },
    Line {
        words: &["initctl", "start", "--help"],
        status: 0,
    },
    Line {
        words: &["initctl", "--socket", "/no/such/socket"],
        status: 2,
    },
    Line {
        words: &["initctl", "--socket", "/no/such/socket", "begin", "a"],
        status: 2,
    },
    Line {
        words: &["initctl", "--socket", "/no/such/socket", "start"],
        status: 2,
    },
    Line {
        words: &[
            "initctl",
            "--socket",
            "/no/such/socket",
            "status",
            "--no-wait",
            "a",
        ],
        status: 2,
    },
    Line {
        words: &["initctl", "--socket", "/no/such/socket", "start", "a(b"],
        status: 1,
    },
    Line {
        words: &["initctl", "--socket", "/no/such/socket", "version"],
        status: 1,
    },
];

fn push_strings(alloc: Global, words: &[&str], all: &mut Vec<String>) -> Result<(), AllocError> {
    for word in words {
        all.push(String::from_str(alloc, *word)?)?;
    }
    Ok(())
}

fn ends_so(rt: &HostRuntime, line: &Line) -> Result<bool, AllocError> {
    let mut words = Vec::new(rt.alloc());
    let pushed = push_strings(rt.alloc(), line.words, &mut words);
    let status = run(rt, &words).number();
    drop(words);
    pushed?;
    Ok(status == line.status)
}

fn check_lines(rt: &HostRuntime, lines: &[Line]) -> Result<(), Fail> {
    for (place, line) in lines.iter().enumerate() {
        if !ends_so(rt, line)? {
            return Err(Fail::from(place));
        }
    }
    Ok(())
}

#[test]
fn lines_that_reach_no_peer_end_by_their_status(rt: HostRuntime) -> Result<(), Fail> {
    check_lines(&rt, LINES)
}
