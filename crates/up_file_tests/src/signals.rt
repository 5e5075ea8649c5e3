//! The signals of Linux, by their names and by their numbers (signal(7)).
use std::test::Fail;
use up_stanza::signal::{Signal, signal_name};

static SIGNALS: [(&'static str, u8); 31] = [
    ("HUP", 1),
    ("INT", 2),
    ("QUIT", 3),
    ("ILL", 4),
    ("TRAP", 5),
    ("ABRT", 6),
    ("BUS", 7),
    ("FPE", 8),
    ("KILL", 9),
    ("USR1", 10),
    ("SEGV", 11),
    ("USR2", 12),
    ("PIPE", 13),
    ("ALRM", 14),
    ("TERM", 15),
    ("STKFLT", 16),
    ("CHLD", 17),
    ("CONT", 18),
    ("STOP", 19),
    ("TSTP", 20),
    ("TTIN", 21),
    ("TTOU", 22),
    ("URG", 23),
    ("XCPU", 24),
    ("XFSZ", 25),
    ("VTALRM", 26),
    ("PROF", 27),
    ("WINCH", 28),
    ("IO", 29),
    ("PWR", 30),
    ("SYS", 31),
];

fn check(signals: &[(&'static str, u8)]) -> Result<(), Fail> {
    for signal in signals {
        let is_read = match Signal::read(signal.0) {
            Some(found) => found.number() == signal.1 && signal_name(signal.1) == Some(signal.0),
            None => false,
        };
        if !is_read {
            return Err(Fail::from(signal.0));
        }
    }
    Ok(())
}

#[test]
fn each_signal_has_its_number() -> Result<(), Fail> {
    check(&SIGNALS)
}
