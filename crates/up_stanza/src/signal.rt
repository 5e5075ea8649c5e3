//! Signals.
ghost use Rattle.std.specs.Prelude.{◌≡◌, slice_get, map, position};
ghost use Rattle.std.specs.Option.{option_copied};
ghost use Rattle.std.specs.Str.{bytes_eq};
ghost use Rattle.up_stanza.specs.Numbers.{number_in};
ghost use Rattle.up_stanza.specs.Signals.{hup, name_of, number_of, signal_named, signal_in, term, without_sig};

use crate::number::{are_digits, number_in};
use std::marker::Model;

/// A signal from 1 to 31 (signal(7)), seen by contracts as its number.
#[derive(Clone, Copy, Debug)]
pub struct Signal {
    number: u8,
}

impl Model for Signal {
    ghost use Rattle.std.specs.Prelude.{◌≡◌, ℕ, true};
    ghost use Rattle.up_stanza.specs.Signals.{is_signal};

    ghost Value = { ℕ };

    ghost view = { λ s. s.number };

    ghost inverse = { λ number. record { number = number } };

    ghost invariant = { λ s. is_signal s.number ≡ true };
}

/// The number of the signal HUP.
const HUP: u8 = 1;

/// The number of the signal KILL, which no process can catch or ignore (signal(7)).
pub const KILL: u8 = 9;

/// The number of the signal TERM.
const TERM: u8 = 15;

// The names of the signals from 1 on.
const NAMES: [&str; 31] = [
    "HUP", "INT", "QUIT", "ILL", "TRAP", "ABRT", "BUS", "FPE", "KILL", "USR1", "SEGV", "USR2",
    "PIPE", "ALRM", "TERM", "STKFLT", "CHLD", "CONT", "STOP", "TSTP", "TTIN", "TTOU", "URG",
    "XCPU", "XFSZ", "VTALRM", "PROF", "WINCH", "IO", "PWR", "SYS",
];

impl Signal {
    pub fn hup() -> Self
        ensures { result ≡ hup }
    {
        Signal { number: HUP }
    }

    pub fn term() -> Self
        ensures { result ≡ term }
    {
        Signal { number: TERM }
    }

    pub fn number(self) -> u8
        ensures { result ≡ self }
    {
        self.number
    }

    /// Reads a name, with or without `SIG`, or a number from 1 to 31.
    pub fn read(text: &str) -> Option<Self>
        ensures { result ≡ signal_in text.now }
    {
        if are_digits(text) {
            signal_numbered(text)
        } else {
            signal_named(text)
        }
    }
}

fn text_at(texts: &[&'static str], place: usize) -> Option<&'static str>
    ensures { option_copied result ≡ slice_get (map (λ text. text.now) texts.now) place }
{
    match texts.get(place) {
        Some(text) => Some(*text),
        None => None,
    }
}

fn place_of(texts: &[&str], text: &str) -> Option<usize>
    ensures { result ≡ position (λ known. bytes_eq known.now text.now) texts.now }
{
    texts.iter().position(|known| *known == text)
}

/// `None` if no signal has this number (signal(7)).
#[tactic(auto, unfolding(crate::specs::Signals::name_of))]
pub fn signal_name(number: u8) -> Option<&'static str>
    ensures { option_copied result ≡ name_of number }
{
    if number == 0 {
        return None;
    }
    text_at(&NAMES, number as usize - 1)
}

#[tactic(auto, unfolding(crate::specs::Signals::number_of))]
fn number_of(name: &str) -> Option<u8>
    ensures { result ≡ number_of name.now }
{
    match place_of(&NAMES, name) {
        Some(place) => Some(place as u8 + 1),
        None => None,
    }
}

#[tactic(auto, unfolding(crate::specs::Signals::without_sig))]
fn without_sig(name: &str) -> &str
    ensures { result.now ≡ without_sig name.now }
{
    match name.strip_prefix("SIG") {
        Some(name) => name,
        None => name,
    }
}

/// The name may begin with `SIG`.
#[tactic(auto, using(crate::proofs::Signals::signal_numbers))]
pub(crate) fn signal_named(text: &str) -> Option<Signal>
    ensures { result ≡ signal_named text.now }
{
    match number_of(without_sig(text)) {
        Some(number) => Some(Signal { number }),
        None => None,
    }
}

fn signal_numbered(text: &str) -> Option<Signal>
    ensures { result ≡ number_in 1 31 text.now }
{
    match number_in(1, 31, text) {
        Some(number) => Some(Signal {
            number: number as u8,
        }),
        None => None,
    }
}
