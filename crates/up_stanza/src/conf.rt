//! Reads a job file.
ghost use Rattle.std.specs.Prelude.{◌≡◌, ◌≤◌, ◌⊎◌, IfErr, IfOk, MatchResult, Err, Ok, List, true, false, length, nat_le};
ghost use Rattle.up_stanza.specs.declared.conf.TheConstants.{MAX_LEN, MAX_KEYS};
ghost use Rattle.up_text.specs.Places.{start};
ghost use Rattle.up_stanza.specs.declared.fault.FaultCode.TheVariants.{Memory};
ghost use Rattle.up_stanza.specs.Confs.{conf_of, has_few_keys, is_readable, keys_exported, keys_set, within_limits, total};
ghost use Rattle.up_stanza.specs.declared.stanza.Stanza.{Stanza};
ghost use Rattle.up_stanza.specs.Grammar.{Conf};
ghost use Rattle.up_stanza.specs.Reading.{IsConf};
ghost use Rattle.up_stanza.specs.Stanzas.{stanzas_of};

use crate::fault::{ConfFault, FaultCode};
use crate::reader::read_stanzas;
use crate::stanza::{Stanza, Stanzas};
use std::alloc::{AllocError, Global};
use up_text::{Lexer, as_text};

/// The longest file that is read, in bytes.
const MAX_LEN: usize = 1_048_576;

/// The greatest number of keys that a file sets, and of those that it exports.
const MAX_KEYS: usize = 30_000;

fn keys_set(stanza: &Stanza) -> usize
    ensures { result ≡ keys_set stanza.now }
{
    match stanza {
        Stanza::Env(_) => 1,
        _ => 0,
    }
}

fn keys_exported(stanza: &Stanza) -> usize
    ensures { result ≡ keys_exported stanza.now }
{
    match stanza {
        Stanza::Export(keys) => keys.as_slice().len(),
        _ => 0,
    }
}

#[tactic(auto, using(crate::proofs::Totals::total_more, crate::proofs::Totals::total_over))]
fn sets_few(stanzas: &[Stanza]) -> bool
    ensures { result ≡ nat_le (total keys_set stanzas.now) MAX_KEYS }
{
    let mut left = MAX_KEYS;
    for stanza in stanzas {
        let count = keys_set(stanza);
        if count > left {
            return false;
        }
        left -= count;
    }
    true
}

#[tactic(auto, using(crate::proofs::Totals::total_more, crate::proofs::Totals::total_over))]
fn exports_few(stanzas: &[Stanza]) -> bool
    ensures { result ≡ nat_le (total keys_exported stanzas.now) MAX_KEYS }
{
    let mut left = MAX_KEYS;
    for stanza in stanzas {
        let count = keys_exported(stanza);
        if count > left {
            return false;
        }
        left -= count;
    }
    true
}

fn has_few_keys(stanzas: &[Stanza]) -> bool
    ensures { result ≡ has_few_keys stanzas.now }
{
    sets_few(stanzas) && exports_few(stanzas)
}

// A fault of the whole file: it is reported at line 1.
fn at_first_line(code: FaultCode) -> ConfFault
    ensures { result ≡ record { line = 1; code = code } }
{
    ConfFault { line: 1, code }
}

// The stanzas of a text, or the fault; too many keys are reported first.
fn read_text(alloc: Global, text: &str) -> Result<Result<Stanzas, ConfFault>, AllocError>
    requires { length text.now ≤ MAX_LEN }
    ensures { IfOk result (λ read. IsConf (within_limits (stanzas_of (start text.now))) read) }
{
    let (stanzas, fault) = read_stanzas(alloc, Lexer::new(text))?;
    if !has_few_keys(stanzas.as_slice()) {
        return Ok(Err(at_first_line(FaultCode::TooLarge)));
    }
    match fault {
        Some(fault) => Ok(Err(fault)),
        None => Ok(Ok(stanzas)),
    }
}

// The text of a file's bytes; fails with `TooLarge`, or with `NotText` for a byte 0 or bytes that aren't UTF-8.
#[tactic(auto, unfolding(crate::specs::Confs::is_readable))]
fn text_of(bytes: &[u8]) -> Result<&str, FaultCode>
    ensures test { MatchResult result (λ text. is_readable bytes.now ≡ true) (λ code. is_readable bytes.now
        ≡ false) }
    ensures same { IfOk result (λ text. text.now ≡ bytes.now) }
    ensures short { IfOk result (λ text. length text.now ≤ MAX_LEN) }
{
    if bytes.len() > MAX_LEN {
        return Err(FaultCode::TooLarge);
    }
    if bytes.contains(&0) {
        return Err(FaultCode::NotText);
    }
    match as_text(bytes) {
        Some(text) => Ok(text),
        None => Err(FaultCode::NotText),
    }
}

/// The stanzas of a file, or its fault; an `AllocError` if memory runs out.
#[tactic(auto, unfolding(crate::specs::Confs::conf_of))]
pub fn read_bytes(alloc: Global, bytes: &[u8]) -> Result<Result<Stanzas, ConfFault>, AllocError>
    ensures { IfOk result (λ read. IsConf (conf_of bytes.now) read) }
{
    match text_of(bytes) {
        Ok(text) => read_text(alloc, text),
        Err(code) => Ok(Err(at_first_line(code))),
    }
}

/// The stanzas of a file. Every fault except `Memory` is reported only if the file isn't well formed, and its line is that of the first
/// unreadable stanza, or 1 if the fault is of the whole file.
#[tactic(auto, using(crate::proofs::Conforming::conf_is_not))]
pub fn read_conf(alloc: Global, bytes: &[u8]) -> Result<Stanzas, ConfFault>
    ensures read { IfOk result (λ stanzas. conf_of bytes.now ≡ Ok stanzas) }
    ensures refused { IfErr result (λ fault. (fault.code ≡ Memory) ⊎ (conf_of bytes.now ≡ Err fault.line)) }

    // By the grammar: these stanzas are written, or none are.
    ensures written { IfOk result (λ stanzas. Conf bytes.now stanzas) }
    ensures unwritten { IfErr result (λ fault. (fault.code ≡ Memory)
        ⊎ ((stanzas : List Stanza) → Conf bytes.now stanzas → ⊥)) }
{
    match read_bytes(alloc, bytes) {
        Ok(Ok(stanzas)) => Ok(stanzas),
        Ok(Err(fault)) => Err(fault),
        Err(_) => Err(at_first_line(FaultCode::Memory)),
    }
}
