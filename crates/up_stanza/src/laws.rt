//! Laws that relate the definition by which a job file is read to the grammar.
ghost use Rattle.std.specs.Prelude.{◌≡◌, ◌↔◌, ℕ, List, Ok, Err};
ghost use Rattle.up_value.specs.Values.{Bytes};
ghost use Rattle.up_stanza.specs.Confs.{conf_of};
ghost use Rattle.up_stanza.specs.FirstFaults.{FirstFault};
ghost use Rattle.up_stanza.specs.Grammar.{Conf};
ghost use Rattle.up_stanza.specs.declared.stanza.Stanza.{Stanza};

/// A file is read as the stanzas that its bytes spell.
pub fn conf_is_written()
    ensures { (bytes : Bytes) (stanzas : List Stanza) → conf_of bytes ≡ Ok stanzas ↔ Conf bytes stanzas }
{}

/// A file is rejected at the line of its first fault.
pub fn fault_is_first()
    ensures { (bytes : Bytes) (line : ℕ) → conf_of bytes ≡ Err line ↔ FirstFault bytes line }
{}
