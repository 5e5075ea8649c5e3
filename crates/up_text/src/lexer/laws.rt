//! Laws about reading every text of a kind.
ghost use Rattle.std.specs.Prelude.{ℕ, ◌≡◌, true, List};
ghost use Rattle.std.specs.List.{list_all};
ghost use Rattle.up_value.specs.Values.{Bytes};
ghost use Rattle.up_text.specs.Lexemes.{lexemes};
ghost use Rattle.up_text.specs.Printing.{is_stanza, stanza_lines, tokens_from};

/// Tokens that are printed plainly, a stanza on each line, are read back unchanged.
pub fn printed_and_read()
    ensures { (stanzas : List (List Bytes)) → list_all is_stanza stanzas ≡ true
        → lexemes (stanza_lines stanzas) ≡ tokens_from 1 stanzas }
{}
