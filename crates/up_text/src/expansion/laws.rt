//! Laws about the meaning of every text.
ghost use Rattle.std.specs.Prelude.{ℕ, ◌≡◌, ◌==◌, List, true, not};
ghost use Rattle.std.specs.List.{list_all};
ghost use Rattle.up_value.specs.Values.{Bytes, Bindings};
ghost use Rattle.up_text.specs.Expansion.{Expands, expand};

/// A text without `$` expands to itself, whatever is set.
pub fn literal()
    ensures { (text : Bytes) (env : Bindings) → list_all (λ byte. not (byte == 36)) text ≡ true
        → expand text env ≡ Expands text }
{}
