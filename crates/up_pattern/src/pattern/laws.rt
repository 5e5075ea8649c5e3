//! Laws about every pattern and all bytes.
ghost use Rattle.std.specs.Prelude.{ℕ, ◌≡◌, true, List, [], ◌∷◌, not};
ghost use Rattle.std.specs.List.{list_all};
ghost use Rattle.std.specs.Str.{bytes_eq};
ghost use Rattle.up_pattern.specs.Matching.{items_match, is_wild};
ghost use Rattle.up_pattern.specs.Pattern.{Item, fits, glob, supported};

/// Cutting the bytes into pieces is the same as matching one item at a time.
pub fn one_item_at_a_time()
    ensures { (items : List Item) (bytes : List ℕ) → fits items bytes ≡ items_match items bytes }
{}

/// A pattern without `*`, `?`, `[` and a backslash is supported, and matches only itself.
pub fn literal()
    ensures supported { (pattern : List ℕ) → list_all (λ byte. not (is_wild byte)) pattern ≡ true
        → supported pattern ≡ true }
    ensures itself { (pattern bytes : List ℕ) → list_all (λ byte. not (is_wild byte)) pattern ≡ true
        → glob pattern bytes ≡ bytes_eq pattern bytes }
{}

/// `*` matches everything.
pub fn run_alone()
    ensures { (bytes : List ℕ) → glob (42 ∷ []) bytes ≡ true }
{}
