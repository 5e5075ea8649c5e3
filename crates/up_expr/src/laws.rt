//! Laws about every expression.
ghost use Rattle.std.specs.Prelude.{◌≡◌, ◌↔◌, List, [], is_some, false};
ghost use Rattle.std.specs.List.{list_any};
ghost use Rattle.up_text.specs.declared.token.Token.{Token};
ghost use Rattle.up_expr.specs.declared.expr.Leaf.{Leaf};
ghost use Rattle.up_expr.specs.Matching.{matches};
ghost use Rattle.up_expr.specs.Syntax.{Writes};
ghost use Rattle.up_expr.specs.Trees.{Tree};
ghost use Rattle.up_expr.specs.Truth.{Sight, first, holds, taken};

/// A list of tokens has one tree at most, however it is cut into parts.
pub fn one_tree()
    ensures { (tokens : List Token) (tree other : Tree) → Writes tokens tree → Writes tokens other
        → tree ≡ other }
{}

/// A leaf has a first event if it matches some event.
pub fn leaf_true()
    ensures { (leaf : Leaf) (sights : List Sight)
        → is_some (first leaf sights)
        ≡ list_any (λ sight. matches leaf sight.name sight.vars sight.env) sights }
{}

/// An expression is false if no event is taken, and only then.
pub fn true_by_taken()
    ensures { (tree : Tree) (sights : List Sight) → (holds tree sights ≡ false) ↔ (taken tree sights ≡ []) }
{}
