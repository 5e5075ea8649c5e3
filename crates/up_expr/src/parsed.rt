//! An expression while the parser joins it from its parts.

ghost use Rattle.std.specs.Prelude.{◌≡◌};
ghost use Rattle.up_expr.specs.Trees.{tree_of};

use crate::expr::Expr;
use std::marker::Model;

/// An expression in boxes, seen by contracts as its tree without the addresses of its parts in memory.
#[derive(Drop)]
pub(crate) struct Parsed {
    expr: Expr,
}

impl Model for Parsed {
    ghost use Rattle.up_expr.specs.Trees.{Tree, tree_of};
    ghost use Rattle.up_expr.specs.TreeCode.{tree_code};

    ghost Value = { Tree };

    ghost coded = { tree_code };

    ghost view = { λ parsed. tree_of parsed.expr };
}

impl Parsed {
    pub(crate) fn new(expr: Expr) -> Self
        ensures { result ≡ tree_of expr }
    {
        Parsed { expr }
    }

    pub(crate) fn expr(&self) -> &Expr
        ensures { tree_of result.now ≡ self.now }
    {
        &self.expr
    }

    pub(crate) fn into_expr(self) -> Expr
        ensures { tree_of result ≡ self }
    {
        let Parsed { expr } = self;
        expr
    }
}
