//! Expressions as trees.

use up_text::{Items, Name, Text};

/// The events that a job waits for (init(5), `start on` and `stop on`).
#[derive(Debug, Drop)]
pub enum Expr {
    /// An event that the leaf matches.
    Leaf(Leaf),
    /// Both sides, in any order.
    And(Box<Expr>, Box<Expr>),
    /// One side or the other.
    Or(Box<Expr>, Box<Expr>),
}

/// An event's name with the tests of its variables. Positional values come before keyed ones.
#[derive(Debug, Drop)]
pub struct Leaf {
    pub event: Name,
    pub values: Items<Test>,
}

/// The test of one variable of an event. Each value is expanded and then matched as a pattern, fnmatch(3).
#[derive(Debug, Drop)]
pub enum Test {
    /// The variable whose position equals that of this test among the positional ones matches the value.
    Place(Text),
    /// The variable with this key matches the value.
    Same(Text, Text),
    /// There is no variable with this key, or it doesn't match the value.
    Differs(Text, Text),
}
