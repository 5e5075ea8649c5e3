//! Expressions: which events a job waits for (init(5), `start on` and `stop on`).
//!
//! [`parse_expr`] reads an expression from its tokens, and [`leaf_matches`] checks whether one of its leaves matches an event. The
//! truth of an expression after the events seen so far is defined in `specs/Truth.antt`.
#![tactic(auto)]

pub mod branch;
pub mod builder;
pub mod condition;
mod copies;
pub mod expr;
pub mod fault;
pub mod flat;
pub mod job_events;
pub mod laws;
pub mod leaf;
pub mod node;
mod operand;
pub mod parse;
mod parsed;
mod symbol;
mod value;

pub use branch::{Branch, Root};
pub use builder::Builder;
pub use condition::Condition;
pub use expr::{Expr, Leaf, Test};
pub use fault::ExprFault;
pub use flat::flatten;
pub use job_events::{is_job_event, wanted_job};
pub use leaf::leaf_matches;
pub use node::{Node, Nodes};
pub use parse::parse_expr;
