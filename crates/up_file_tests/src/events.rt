//! Live events, the marks of expressions to which they are offered, and instances.
mod files;
mod finding;
mod instances;
mod many;
mod marks;
mod queue;
mod stops;
