//! Reports about a folder on the disk other than its faults and its runs, and the contents of a record of a run.
#![tactic(auto)]

mod changes;
pub mod compare;
pub mod lint;
pub mod source;
pub mod view;
mod watch;

pub use compare::compare_dir;
pub use lint::lint_dir;
pub use source::{view_file, view_source};
pub use up_lint::{Kind, kind_named};
pub use view::View;
