//! The processes of a job.

/// A process of a job (init(5)).
#[derive(Clone, Copy, Debug, PartialEq, Eq)]
pub enum Process {
    Main,
    PreStart,
    PostStart,
    PreStop,
    PostStop,
}
