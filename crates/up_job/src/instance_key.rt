//! The keys of instances in memory.

/// An instance that exists: its job, and its index among that job's instances in byte order of their names. If a job gets or loses an
/// instance, the keys of its others may change.
#[derive(Clone, Copy)]
pub struct InstanceKey {
    pub job: usize,
    pub at: usize,
}
