//! How often a job is respawned.

/// How often a job is respawned (init(5), `respawn limit`). If one of the numbers is 0, there is no limit.
#[derive(Clone, Copy, Debug)]
pub struct Limit {
    /// The number of respawns.
    pub count: u32,
    /// The interval in seconds.
    pub interval: u32,
}
