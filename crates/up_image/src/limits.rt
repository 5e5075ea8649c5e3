//! How large the parts of a table are.

/// The most jobs that a table has.
pub const MAX_JOBS: usize = 1_024;

/// The most bytes that an image has: 16 MiB.
pub const MAX_IMAGE: usize = 16_777_216;

/// The most items in a list of an image: the count has two bytes.
pub const MAX_ITEMS: usize = 65_535;

/// The most nodes in an expression of an image.
pub const MAX_NODES: u16 = 4_095;

/// The most keys that a job file and its override set or export: 30,000 each.
pub const MAX_KEYS: usize = 60_000;

/// The most respawns in an interval (init(5), `respawn limit`).
pub const MAX_COUNT: u32 = 65_535;

/// The longest interval and timeout, in seconds.
pub const MAX_SECONDS: u32 = 2_147_483_647;

/// The deepest nesting of parentheses.
pub const MAX_DEPTH: u16 = 256;
