//! The default path of init's socket.

/// The path of init's socket, unless the two programs are given another one.
pub const DEFAULT_SOCKET: &str = "/run/initd.socket";
