//! Children, hosts, sockets and doors, without a daemon.
pub(crate) mod calls;
mod children;
mod faults;
pub(crate) mod orders;
mod scripts;
mod sockets;
