//! The tests of `up_wire`, `up_client`, `up_edge` and the daemon's rounds, over their public interfaces: frames and words; real children and
//! sockets; hosts, doors and sources that play scripts, and that fail.
#![tactic(auto)]

#[cfg(test)]
mod beginning;
#[cfg(test)]
mod blinking;
#[cfg(test)]
mod clients;
#[cfg(test)]
mod doors;
#[cfg(test)]
mod edge;
#[cfg(test)]
mod hosts;
#[cfg(test)]
mod init;
#[cfg(test)]
mod leaving;
#[cfg(test)]
mod loading;
#[cfg(test)]
mod parts;
#[cfg(test)]
mod rounds;
#[cfg(test)]
mod scripted;
#[cfg(test)]
mod stage;
#[cfg(test)]
mod waiting;
#[cfg(test)]
mod wire;
