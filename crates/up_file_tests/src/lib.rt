//! The tests of the libraries that say what job files mean, over their public interfaces: `up_stanza`, `up_conf`, `up_image`, and the types of
//! `up_model`; and of `up_event`, `up_marks` and the instances of `up_job`.
#![tactic(auto)]

#[cfg(test)]
mod compile;
#[cfg(test)]
mod conf;
#[cfg(test)]
mod events;
#[cfg(test)]
mod flat;
#[cfg(test)]
mod images;
#[cfg(test)]
mod model;
#[cfg(test)]
mod signals;
#[cfg(test)]
mod statuses;
#[cfg(test)]
mod values;
