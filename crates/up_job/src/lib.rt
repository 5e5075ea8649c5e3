//! Where each instance is in its life: the tables of its states, as functions of plain values that take no memory.
#![tactic(auto)]

mod alarm;
mod by_position;
mod change;
mod child;
mod entry;
mod fault;
mod holder;
mod instance;
mod instance_key;
mod instance_list;
mod instances;
mod judgement;
mod moments;
mod replacing;
mod state;
mod stops;
mod timer;
mod unblocking;

pub use change::Change;
pub use child::{Child, Children, child_of};
pub use entry::entering;
pub use fault::JobFault;
pub use holder::Holder;
pub use instance::Instance;
pub use instance_key::InstanceKey;
pub use instance_list::{InstanceList, MAX_INSTANCES};
pub use instances::{Instances, JobInstances};
pub use judgement::judge_end;
pub use moments::Moments;
pub use state::next_state;
pub use timer::is_overdue;
