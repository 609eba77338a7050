//! What a deck asks for: the programs of each path of a device, and the events in their order.
#![tactic(auto)]

mod event;
mod plan;

pub use event::{EventLine, Schedule, copy_schedule};
pub use plan::PathPlans;
