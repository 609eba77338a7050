//! A subsystem: a pool that is shared, and its devices.
#![tactic(auto)]

mod asking;
mod each;
mod end;
mod event;
mod order;
mod pair;
mod peek;
mod place;
mod planning;
mod refusal;
mod run;
mod subsystem;

pub use device_store::Peeked;
pub use end::{EventEnd, EventEnds};
pub use refusal::{
    fail_fault, pair_fault, replace_fault, resume_fault, suspend_fault, unpair_fault,
};
pub use subsystem::Subsystem;
