//! The slots of the nonvolatile store, one for each patch that a device keeps.
#![tactic(auto)]

mod slots;

pub use slots::Slots;
