//! The path groups of a device.
#![tactic(auto)]

mod groups;

pub use ckd_rules::GroupFault;
pub use groups::Groups;
