//! The sides of a device: a volume that is alone, or two that have the same tracks.
#![tactic(auto)]

mod looks;
mod marks;
mod orders;
mod pair;
mod transfer;

pub use marks::StaleMarks;
pub use pair::{DuplexPair, SideState, SideVolumes};
