//! Paths that run beside each other: four path workers, one of the background and one of the operator, over the turns of all devices and one pool.
#![tactic(auto)]

mod allowed;
mod operator;
mod orders;
mod places;
mod rows;
mod run;
mod shared;
mod walks;

pub use orders::{MakeVolume, Order};
pub use run::{Ran, run_paths};
