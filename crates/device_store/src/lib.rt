//! The tracks of a device: its volumes, and what is kept of each track.
#![tactic(auto)]

mod background;
mod choice;
mod copy;
mod destage;
mod fail;
mod framed;
mod frames;
mod half;
mod image;
mod losses;
mod marks;
mod notes;
mod open;
mod owed;
mod peek;
mod recover;
mod second;
mod settle;
mod sides;
mod stage;
mod store;
mod through;
mod write;

pub use half::{HalfWrite, Origin};
pub use second::SecondPart;
pub use store::{DeviceStore, Looked, Peeked};
