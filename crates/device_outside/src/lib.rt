//! What a device asks of the world: its volumes, its port to the shared pool, its keeper, and what an
//! interaction with them is. Volumes in memory, and a port and a keeper that do nothing.
#![tactic(auto)]

mod bay;
mod buffer;
mod failing_calls;
mod gate;
mod keep;
mod memory;
mod port;
mod rooms;
mod tracks;
mod volume;

pub use bay::{MemBay, Taken};
pub use buffer::TrackBuffer;
pub use failing_calls::counted;
pub use gate::{Gate, NoGate};
pub use keep::{Keep, NoKeep};
pub use memory::MemVolume;
pub use port::{Grant, NoFrames, Port, SlotGrant};
pub use volume::Volume;
