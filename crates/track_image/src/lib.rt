//! Tracks of count-key-data volumes in memory, and their bytes.
#![tactic(auto)]

mod count;
mod fault;
mod image;
mod laws;
mod packed;
mod reading;
mod room;
mod tape;
mod track_room;
mod view;

pub use fault::{AddFault, BytesFault};
pub use image::TrackImage;
pub use laws::{no_prefix, reads_back, same_bytes};
pub use room::RecordRoom;
pub use track_room::TrackRoom;
pub use view::RecordRef;
