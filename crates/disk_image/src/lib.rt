//! CKD disk image files, as the emulators of these machines keep them.
#![tactic(auto)]

mod creating;
mod ending;
mod fault;
mod file;
mod head;
mod image;
mod laws;
mod layout;
mod mem_file;
mod opening;
mod room;
mod std_file;
mod storing;
mod volume;

pub use creating::create;
pub use fault::ImageFault;
pub use file::DiskFile;
pub use image::DiskImage;
pub use laws::{held_once, tracks_fit};
pub use layout::{Layout, place_of, room_size};
pub use mem_file::MemFile;
pub use opening::open_image;
pub use room::{TrackRoom, read_room, write_room};
pub use std_file::StdFile;
pub use storing::store_volume;
pub use volume::{TrackFault, find_bad, load_volume, read_image};
