//! The plain device, run over track images: what an uncached device does with channel programs.
#![tactic(auto)]

mod device;
mod done;
mod law;
mod loose;
mod paths;
mod programs;
mod volume;

pub use device::PlainDevice;
pub use done::{Done, Written};
pub use law::{is_whole_at_first, is_whole_behind_a_command, is_whole_behind_an_event};
pub use loose::LooseImage;
pub use paths::Paths;
pub use volume::Images;
