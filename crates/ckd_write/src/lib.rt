//! Writes of one track: updates of a record, and formats.
#![tactic(auto)]

mod area;
mod command;
mod count;
mod edit;
mod format;
mod update;

pub use command::write;
pub use edit::{edit_image, edit_within, make_room};
