//! The contents of a device as they were, whatever is written meanwhile.
#![tactic(auto)]

mod begin;
mod event;
mod given;
mod kept;
mod law;
mod next;
mod session;

pub use given::{BeginFault, Early, Given};
pub use kept::OldTracks;
pub use law::{copies_are_old, front_is_plain, front_on_volumes_is_plain, lost_is_told};
pub use session::Session;
