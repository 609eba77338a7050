//! The volume of a device after a run, by looks at its tracks in rising order.
#![tactic(auto)]

mod deck;
mod device;
mod saving;
mod unsaved;

pub use deck::saved_behind;
pub use device::declared;
pub use saving::saved;
pub use unsaved::Unsaved;
