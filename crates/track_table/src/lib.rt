//! What a device keeps by track, and marks of its tracks.
#![tactic(auto)]

mod bits;
mod counted;
mod marks;
mod table;

pub use bits::{Marked, TrackBits};
pub use counted::CountedBits;
pub use marks::{And, Marks, Or, Without, count, first, least_from};
pub use table::TrackTable;
