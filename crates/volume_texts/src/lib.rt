//! Texts of a volume: the list of its tracks, and the faults of a file that holds none.
#![tactic(auto)]

mod faults;
mod listing;

pub use faults::{write_head, write_track, write_trailing};
pub use listing::{Row, model_text, row_of, write_listing};
