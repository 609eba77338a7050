//! What the program does: the top call over a source and a sink, which `main` makes.
#![tactic(auto)]

mod bay;
mod bytes;
mod give;
mod handing;
mod report;
mod serve;
mod summary;
mod sums;
mod task;
mod top;

pub use bay::VolumeBay;
pub use handing::hand_out_all;
pub use serve::deck_top_on;
pub use task::Task;
pub use top::{MOST_READ, Status, code_of, deck_top, words_of};
