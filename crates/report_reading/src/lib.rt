//! What a line of a report, of a history or of a summary is read as, and the law that what is written is read back.
#![tactic(auto)]

mod data;
mod end_ahead;
mod fault;
mod law;
mod line_words;
mod places;
mod ranges;
mod read;
mod read_answers;
mod read_lines;

pub use data::{data_end, is_data_of};
pub use fault::{LineError, LineFault};
pub use law::{is_read_back, reads_back};
pub use ranges::in_ranges;
pub use read::read_line;
