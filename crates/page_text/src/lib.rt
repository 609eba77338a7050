//! The page that shows a run: its text, from the text of a deck and a report or history.
#![tactic(auto)]

mod answers;
mod deck_rows;
mod drawing;
mod fixed;
mod grid;
mod lanes;
mod lines;
mod marks;
mod names;
mod page;
mod parameters;
mod parts;
mod report_rows;
mod sides;
mod timeline;
mod whole;

pub use drawing::{Drawing, draw_all};
pub use lines::{ShownLine, lines_in, shown_all};
pub use names::{name_of, repeat_name};
pub use page::{Page, Piece};
pub use whole::page_of;
