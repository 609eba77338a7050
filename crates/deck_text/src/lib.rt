//! The text of a deck: its lines, what they say, and the text that they make again.
#![tactic(auto)]

mod ccw;
mod deck;
mod events;
mod forms;
mod keyword;
mod law;
mod line;
mod lines;
mod numbers;
mod place;
mod planned;
mod read;
mod reading;
mod texts;
mod words;
mod write;
mod write_events;
mod write_lines;
mod write_programs;

pub use deck::Deck;
pub use law::reads_back;
pub use line::{DeckFault, DeckWhy, DeviceLine, FaultLine, PlannedProgram, Which};
pub use lines::place_of;
pub use read::read_deck;
pub use texts::{write_limit, write_line, write_refused};
pub use write::write_deck;
