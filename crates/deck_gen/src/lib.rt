//! Decks that are drawn from a seed.
#![tactic(auto)]

mod choice;
mod generated;
mod law;
mod programs;
mod words;

pub use generated::generate;
pub use law::reads_back;
