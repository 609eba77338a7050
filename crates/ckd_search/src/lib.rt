//! Searches of one track: an id, a key or the home address against the bytes given.
#![tactic(auto)]

mod candidate;
mod command;
mod comparing;

pub use command::search;
