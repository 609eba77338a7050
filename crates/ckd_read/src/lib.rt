//! Reads of one track.
#![tactic(auto)]

mod area;
mod command;
mod sending;

pub use command::read;
