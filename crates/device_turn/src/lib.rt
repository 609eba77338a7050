//! A turn at something that several threads use, one at a time and without a lock: a slot that holds it, a word
//! that names the seat whose turn it is, and a word for each of six seats that counts what the seat did. And turns with
//! the seats of six workers at them: made, handed out in rows, and cleared once all seats rest again.
#![tactic(auto)]

#[cfg(test)]
mod counters;
mod enter;
mod holder;
mod place;
mod seat;
mod seating;
mod steps;
#[cfg(test)]
mod tests;
mod turn;
mod view;

pub use enter::Enter;
pub use holder::Holder;
pub use place::Turn;
pub use seat::TurnSeat;
pub use seating::{Seats, Setting, Table, clear, set};
