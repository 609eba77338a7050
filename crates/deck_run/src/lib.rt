//! The run of a deck over a subsystem of devices on given volumes, or on new ones in memory, and the lines of what happens in it.
#![tactic(auto)]

mod act_lines;
mod close;
mod event;
mod line;
mod open;
mod orders_of_all;
mod pair;
mod pass;
mod replace;
mod run;
mod volumes;
mod work;

pub use act_lines::loosed_by;
pub use event::chains_stand;
pub use open::{failing_of, open_deck, open_on};
pub use pair::join;
pub use run::{FinishedRun, run_deck, run_front, run_on};
pub use volumes::EmptyVolume;
