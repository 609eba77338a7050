//! Channel programs: which lists of channel command words are programs, and where a chain goes in one.
#![tactic(auto)]

mod checks;
mod program;

pub use ckd_types::Why;
pub use program::{Program, ProgramFault};
