//! A running channel program, one step at a time.
#![tactic(auto)]

mod chain;
mod law;
mod look;
mod mark;
mod progress;

pub use chain::Chain;
pub use ckd_rules::LocalAct;
pub use law::feeds_by_rules;
pub use mark::{Mark, Stage};
pub use progress::{Progress, Settled};
