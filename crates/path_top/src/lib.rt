//! A deck whose paths run beside each other: the top call over a source and a sink, and the history that it writes.
#![tactic(auto)]

mod history;
mod journal;
mod laws;
mod line;
mod making;
mod orders;
mod pairs;
mod run;
mod serve;
mod top;

pub use history::write_history;
pub use laws::{unfailing_history_checks_nothing, unfailing_history_on_volumes_checks_nothing};
pub use serve::paths_top_on;
pub use top::paths_top;
