//! One device: its tracks, its paths, its programs, what happened to it, and the program that runs.
#![tactic(auto)]

mod acts;
mod command;
mod counts;
mod device;
mod ending;
mod events;
mod forget;
mod giving;
mod half;
mod history;
mod kept;
mod log;
mod losses;
mod observers;
mod open;
mod orders;
mod pairs;
mod plan;
mod power;
mod reset;
mod resets;
mod run;
mod second;
mod start;
mod step;
mod track_walk;
mod tracks;

pub use device::Device;
pub use device_store::Peeked;
pub use forget::NotForgotten;
pub use giving::plans_give;
pub use history::Stepped;
pub(crate) use log::Log;
pub use observers::HalfOrigin;
pub use pairs::PairState;
pub use plan::NotPlanned;
pub use second::SecondStep;
pub use start::NotStarted;
