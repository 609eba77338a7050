//! A device of a deck, as the lines of a report make it: which line may stand where, what each line is to it, and that a plain
//! device could have answered so; and what an audit of all of them comes to.
#![tactic(auto)]

mod follows;
mod judged;
mod judging;
mod keeps;
mod kept;
mod law;
mod outline;
mod place;
mod replay;
mod replay_resets;
mod replay_tells;
mod replayed;
mod same;
mod state;
mod status;
mod task;
mod work;

pub use follows::{
    act_follows, edit_follows, end_follows, ends_are_judged, half_follows, loan_follows,
    over_follows, power_follows, reset_follows, settle_follows, start_follows,
};
pub use judged::{
    acts_are_judged, cuts_are_judged, starts_are_judged, tasks_are_judged, work_is_judged,
    work_is_settled,
};
pub use judging::data_due;
pub use keeps::{ended_is_kept, paths_are_kept, reset_is_kept, started_is_kept};
pub use kept::{Kept, Then};
pub use law::{accepted_start_is_plain, idle_is_plain, plain_end_is_plain};
pub use place::{in_due, is_io, is_of_work, worker_of};
pub use replayed::{Pending, ReplayedDevice, Running};
pub use same::{is_same_order, says};
pub use state::{Did, Due, HalfWrite, OpenProgram, Outline};
pub use status::{AuditStatus, AuditWhy, code_of};
pub use task::{Task, range_of};
pub use work::is_act_of;
