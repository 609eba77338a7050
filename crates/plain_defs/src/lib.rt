//! What a plain, uncached device does with channel programs: its state, a program's commands one after another,
//! its journal, and their laws.
#![tactic(auto)]

mod journal;
mod law;

pub use journal::{Act, ActList, Acted, Entry, How, Item, Journal, next_number};
pub use law::{
    first_ends, last_end_is_over, legal_front, legal_with_one_more, one_command_more, replays_on,
    replays_one_more, tells_on,
};
