//! What a command does: its place in a chain, its checks, what it does before it looks at a track,
//! what it does on a track, and where its chain goes. The searches, reads and writes of a track's
//! image stand in crates of their own.
#![tactic(auto)]

mod acts;
mod checks;
mod control;
mod ending;
mod ends;
mod finding;
mod grouping;
mod opening;
mod order;
mod stance;
mod turned;

pub use acts::{answer, is_given, sense_id_bytes, take};
pub use checks::order_of;
pub use control::locate;
pub use ending::{Ending, end, refuse, status_of};
pub use ends::{end_of, goes_to, no_ccw, word_at};
pub use finding::{
    Sought, find_from, home_from, if_there, next_area, next_count, next_data, next_id, next_key,
    place_on, record_of, track_after, zero_from,
};
pub use grouping::{
    GroupFault, group_bytes, group_fault, is_in_group, is_same_owner, owner_after, owner_by,
    owner_set, set_paths, state_byte,
};
pub use opening::{Opening, open};
pub use order::{CommandOrder, LocalAct, Look};
pub use stance::{After, Place, Stance, first_stance, spend_one};
pub use turned::Turned;
