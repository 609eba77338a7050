//! What an event of a device notes of its tracks beside their contents: which are loose, the acts of cache fast write that came to
//! them, and what the outside is still to be told.
#![tactic(auto)]

mod debts;
mod loose;

pub use debts::Debts;
pub use loose::LooseTracks;
