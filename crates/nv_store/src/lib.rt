//! The writes that the nonvolatile store holds until a volume has them.
#![tactic(auto)]

mod apply;
mod fault;
mod fit;
mod laws;
mod patch;
mod patches;
mod room;

pub use fault::ApplyFault;
pub use laws::{edits_in_order, fit_is_tested, one_more, twice_is_once, update_is_tested};
pub use patch::{Kept, Patch, Replacement};
pub use patches::{Patches, Stored};
pub use room::EditRoom;
