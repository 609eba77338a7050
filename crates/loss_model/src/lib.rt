//! What can be lost, and the tracks that a loss made wrong.
#![tactic(auto)]

mod lost;

use ckd_types::Side;
pub use lost::LostList;

/// A loss: of the cache, of the nonvolatile store, or of a side of a device.
#[derive(Clone, Copy, Debug, PartialEq, Eq)]
pub enum Loss {
    Cache,
    Store,
    Side(Side),
}
