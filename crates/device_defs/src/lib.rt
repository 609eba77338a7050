//! What each event of a device means: a device with a cache, a nonvolatile store and one or two sides. Its definitions,
//! and the plain types that they share with the code.
#![tactic(auto)]

mod answers;
mod counts;
mod owed;
mod usage;

pub use answers::{Came, Choice, Did, SecondEnd, StartFault, Stepped, Took};
pub use counts::{Counts, Losses};
pub use owed::Owed;
pub use usage::Usage;
