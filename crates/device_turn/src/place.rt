ghost use Rattle.std.specs.Prelude.{◌≡◌};

use crate::holder::Holder;
use crate::view::{Keeping, View};
use atomic_table::Table;
use std::alloc::Global;

/// A place where a holder stands, for one seat at a time. `P` is what was promised of it. The holder has a room of its own, so that no more than where
/// that is goes from hand to hand.
#[derive(Drop)]
pub struct Turn<H: Holder<P>, P> {
    pub(crate) table: Table<Option<Box<H>>, View<Option<P>>, P, Keeping<H, P>, Global>,
    ghost seven_words: { table.shared.table_id.words ≡ 7 },
    ghost one_slot: { table.shared.table_id.slots ≡ 1 },
}
