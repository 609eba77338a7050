ghost use Rattle.std.specs.Prelude.{◌≡◌, ◌<◌, true};

use crate::holder::Holder;
use crate::view::View;
use atomic_table::Seat;

/// The right to try for the turn: one of six, numbered from 0. Seat 0 makes the others and takes them in.
#[derive(Drop)]
pub struct TurnSeat<H: Holder<P>, P> {
    pub(crate) seat: Seat<Option<Box<H>>, View<Option<P>>>,
    pub(crate) number: u64,
    pub(crate) made: u64,
    ghost numbered: { seat.me.0.number ≡ number },
    ghost counted: { seat.me.0.made ≡ made },
    ghost small: { number < 6 },
    ghost live: { seat.me.0.live ≡ true },
}
