//! What the workers leave of their seats.

use ckd_types::NoMemory;
use device_turn::{Holder, Turn, TurnSeat};
use std::snapshot::Snapshot;
use std::thread;
use std::thread::PromisedHandle;

/// A worker's seats behind its walk.
pub(crate) type Walked<H, P> = Result<Vec<TurnSeat<H, P>>, NoMemory>;

/// The thread of a worker, or what the worker left where it got none.
pub(crate) type Begun<H, P> = Result<PromisedHandle<Walked<H, P>, Resting<H, P>>, Walked<H, P>>;

/// What a worker's thread leaves: seats of this number rest at these turns.
#[derive(Drop)]
pub(crate) struct Resting<H: Holder<P>, P> {
    pub turns: Snapshot<Vec<Turn<H, P>>>,
    pub number: u64,
}

impl<H: Holder<P>, P> thread::Promise<Walked<H, P>> for Resting<H, P> {
    ghost use Rattle.std.specs.Prelude.{IfOk};
    ghost use Rattle.std.specs.List.{AllZip};
    ghost use Rattle.device_turn.specs.Seating.{IsAt};

    ghost kept_by = { λ p r. IfOk r (λ v. AllZip (IsAt p.number) p.turns.value.items v.items) };
}

/// What each worker left.
#[derive(Drop)]
pub(crate) struct Walks<H: Holder<P>, P> {
    pub first: Walked<H, P>,
    pub second: Walked<H, P>,
    pub third: Walked<H, P>,
    pub fourth: Walked<H, P>,
    pub background: Walked<H, P>,
    pub operator: Walked<H, P>,
}
