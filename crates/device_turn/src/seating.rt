ghost use Rattle.std.specs.Prelude.{◌≡◌, ◌<◌, ◌+◌, ◌++◌, ◌∷◌, [], ℕ, IfOk, OnErr, OnOk, Some, true, vec_len};
ghost use Rattle.device_turn.specs.Rule.{KeptBy, has, zeros};
ghost use Rattle.device_turn.specs.Seating.{AreSet, HasRoom, IsAt, IsHome, IsSame, IsSet};

use crate::{Holder, Turn, TurnSeat};
use ckd_types::NoMemory;
use std::alloc::Global;

/// A turn with the seats of its six workers: the operator's is the first.
#[derive(Drop)]
pub struct Setting<H: Holder<P>, P> {
    pub turn: Turn<H, P>,
    pub operator: TurnSeat<H, P>,
    pub first: TurnSeat<H, P>,
    pub second: TurnSeat<H, P>,
    pub third: TurnSeat<H, P>,
    pub fourth: TurnSeat<H, P>,
    pub background: TurnSeat<H, P>,
}

/// The seats of the paths and of the background at some turns.
#[derive(Drop)]
pub struct Seats<H: Holder<P>, P> {
    pub first: Vec<TurnSeat<H, P>>,
    pub second: Vec<TurnSeat<H, P>>,
    pub third: Vec<TurnSeat<H, P>>,
    pub fourth: Vec<TurnSeat<H, P>>,
    pub background: Vec<TurnSeat<H, P>>,
}

/// Some turns, and the seats of each worker at them.
#[derive(Drop)]
pub struct Table<H: Holder<P>, P> {
    pub turns: Vec<Turn<H, P>>,
    pub operator: Vec<TurnSeat<H, P>>,
    pub seats: Seats<H, P>,
}

/// A holder stands in a turn, with a seat for each worker.
pub fn set<H: Holder<P>, P>(
    alloc: Global,
    holder: H,
    promise: &P,
) -> Result<Setting<H, P>, NoMemory>
    requires keeps { H.keeps promise.now holder }
    requires unused { H.counts holder ≡ zeros }
    ensures set { IfOk result IsSet }
    ensures pledge { IfOk result (λ s. s.operator.seat.me.0.pledge ≡ Some promise.now) }
{
    let (turn, mut operator) = match Turn::make(alloc, holder, promise) {
        Err((NoMemory, _)) => return Err(NoMemory),
        Ok(made) => made,
    };
    let first = turn.split(&mut operator);
    let second = turn.split(&mut operator);
    let third = turn.split(&mut operator);
    let fourth = turn.split(&mut operator);
    let background = turn.split(&mut operator);
    Ok(Setting {
        turn,
        operator,
        first,
        second,
        third,
        fourth,
        background,
    })
}

/// The operator's seat takes in the next one.
fn take_in<H: Holder<P>, P>(
    turn: &Turn<H, P>,
    operator: &mut TurnSeat<H, P>,
    gone: TurnSeat<H, P>,
    number: u64,
)
    requires operator { IsHome turn.now operator.old }
    requires gone { IsAt number turn.now gone }
    requires before { (k : ℕ) → 0 < k → k < number → has k operator.old.seat.me.0.joined ≡ true }
    ensures operator { IsHome turn.now operator.new }
    ensures pledge { operator.new.seat.me.0.pledge ≡ operator.old.seat.me.0.pledge }
    ensures after { (k : ℕ) → 0 < k → k < number + 1 → has k operator.new.seat.me.0.joined ≡ true }
{
    turn.join(operator, gone);
}

/// The holder leaves its turn, once all seats have come home.
pub fn clear<H: Holder<P>, P>(setting: Setting<H, P>) -> H
    requires { IsSet setting }
    ensures { KeptBy H.keeps setting.operator.seat.me.0.pledge result }
{
    let Setting {
        turn,
        mut operator,
        first,
        second,
        third,
        fourth,
        background,
    } = setting;
    take_in(&turn, &mut operator, first, 1);
    take_in(&turn, &mut operator, second, 2);
    take_in(&turn, &mut operator, third, 3);
    take_in(&turn, &mut operator, fourth, 4);
    take_in(&turn, &mut operator, background, 5);
    turn.close(operator)
}

impl<H: Holder<P>, P> Table<H, P> {
    /// No turns.
    pub fn new(alloc: Global) -> Table<H, P>
        ensures set { AreSet result }
        ensures none { result.operator.items ≡ [] }
    {
        Table {
            turns: Vec::new(alloc),
            operator: Vec::new(alloc),
            seats: Seats {
                first: Vec::new(alloc),
                second: Vec::new(alloc),
                third: Vec::new(alloc),
                fourth: Vec::new(alloc),
                background: Vec::new(alloc),
            },
        }
    }

    /// Room for one turn more.
    fn reserve(&mut self) -> Result<(), NoMemory>
        ensures same { IsSame self.old self.new }
        ensures room { OnOk result (HasRoom self.new) }
    {
        self.turns.reserve(1)?;
        self.operator.reserve(1)?;
        self.seats.first.reserve(1)?;
        self.seats.second.reserve(1)?;
        self.seats.third.reserve(1)?;
        self.seats.fourth.reserve(1)?;
        self.seats.background.reserve(1)?;
        Ok(())
    }

    /// Adds a turn behind the others, and each worker's seat at it. Where memory is wanting the table stays as it is, and the turn goes.
    pub fn push(&mut self, setting: Setting<H, P>) -> Result<(), NoMemory>
        requires old { AreSet self.old }
        requires more { IsSet setting }
        ensures set { OnOk result (AreSet self.new) }
        ensures operator { OnOk result (self.new.operator.items ≡ self.old.operator.items ++ setting.operator ∷ []) }
        ensures same { OnErr result (IsSame self.old self.new) }
    {
        self.reserve()?;
        let Setting {
            turn,
            operator,
            first,
            second,
            third,
            fourth,
            background,
        } = setting;
        self.turns.push_reserved(turn);
        self.operator.push_reserved(operator);
        self.seats.first.push_reserved(first);
        self.seats.second.push_reserved(second);
        self.seats.third.push_reserved(third);
        self.seats.fourth.push_reserved(fourth);
        self.seats.background.push_reserved(background);
        Ok(())
    }

    /// Takes the last turn out, with its seats.
    pub fn pop(&mut self) -> Setting<H, P>
        requires some { 0 < vec_len self.old.turns }
        requires set { AreSet self.old }
        ensures set { AreSet self.new }
        ensures one { IsSet result }
        ensures operator { self.old.operator.items ≡ self.new.operator.items ++ result.operator ∷ [] }
        ensures fewer { vec_len self.new.turns + 1 ≡ vec_len self.old.turns }
    {
        Setting {
            turn: self.turns.pop().unwrap(),
            operator: self.operator.pop().unwrap(),
            first: self.seats.first.pop().unwrap(),
            second: self.seats.second.pop().unwrap(),
            third: self.seats.third.pop().unwrap(),
            fourth: self.seats.fourth.pop().unwrap(),
            background: self.seats.background.pop().unwrap(),
        }
    }
}
