ghost use Rattle.std.specs.Prelude.{ℕ, ◌≡◌, ◌+◌, ◌<◌, [], Some, IfOk, IfErr, slice_index, true};
ghost use Rattle.device_turn.specs.Rule.{KeptBy, Still, away, both, boxed, counted, counts_in, has, newcomer, owned, view, worded, zeros};
ghost use Rattle.device_turn.specs.Steps.{Agrees};
ghost use Rattle.device_turn.specs.Answers.{Entered, IsAway, IsOut, MayLeave};
ghost use Rattle.device_turn.specs.declared.view.Stage.TheVariants.{Away};

use crate::enter::Enter;
use crate::holder::Holder;
use crate::place::Turn;
use crate::seat::TurnSeat;
use crate::view::{Look, Members};
use atomic_table::{Refused, Table};
use ckd_types::NoMemory;
use std::alloc::{AllocFailed, Global};

impl<H: Holder<P>, P> Turn<H, P> {
    /// Puts a holder in its room into its place.
    fn place(
        alloc: Global,
        holder: Box<H>,
        pledge: &P,
    ) -> Result<(Turn<H, P>, TurnSeat<H, P>), (NoMemory, Box<H>)>
        requires keeps { boxed H.keeps pledge.now holder }
        requires unused { counts_in H.counts holder ≡ zeros }
        ensures seat { IfOk result (λ r. (r.1.seat.table_id ≡ r.0.table.shared.table_id) × (r.1.number ≡ 0) × (r.1.made ≡ 1) ×
            (r.1.seat.me ≡ (view 0 1 (Some pledge.now), []))) }
        ensures same { IfErr result (λ e. e.1 ≡ holder) }
    {
        let mut slots = Vec::new(alloc);
        if let Err(failed) = slots.push(Some(holder)) {
            let AllocFailed { value } = failed;
            return Err((NoMemory, value.unwrap()));
        }
        match Table::new(alloc, &[0, 0, 0, 0, 0, 0, 0], slots, pledge) {
            Ok((table, seat)) => Ok((
                Turn { table },
                TurnSeat {
                    seat,
                    number: 0,
                    made: 1,
                },
            )),
            Err(Refused { mut slots }) => Err((NoMemory, slots.pop().unwrap().unwrap())),
        }
    }

    /// Puts a holder that no seat used yet in its place, and makes seat 0. Where there is no memory the holder is handed
    /// back.
    pub fn make(
        alloc: Global,
        holder: H,
        pledge: &P,
    ) -> Result<(Turn<H, P>, TurnSeat<H, P>), (NoMemory, H)>
        requires keeps { H.keeps pledge.now holder }
        requires unused { H.counts holder ≡ zeros }
        ensures seat { IfOk result (λ r. (r.1.seat.table_id ≡ r.0.table.shared.table_id) × (r.1.number ≡ 0) × (r.1.made ≡ 1) ×
            (r.1.seat.me ≡ (view 0 1 (Some pledge.now), []))) }
        ensures same { IfErr result (λ e. e.1 ≡ holder) }
    {
        let housed = match Box::new(alloc, holder) {
            Ok(housed) => housed,
            Err(AllocFailed { value }) => return Err((NoMemory, value)),
        };
        match Turn::place(alloc, housed, pledge) {
            Ok(made) => Ok(made),
            Err((NoMemory, housed)) => Err((NoMemory, Box::into_inner(housed))),
        }
    }

    /// Another seat, made by seat 0. Takes no memory.
    pub fn split(&self, seat: &mut TurnSeat<H, P>) -> TurnSeat<H, P>
        requires own { seat.old.seat.table_id ≡ self.now.table.shared.table_id }
        requires first { seat.old.number ≡ 0 }
        requires room { seat.old.made < 6 }
        ensures own { (seat.new.seat.table_id ≡ seat.old.seat.table_id) × (seat.new.seat.id ≡ seat.old.seat.id) ×
            (seat.new.number ≡ seat.old.number) × (seat.new.made ≡ seat.old.made + 1) }
        ensures same { seat.new.seat.me ≡ (counted seat.old.seat.me.0, seat.old.seat.me.1) }
        ensures new { (result.seat.table_id ≡ seat.old.seat.table_id) × (result.number ≡ seat.old.made) × (result.seat.me ≡ (newcomer seat.old.seat.me.0, [])) }
    {
        let number = seat.made;
        let other = self.table.shared.split_seat::<Members>(&mut seat.seat);
        seat.made = number + 1;
        TurnSeat {
            seat: other,
            number,
            made: 0,
        }
    }

    /// Seat 0 takes in another seat, which hasn't the turn.
    pub fn join(&self, seat: &mut TurnSeat<H, P>, gone: TurnSeat<H, P>)
        requires own { (seat.old.seat.table_id ≡ self.now.table.shared.table_id) × (gone.seat.table_id ≡ self.now.table.shared.table_id) }
        requires rests { IsAway gone.seat.me }
        ensures own { (seat.new.seat.table_id ≡ seat.old.seat.table_id) × (seat.new.seat.id ≡ seat.old.seat.id) ×
            (seat.new.number ≡ seat.old.number) × (seat.new.made ≡ seat.old.made) }
        ensures both { seat.new.seat.me ≡ (both seat.old.seat.me.0 gone.seat.me.0, seat.old.seat.me.1) }
    {
        let TurnSeat {
            seat: other,
            number: _,
            made: _,
        } = gone;
        self.table
            .shared
            .join_seat::<Members>(&mut seat.seat, other);
    }

    /// Takes the turn and what stands in the slot, or says which seat has the turn. It waits for nobody, and takes no
    /// memory.
    pub fn enter(&self, seat: &mut TurnSeat<H, P>) -> Enter<Box<H>>
        requires own { seat.old.seat.table_id ≡ self.now.table.shared.table_id }
        requires away { IsAway seat.old.seat.me }
        ensures own { (seat.new.seat.table_id ≡ seat.old.seat.table_id) × (seat.new.seat.id ≡ seat.old.seat.id) ×
            (seat.new.number ≡ seat.old.number) × (seat.new.made ≡ seat.old.made) }
        ensures entered { Entered (KeptBy (boxed H.keeps)) (counts_in H.counts) seat.old.seat.me seat.new.seat.me result }
    {
        let found = self.take(seat);
        if found != 0 {
            return Enter::Taken { seat: found - 1 };
        }
        self.note_all(seat);
        Enter::Got(self.fetch(seat))
    }

    /// Stores the seat's count as its word, and gives the holder and the turn back.
    pub fn leave(&self, seat: &mut TurnSeat<H, P>, holder: Box<H>)
        requires own { seat.old.seat.table_id ≡ self.now.table.shared.table_id }
        requires out { IsOut seat.old.seat.me }
        requires keeps { MayLeave (KeptBy (boxed H.keeps)) (counts_in H.counts) seat.old.seat.me.0 holder }
        ensures own { (seat.new.seat.table_id ≡ seat.old.seat.table_id) × (seat.new.seat.id ≡ seat.old.seat.id) ×
            (seat.new.number ≡ seat.old.number) × (seat.new.made ≡ seat.old.made) }
        ensures away { seat.new.seat.me ≡ (away (worded (slice_index (H.counts holder.value) seat.old.number) seat.old.seat.me.0), []) }
    {
        let word = holder.as_ref().count(seat.number);
        self.store(seat, word);
        self.give_back(seat, holder);
    }

    /// The word of a seat, as it is now. The seat that asks needs no turn, and learns nothing that lasts.
    pub fn seen(&self, seat: &mut TurnSeat<H, P>, other: u64) -> u64
        requires own { seat.old.seat.table_id ≡ self.now.table.shared.table_id }
        requires other { other < 6 }
        ensures same { (seat.new.seat.table_id ≡ seat.old.seat.table_id) × (seat.new.seat.id ≡ seat.old.seat.id) ×
            (seat.new.number ≡ seat.old.number) × (seat.new.made ≡ seat.old.made) × (seat.new.seat.me ≡ seat.old.seat.me) }
        ensures loaded { Agrees other result seat.old.seat.me.0.loaded }
        ensures owned { Agrees other result (owned seat.old.seat.me.0) }
    {
        self.table
            .shared
            .load::<Look>(&mut seat.seat, other as usize + 1)
    }

    /// Takes what stands in the slot out, once every seat that was made is joined into seat 0.
    pub fn close(self, seat: TurnSeat<H, P>) -> H
        requires own { seat.seat.table_id ≡ self.table.shared.table_id }
        requires first { seat.number ≡ 0 }
        requires rests { seat.seat.me.0.stage ≡ Away }
        requires all { (k : ℕ) → k < seat.made → has k (owned seat.seat.me.0) ≡ true }
        ensures keeps { KeptBy H.keeps seat.seat.me.0.pledge result }
        ensures counts { Still (H.counts result) (owned seat.seat.me.0) }
    {
        let Turn { table } = self;
        let TurnSeat {
            seat,
            number: _,
            made: _,
        } = seat;
        let mut closed = table.close_with(seat);
        let holder = closed.take(0).unwrap();
        closed.free();
        Box::into_inner(holder)
    }
}
