ghost use Rattle.std.specs.Prelude.{ℕ, ◌≡◌, ◌≢◌, ◌+◌, ◌<◌, ◌≤◌, ◌∷◌, [], None, slice_index};
ghost use Rattle.device_turn.specs.Rule.{KeptBy, Without, away, boxed, counts_in, noted, staged, worded};
ghost use Rattle.device_turn.specs.Answers.{IsComplete, MayLeave, with_loaded};
ghost use Rattle.device_turn.specs.declared.view.Stage.TheVariants.{Away, Turn as Mine, Out};

use crate::holder::Holder;
use crate::place::Turn;
use crate::seat::TurnSeat;
use crate::view::{End, Fetch, Note, Return, Take, Word};

/// The steps of a turn.
impl<H: Holder<P>, P> Turn<H, P> {
    /// The step by which the turn is taken. It answers the word that it found.
    pub(crate) fn take(&self, seat: &mut TurnSeat<H, P>) -> u64
        requires own { seat.old.seat.table_id ≡ self.now.table.shared.table_id }
        requires away { seat.old.seat.me.0.stage ≡ Away }
        ensures own { (seat.new.seat.table_id ≡ seat.old.seat.table_id) × (seat.new.seat.id ≡ seat.old.seat.id) ×
            (seat.new.number ≡ seat.old.number) × (seat.new.made ≡ seat.old.made) }
        ensures got { result ≡ 0 → seat.new.seat.me ≡ (staged Mine seat.old.seat.me.0, seat.old.seat.me.1) }
        ensures not { result ≢ 0 → (seat.new.seat.me ≡ seat.old.seat.me) × (result ≢ seat.old.seat.me.0.number + 1) × (result ≤ 6) }
    {
        let number = seat.number;
        self.table
            .shared
            .compare_exchange::<Take>(&mut seat.seat, 0, 0, number + 1)
    }

    /// The seat whose turn it is notes another seat's word.
    fn note(&self, seat: &mut TurnSeat<H, P>, other: u64)
        requires own { seat.old.seat.table_id ≡ self.now.table.shared.table_id }
        requires turn { seat.old.seat.me.0.stage ≡ Mine }
        requires other { (other < 6) × (other ≢ seat.old.number) }
        ensures own { (seat.new.seat.table_id ≡ seat.old.seat.table_id) × (seat.new.seat.id ≡ seat.old.seat.id) ×
            (seat.new.number ≡ seat.old.number) × (seat.new.made ≡ seat.old.made) }
        ensures noted { (n : ℕ) × (seat.new.seat.me ≡ (noted other n seat.old.seat.me.0, seat.old.seat.me.1)) }
    {
        self.table
            .shared
            .load::<Note>(&mut seat.seat, other as usize + 1);
    }

    /// The seat whose turn it is notes every other seat's word.
    pub(crate) fn note_all(&self, seat: &mut TurnSeat<H, P>)
        requires own { seat.old.seat.table_id ≡ self.now.table.shared.table_id }
        requires turn { (seat.old.seat.me.0.stage ≡ Mine) × (seat.old.seat.me.0.loaded ≡ []) }
        ensures own { (seat.new.seat.table_id ≡ seat.old.seat.table_id) × (seat.new.seat.id ≡ seat.old.seat.id) ×
            (seat.new.number ≡ seat.old.number) × (seat.new.made ≡ seat.old.made) }
        ensures noted { seat.new.seat.me ≡ (with_loaded seat.new.seat.me.0.loaded seat.old.seat.me.0, seat.old.seat.me.1) }
        ensures complete { IsComplete seat.new.seat.me.0 }
        ensures others { Without seat.new.seat.me.0.number seat.new.seat.me.0.loaded }
    {
        let number = seat.number;
        for other in 0..6 {
            if other != number {
                self.note(seat, other);
            }
        }
    }

    /// The steps by which the holder leaves the slot.
    pub(crate) fn fetch(&self, seat: &mut TurnSeat<H, P>) -> Box<H>
        requires own { seat.old.seat.table_id ≡ self.now.table.shared.table_id }
        requires turn { (seat.old.seat.me.0.stage ≡ Mine) × (seat.old.seat.me.1 ≡ []) }
        ensures own { (seat.new.seat.table_id ≡ seat.old.seat.table_id) × (seat.new.seat.id ≡ seat.old.seat.id) ×
            (seat.new.number ≡ seat.old.number) × (seat.new.made ≡ seat.old.made) }
        ensures out { seat.new.seat.me ≡ (staged Out seat.old.seat.me.0, (0, None) ∷ []) }
        ensures counts { MayLeave (KeptBy (boxed H.keeps)) (counts_in H.counts) seat.old.seat.me.0 result ×
            (slice_index (H.counts result.value) seat.old.seat.me.0.number ≡ seat.old.seat.me.0.word) }
    {
        self.table.shared.load::<Fetch<H, P>>(&mut seat.seat, 0);
        let found = self.table.shared.exchange(&mut seat.seat, 0, None);
        found.unwrap()
    }

    /// The step by which the seat that has the holder stores its own word.
    pub(crate) fn store(&self, seat: &mut TurnSeat<H, P>, word: u64)
        requires own { seat.old.seat.table_id ≡ self.now.table.shared.table_id }
        requires out { seat.old.seat.me.0.stage ≡ Out }
        ensures own { (seat.new.seat.table_id ≡ seat.old.seat.table_id) × (seat.new.seat.id ≡ seat.old.seat.id) ×
            (seat.new.number ≡ seat.old.number) × (seat.new.made ≡ seat.old.made) }
        ensures worded { seat.new.seat.me ≡ (worded word seat.old.seat.me.0, seat.old.seat.me.1) }
    {
        let number = seat.number as usize;
        self.table
            .shared
            .store::<Word>(&mut seat.seat, number + 1, word);
    }

    /// The steps by which the holder goes back and the turn ends.
    pub(crate) fn give_back(&self, seat: &mut TurnSeat<H, P>, holder: Box<H>)
        requires own { seat.old.seat.table_id ≡ self.now.table.shared.table_id }
        requires out { (seat.old.seat.me.0.stage ≡ Out) × (seat.old.seat.me.1 ≡ (0, None) ∷ []) }
        requires keeps { IsComplete seat.old.seat.me.0 × MayLeave (KeptBy (boxed H.keeps)) (counts_in H.counts) seat.old.seat.me.0 holder ×
            (slice_index (H.counts holder.value) seat.old.seat.me.0.number ≡ seat.old.seat.me.0.word) }
        ensures own { (seat.new.seat.table_id ≡ seat.old.seat.table_id) × (seat.new.seat.id ≡ seat.old.seat.id) ×
            (seat.new.number ≡ seat.old.number) × (seat.new.made ≡ seat.old.made) }
        ensures away { seat.new.seat.me ≡ (away seat.old.seat.me.0, []) }
    {
        let empty = self.table.shared.exchange(&mut seat.seat, 0, Some(holder));
        drop(empty);
        self.table.shared.load::<Return>(&mut seat.seat, 0);
        self.table.shared.store::<End>(&mut seat.seat, 0, 0);
    }
}
