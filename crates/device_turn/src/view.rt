//! What a seat knows, and the steps of a turn. No value of a view is made.
use crate::holder::Holder;
use atomic_table::{Join, Play, Split, TableRule};
use std::collections::LinkedList;
use std::marker::PhantomData;

/// Whether it is the seat's turn, and whether the holder is out with it.
pub enum Stage {
    Away,
    Turn,
    Out,
}

/// A seat's number and word, the numbers and words of those that were joined into it, how many seats it made, the words
/// that it loaded since it took the turn, whether it is a seat still, and what was promised.
pub struct View<Q> {
    pub number: u64,
    pub word: u64,
    pub joined: LinkedList<(u64, u64)>,
    pub made: u64,
    pub stage: Stage,
    pub loaded: LinkedList<(u64, u64)>,
    pub live: bool,
    pub pledge: Q,
}

/// What is kept of a table while a holder of this kind goes round: the rule between any two steps, and what each step tells
/// its seat.
pub struct Keeping<H: Holder<P>, P> {
    holder: PhantomData<(H, P)>,
}

impl<H: Holder<P>, P> TableRule<Option<Box<H>>, View<Option<P>>, P> for Keeping<H, P> {
    ghost use Rattle.std.specs.Prelude.{Some};
    ghost use Rattle.device_turn.specs.Rule.{Kept, KeptBy, boxed, counts_in, view};

    ghost holds = { λ pledge. Kept (KeptBy (boxed H.keeps)) (counts_in H.counts) (Some pledge) };

    ghost first = { λ pledge. view 0 1 (Some pledge) };
}

/// The turn is taken, where it is nobody's.
pub struct Take;

impl<H, Q> Play<Option<H>, View<Q>> for Take {
    ghost use Rattle.device_turn.specs.Steps.{Takes};

    ghost then = { Takes };
}

/// The seat whose turn it is loads another's word.
pub struct Note;

impl<H, Q> Play<Option<H>, View<Q>> for Note {
    ghost use Rattle.device_turn.specs.Steps.{Notes};

    ghost then = { Notes };
}

/// A seat loads another's word.
pub struct Look;

impl<H, Q> Play<Option<H>, View<Q>> for Look {
    ghost use Rattle.device_turn.specs.Steps.{Looks};

    ghost then = { Looks };
}

/// The holder leaves the slot.
pub struct Fetch<H: Holder<P>, P> {
    holder: PhantomData<(H, P)>,
}

impl<H: Holder<P>, P> Play<Option<Box<H>>, View<Option<P>>> for Fetch<H, P> {
    ghost use Rattle.device_turn.specs.Rule.{KeptBy, boxed, counts_in};
    ghost use Rattle.device_turn.specs.Steps.{Fetches};

    ghost then = { Fetches (KeptBy (boxed H.keeps)) (counts_in H.counts) };
}

/// The seat that has the holder stores its own word.
pub struct Word;

impl<H, Q> Play<Option<H>, View<Q>> for Word {
    ghost use Rattle.device_turn.specs.Steps.{Words};

    ghost then = { Words };
}

/// The holder is back in the slot.
pub struct Return;

impl<H, Q> Play<Option<H>, View<Q>> for Return {
    ghost use Rattle.device_turn.specs.Steps.{Returns};

    ghost then = { Returns };
}

/// The turn is nobody's again.
pub struct End;

impl<H, Q> Play<Option<H>, View<Q>> for End {
    ghost use Rattle.device_turn.specs.Steps.{Ends};

    ghost then = { Ends };
}

/// Seats come and go.
pub struct Members;

impl<P> Split<View<Option<P>>> for Members {
    ghost use Rattle.device_turn.specs.Rule.{counted, newcomer};

    ghost left = { counted };

    ghost right = { newcomer };
}

impl<P> Join<View<Option<P>>> for Members {
    ghost use Rattle.device_turn.specs.Rule.{both, spent};
    ghost use Rattle.std.specs.Prelude.{None};

    ghost both = { both };

    ghost spent = { spent None };
}
