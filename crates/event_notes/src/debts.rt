ghost use Rattle.std.specs.Prelude.{◌≡◌, ℕ, IfOk, false, is_some, not, replicate, slice_set, true};
ghost use Rattle.std.specs.Option.{unwrap_or};
ghost use Rattle.device_defs.specs.Store.{no_debt};
ghost use Rattle.track_table.specs.Bits.{is_marked};
ghost use Rattle.event_notes.specs.Debts.{is_paid, owed_in};

use ckd_types::{NoMemory, TrackNo};
use device_defs::Owed;
use std::alloc::Global;
use std::marker::Model;
use track_table::{TrackBits, TrackTable};

/// What of each track of a device the port wasn't told yet. Contracts see a place for each track. That a track became firm is told
/// at once, and so is never owed. Only a track of which something is owed has an entry.
#[derive(Debug, Drop)]
pub struct Debts {
    owed: TrackTable<Owed>,
    tracks: usize,
}

impl Model for Debts {
    ghost use Rattle.std.specs.Prelude.{◌≡◌, ℕ, List, false, length, min, not};
    ghost use Rattle.device_defs.specs.declared.owed.Owed.{Owed};
    ghost use Rattle.track_table.specs.Table.{has_entry};
    ghost use Rattle.event_notes.specs.Debts.{all_owed, is_paid, owed_by};

    ghost Value = { List Owed };

    ghost view = { λ d. all_owed d.tracks d.owed };

    ghost invariant = { λ d. (length d.owed ≡ min d.tracks 65535) × ((t : ℕ) → has_entry d.owed t ≡ not (is_paid (owed_by d.owed t)))
        × ((t : ℕ) → (owed_by d.owed t).firm ≡ false) };
}

fn no_debt() -> Owed
    ensures { result ≡ no_debt }
{
    Owed {
        modified: false,
        dropped: false,
        freed: None,
        firm: false,
    }
}

fn is_paid(owed: &Owed) -> bool
    ensures { result ≡ is_paid owed.now }
{
    !(owed.modified || owed.dropped || owed.freed.is_some() || owed.firm)
}

/// The entry of a track: none, where nothing is owed of it.
fn entry_of(owed: Owed) -> Option<Owed>
    ensures value { unwrap_or result no_debt ≡ owed }
    ensures some { is_some result ≡ not (is_paid owed) }
{
    if is_paid(&owed) { None } else { Some(owed) }
}

impl Debts {
    /// Nothing is owed of so many tracks.
    pub fn new(alloc: Global, tracks: usize) -> Result<Debts, NoMemory>
        ensures { IfOk result (λ made. made ≡ replicate tracks no_debt) }
    {
        let mut owed = TrackTable::new(alloc)?;
        owed.reserve(tracks.min(65535))?;
        Ok(Debts { owed, tracks })
    }

    /// What is owed of a track.
    pub fn at(&self, t: TrackNo) -> Owed
        ensures value { result ≡ owed_in self.now t }
        ensures firm { result.firm ≡ false }
    {
        match self.owed.get(t) {
            Some(owed) => *owed,
            None => no_debt(),
        }
    }

    /// Something else is owed of a track.
    pub fn set(&mut self, t: TrackNo, owed: Owed)
        requires { owed.firm ≡ false }
        ensures { self.new ≡ slice_set self.old t owed }
    {
        let _track = t.get();
        self.owed.exchange(t, entry_of(owed));
    }

    /// No track became firm that the keeper wasn't told.
    pub fn no_firm(&self)
        ensures { (t : ℕ) → (owed_in self.now t).firm ≡ false }
    {
        let _ = &self.owed;
    }

    /// The tracks of which something is owed.
    pub fn tracks(&self) -> &TrackBits
        ensures { (t : ℕ) → is_marked result.now t ≡ not (is_paid (owed_in self.now t)) }
    {
        self.owed.held()
    }

    /// Whether it is known that nothing is owed of any track: it is, where nothing is.
    pub fn are_paid(&self) -> bool
        ensures { result ≡ true → (t : ℕ) → owed_in self.now t ≡ no_debt }
    {
        self.owed.is_empty()
    }
}
