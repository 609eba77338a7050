ghost use Rattle.std.specs.Prelude.{◌≡◌, ℕ, ◌*◌, ◌+◌, ◌++◌, ◌<◌, ◌≤◌, [], ◌∷◌, IfOk, OnOk, false, true, is_some};
ghost use Rattle.std.specs.Prelude.{if◌then◌else◌, length, replicate, slice_index_or, slice_set};
ghost use Rattle.plain_defs.specs.declared.journal.Act.TheVariants.{Loosen, Harden, CfwLost};
ghost use Rattle.track_table.specs.Bits.{is_marked};
ghost use Rattle.track_table.specs.Tracks.{least};
ghost use Rattle.event_notes.specs.Loose.{is_loose_in, loose_count, weight};

use ckd_types::{HEADS, NoMemory, TrackNo};
use plain_defs::Act;
use std::alloc::Global;
use std::marker::Model;
use track_table::{CountedBits, TrackBits};

/// The tracks of a device that have data of cache fast write, and the acts of the event at hand. Contracts see a mark for each of
/// its tracks. There is room for the acts that come when loose tracks become firm or are lost: only that one becomes loose takes more.
#[derive(Debug, Drop)]
pub struct LooseTracks {
    marks: CountedBits,
    /// The tracks of the device.
    tracks: usize,
    acts: Vec<Act>,
}

impl Model for LooseTracks {
    ghost use Rattle.std.specs.Prelude.{◌≡◌, ℕ, Bool, false, ◌+◌, ◌-◌, ◌≤◌, length, take, vec_capacity, vec_len};
    ghost use Rattle.track_table.specs.Bits.{is_marked};
    ghost use Rattle.track_table.specs.Tracks.{count_below};
    ghost use Rattle.event_notes.specs.Loose.{LooseView};

    ghost Value = { LooseView };

    ghost view = { λ l. record { loose = take l.tracks l.marks; acts = l.acts.items; spare = vec_capacity l.acts - vec_len l.acts } };

    ghost invariant = { λ l. (l.tracks ≤ 65535) × (length l.marks ≡ 65535) × ((t : ℕ) → l.tracks ≤ t → is_marked l.marks t ≡ false) ×
        (count_below 65535 (is_marked l.marks) + vec_len l.acts ≤ vec_capacity l.acts) };
}

impl LooseTracks {
    /// No track of a device with so many cylinders, and no act.
    pub fn new(alloc: Global, cylinders: u16) -> Result<LooseTracks, NoMemory>
        requires { cylinders ≤ 4369 }
        ensures loose { IfOk result (λ made. made.loose ≡ replicate (cylinders * 15) false) }
        ensures acts { IfOk result (λ made. made.acts ≡ []) }
    {
        Ok(LooseTracks {
            marks: CountedBits::new(alloc)?,
            tracks: usize::from(cylinders) * usize::from(HEADS),
            acts: Vec::new(alloc),
        })
    }

    /// Whether a track is loose.
    pub fn has(&self, t: TrackNo) -> bool
        ensures { result ≡ is_loose_in self.now.loose t }
    {
        self.marks.has(t)
    }

    /// The loose tracks as marks.
    pub fn marks(&self) -> &TrackBits
        ensures { (t : ℕ) → is_marked result.now t ≡ is_loose_in self.now.loose t }
    {
        self.marks.bits()
    }

    /// Whether a track is loose.
    pub fn any(&self) -> bool
        ensures { result ≡ is_some (least (length self.now.loose) (is_loose_in self.now.loose)) }
    {
        self.marks.first().is_some()
    }

    /// How many are loose.
    pub fn count(&self) -> usize
        ensures value { result ≡ loose_count self.now.loose }
        ensures room { result ≤ self.now.spare }
        ensures most { result ≤ 65535 }
    {
        usize::from(self.marks.count())
    }

    /// The acts of the event, in their order.
    pub fn acts(&self) -> &[Act]
        ensures { result.now ≡ self.now.acts }
    {
        &self.acts
    }

    /// An event begins.
    pub fn begin(&mut self)
        ensures loose { self.new.loose ≡ self.old.loose }
        ensures acts { self.new.acts ≡ [] }
    {
        self.acts.clear();
    }

    /// Makes room for a track to become loose, and firm again.
    pub fn reserve(&mut self) -> Result<(), NoMemory>
        ensures room { OnOk result (loose_count self.new.loose + 2 ≤ self.new.spare) }
        ensures loose { self.new.loose ≡ self.old.loose }
        ensures acts { self.new.acts ≡ self.old.acts }
    {
        let loose = usize::from(self.marks.count());
        self.acts.reserve(loose + 2)?;
        Ok(())
    }

    /// A track becomes loose, in room that was made.
    pub fn loosen(&mut self, t: TrackNo)
        requires track { t < length self.old.loose }
        requires firm { is_loose_in self.old.loose t ≡ false }
        requires room { loose_count self.old.loose + 2 ≤ self.old.spare }
        ensures loose { self.new.loose ≡ slice_set self.old.loose t true }
        ensures acts { self.new.acts ≡ self.old.acts ++ Loosen t ∷ [] }
        ensures weight { weight self.new ≡ weight self.old + 2 }
    {
        self.acts.push_reserved(Act::Loosen(t));
        self.marks.set(t, true);
    }

    /// A loose track becomes firm.
    pub fn harden(&mut self, t: TrackNo)
        requires track { t < length self.old.loose }
        requires loose { is_loose_in self.old.loose t ≡ true }
        ensures loose { self.new.loose ≡ slice_set self.old.loose t false }
        ensures acts { self.new.acts ≡ self.old.acts ++ Harden t ∷ [] }
        ensures weight { weight self.new ≡ weight self.old }
    {
        self.acts.push_reserved(Act::Harden(t));
        self.marks.set(t, false);
    }

    /// The data of cache fast write are lost with the power, which itself says so.
    pub fn clear(&mut self)
        ensures loose { self.new.loose ≡ replicate (length self.old.loose) false }
        ensures acts { self.new.acts ≡ self.old.acts }
        ensures weight { weight self.new ≤ weight self.old }
    {
        self.marks.clear();
    }

    /// The data of cache fast write are lost: some track is loose.
    pub fn lose(&mut self)
        requires { is_some (least (length self.old.loose) (is_loose_in self.old.loose)) ≡ true }
        ensures loose { self.new.loose ≡ replicate (length self.old.loose) false }
        ensures acts { self.new.acts ≡ self.old.acts ++ CfwLost ∷ [] }
        ensures weight { weight self.new ≤ weight self.old }
    {
        self.acts.push_reserved(Act::CfwLost);
        self.marks.clear();
    }
}
