ghost use Rattle.std.specs.Prelude.{◌≡◌, ◌*◌, ◌||◌, ℕ, is_some, false, true};
ghost use Rattle.device_defs.specs.Contents.{contents};
ghost use Rattle.device_defs.specs.Owed.{
  all_told,
  noted_begin,
  dropped_told,
  noted_end,
  freed_told,
  is_owed,
  modified_told,
  settles_debt,
  track_told,
  waiting_count,
  waiting_told,
  waits,
};
ghost use Rattle.device_defs.specs.Store.{no_debt, owed_at};
ghost use Rattle.device_outside.specs.Keeper.{Heard};
ghost use Rattle.device_outside.specs.Outside.{Ran};
ghost use Rattle.event_notes.specs.Debts.{owed_in};
ghost use Rattle.track_table.specs.Bits.{is_marked};
ghost use Rattle.device_store.specs.Leaves.{ChangesMarksAlone, KeepsVolumes};
ghost use Rattle.device_store.specs.State.{state_of, outside, surely};

use crate::DeviceStore;
use ckd_types::TrackNo;
use device_defs::Owed;
use device_outside::{Keep, Port, Volume};
use track_image::TrackImage;
use track_table::{Marks, Or, TrackBits, Without, count, least_from};

/// The tracks of one set that aren't in another.
type Only<'a> = Without<&'a TrackBits, &'a TrackBits>;

/// The tracks that wait for recovery.
pub(crate) type Waiting<'a> = Without<
    Or<Only<'a>, Without<Only<'a>, &'a TrackBits>>,
    &'a TrackBits,
>;

fn no_debt() -> Owed
    ensures { result ≡ no_debt }
{
    Owed {
        modified: false,
        dropped: false,
        freed: None,
        firm: false,
    }
}

fn is_owed(owed: &Owed) -> bool
    ensures { result ≡ is_owed contents owed.now }
{
    owed.modified || owed.dropped || owed.freed.is_some()
}

impl<V: Volume> DeviceStore<V> {
    /// An event begins.
    pub fn begin_event(&mut self)
        ensures leaves { KeepsVolumes self.old self.new }
        ensures loose { self.new.loose.loose ≡ self.old.loose.loose }
        ensures state { state_of self.new ≡ noted_begin (state_of self.old) }
    {
        self.loose.begin();
    }

    /// The tracks that wait for recovery: those with a patch and no frame, and those with a modified frame alone that aren't loose.
    pub(crate) fn waiting(&self) -> Waiting<'_>
        ensures { (t : ℕ) → ⟦<Waiting<'static> as Marks>⟧.marked result t ≡ waits contents (state_of self.now) t }
    {
        let patched = self.patches.patched_tracks();
        let without_frame = Without {
            one: patched,
            other: self.frames.framed_tracks(),
        };
        let alone = Without {
            one: self.frames.modified_tracks(),
            other: patched,
        };
        let alone = Without {
            one: alone,
            other: self.loose.marks(),
        };
        let waiting = Or {
            one: without_frame,
            other: alone,
        };
        Without {
            one: waiting,
            other: self.lost.marks(),
        }
    }

    /// Whether it is known that no track waits: without a patch and a modified frame none does.
    fn none_waits(&self) -> bool
        ensures { result ≡ true → (t : ℕ) → waits contents (state_of self.now) t ≡ false }
    {
        if self.patches.is_empty() {
            return self.frames.none_modified();
        }
        false
    }

    /// How many tracks wait for recovery.
    pub fn waiting_count(&self) -> u16
        ensures { result ≡ waiting_count contents (state_of self.now) }
    {
        if self.none_waits() {
            return 0;
        }
        count(&self.waiting())
    }

    fn tell_modified<P: Port, K: Keep<TrackImage>>(&self, t: TrackNo, port: &mut P)
        ensures run { (k : K) → Ran surely (Heard K.hears K.takes) (modified_told contents t (state_of self.now)) (outside (P.view port.old) self.now k)
            (state_of self.now) tt (outside (P.view port.new) self.now k) }
    {
        if !self.owed.at(t).modified {
            return;
        }
        if self.frames.modified(t) {
            port.set_modified(self.number, t);
        }
    }

    fn tell_dropped<P: Port, K: Keep<TrackImage>>(&self, t: TrackNo, port: &mut P)
        ensures run { (k : K) → Ran surely (Heard K.hears K.takes) (dropped_told contents t (state_of self.now)) (outside (P.view port.old) self.now k)
            (state_of self.now) tt (outside (P.view port.new) self.now k) }
    {
        if self.owed.at(t).dropped {
            port.drop_frame(self.number, t);
        }
    }

    fn tell_freed<P: Port, K: Keep<TrackImage>>(&self, t: TrackNo, port: &mut P)
        ensures run { (k : K) → Ran surely (Heard K.hears K.takes) (freed_told contents (state_of self.now) (owed_at (state_of self.now) t).freed)
            (outside (P.view port.old) self.now k) (state_of self.now) tt (outside (P.view port.new) self.now k) }
    {
        match self.owed.at(t).freed {
            None => (),
            Some(slot) => port.free_slot(slot),
        }
    }

    /// The port is told what it is owed of a track.
    fn settle_debt<P: Port, K: Keep<TrackImage>>(&mut self, t: TrackNo, port: &mut P)
        ensures leaves { ChangesMarksAlone self.old self.new }
        ensures rest { state_of self.new ≡ record (state_of self.old) { owed = self.new.owed } }
        ensures paid { (q : ℕ) → owed_in self.old.owed q ≡ no_debt → owed_in self.new.owed q ≡ no_debt }
        ensures run { (k : K) → Ran surely (Heard K.hears K.takes) (settles_debt contents t (state_of self.old)) (outside (P.view port.old) self.old k)
            (state_of self.new) tt (outside (P.view port.new) self.new k) }
    {
        self.tell_modified::<P, K>(t, port);
        self.tell_dropped::<P, K>(t, port);
        self.tell_freed::<P, K>(t, port);
        self.owed.set(t, no_debt());
    }

    fn tell_track<P: Port, K: Keep<TrackImage>>(&mut self, t: TrackNo, port: &mut P)
        ensures leaves { ChangesMarksAlone self.old self.new }
        ensures rest { state_of self.new ≡ record (state_of self.old) { owed = self.new.owed } }
        ensures paid { (q : ℕ) → owed_in self.old.owed q ≡ no_debt → owed_in self.new.owed q ≡ no_debt }
        ensures run { (k : K) → Ran surely (Heard K.hears K.takes) (track_told contents t (state_of self.old)) (outside (P.view port.old) self.old k)
            (state_of self.new) tt (outside (P.view port.new) self.new k) }
    {
        if is_owed(&self.owed.at(t)) {
            self.settle_debt::<P, K>(t, port);
        }
    }

    /// The port is told what it is owed of each track.
    fn tell_each<P: Port, K: Keep<TrackImage>>(&mut self, port: &mut P)
        ensures leaves { ChangesMarksAlone self.old self.new }
        ensures rest { state_of self.new ≡ record (state_of self.old) { owed = self.new.owed } }
        ensures run { (k : K) → Ran surely (Heard K.hears K.takes) (all_told contents (self.old.cylinders * 15) (state_of self.old))
            (outside (P.view port.old) self.old k) (state_of self.new) tt (outside (P.view port.new) self.new k) }
    {
        let mut from = 0;
        while let Some(t) = least_from(&self.owed.tracks(), from) {
            self.tell_track::<P, K>(t, port);
            from = t.get() + 1;
        }
    }

    /// The same. Where nothing is owed no track is looked at.
    fn tell_all<P: Port, K: Keep<TrackImage>>(&mut self, port: &mut P)
        ensures leaves { ChangesMarksAlone self.old self.new }
        ensures rest { state_of self.new ≡ record (state_of self.old) { owed = self.new.owed } }
        ensures run { (k : K) → Ran surely (Heard K.hears K.takes) (all_told contents (self.old.cylinders * 15) (state_of self.old))
            (outside (P.view port.old) self.old k) (state_of self.new) tt (outside (P.view port.new) self.new k) }
    {
        if self.owed.are_paid() {
            return;
        }
        self.tell_each::<P, K>(port);
    }

    /// The port is told how many tracks wait, where it is another number than before.
    fn tell_waiting<P: Port, K: Keep<TrackImage>>(&self, before: u16, port: &mut P)
        ensures run { (k : K) → Ran surely (Heard K.hears K.takes) (waiting_told contents before (state_of self.now)) (outside (P.view port.old) self.now k)
            (state_of self.now) tt (outside (P.view port.new) self.now k) }
    {
        let waiting = self.waiting_count();
        if waiting == before {
            return;
        }
        port.tell_waiting(self.number, waiting);
    }

    /// An event ends before which so many tracks waited: the port is told what it is owed, and then how many tracks wait.
    pub fn end_event<P: Port, K: Keep<TrackImage>>(&mut self, before: u16, port: &mut P)
        ensures leaves { ChangesMarksAlone self.old self.new }
        ensures rest { state_of self.new ≡ record (state_of self.old) { owed = self.new.owed } }
        ensures run { (k : K) → Ran surely (Heard K.hears K.takes) (noted_end contents before (state_of self.old)) (outside (P.view port.old) self.old k)
            (state_of self.new) tt (outside (P.view port.new) self.new k) }
    {
        self.tell_all::<P, K>(port);
        self.tell_waiting::<P, K>(before, port);
    }
}
