ghost use Rattle.std.specs.Prelude.{◌≡◌, ◌<◌, ◌≤◌, ◌*◌, ◌||◌, ℕ, None, false, is_some, true};
ghost use Rattle.device_defs.specs.Contents.{contents};
ghost use Rattle.device_defs.specs.Cutting.{loose_gone, powerless};
ghost use Rattle.device_defs.specs.Effects.{loose_lost};
ghost use Rattle.device_defs.specs.Events.{losing, lost_by, one_loss_more, with_loss};
ghost use Rattle.device_defs.specs.Losses.{all_firm_told, cache_lost, firm_told, over, patch_lost, settled, store_lost, without_frame};
ghost use Rattle.device_defs.specs.Store.{is_loose, is_lost};
ghost use Rattle.device_outside.specs.Keeper.{Heard};
ghost use Rattle.device_outside.specs.Outside.{PortView, Ran};
ghost use Rattle.event_notes.specs.Loose.{weight};
ghost use Rattle.loss_model.specs.declared.Loss.TheVariants as losses;
ghost use Rattle.track_table.specs.Bits.{is_marked};
ghost use Rattle.device_store.specs.Leaves.{ChangesMarksAlone, IsSameDevice, KeepsHalfWrite, KeepsVolumes, MovesNothing};
ghost use Rattle.device_store.specs.Settling.{NextOf, is_settled, stands_bare};
ghost use Rattle.device_store.specs.State.{state_of, outside, surely, HasTrack, TakesTracks};

use crate::DeviceStore;
use crate::marks::track;
use ckd_types::{HEADS, TrackNo};
use device_defs::Losses;
use device_outside::{Keep, Volume, counted};
use loss_model::Loss;
use plain_defs::next_number;
use track_image::TrackImage;
use track_table::{And, Without, least_from};

/// Counts a loss.
fn count_loss(losses: &mut Losses, loss: Loss)
    ensures { losses.new ≡ one_loss_more losses.old loss }
{
    match loss {
        Loss::Cache => losses.cache = counted(losses.cache),
        Loss::Store => losses.store = counted(losses.store),
        Loss::Side(_) => losses.sides = counted(losses.sides),
    }
}

impl<V: Volume> DeviceStore<V> {
    /// Data of cache fast write are lost, where there are some.
    fn lose_loose(&mut self)
        ensures leaves { KeepsVolumes self.old self.new }
        ensures weight { weight self.new.loose ≤ weight self.old.loose }
        ensures firm { (t : ℕ) → is_loose (state_of self.new) t ≡ false }
        ensures state { state_of self.new ≡ loose_lost (state_of self.old) }
    {
        if self.loose.any() {
            self.loose.lose();
            self.data_number = next_number(self.data_number);
        }
    }

    /// The same with the power, of which no act tells.
    fn clear_loose(&mut self)
        ensures leaves { KeepsVolumes self.old self.new }
        ensures weight { weight self.new.loose ≤ weight self.old.loose }
        ensures firm { (t : ℕ) → is_loose (state_of self.new) t ≡ false }
        ensures state { state_of self.new ≡ loose_gone contents (state_of self.old) }
    {
        if self.loose.any() {
            self.loose.clear();
            self.data_number = next_number(self.data_number);
        }
    }

    /// The frame of a track goes.
    fn lose_frame(&mut self, t: TrackNo)
        requires track { HasTrack self.old t }
        requires firm { is_loose (state_of self.old) t ≡ false }
        ensures leaves { ChangesMarksAlone self.old self.new }
        ensures weight { weight self.new.loose ≡ weight self.old.loose }
        ensures state { state_of self.new ≡ settled contents (without_frame (state_of self.old) t) t }
    {
        self.give_up_frame(t);
        self.settle(t);
    }

    /// The least track from one on that isn't lost.
    fn next_not_lost(&self, from: u16) -> Option<TrackNo>
        ensures { NextOf (self.now.cylinders * 15) (is_lost (state_of self.now)) from result }
    {
        for n in from..self.cylinders * HEADS {
            if !self.lost.has(track(n)) {
                return Some(track(n));
            }
        }
        None
    }

    /// The least track from one on that a loss may settle: it is level on no side, and not lost. There is none where the volume is lent.
    fn next_unsettled(&self, from: u16) -> Option<TrackNo>
        ensures { NextOf (self.now.cylinders * 15) (is_settled (state_of self.now)) from result }
    {
        if self.pair.lent.is_some() {
            return None;
        }
        let a = self.pair.a.stale.marks();
        let b = self.pair.b.stale.marks();
        let lost = self.lost.marks();
        match (self.pair.a.up, self.pair.b.up) {
            (true, true) => {
                let stale = And { one: a, other: b };
                least_from(
                    &Without {
                        one: stale,
                        other: lost,
                    },
                    from,
                )
            }
            (true, false) => least_from(
                &Without {
                    one: a,
                    other: lost,
                },
                from,
            ),
            (false, true) => least_from(
                &Without {
                    one: b,
                    other: lost,
                },
                from,
            ),
            (false, false) => self.next_not_lost(from),
        }
    }

    /// The least track from one on that has a frame, or that a loss may settle.
    fn next_to_lose(&self, from: u16) -> Option<TrackNo>
        ensures { NextOf (self.now.cylinders * 15) (stands_bare (state_of self.now)) from result }
    {
        let framed = least_from(&self.frames.framed_tracks(), from);
        let unsettled = self.next_unsettled(from);
        match (framed, unsettled) {
            (Some(t), Some(u)) if u.get() < t.get() => Some(u),
            (Some(t), _) => Some(t),
            (None, u) => u,
        }
    }

    /// All frames go. No track is loose. A track that has no frame and isn't settled stays as it is.
    fn lose_frames(&mut self)
        requires firm { (t : ℕ) → is_loose (state_of self.old) t ≡ false }
        ensures leaves { MovesNothing self.old self.new }
        ensures state { state_of self.new ≡ over (self.old.cylinders * 15) (λ t z. settled contents (without_frame z t) t) (state_of self.old) }
    {
        let mut from = 0;
        while let Some(t) = self.next_to_lose(from) {
            self.lose_frame(t);
            from = t.get() + 1;
        }
    }

    /// What goes with the cache.
    fn lose_cache(&mut self)
        ensures leaves { KeepsVolumes self.old self.new }
        ensures weight { weight self.new.loose ≤ weight self.old.loose }
        ensures state { state_of self.new ≡ cache_lost contents (state_of self.old) }
    {
        self.lose_loose();
        self.queue.clear();
        self.lose_frames();
    }

    /// The patch of a track goes: the volumes haven't what it had, but for what an open half write wrote.
    fn lose_patch<K: Keep<TrackImage>>(&mut self, t: TrackNo, keep: &mut K)
        requires track { HasTrack self.old t }
        requires takes { TakesTracks K.takes keep.old self.old }
        ensures leaves { KeepsHalfWrite self.old self.new }
        ensures volume { self.new.pair.volumes ≡ self.old.pair.volumes }
        ensures takes { TakesTracks K.takes keep.new self.new }
        ensures run { (p : PortView) → Ran surely (Heard K.hears K.takes) (firm_told contents t (patch_lost contents t (state_of self.old)))
            (outside p self.old keep.old) (state_of self.new) tt (outside p self.new keep.new) }
    {
        if !self.patches.has(t) {
            self.owed.no_firm();
            return;
        }
        if self.is_half_open(t) {
            self.give_up_patch(t);
            self.owed.no_firm();
            return;
        }
        self.give_up_patch(t);
        self.stale_everywhere(t);
        self.settle_told(t, keep);
    }

    /// All patches go.
    fn lose_store<K: Keep<TrackImage>>(&mut self, keep: &mut K)
        requires takes { TakesTracks K.takes keep.old self.old }
        ensures leaves { MovesNothing self.old self.new }
        ensures takes { TakesTracks K.takes keep.new self.new }
        ensures run { (p : PortView) → Ran surely (Heard K.hears K.takes) (all_firm_told contents (self.old.cylinders * 15)
            (store_lost contents (state_of self.old))) (outside p self.old keep.old) (state_of self.new) tt (outside p self.new keep.new) }
    {
        let mut from = 0;
        while let Some(t) = least_from(&self.patches.patched_tracks(), from) {
            self.owed.no_firm();
            self.lose_patch(t, keep);
            from = t.get() + 1;
        }
        self.owed.no_firm();
    }

    /// What goes with a loss.
    fn lose_by<K: Keep<TrackImage>>(&mut self, loss: Loss, keep: &mut K)
        requires takes { TakesTracks K.takes keep.old self.old }
        ensures leaves { KeepsVolumes self.old self.new }
        ensures weight { weight self.new.loose ≤ weight self.old.loose }
        ensures takes { TakesTracks K.takes keep.new self.new }
        ensures run { (p : PortView) → Ran surely (Heard K.hears K.takes)
            (all_firm_told contents (self.old.cylinders * 15) (lost_by contents (state_of self.old) loss)) (outside p self.old keep.old)
            (state_of self.new) tt (outside p self.new keep.new) }
    {
        match loss {
            Loss::Cache => {
                self.lose_cache();
                self.owed.no_firm();
            }
            Loss::Store => self.lose_store(keep),
            Loss::Side(side) => self.lose_side(side, None, keep),
        }
    }

    /// A loss. The keeper is told of the tracks that it made firm.
    pub fn lose<K: Keep<TrackImage>>(&mut self, loss: Loss, keep: &mut K)
        requires takes { TakesTracks K.takes keep.old self.old }
        ensures leaves { KeepsVolumes self.old self.new }
        ensures weight { weight self.new.loose ≤ weight self.old.loose }
        ensures takes { TakesTracks K.takes keep.new self.new }
        ensures run { (p : PortView) → Ran surely (Heard K.hears K.takes) (losing contents (state_of self.old) loss) (outside p self.old keep.old)
            (state_of self.new) tt (outside p self.new keep.new) }
    {
        count_loss(&mut self.counts.losses, loss);
        self.lose_by(loss, keep);
    }

    /// What the loss of power takes: it counts as one of the cache.
    pub fn lose_power(&mut self)
        ensures leaves { IsSameDevice self.old self.new }
        ensures volume { self.new.pair.volumes ≡ self.old.pair.volumes }
        ensures half { self.new.half ≡ None }
        ensures weight { weight self.new.loose ≤ weight self.old.loose }
        ensures state { state_of self.new ≡ powerless contents (with_loss (state_of self.old) losses.Cache) }
    {
        count_loss(&mut self.counts.losses, Loss::Cache);
        self.clear_loose();
        self.end_half();
        self.queue.clear();
        self.lose_frames();
    }
}
