ghost use Rattle.std.specs.Prelude.{◌≡◌, ◌&&◌, false, if◌then◌else◌, is_some, true};
ghost use Rattle.device_defs.specs.Choosing.{choose, choose_firm, choose_loose, fast_by, fast_or_through, may_be_fast, slot_by};
ghost use Rattle.device_defs.specs.Contents.{contents};
ghost use Rattle.device_defs.specs.declared.answers.Choice.TheVariants.{Provisional, Through};
ghost use Rattle.device_defs.specs.Owed.{is_clean};
ghost use Rattle.device_defs.specs.Store.{frame_at, patch_at};
ghost use Rattle.device_outside.specs.declared.port.SlotGrant.TheVariants as grants;
ghost use Rattle.device_outside.specs.Interaction.{Ask, Done};
ghost use Rattle.device_outside.specs.Keeper.{Heard};
ghost use Rattle.device_outside.specs.Outside.{Answered, PortView, Ran};
ghost use Rattle.device_outside.specs.Pool.{SetModified, WantSlot};
ghost use Rattle.device_store.specs.State.{state_of, outside, surely};
ghost use Rattle.device_store.specs.Chosen.{Fits};

use crate::DeviceStore;
use crate::image::is_bypass;
use ckd_types::TrackNo;
use device_defs::{Choice, Usage};
use device_outside::{Keep, Port, SlotGrant, Volume};
use track_image::TrackImage;

impl<V: Volume> DeviceStore<V> {
    /// The store gave a slot, which goes back where the pool doesn't list the frame any more.
    fn with_slot<P: Port, K: Keep<TrackImage>>(
        &self,
        t: TrackNo,
        slot: usize,
        port: &mut P,
    ) -> Choice
        requires { is_some (patch_at (state_of self.now) t) ≡ false }
        ensures same { (p : PortView) → Answered p WantSlot (grants.Given slot) (P.view port.old) → result ≡ Through → p ≡ P.view port.new }
        ensures fits { Fits false (is_some (patch_at (state_of self.now) t)) result }
        ensures run { (k : K) → Ran surely (Heard K.hears K.takes) (slot_by contents (state_of self.now) t (grants.Given slot))
            (outside (P.view port.old) self.now k) (state_of self.now) result (outside (P.view port.new) self.now k) }
    {
        if port.set_modified(self.number, t) {
            return Choice::Fast(Some(slot));
        }
        port.free_slot(slot);
        Choice::Through
    }

    /// A fast write of a track without a patch wants a slot.
    fn choose_slot<P: Port, K: Keep<TrackImage>>(&self, t: TrackNo, port: &mut P) -> Choice
        requires { is_some (patch_at (state_of self.now) t) ≡ false }
        ensures same { result ≡ Through → P.view port.old ≡ P.view port.new }
        ensures fits { Fits false (is_some (patch_at (state_of self.now) t)) result }
        ensures run { (k : K) → Ran surely (Heard K.hears K.takes) (Ask WantSlot (slot_by contents (state_of self.now) t))
            (outside (P.view port.old) self.now k) (state_of self.now) result (outside (P.view port.new) self.now k) }
    {
        match port.want_slot() {
            SlotGrant::Given(slot) => self.with_slot::<P, K>(t, slot, port),
            SlotGrant::Denied => Choice::Through,
            SlotGrant::Down => Choice::Through,
        }
    }

    fn choose_fast<P: Port, K: Keep<TrackImage>>(&self, t: TrackNo, port: &mut P) -> Choice
        ensures same { result ≡ Through → P.view port.old ≡ P.view port.new }
        ensures fits { Fits false (is_some (patch_at (state_of self.now) t)) result }
        ensures run { (k : K) → Ran surely (Heard K.hears K.takes) (fast_by contents (state_of self.now) t (is_some (patch_at (state_of self.now) t)))
            (outside (P.view port.old) self.now k) (state_of self.now) result (outside (P.view port.new) self.now k) }
    {
        if self.patches.has(t) {
            if port.set_modified(self.number, t) {
                return Choice::Fast(None);
            }
            return Choice::Through;
        }
        self.choose_slot::<P, K>(t, port)
    }

    fn may_be_fast(&self, usage: &Usage, t: TrackNo) -> bool
        ensures { result ≡ may_be_fast contents (state_of self.now) usage.now t }
    {
        !is_bypass(usage.mode) && !usage.inhibit && self.frames.has(t)
    }

    /// A write is fast on a frame that the pool still lists, with a slot for its patch.
    fn fast_or_through<P: Port, K: Keep<TrackImage>>(
        &self,
        usage: &Usage,
        t: TrackNo,
        port: &mut P,
    ) -> Choice
        ensures same { result ≡ Through → P.view port.old ≡ P.view port.new }
        ensures fits { Fits false (is_some (patch_at (state_of self.now) t)) result }
        ensures run { (k : K) → Ran surely (Heard K.hears K.takes) (fast_or_through contents (state_of self.now) usage.now t)
            (outside (P.view port.old) self.now k) (state_of self.now) result (outside (P.view port.new) self.now k) }
    {
        if self.may_be_fast(usage, t) {
            return self.choose_fast::<P, K>(t, port);
        }
        Choice::Through
    }

    /// A loose track is written provisionally or through.
    fn choose_loose<P: Port, K: Keep<TrackImage>>(
        &self,
        usage: &Usage,
        t: TrackNo,
        port: &mut P,
    ) -> Choice
        ensures same { result ≡ Through → P.view port.old ≡ P.view port.new }
        ensures fits { Fits usage.now.provisional (is_some (patch_at (state_of self.now) t)) result }
        ensures run { (k : K) → Ran surely (Heard K.hears K.takes) (choose_loose contents (state_of self.now) usage.now t)
            (outside (P.view port.old) self.now k) (state_of self.now) result (outside (P.view port.new) self.now k) }
    {
        if usage.provisional {
            if port.set_modified(self.number, t) {
                return Choice::Provisional;
            }
            return Choice::Through;
        }
        Choice::Through
    }

    fn may_be_provisional(&self, usage: &Usage, t: TrackNo) -> bool
        ensures { result ≡ (usage.now.provisional && is_clean contents (frame_at (state_of self.now) t)) }
    {
        usage.provisional && self.is_clean(t)
    }

    /// A clean frame that the pool still lists is written provisionally.
    fn choose_clean<P: Port, K: Keep<TrackImage>>(
        &self,
        usage: &Usage,
        t: TrackNo,
        port: &mut P,
    ) -> Choice
        requires { usage.now.provisional ≡ true }
        ensures same { result ≡ Through → P.view port.old ≡ P.view port.new }
        ensures fits { Fits usage.now.provisional (is_some (patch_at (state_of self.now) t)) result }
        ensures run { (k : K) → Ran surely (Heard K.hears K.takes) (Ask (SetModified self.now.number t)
            (λ listed. if listed then Done (state_of self.now) Provisional else fast_or_through contents (state_of self.now) usage.now t))
            (outside (P.view port.old) self.now k) (state_of self.now) result (outside (P.view port.new) self.now k) }
    {
        if port.set_modified(self.number, t) {
            return Choice::Provisional;
        }
        self.fast_or_through::<P, K>(usage, t, port)
    }

    fn choose_firm<P: Port, K: Keep<TrackImage>>(
        &self,
        usage: &Usage,
        t: TrackNo,
        port: &mut P,
    ) -> Choice
        ensures same { result ≡ Through → P.view port.old ≡ P.view port.new }
        ensures fits { Fits usage.now.provisional (is_some (patch_at (state_of self.now) t)) result }
        ensures run { (k : K) → Ran surely (Heard K.hears K.takes) (choose_firm contents (state_of self.now) usage.now t) (outside (P.view port.old) self.now k)
            (state_of self.now) result (outside (P.view port.new) self.now k) }
    {
        if self.may_be_provisional(usage, t) {
            return self.choose_clean::<P, K>(usage, t, port);
        }
        self.fast_or_through::<P, K>(usage, t, port)
    }

    /// Where a write goes. Where it goes through, the pool is as it was.
    pub(crate) fn choose<P: Port, K: Keep<TrackImage>>(
        &self,
        usage: &Usage,
        t: TrackNo,
        port: &mut P,
    ) -> Choice
        ensures same { result ≡ Through → P.view port.old ≡ P.view port.new }
        ensures fits { Fits usage.now.provisional (is_some (patch_at (state_of self.now) t)) result }
        ensures run { (k : K) → Ran surely (Heard K.hears K.takes) (choose contents (state_of self.now) usage.now t) (outside (P.view port.old) self.now k)
            (state_of self.now) result (outside (P.view port.new) self.now k) }
    {
        if self.loose.has(t) {
            return self.choose_loose::<P, K>(usage, t, port);
        }
        self.choose_firm::<P, K>(usage, t, port)
    }
}
