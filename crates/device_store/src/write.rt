ghost use Rattle.std.specs.Prelude.{◌≡◌, ◌*◌, ◌+◌, ◌≤◌, IfOk, None, OnErr, OnOk, false, is_ok, is_some, slice_set, true};
ghost use Rattle.ckd_rules.specs.Facts.{Suits};
ghost use Rattle.ckd_types.specs.declared.record.Edit.{Edit};
ghost use Rattle.device_defs.specs.declared.answers.Choice.TheVariants.{Fast};
ghost use Rattle.device_defs.specs.Choosing.{choose, fast_written, patch_with, provisionally_written};
ghost use Rattle.device_defs.specs.Contents.{contents};
ghost use Rattle.device_defs.specs.Editing.{another_loose, clean_again, is_given, unchosen, write, write_by, write_chosen};
ghost use Rattle.device_defs.specs.Store.{frame_at, is_loose, patch_at};
ghost use Rattle.device_outside.specs.Interaction.{and_then};
ghost use Rattle.device_outside.specs.Keeper.{BeforeEdit, Heard};
ghost use Rattle.device_outside.specs.Outside.{Ran, where_ok};
ghost use Rattle.event_notes.specs.Loose.{loose_count, weight};
ghost use Rattle.nv_store.specs.Patches.{stored_at};
ghost use Rattle.nv_store.specs.Room.{room_for};
ghost use Rattle.track_image.specs.Image.{edited_image};
ghost use Rattle.device_store.specs.Leaves.{ChangesMarksAlone, IsSameDevice, KeepsVolumes, MovesNothing};
ghost use Rattle.device_store.specs.Chosen.{Fits, FitsSlot, told_before};
ghost use Rattle.device_store.specs.Images.{IsImageOf};
ghost use Rattle.device_store.specs.Looks.{frame_in};
ghost use Rattle.device_store.specs.State.{is_opened, state_of, outside, surely, Takes, had, HasTrack, TakesTracks};

use crate::DeviceStore;
use crate::image::is_bypass;
use crate::marks::track;
use ckd_types::{Edit, NoMemory, TrackNo};
use ckd_write::edit_image;
use device_defs::{Choice, Took, Usage};
use device_outside::{Keep, Port, Volume};
use nv_store::{Patch, Stored};
use std::alloc::Global;
use track_cache::Frame;
use track_image::TrackImage;

/// A copy of an image, with an edit.
fn edited(alloc: Global, image: &TrackImage, edit: &Edit) -> Result<TrackImage, NoMemory>
    requires { Suits image.now.geometry image.now.track.records edit.now }
    ensures { IfOk result (λ made. made ≡ edited_image edit.now image.now) }
{
    let mut made = image.copy(alloc)?;
    edit_image(&mut made, edit)?;
    Ok(made)
}

impl<V: Volume> DeviceStore<V> {
    /// Makes room for an edit of a track's patch, and for the track to become loose where it may.
    pub(crate) fn make_room(&mut self, usage: &Usage, t: TrackNo) -> Result<(), NoMemory>
        ensures leaves { MovesNothing self.old self.new }
        ensures state { state_of self.new ≡ state_of self.old }
        ensures patch { OnOk result (room_for (stored_at self.new.patches t) ≤ self.new.edits) }
        ensures loose { OnOk result (usage.now.provisional ≡ true → loose_count self.new.loose.loose + 2 ≤ self.new.loose.spare) }
    {
        self.patches.room(t, &mut self.edits)?;
        if usage.provisional {
            self.loose.reserve()?;
        }
        Ok(())
    }

    /// Adds an edit to a track's patch, or to a new one in a slot.
    pub(crate) fn keep_edit(&mut self, t: TrackNo, edit: Edit, slot: Option<usize>)
        requires fits { FitsSlot (is_some (patch_at (state_of self.old) t)) slot }
        requires room { room_for (stored_at self.old.patches t) ≤ self.old.edits }
        ensures leaves { ChangesMarksAlone self.old self.new }
        ensures frames { self.new.frames ≡ self.old.frames }
        ensures state { state_of self.new ≡ record (state_of self.old)
            { patches = slice_set self.old.patches t (patch_with contents edit slot (patch_at (state_of self.old) t)) } }
    {
        match slot {
            None => self.patches.add_within(t, edit, &mut self.edits),
            Some(slot) => {
                let mut patch = Patch::new(self.alloc);
                patch.add_within(edit, &mut self.edits);
                self.patches.set(t, Some(Stored { patch, slot }));
            }
        }
    }

    /// A fast write: to the frame and the patch.
    fn write_fast(&mut self, t: TrackNo, image: TrackImage, edit: Edit, slot: Option<usize>)
        requires fits { FitsSlot (is_some (patch_at (state_of self.old) t)) slot }
        requires of { IsImageOf self.old.geometry t image }
        requires room { room_for (stored_at self.old.patches t) ≤ self.old.edits }
        ensures leaves { ChangesMarksAlone self.old self.new }
        ensures state { state_of self.new ≡ fast_written contents (state_of self.old) t image edit slot }
    {
        self.keep_edit(t, edit, slot);
        let modified = true;
        self.frames.set(t, Some(Frame { image, modified }));
    }

    /// A write of data of cache fast write: to the frame alone. A track that isn't loose becomes that.
    fn write_provisional(&mut self, t: TrackNo, image: TrackImage)
        requires none { self.old.half ≡ None }
        requires track { HasTrack self.old t }
        requires of { IsImageOf self.old.geometry t image }
        requires room { loose_count self.old.loose.loose + 2 ≤ self.old.loose.spare }
        ensures leaves { KeepsVolumes self.old self.new }
        ensures weight { weight self.new.loose ≤ weight self.old.loose + 2 }
        ensures state { (e : Edit) → state_of self.new ≡ provisionally_written contents (state_of self.old) t image e }
    {
        if !self.loose.has(t) {
            self.loose.loosen(t);
        }
        let modified = true;
        self.frames.set(t, Some(Frame { image, modified }));
    }

    /// A write with its new image, to where it was chosen to go.
    pub(crate) fn write_by<P: Port, K: Keep<TrackImage>>(
        &mut self,
        usage: &Usage,
        first: TrackNo,
        t: TrackNo,
        image: TrackImage,
        edit: Edit,
        choice: Choice,
        port: &mut P,
        keep: &mut K,
    ) -> Took
        requires none { self.old.half ≡ None }
        requires track { HasTrack self.old t }
        requires of { IsImageOf self.old.geometry t image }
        requires kept { is_loose (state_of self.old) t ≡ true → is_some (frame_at (state_of self.old) t) ≡ true }
        requires fits { Fits usage.now.provisional (is_some (patch_at (state_of self.old) t)) choice }
        requires patch { room_for (stored_at self.old.patches t) ≤ self.old.edits }
        requires loose { usage.now.provisional ≡ true → loose_count self.old.loose.loose + 2 ≤ self.old.loose.spare }
        requires takes { TakesTracks K.takes keep.old self.old }
        ensures leaves { IsSameDevice self.old self.new }
        ensures half { is_some self.new.half ≡ is_opened result }
        ensures takes { TakesTracks K.takes keep.new self.new }
        ensures weight { weight self.new.loose ≤ weight self.old.loose + 2 }
        ensures run { Ran surely (Heard K.hears K.takes) (write_by contents usage.now first t image edit (state_of self.old) choice)
            (outside (P.view port.old) self.old keep.old) (state_of self.new) result (outside (P.view port.new) self.new keep.new) }
    {
        match choice {
            Choice::Provisional => {
                self.write_provisional(t, image);
                Took::Whole
            }
            Choice::Fast(slot) => {
                image.fits();
                keep.firm(self.number, t, &image);
                self.write_fast(t, image, edit, slot);
                Took::Whole
            }
            Choice::Through => {
                let opens = !self.another_loose(first, t);
                self.through(t, image, edit, is_bypass(usage.mode), opens, port, keep)
            }
        }
    }

    /// Whether another track that the command looked at, from `first` up to before t, is loose.
    fn another_loose(&self, first: TrackNo, t: TrackNo) -> bool
        ensures { result ≡ another_loose (state_of self.now) first t }
    {
        if !self.loose.any() {
            return false;
        }
        let from = first.get();
        let until = t.get();
        for q in from..until {
            if self.loose.has(track(q)) {
                return true;
            }
        }
        false
    }

    /// The edit goes to a frame, or to a volume.
    pub(crate) fn is_given(&self, choice: Choice) -> bool
        ensures { result ≡ is_given contents (state_of self.now) choice }
    {
        match choice {
            Choice::Through => self.pair.a.up || self.pair.takes_b(),
            Choice::Provisional => true,
            Choice::Fast(_) => true,
        }
    }

    fn clean_again<P: Port, K: Keep<TrackImage>>(&self, t: TrackNo, port: &mut P)
        ensures run { (k : K) → Ran surely (Heard K.hears K.takes) (clean_again contents (state_of self.now) t) (outside (P.view port.old) self.now k)
            (state_of self.now) None (outside (P.view port.new) self.now k) }
    {
        if self.is_clean(t) {
            port.set_clean(self.number, t);
        }
    }

    fn give_back<P: Port, K: Keep<TrackImage>>(&self, t: TrackNo, slot: Option<usize>, port: &mut P)
        ensures run { (k : K) → Ran surely (Heard K.hears K.takes) (unchosen contents (state_of self.now) t (Fast slot)) (outside (P.view port.old) self.now k)
            (state_of self.now) None (outside (P.view port.new) self.now k) }
    {
        match slot {
            Some(slot) => {
                port.free_slot(slot);
                self.clean_again::<P, K>(t, port);
            }
            None => self.clean_again::<P, K>(t, port),
        }
    }

    /// Memory was lacking: a new slot is given back, and a frame that the pool was told as modified is clean as before.
    pub(crate) fn unchosen<P: Port, K: Keep<TrackImage>>(
        &self,
        t: TrackNo,
        choice: Choice,
        port: &mut P,
    )
        ensures run { (k : K) → Ran surely (Heard K.hears K.takes) (unchosen contents (state_of self.now) t choice) (outside (P.view port.old) self.now k)
            (state_of self.now) None (outside (P.view port.new) self.now k) }
    {
        match choice {
            Choice::Through => (),
            Choice::Provisional => self.clean_again::<P, K>(t, port),
            Choice::Fast(slot) => self.give_back::<P, K>(t, slot, port),
        }
    }

    /// The keeper is told the track before an edit that is given to something.
    fn given_read<P: Port, K: Keep<TrackImage>>(
        &mut self,
        usage: &Usage,
        first: TrackNo,
        t: TrackNo,
        old: &TrackImage,
        image: TrackImage,
        edit: Edit,
        choice: Choice,
        port: &mut P,
        keep: &mut K,
    ) -> Result<Took, NoMemory>
        requires none { self.old.half ≡ None }
        requires track { HasTrack self.old t }
        requires of { IsImageOf self.old.geometry t old.now }
        requires kept { is_loose (state_of self.old) t ≡ true → is_some (frame_at (state_of self.old) t) ≡ true }
        requires image { image ≡ edited_image edit old.now }
        requires fits { Fits usage.now.provisional (is_some (patch_at (state_of self.old) t)) choice }
        requires patch { room_for (stored_at self.old.patches t) ≤ self.old.edits }
        requires loose { usage.now.provisional ≡ true → loose_count self.old.loose.loose + 2 ≤ self.old.loose.spare }
        requires takes { TakesTracks K.takes keep.old self.old }
        ensures leaves { IsSameDevice self.old self.new }
        ensures half { IfOk result (λ took. is_some self.new.half ≡ is_opened took) }
        ensures same { OnErr result (self.new.half ≡ self.old.half) }
        ensures takes { TakesTracks K.takes keep.new self.new }
        ensures weight { weight self.new.loose ≤ weight self.old.loose + 2 }
        ensures run { Ran (where_ok result) (Heard K.hears K.takes) (told_before (state_of self.old) usage.now first t old.now edit choice)
            (outside (P.view port.old) self.old keep.old) (state_of self.new) (had (λ took. took) result) (outside (P.view port.new) self.new keep.new) }
    {
        old.fits();
        match keep.before_edit(self.number, t, old) {
            Err(NoMemory) => {
                self.unchosen::<P, K>(t, choice, port);
                Err(NoMemory)
            }
            Ok(()) => Ok(self.write_by(usage, first, t, image, edit, choice, port, keep)),
        }
    }

    /// The write goes where it is chosen to go, in room that was made.
    fn chosen_read<P: Port, K: Keep<TrackImage>>(
        &mut self,
        usage: &Usage,
        first: TrackNo,
        t: TrackNo,
        old: &TrackImage,
        image: TrackImage,
        edit: Edit,
        port: &mut P,
        keep: &mut K,
    ) -> Result<Took, NoMemory>
        requires none { self.old.half ≡ None }
        requires track { HasTrack self.old t }
        requires of { IsImageOf self.old.geometry t old.now }
        requires kept { is_loose (state_of self.old) t ≡ true → is_some (frame_at (state_of self.old) t) ≡ true }
        requires image { image ≡ edited_image edit old.now }
        requires patch { room_for (stored_at self.old.patches t) ≤ self.old.edits }
        requires loose { usage.now.provisional ≡ true → loose_count self.old.loose.loose + 2 ≤ self.old.loose.spare }
        requires takes { TakesTracks K.takes keep.old self.old }
        ensures leaves { IsSameDevice self.old self.new }
        ensures half { IfOk result (λ took. is_some self.new.half ≡ is_opened took) }
        ensures same { OnErr result (self.new.half ≡ self.old.half) }
        ensures takes { TakesTracks K.takes keep.new self.new }
        ensures weight { weight self.new.loose ≤ weight self.old.loose + 2 }
        ensures run { Ran (where_ok result) (Heard K.hears K.takes)
            (and_then (choose contents (state_of self.old) usage.now t) (write_chosen contents usage.now first t old.now edit))
            (outside (P.view port.old) self.old keep.old) (state_of self.new) (had (λ took. took) result) (outside (P.view port.new) self.new keep.new) }
    {
        let choice = self.choose::<P, K>(usage, t, port);
        if self.is_given(choice) {
            return self.given_read(usage, first, t, old, image, edit, choice, port, keep);
        }
        Ok(self.write_by(usage, first, t, image, edit, choice, port, keep))
    }

    /// A command's write of a track that it read, behind others from `first` on. Memory is had before the first effect: what lacks
    /// it later is the keeper, before the edit.
    pub fn write<P: Port, K: Keep<TrackImage>>(
        &mut self,
        usage: &Usage,
        first: TrackNo,
        t: TrackNo,
        old: &TrackImage,
        edit: Edit,
        port: &mut P,
        keep: &mut K,
    ) -> Result<Took, NoMemory>
        requires none { self.old.half ≡ None }
        requires track { HasTrack self.old t }
        requires of { IsImageOf self.old.geometry t old.now }
        requires here { is_some self.old.pair.lent ≡ false }
        requires suits { Suits old.now.geometry old.now.track.records edit }
        requires takes { TakesTracks K.takes keep.old self.old }
        ensures leaves { IsSameDevice self.old self.new }
        ensures half { IfOk result (λ took. is_some self.new.half ≡ is_opened took) }
        ensures same { OnErr result (self.new.half ≡ self.old.half) }
        ensures takes { TakesTracks K.takes keep.new self.new }
        ensures weight { weight self.new.loose ≤ weight self.old.loose + 2 }
        ensures run { Ran (where_ok result) (Heard K.hears K.takes) (write contents (state_of self.old) usage.now first t old.now edit)
            (outside (P.view port.old) self.old keep.old) (state_of self.new) (had (λ took. took) result) (outside (P.view port.new) self.new keep.new) }
    {
        let image = match edited(self.alloc, old, &edit) {
            Err(NoMemory) => return Err(NoMemory),
            Ok(image) => image,
        };
        match self.make_room(usage, t) {
            Err(NoMemory) => Err(NoMemory),
            Ok(()) => self.chosen_read(usage, first, t, old, image, edit, port, keep),
        }
    }

    /// The keeper is told the image in a track's frame before an edit of it.
    pub(crate) fn tell_frame<K: Keep<TrackImage>>(
        &self,
        t: TrackNo,
        keep: &mut K,
    ) -> Result<(), NoMemory>
        requires track { HasTrack self.now t }
        requires framed { is_some (frame_at (state_of self.now) t) ≡ true }
        requires takes { Takes K.takes keep.old self.now.number self.now.geometry (self.now.cylinders * 15) }
        ensures { Heard K.hears K.takes keep.old (BeforeEdit self.now.number t (frame_in (state_of self.now) t)) (is_ok result) keep.new }
    {
        let image = self.frame_image(t);
        image.fits();
        keep.before_edit(self.number, t, image)
    }

    /// The keeper is told the track before an edit that is given to something.
    pub(crate) fn given_framed<P: Port, K: Keep<TrackImage>>(
        &mut self,
        usage: &Usage,
        first: TrackNo,
        t: TrackNo,
        image: TrackImage,
        edit: Edit,
        choice: Choice,
        port: &mut P,
        keep: &mut K,
    ) -> Result<Took, NoMemory>
        requires none { self.old.half ≡ None }
        requires track { HasTrack self.old t }
        requires framed { is_some (frame_at (state_of self.old) t) ≡ true }
        requires image { image ≡ edited_image edit (frame_in (state_of self.old) t) }
        requires fits { Fits usage.now.provisional (is_some (patch_at (state_of self.old) t)) choice }
        requires patch { room_for (stored_at self.old.patches t) ≤ self.old.edits }
        requires loose { usage.now.provisional ≡ true → loose_count self.old.loose.loose + 2 ≤ self.old.loose.spare }
        requires takes { TakesTracks K.takes keep.old self.old }
        ensures leaves { IsSameDevice self.old self.new }
        ensures half { IfOk result (λ took. is_some self.new.half ≡ is_opened took) }
        ensures same { OnErr result (self.new.half ≡ self.old.half) }
        ensures takes { TakesTracks K.takes keep.new self.new }
        ensures weight { weight self.new.loose ≤ weight self.old.loose + 2 }
        ensures run { Ran (where_ok result) (Heard K.hears K.takes)
            (told_before (state_of self.old) usage.now first t (frame_in (state_of self.old) t) edit choice)
            (outside (P.view port.old) self.old keep.old) (state_of self.new) (had (λ took. took) result) (outside (P.view port.new) self.new keep.new) }
    {
        match self.tell_frame(t, keep) {
            Err(NoMemory) => {
                self.unchosen::<P, K>(t, choice, port);
                Err(NoMemory)
            }
            Ok(()) => Ok(self.write_by(usage, first, t, image, edit, choice, port, keep)),
        }
    }
}
