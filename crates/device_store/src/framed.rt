//! A write of a track whose image is in its frame: where it stays there, the edit is made in place.

ghost use Rattle.std.specs.Prelude.{◌≡◌, ◌≤◌, ◌+◌, ℕ, None, OnErr, OnOk, IfOk, is_some, true};
ghost use Rattle.ckd_rules.specs.Facts.{Suits};
ghost use Rattle.device_defs.specs.declared.answers.Choice.TheVariants.{Fast, Provisional, Through};
ghost use Rattle.device_defs.specs.declared.answers.Took.TheVariants.{Whole};
ghost use Rattle.device_defs.specs.Choosing.{choose, provisionally_written};
ghost use Rattle.device_defs.specs.Contents.{contents};
ghost use Rattle.device_defs.specs.Editing.{write, write_by, write_chosen};
ghost use Rattle.device_defs.specs.Store.{frame_at, patch_at};
ghost use Rattle.device_outside.specs.Keeper.{Heard};
ghost use Rattle.device_outside.specs.Outside.{PortView, Ran, where_ok};
ghost use Rattle.event_notes.specs.Loose.{loose_count, weight};
ghost use Rattle.nv_store.specs.Patches.{stored_at};
ghost use Rattle.nv_store.specs.Room.{room_for};
ghost use Rattle.track_cache.specs.Frames as framed;
ghost use Rattle.track_cache.specs.Frames.{HasFrameRoom, SuitsFrame};
ghost use Rattle.track_image.specs.Image.{edited_image};
ghost use Rattle.ckd_types.specs.declared.record.Edit.{Edit};
ghost use Rattle.device_store.specs.Leaves.{IsSameDevice, KeepsLooseTracks, KeepsVolumes, MovesNothing};
ghost use Rattle.device_store.specs.Chosen.{FitsSlot};
ghost use Rattle.device_store.specs.Looks.{frame_in};
ghost use Rattle.device_store.specs.State.{is_opened, state_of, outside, surely, had, HasTrack, TakesTracks};

use crate::DeviceStore;
use ckd_types::{Edit, NoMemory, TrackNo};
use ckd_write::edit_image;
use device_defs::{Choice, Took, Usage};
use device_outside::{Keep, Port, Volume};
use track_image::TrackImage;

impl<V: Volume> DeviceStore<V> {
    /// Makes all room that an edit in place needs.
    fn room_framed(&mut self, usage: &Usage, t: TrackNo, edit: &Edit) -> Result<(), NoMemory>
        ensures leaves { MovesNothing self.old self.new }
        ensures state { state_of self.new ≡ state_of self.old }
        ensures patch { OnOk result (room_for (stored_at self.new.patches t) ≤ self.new.edits) }
        ensures loose { OnOk result (usage.now.provisional ≡ true → loose_count self.new.loose.loose + 2 ≤ self.new.loose.spare) }
        ensures frame { OnOk result (HasFrameRoom edit.now (framed.frame_at self.new.frames t) self.new.records) }
    {
        self.make_room(usage, t)?;
        self.frames.room(t, edit, &mut self.records)?;
        Ok(())
    }

    /// A fast write: the edit is made in the frame and in the patch, and the keeper is told the track.
    fn edit_fast<K: Keep<TrackImage>>(
        &mut self,
        t: TrackNo,
        edit: Edit,
        slot: Option<usize>,
        keep: &mut K,
    )
        requires track { HasTrack self.old t }
        requires fits { FitsSlot (is_some (patch_at (state_of self.old) t)) slot }
        requires there { is_some (frame_at (state_of self.old) t) ≡ true }
        requires suits { SuitsFrame edit (framed.frame_at self.old.frames t) }
        requires patch { room_for (stored_at self.old.patches t) ≤ self.old.edits }
        requires frame { HasFrameRoom edit (framed.frame_at self.old.frames t) self.old.records }
        requires takes { TakesTracks K.takes keep.old self.old }
        ensures leaves { KeepsLooseTracks self.old self.new }
        ensures takes { TakesTracks K.takes keep.new self.new }
        ensures run { (u : Usage) (first : ℕ) (p : PortView)
            → Ran surely (Heard K.hears K.takes) (write_by contents u first t (edited_image edit (frame_in (state_of self.old) t)) edit (state_of self.old)
            (Fast slot)) (outside p self.old keep.old) (state_of self.new) Whole (outside p self.new keep.new) }
    {
        self.frames.edit(t, &edit, &mut self.records);
        let image = self.frame_image(t);
        image.fits();
        keep.firm(self.number, t, image);
        self.keep_edit(t, edit, slot);
    }

    /// A write of data of cache fast write: the edit is made in the frame alone.
    fn edit_loose(&mut self, t: TrackNo, edit: &Edit)
        requires none { self.old.half ≡ None }
        requires track { HasTrack self.old t }
        requires there { is_some (frame_at (state_of self.old) t) ≡ true }
        requires suits { SuitsFrame edit.now (framed.frame_at self.old.frames t) }
        requires frame { HasFrameRoom edit.now (framed.frame_at self.old.frames t) self.old.records }
        requires room { loose_count self.old.loose.loose + 2 ≤ self.old.loose.spare }
        ensures leaves { KeepsVolumes self.old self.new }
        ensures weight { weight self.new.loose ≤ weight self.old.loose + 2 }
        ensures state { (e : Edit) → state_of self.new
            ≡ provisionally_written contents (state_of self.old) t (edited_image edit.now (frame_in (state_of self.old) t)) e }
    {
        self.frames.edit(t, edit, &mut self.records);
        if self.loose.has(t) {
            return;
        }
        self.loose.loosen(t);
    }

    /// A fast write, of which the keeper is told the track before it.
    fn framed_fast<P: Port, K: Keep<TrackImage>>(
        &mut self,
        t: TrackNo,
        edit: Edit,
        slot: Option<usize>,
        port: &mut P,
        keep: &mut K,
    ) -> Result<Took, NoMemory>
        requires none { self.old.half ≡ None }
        requires track { HasTrack self.old t }
        requires fits { FitsSlot (is_some (patch_at (state_of self.old) t)) slot }
        requires there { is_some (frame_at (state_of self.old) t) ≡ true }
        requires suits { SuitsFrame edit (framed.frame_at self.old.frames t) }
        requires patch { room_for (stored_at self.old.patches t) ≤ self.old.edits }
        requires frame { HasFrameRoom edit (framed.frame_at self.old.frames t) self.old.records }
        requires takes { TakesTracks K.takes keep.old self.old }
        ensures leaves { IsSameDevice self.old self.new }
        ensures half { IfOk result (λ took. is_some self.new.half ≡ is_opened took) }
        ensures same { OnErr result (self.new.half ≡ self.old.half) }
        ensures takes { TakesTracks K.takes keep.new self.new }
        ensures loose { self.new.loose ≡ self.old.loose }
        ensures run { (u : Usage) (first : ℕ) → Ran (where_ok result) (Heard K.hears K.takes)
            (write_chosen contents u first t (frame_in (state_of self.old) t) edit (state_of self.old) (Fast slot))
            (outside (P.view port.old) self.old keep.old) (state_of self.new) (had (λ took. took) result) (outside (P.view port.new) self.new keep.new) }
    {
        match self.tell_frame(t, keep) {
            Err(NoMemory) => {
                self.unchosen::<P, K>(t, Choice::Fast(slot), port);
                Err(NoMemory)
            }
            Ok(()) => {
                self.edit_fast(t, edit, slot, keep);
                Ok(Took::Whole)
            }
        }
    }

    /// A write of data of cache fast write, of which the keeper is told the track before it.
    fn framed_loose<P: Port, K: Keep<TrackImage>>(
        &mut self,
        t: TrackNo,
        edit: &Edit,
        port: &mut P,
        keep: &mut K,
    ) -> Result<Took, NoMemory>
        requires none { self.old.half ≡ None }
        requires track { HasTrack self.old t }
        requires there { is_some (frame_at (state_of self.old) t) ≡ true }
        requires suits { SuitsFrame edit.now (framed.frame_at self.old.frames t) }
        requires frame { HasFrameRoom edit.now (framed.frame_at self.old.frames t) self.old.records }
        requires room { loose_count self.old.loose.loose + 2 ≤ self.old.loose.spare }
        requires takes { TakesTracks K.takes keep.old self.old }
        ensures leaves { IsSameDevice self.old self.new }
        ensures half { IfOk result (λ took. is_some self.new.half ≡ is_opened took) }
        ensures same { OnErr result (self.new.half ≡ self.old.half) }
        ensures takes { TakesTracks K.takes keep.new self.new }
        ensures weight { weight self.new.loose ≤ weight self.old.loose + 2 }
        ensures run { (u : Usage) (first : ℕ) → Ran (where_ok result) (Heard K.hears K.takes)
            (write_chosen contents u first t (frame_in (state_of self.old) t) edit.now (state_of self.old) Provisional)
            (outside (P.view port.old) self.old keep.old) (state_of self.new) (had (λ took. took) result) (outside (P.view port.new) self.new keep.new) }
    {
        match self.tell_frame(t, keep) {
            Err(NoMemory) => {
                self.unchosen::<P, K>(t, Choice::Provisional, port);
                Err(NoMemory)
            }
            Ok(()) => {
                self.edit_loose(t, edit);
                Ok(Took::Whole)
            }
        }
    }

    /// A copy of the image in a track's frame, with an edit.
    fn edited_frame(&self, t: TrackNo, edit: &Edit) -> Result<TrackImage, NoMemory>
        requires framed { is_some (frame_at (state_of self.now) t) ≡ true }
        requires suits { Suits (frame_in (state_of self.now) t).geometry (frame_in (state_of self.now) t).track.records edit.now }
        ensures { IfOk result (λ made. made ≡ edited_image edit.now (frame_in (state_of self.now) t)) }
    {
        let mut made = self.frame_image(t).copy(self.alloc)?;
        edit_image(&mut made, edit)?;
        Ok(made)
    }

    /// The write goes through, with a new image.
    fn through_image<P: Port, K: Keep<TrackImage>>(
        &mut self,
        usage: &Usage,
        first: TrackNo,
        t: TrackNo,
        image: TrackImage,
        edit: Edit,
        port: &mut P,
        keep: &mut K,
    ) -> Result<Took, NoMemory>
        requires none { self.old.half ≡ None }
        requires track { HasTrack self.old t }
        requires framed { is_some (frame_at (state_of self.old) t) ≡ true }
        requires image { image ≡ edited_image edit (frame_in (state_of self.old) t) }
        requires patch { room_for (stored_at self.old.patches t) ≤ self.old.edits }
        requires loose { usage.now.provisional ≡ true → loose_count self.old.loose.loose + 2 ≤ self.old.loose.spare }
        requires takes { TakesTracks K.takes keep.old self.old }
        ensures leaves { IsSameDevice self.old self.new }
        ensures half { IfOk result (λ took. is_some self.new.half ≡ is_opened took) }
        ensures same { OnErr result (self.new.half ≡ self.old.half) }
        ensures takes { TakesTracks K.takes keep.new self.new }
        ensures weight { weight self.new.loose ≤ weight self.old.loose + 2 }
        ensures run { Ran (where_ok result) (Heard K.hears K.takes)
            (write_chosen contents usage.now first t (frame_in (state_of self.old) t) edit (state_of self.old) Through)
            (outside (P.view port.old) self.old keep.old) (state_of self.new) (had (λ took. took) result) (outside (P.view port.new) self.new keep.new) }
    {
        let choice = Choice::Through;
        if self.is_given(choice) {
            return self.given_framed(usage, first, t, image, edit, choice, port, keep);
        }
        Ok(self.write_by(usage, first, t, image, edit, choice, port, keep))
    }

    /// The write goes through: the pool is as it was, so that it may still lack memory.
    fn framed_through<P: Port, K: Keep<TrackImage>>(
        &mut self,
        usage: &Usage,
        first: TrackNo,
        t: TrackNo,
        edit: Edit,
        port: &mut P,
        keep: &mut K,
    ) -> Result<Took, NoMemory>
        requires none { self.old.half ≡ None }
        requires track { HasTrack self.old t }
        requires there { is_some (frame_at (state_of self.old) t) ≡ true }
        requires suits { Suits (frame_in (state_of self.old) t).geometry (frame_in (state_of self.old) t).track.records edit }
        requires patch { room_for (stored_at self.old.patches t) ≤ self.old.edits }
        requires loose { usage.now.provisional ≡ true → loose_count self.old.loose.loose + 2 ≤ self.old.loose.spare }
        requires takes { TakesTracks K.takes keep.old self.old }
        ensures leaves { IsSameDevice self.old self.new }
        ensures half { IfOk result (λ took. is_some self.new.half ≡ is_opened took) }
        ensures same { OnErr result (self.new.half ≡ self.old.half) }
        ensures takes { TakesTracks K.takes keep.new self.new }
        ensures weight { weight self.new.loose ≤ weight self.old.loose + 2 }
        ensures run { (p : PortView) → p ≡ P.view port.old
            → Ran surely (Heard K.hears K.takes) (choose contents (state_of self.old) usage.now t) (outside p self.old keep.old) (state_of self.old) Through
            (outside (P.view port.old) self.old keep.old)
            → Ran (where_ok result) (Heard K.hears K.takes) (write contents (state_of self.old) usage.now first t (frame_in (state_of self.old) t) edit)
            (outside p self.old keep.old) (state_of self.new) (had (λ took. took) result) (outside (P.view port.new) self.new keep.new) }
    {
        match self.edited_frame(t, &edit) {
            Err(NoMemory) => Err(NoMemory),
            Ok(image) => self.through_image(usage, first, t, image, edit, port, keep),
        }
    }

    /// The write goes where it is chosen to go, in room that was made.
    fn chosen_framed<P: Port, K: Keep<TrackImage>>(
        &mut self,
        usage: &Usage,
        first: TrackNo,
        t: TrackNo,
        edit: Edit,
        port: &mut P,
        keep: &mut K,
    ) -> Result<Took, NoMemory>
        requires none { self.old.half ≡ None }
        requires track { HasTrack self.old t }
        requires there { is_some (frame_at (state_of self.old) t) ≡ true }
        requires suits { Suits (frame_in (state_of self.old) t).geometry (frame_in (state_of self.old) t).track.records edit }
        requires patch { room_for (stored_at self.old.patches t) ≤ self.old.edits }
        requires loose { usage.now.provisional ≡ true → loose_count self.old.loose.loose + 2 ≤ self.old.loose.spare }
        requires frame { HasFrameRoom edit (framed.frame_at self.old.frames t) self.old.records }
        requires takes { TakesTracks K.takes keep.old self.old }
        ensures leaves { IsSameDevice self.old self.new }
        ensures half { IfOk result (λ took. is_some self.new.half ≡ is_opened took) }
        ensures same { OnErr result (self.new.half ≡ self.old.half) }
        ensures takes { TakesTracks K.takes keep.new self.new }
        ensures weight { weight self.new.loose ≤ weight self.old.loose + 2 }
        ensures run { Ran (where_ok result) (Heard K.hears K.takes) (write contents (state_of self.old) usage.now first t (frame_in (state_of self.old) t) edit)
            (outside (P.view port.old) self.old keep.old) (state_of self.new) (had (λ took. took) result) (outside (P.view port.new) self.new keep.new) }
    {
        let choice = self.choose::<P, K>(usage, t, port);
        match choice {
            Choice::Provisional => self.framed_loose(t, &edit, port, keep),
            Choice::Fast(slot) => self.framed_fast(t, edit, slot, port, keep),
            Choice::Through => self.framed_through(usage, first, t, edit, port, keep),
        }
    }

    /// The same of a track whose image is in its frame. The frame's image is copied only where the write goes through.
    pub fn write_framed<P: Port, K: Keep<TrackImage>>(
        &mut self,
        usage: &Usage,
        first: TrackNo,
        t: TrackNo,
        edit: Edit,
        port: &mut P,
        keep: &mut K,
    ) -> Result<Took, NoMemory>
        requires none { self.old.half ≡ None }
        requires track { HasTrack self.old t }
        requires there { is_some (frame_at (state_of self.old) t) ≡ true }
        requires suits { Suits (frame_in (state_of self.old) t).geometry (frame_in (state_of self.old) t).track.records edit }
        requires takes { TakesTracks K.takes keep.old self.old }
        ensures leaves { IsSameDevice self.old self.new }
        ensures half { IfOk result (λ took. is_some self.new.half ≡ is_opened took) }
        ensures same { OnErr result (self.new.half ≡ self.old.half) }
        ensures takes { TakesTracks K.takes keep.new self.new }
        ensures weight { weight self.new.loose ≤ weight self.old.loose + 2 }
        ensures run { Ran (where_ok result) (Heard K.hears K.takes) (write contents (state_of self.old) usage.now first t (frame_in (state_of self.old) t) edit)
            (outside (P.view port.old) self.old keep.old) (state_of self.new) (had (λ took. took) result) (outside (P.view port.new) self.new keep.new) }
    {
        match self.room_framed(usage, t, &edit) {
            Err(NoMemory) => Err(NoMemory),
            Ok(()) => self.chosen_framed(usage, first, t, edit, port, keep),
        }
    }
}
