ghost use Rattle.std.specs.Prelude.{◌≡◌, ℕ, ◌≤◌, ◌<◌, ◌*◌, IfOk, IsOk, OnOk, OnErr, IfErr, IsTrue, [], false, true, None, Some, length, replicate, slice_set};
ghost use Rattle.std.specs.Option.{option_copied};
ghost use Rattle.track_table.specs.Bits.{is_marked};
ghost use Rattle.track_table.specs.Table.{with_places};
ghost use Rattle.track_cache.specs.Frames.{frame_at, has_frame, image_at, is_modified_frame, is_modified, with_mark, edited_frame};
ghost use Rattle.track_cache.specs.Frames.{SuitsFrame, HasFrameRoom, IsInsideFrame, unless_clean, put_frame};
ghost use Rattle.track_cache.specs.declared.frames.PutRefused.TheVariants as refusals;

use ckd_types::{Edit, HEADS, NoMemory, TrackNo};
use ckd_write::{edit_within, make_room};
use std::alloc::Global;
use std::marker::Model;
use track_image::{RecordRoom, TrackImage};
use track_table::{CountedBits, TrackBits, TrackTable};

/// A track in the cache. A modified frame has what its volume doesn't have.
#[derive(Debug, Drop)]
pub struct Frame {
    pub image: TrackImage,
    pub modified: bool,
}

/// Why a track got no frame. The image comes back.
#[derive(Debug, Drop)]
pub enum PutRefused {
    NoMemory(TrackImage),
}

/// The frames of a device's tracks. Contracts see a place for each track that has been made room for.
#[derive(Debug, Drop)]
pub struct Frames {
    table: TrackTable<Frame>,
    /// The tracks that have a modified frame.
    modified: CountedBits,
}

impl Model for Frames {
    ghost use Rattle.std.specs.Prelude.{◌≡◌, ℕ, List, Option};
    ghost use Rattle.track_cache.specs.declared.frames.Frame.{Frame};

    ghost Value = { List (Option Frame) };

    ghost use Rattle.track_table.specs.Bits.{is_marked};
    ghost use Rattle.track_cache.specs.Frames.{is_modified};

    ghost view = { λ f. f.table };

    ghost invariant = { λ f. (t : ℕ) → is_marked f.modified t ≡ is_modified f.table t };
}

fn is_modified(frame: &Option<Frame>) -> bool
    ensures { result ≡ is_modified_frame frame.now }
{
    match frame {
        Some(frame) => frame.modified,
        None => false,
    }
}

impl Frames {
    /// No frame, and no place for one.
    pub fn new(alloc: Global) -> Result<Frames, NoMemory>
        ensures { IfOk result (λ made. made ≡ []) }
    {
        Ok(Frames {
            table: TrackTable::new(alloc)?,
            modified: CountedBits::new(alloc)?,
        })
    }

    /// Makes places for the tracks of a device, in which `put` takes no memory.
    pub fn reserve(&mut self, cylinders: u16) -> Result<(), NoMemory>
        requires { cylinders ≤ 4369 }
        ensures made { OnOk result (self.new ≡ with_places (cylinders * 15) self.old) }
        ensures same { OnErr result (self.new ≡ self.old) }
        ensures free { cylinders * 15 ≤ length self.old → IsOk result }
    {
        self.table
            .reserve(usize::from(cylinders) * usize::from(HEADS))
    }

    /// Whether a track has a frame.
    pub fn has(&self, t: TrackNo) -> bool
        ensures { result ≡ has_frame self.now t }
    {
        self.table.has(t)
    }

    /// The image in a track's frame.
    pub fn get(&self, t: TrackNo) -> Option<&TrackImage>
        ensures { option_copied result ≡ image_at self.now t }
    {
        let frame = self.table.get(t)?;
        Some(&frame.image)
    }

    /// Whether a track has a modified frame.
    pub fn modified(&self, t: TrackNo) -> bool
        ensures { result ≡ is_modified self.now t }
    {
        self.modified.has(t)
    }

    /// Whether it is known that no track has a modified frame: it is, where none has.
    pub fn none_modified(&self) -> bool
        ensures { result ≡ true → (t : ℕ) → is_modified self.now t ≡ false }
    {
        self.modified.is_empty()
    }

    /// The tracks that have a frame.
    pub fn framed_tracks(&self) -> &TrackBits
        ensures { (t : ℕ) → is_marked result.now t ≡ has_frame self.now t }
    {
        self.table.held()
    }

    /// The tracks that have a modified frame.
    pub fn modified_tracks(&self) -> &TrackBits
        ensures { (t : ℕ) → is_marked result.now t ≡ is_modified self.now t }
    {
        self.modified.bits()
    }

    /// Puts another frame, or none, into a track's place, and gives what was there.
    fn exchange(&mut self, t: TrackNo, frame: Option<Frame>) -> Option<Frame>
        ensures now { self.new ≡ slice_set self.old t frame }
        ensures was { result ≡ frame_at self.old t }
    {
        if usize::from(t.get()) < self.table.places() {
            self.modified.set(t, is_modified(&frame));
            self.table.exchange(t, frame)
        } else {
            None
        }
    }

    /// Puts another frame, or none, into a track's place. Takes no memory: without a place there is
    /// nothing to do.
    pub fn set(&mut self, t: TrackNo, frame: Option<Frame>)
        ensures { self.new ≡ slice_set self.old t frame }
    {
        self.exchange(t, frame);
    }

    /// A track's frame.
    pub fn frame(&self, t: TrackNo) -> Option<&Frame>
        ensures { option_copied result ≡ frame_at self.now t }
    {
        self.table.get(t)
    }

    /// Puts a clean frame into a track's place, instead of what is there. Takes memory only where the
    /// track has no place.
    pub fn put(&mut self, t: TrackNo, image: TrackImage) -> Result<(), PutRefused>
        ensures put { OnOk result (self.new ≡ put_frame t image self.old) }
        ensures same { OnErr result (self.new ≡ self.old) }
        ensures back { IfErr result (λ e. e ≡ refusals.NoMemory image) }
        ensures free { t < length self.old → IsOk result }
    {
        if self.table.reserve(usize::from(t.get()) + 1).is_err() {
            return Err(PutRefused::NoMemory(image));
        }
        let modified = false;
        self.exchange(t, Some(Frame { image, modified }));
        Ok(())
    }

    /// Makes the room that an edit of a track's frame needs, which is some only for a record behind the last one.
    pub fn room(&self, t: TrackNo, edit: &Edit, room: &mut RecordRoom) -> Result<(), NoMemory>
        ensures made { OnOk result (HasFrameRoom edit.now (frame_at self.now t) room.new) }
        ensures least { room.old ≤ room.new }
        ensures inside { IsInsideFrame edit.now (frame_at self.now t) → IsOk result }
    {
        match self.table.get(t) {
            Some(frame) => make_room(&frame.image, edit, room),
            None => Ok(()),
        }
    }

    /// Makes an edit in a track's frame, in place and in room that was made. The frame is modified then. Takes
    /// no memory.
    pub fn edit(&mut self, t: TrackNo, edit: &Edit, room: &mut RecordRoom)
        requires suits { SuitsFrame edit.now (frame_at self.old t) }
        requires room { HasFrameRoom edit.now (frame_at self.old t) room.old }
        ensures frames { self.new ≡ slice_set self.old t (edited_frame edit.now (frame_at self.old t)) }
        ensures now { frame_at self.new t ≡ edited_frame edit.now (frame_at self.old t) }
    {
        self.modified.set(t, true);
        let frame = self.table.entry_mut(t);
        frame.modified = true;
        edit_within(&mut frame.image, edit, room);
    }

    /// Marks a track's frame as modified, or as clean. Without a frame there is nothing to mark.
    pub fn mark(&mut self, t: TrackNo, modified: bool)
        ensures { self.new ≡ slice_set self.old t (with_mark modified (frame_at self.old t)) }
    {
        if self.table.has(t) {
            self.modified.set(t, modified);
            self.table.entry_mut(t).modified = modified;
        }
    }

    /// Takes a track's frame out, if it has one.
    pub fn take(&mut self, t: TrackNo) -> Option<Frame>
        ensures frame { result ≡ frame_at self.old t }
        ensures rest { self.new ≡ slice_set self.old t None }
    {
        self.exchange(t, None)
    }

    /// Drops a track's frame where it is clean.
    pub fn drop_clean(&mut self, t: TrackNo)
        ensures { self.new ≡ slice_set self.old t (unless_clean (frame_at self.old t)) }
    {
        if !self.modified(t) {
            self.exchange(t, None);
        }
    }

    /// Drops every frame. The places stay.
    pub fn lose_all(&mut self)
        ensures { self.new ≡ replicate (length self.old) None }
    {
        self.table.clear();
        self.modified.clear();
    }
}
