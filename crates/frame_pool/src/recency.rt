ghost use Rattle.std.specs.Prelude.{◌≡◌, ◌+◌, ◌≤◌, ◌∷◌, Some, None, false, length, OnOk, OnErr};
ghost use Rattle.device_outside.specs.Pool.{is_listed, in_front, marked, frame_removed, victim, noted};

use crate::notes::AllNotes;
use crate::place::Place;
use ckd_types::NoMemory;
use lru::LruCache;

/// Frames, the most recent first, each with its modified mark.
pub(crate) type Frames = LruCache<Place, bool>;

/// Brings a frame to the front, and answers whether it is listed.
#[tactic(auto, using(crate::proofs::Order::length_front))]
pub(crate) fn touch(frames: &mut Frames, place: Place) -> bool
    ensures listed { result ≡ is_listed frames.old.entries place.0 place.1 }
    ensures entries { frames.new.entries ≡ in_front frames.old.entries place.0 place.1 }
    ensures cap { frames.new.cap ≡ frames.old.cap }
    ensures len { length frames.new.entries ≡ length frames.old.entries }
{
    frames.promote(&place)
}

/// Writes a frame's mark, and answers whether it is listed.
#[tactic(auto, using(crate::proofs::Order::set_value_none, crate::proofs::Order::length_set_value))]
pub(crate) fn mark(frames: &mut Frames, place: Place, modified: bool) -> bool
    ensures listed { result ≡ is_listed frames.old.entries place.0 place.1 }
    ensures entries { frames.new.entries ≡ marked frames.old.entries place.0 place.1 modified }
    ensures cap { frames.new.cap ≡ frames.old.cap }
    ensures len { length frames.new.entries ≡ length frames.old.entries }
{
    match frames.peek_mut(&place) {
        Some(mark) => {
            *mark = modified;
            true
        }
        None => false,
    }
}

/// Takes a frame out.
#[tactic(auto, using(crate::proofs::Order::length_remove_entry))]
pub(crate) fn take_out(frames: &mut Frames, place: Place)
    ensures entries { frames.new.entries ≡ frame_removed frames.old.entries place.0 place.1 }
    ensures cap { frames.new.cap ≡ frames.old.cap }
    ensures len { length frames.new.entries ≤ length frames.old.entries }
{
    frames.pop(&place);
}

/// The least recent clean frame. It passes the modified ones behind it.
pub(crate) fn victim(frames: &Frames) -> Option<Place>
    ensures { result ≡ victim frames.now.entries }
{
    let mut rest = frames.iter();
    while let Some((place, modified)) = rest.next_back() {
        if !*modified {
            return Some(*place);
        }
    }
    None
}

/// Puts a new frame in front.
pub(crate) fn put_in(frames: &mut Frames, place: Place) -> Result<(), NoMemory>
    requires new { is_listed frames.old.entries place.0 place.1 ≡ false }
    requires room { length frames.old.entries + 1 ≤ frames.old.cap }
    ensures entries { OnOk result (frames.new.entries ≡ (place, false) ∷ frames.old.entries) }
    ensures same { OnErr result (frames.new ≡ frames.old) }
    ensures cap { frames.new.cap ≡ frames.old.cap }
{
    frames.put(place, false)?;
    Ok(())
}

/// Puts a new frame in front for the least recent clean one, which is noted for its device.
pub(crate) fn put_over(
    frames: &mut Frames,
    notes: &mut AllNotes,
    place: Place,
    old: Place,
) -> Result<(), NoMemory>
    requires new { is_listed frames.old.entries place.0 place.1 ≡ false }
    requires room { length frames.old.entries + 1 ≤ frames.old.cap }
    requires victim { victim frames.old.entries ≡ Some old }
    ensures entries { OnOk result (frames.new.entries ≡ (place, false) ∷ frame_removed frames.old.entries old.0 old.1) }
    ensures notes { OnOk result (notes.new ≡ noted notes.old (Some old)) }
    ensures len { OnOk result (length frames.new.entries ≡ length frames.old.entries) }
    ensures same { OnErr result ((frames.new ≡ frames.old) × (notes.new ≡ notes.old)) }
    ensures cap { frames.new.cap ≡ frames.old.cap }
{
    put_in(frames, place)?;
    match notes.add(old) {
        Ok(()) => {
            frames.pop(&old);
            Ok(())
        }
        Err(lacking) => {
            frames.pop(&place);
            Err(lacking)
        }
    }
}
