//! Laws of patches.

ghost use Rattle.std.specs.Prelude.{◌≡◌, ◌↔◌, ℕ, List, Some, length, true};
ghost use Rattle.ckd_types.specs.declared.geometry.Geometry.{Geometry};
ghost use Rattle.ckd_types.specs.declared.record.Record.{Record};
ghost use Rattle.ckd_types.specs.declared.record.Track.{Track};
ghost use Rattle.ckd_types.specs.Track.{IsCchh, Fits};
ghost use Rattle.ckd_rules.specs.Facts.{IsUpdate, Suits};
ghost use Rattle.ckd_write.specs.Ranges.{HasRanges};
ghost use Rattle.nv_store.specs.Fit.{is_fit};
ghost use Rattle.ckd_types.specs.declared.record.Edit.{Edit};
ghost use Rattle.track_image.specs.Image.{Image, edited_image};
ghost use Rattle.nv_store.specs.Patch.{PatchView, IsPatch, no_edits, added, applied, has_lengths};
ghost use Rattle.nv_store.specs.Edits.{all_added, all_edited};

/// A patch fits what it gave, and changes nothing there.
pub fn twice_is_once()
    ensures { (p : PatchView) (i out : Image) → IsPatch p → applied p i ≡ Some out → applied p out ≡ Some out }
{}

/// Where a patch of some edits is not unfit for an image, it does what they do one after the other.
pub fn edits_in_order()
    ensures { (es : List Edit) (i out : Image) → applied (all_added no_edits es) i ≡ Some out →
        out ≡ record i { track = record i.track { records = all_edited es i.track.records } } }
{}

/// A patch with one more edit, which suits the patched track, applies and gives the edited track.
pub fn one_more()
    ensures { (p : PatchView) (e : Edit) (i out : Image) → IsPatch p → applied p i ≡ Some out → Suits out.geometry out.track.records e → HasRanges e →
        applied (added p e) i ≡ Some (edited_image e out) }
{}

/// The test of a patch's result is that the track fits, where its home address has its range.
pub fn fit_is_tested()
    ensures { (g : Geometry) (t : Track) → (IsCchh t.home × (is_fit g t.records ≡ true)) ↔ Fits g t }
{}

/// The test of a replacement is that it suits the records as an update does.
pub fn update_is_tested()
    ensures { (records : List Record) (index : ℕ) (key body : List ℕ) →
        (has_lengths records index (length key) (length body) ≡ true) ↔ IsUpdate records index key body }
{}
