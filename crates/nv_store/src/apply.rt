ghost use Rattle.std.specs.Prelude.{◌≡◌, ◌<◌, ◌+◌, ◌++◌, ◌&&◌, ◌==◌, OnOk, IfOk, true, take, length};
ghost use Rattle.std.specs.List.{list_all};
ghost use Rattle.ckd_types.specs.declared.record.Edit.TheVariants as edits;
ghost use Rattle.ckd_rules.specs.Facts.{IsFormat};
ghost use Rattle.track_image.specs.Image.{edited_image};
ghost use Rattle.nv_store.specs.Fit.{is_fit};
ghost use Rattle.nv_store.specs.Gives.{Gives};
ghost use Rattle.nv_store.specs.Patch.{is_whole, reaches, has_lengths, is_replaceable, revised, stay, patched_image, applies, applied};

use crate::fit::fits;
use crate::{ApplyFault, Kept, Patch, Replacement};
use ckd_types::{NoMemory, Record};
use std::alloc::Global;
use track_image::{AddFault, TrackImage};

/// Whether the record that a cut follows is there.
fn reaches(kept: Kept, image: &TrackImage) -> bool
    ensures { result ≡ reaches kept image.now.track.records }
{
    match kept {
        Kept::UpTo(last) => last < image.len(),
        _ => true,
    }
}

/// Whether a record stays and is there, and its key and its data are as long as the new ones.
fn is_replaceable(kept: Kept, image: &TrackImage, r: &Replacement) -> bool
    ensures { result ≡ is_replaceable kept image.now.track.records r.now }
{
    if !kept.keeps(r.index) {
        return false;
    }
    if r.index >= image.len() {
        return false;
    }
    let old = image.record_at(r.index);
    old.key().len() == r.key.len() && old.body().len() == r.body.len()
}

fn are_replaceable(kept: Kept, image: &TrackImage, replaced: &[Replacement]) -> bool
    ensures { result ≡ list_all (is_replaceable kept image.now.track.records) replaced.now }
{
    replaced.iter().all(|r| is_replaceable(kept, image, r))
}

#[tactic(auto, using(crate::proofs::Revisions::place_there, crate::proofs::Revisions::key_there, crate::proofs::Revisions::body_there))]
fn replace(image: &mut TrackImage, r: &Replacement)
    requires { has_lengths image.old.track.records r.now.index (length r.now.key) (length r.now.body) ≡ true }
    ensures { image.new ≡ edited_image (edits.Update r.now.index r.now.key r.now.body) image.old }
{
    image.update(r.index, r.key.as_slice(), r.body.as_slice());
}

/// Puts the replacements into an image, of which a patch keeps all that are replaced.
fn revise(image: &mut TrackImage, kept: Kept, replaced: &[Replacement])
    requires { list_all (is_replaceable kept image.old.track.records) replaced.now ≡ true }
    ensures { image.new ≡ record image.old { track = record image.old.track { records = revised replaced.now image.old.track.records } } }
{
    let _ = kept;
    for r in replaced {
        replace(image, r);
    }
}

/// Puts a record that fits behind record `after`, instead of what stands there.
fn put_behind(image: &mut TrackImage, after: usize, new: &Record) -> Result<(), NoMemory>
    requires { IsFormat image.old.geometry image.old.track.records after new.now }
    ensures { OnOk result (image.new ≡ edited_image (edits.Format after new.now) image.old) }
{
    match image.cut_and_add(after, new) {
        Ok(()) => Ok(()),
        Err(AddFault::Unfit) => unreachable!(),
        Err(AddFault::NoMemory) => Err(NoMemory),
    }
}

/// Puts records that fit behind the last one.
fn put_records(image: &mut TrackImage, records: &[Record]) -> Result<(), NoMemory>
    requires { is_fit image.old.geometry (image.old.track.records ++ records.now) ≡ true }
    ensures { OnOk result (image.new ≡ record image.old { track = record image.old.track { records = image.old.track.records ++ records.now } }) }
{
    for record in records {
        let last = image.len() - 1;
        put_behind(image, last, record)?;
    }
    Ok(())
}

/// Puts records that fit behind record `last`, instead of what stands there.
fn cut_behind(image: &mut TrackImage, last: usize, behind: &[Record]) -> Result<(), NoMemory>
    requires place { last < length image.old.track.records }
    requires some { 0 < length behind.now }
    requires fit { is_fit image.old.geometry (take (last + 1) image.old.track.records ++ behind.now) ≡ true }
    ensures { OnOk result (image.new ≡
        record image.old { track = record image.old.track { records = take (last + 1) image.old.track.records ++ behind.now } }) }
{
    put_behind(image, last, &behind[0])?;
    put_records(image, &behind[1..])
}

/// Puts records that fit in place of all.
fn put_all(image: &mut TrackImage, records: &[Record]) -> Result<(), NoMemory>
    requires some { 0 < length records.now }
    requires fit { is_fit image.old.geometry records.now ≡ true }
    ensures { OnOk result (image.new ≡ record image.old { track = record image.old.track { records = records.now } }) }
{
    image.set_zero(&records[0]);
    put_records(image, &records[1..])
}

/// Puts a patch's records behind those that stay, where all fit.
fn cut(image: &mut TrackImage, kept: Kept, behind: &[Record]) -> Result<(), NoMemory>
    requires reached { reaches kept image.old.track.records ≡ true }
    requires behind { is_whole kept ≡ (length behind.now == 0) }
    requires fit { is_fit image.old.geometry (stay kept image.old.track.records ++ behind.now) ≡ true }
    ensures { OnOk result (image.new ≡ record image.old { track = record image.old.track { records = stay kept image.old.track.records ++ behind.now } }) }
{
    match kept {
        Kept::Whole => Ok(()),
        Kept::UpTo(last) => cut_behind(image, last, behind),
        Kept::Nothing => put_all(image, behind),
    }
}

/// Whether a patch has what it needs in an image, and what comes of it fits the track.
fn applies(image: &TrackImage, kept: Kept, replaced: &[Replacement], behind: &[Record]) -> bool
    requires { is_whole kept ≡ (length behind.now == 0) }
    ensures { result ≡ applies (record { replaced = replaced.now; kept = kept; behind = behind.now }) image.now }
{
    if !reaches(kept, image) {
        return false;
    }
    if !are_replaceable(kept, image, replaced) {
        return false;
    }
    fits(image, kept, behind)
}

/// The patched image, of one that the patch applies to.
fn patched(
    mut image: TrackImage,
    kept: Kept,
    replaced: &[Replacement],
    behind: &[Record],
) -> Result<TrackImage, NoMemory>
    requires behind { is_whole kept ≡ (length behind.now == 0) }
    requires applies { applies (record { replaced = replaced.now; kept = kept; behind = behind.now }) image ≡ true }
    ensures { IfOk result (λ made. made ≡ patched_image (record { replaced = replaced.now; kept = kept; behind = behind.now }) image) }
{
    revise(&mut image, kept, replaced);
    cut(&mut image, kept, behind)?;
    Ok(image)
}

impl Patch {
    /// The image of the track with the edits that were added, in their order. An update of a record
    /// that isn't there changes nothing. The image itself stays as it is.
    pub fn apply(&self, alloc: Global, image: &TrackImage) -> Result<TrackImage, ApplyFault>
        ensures { Gives result (applied self.now image.now) }
    {
        self.is_patch();
        if !applies(image, self.kept(), self.replaced(), self.behind()) {
            return Err(ApplyFault::Unfit);
        }
        let image = image.copy(alloc)?;
        let made = patched(image, self.kept(), self.replaced(), self.behind())?;
        Ok(made)
    }

    /// The same image, made of the one that is handed in, without a copy of it.
    pub fn apply_in_place(&self, image: TrackImage) -> Result<TrackImage, ApplyFault>
        ensures { Gives result (applied self.now image) }
    {
        self.is_patch();
        if !applies(&image, self.kept(), self.replaced(), self.behind()) {
            return Err(ApplyFault::Unfit);
        }
        let made = patched(image, self.kept(), self.replaced(), self.behind())?;
        Ok(made)
    }
}
