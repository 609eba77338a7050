ghost use Rattle.std.specs.Prelude.{◌≡◌, ◌<◌, ◌≤◌, ◌+◌, IfOk, IsTrue, OnErr, OnOk, length};
ghost use Rattle.ckd_rules.specs.Formats.{key_given, body_given, record_given, has_room_behind, format_ended, format_behind, format_on, is_zero_given, zero_on};
ghost use Rattle.ckd_rules.specs.Facts.{HasRoom, Stands, Stays, Turns};

use crate::count::{AREA, NewCount, new_count, record_given};
use ckd_rules::{
    After, Ending, Place, Stance, Turned, end, place_on, record_of, refuse, spend_one,
};
use ckd_sense::track_format;
use ckd_types::{Bytes, Ccw, Edit, NoMemory, UnitStatus};
use std::alloc::Global;
use track_image::TrackImage;

/// Bytes of the data of record 0.
const ZERO_BODY: u16 = 8;

/// Bytes of record 0: its count area and its data.
const ZERO_AREA: usize = 16;

/// The end of a format of which record `i` is the new one.
fn format_ended(after: After, stance: &mut Stance, ccw: &Ccw, i: usize, area: usize) -> Ending
    requires room { HasRoom stance.old }
    requires stands { Stands 65535 stance.old }
    ensures stance { stance.new ≡ (format_ended after stance.old ccw.now i area).stance }
    ensures ending { result ≡ (format_ended after stance.old ccw.now i area).ending }
    ensures stays { Stays stance.old stance.new }
{
    stance.place = Place::Body(i);
    stance.passes = 0;
    stance.after = after;
    spend_one(stance);
    end(stance, ccw, area, UnitStatus::normal(), Bytes::new())
}

/// Puts the record that is given behind record `i`, where it fits.
pub fn format_behind(
    alloc: Global,
    image: &TrackImage,
    after: After,
    stance: &mut Stance,
    ccw: &Ccw,
    i: usize,
) -> Result<Turned, NoMemory>
    requires place { i < length image.now.track.records }
    requires room { HasRoom stance.old }
    requires stands { Stands 65535 stance.old }
    ensures turned { IfOk result (λ turned. turned ≡ (format_behind image.now.geometry image.now.track.records after stance.old ccw.now i).turned) }
    ensures stance { OnOk result (stance.new ≡ (format_behind image.now.geometry image.now.track.records after stance.old ccw.now i).stance) }
    ensures turns { IfOk result (Turns image.now.geometry image.now.track.records stance.old stance.new) }
    ensures same { OnErr result (stance.new ≡ stance.old) }
{
    let _ = image.len();
    let count = new_count(ccw);
    if !image.takes(i, count.key, count.body) {
        return Ok(Turned::Ended(refuse(stance, ccw, track_format())));
    }
    let area = AREA + usize::from(count.key) + usize::from(count.body);
    let edit = Edit::Format {
        after: i,
        added: record_given(alloc, ccw, count)?,
    };
    let ending = format_ended(after, stance, ccw, i + 1, area);
    Ok(Turned::Edits(edit, ending))
}

/// Puts the record that is given behind the one that the chain is at.
pub fn format_on(
    alloc: Global,
    image: &TrackImage,
    stance: &mut Stance,
    ccw: &Ccw,
) -> Result<Turned, NoMemory>
    requires room { HasRoom stance.old }
    requires stands { Stands 65535 stance.old }
    ensures turned { IfOk result (λ turned. turned ≡ (format_on image.now.geometry image.now.track stance.old ccw.now).turned) }
    ensures stance { OnOk result (stance.new ≡ (format_on image.now.geometry image.now.track stance.old ccw.now).stance) }
    ensures turns { IfOk result (Turns image.now.geometry image.now.track.records stance.old stance.new) }
    ensures same { OnErr result (stance.new ≡ stance.old) }
{
    let at = record_of(place_on(image.len(), stance.place));
    format_behind(alloc, image, After::Wrote, stance, ccw, at)
}

/// Record 0 has no key and eight bytes of data.
fn is_zero_given(ccw: &Ccw, count: NewCount) -> bool
    requires key { count.key ≡ key_given ccw.now }
    requires body { count.body ≡ body_given ccw.now }
    ensures given { result ≡ is_zero_given ccw.now }
    ensures no_key { IsTrue result → key_given ccw.now ≡ 0 }
    ensures eight_bytes { IsTrue result → body_given ccw.now ≡ 8 }
{
    count.key == 0 && count.body == ZERO_BODY
}

/// Makes the record that is given the track's only one.
pub fn zero_on(
    alloc: Global,
    image: &TrackImage,
    stance: &mut Stance,
    ccw: &Ccw,
) -> Result<Turned, NoMemory>
    requires room { HasRoom stance.old }
    requires stands { Stands 65535 stance.old }
    ensures turned { IfOk result (λ turned. turned ≡ (zero_on stance.old ccw.now).turned) }
    ensures stance { OnOk result (stance.new ≡ (zero_on stance.old ccw.now).stance) }
    ensures turns { IfOk result (Turns image.now.geometry image.now.track.records stance.old stance.new) }
    ensures same { OnErr result (stance.new ≡ stance.old) }
{
    let _ = image.len();
    let count = new_count(ccw);
    if !is_zero_given(ccw, count) {
        return Ok(Turned::Ended(refuse(stance, ccw, track_format())));
    }
    let edit = Edit::Zero {
        added: record_given(alloc, ccw, count)?,
    };
    let ending = format_ended(After::Wrote, stance, ccw, 0, ZERO_AREA);
    Ok(Turned::Edits(edit, ending))
}
