ghost use Rattle.std.specs.Prelude.{◌≡◌, ◌≤◌, ◌==◌, true, ◌<◌, ◌+◌, ◌++◌, take, length};
ghost use Rattle.ckd_types.specs.Geometry.{capacity};
ghost use Rattle.ckd_types.specs.Track.{cost_of};
ghost use Rattle.nv_store.specs.Fit.{is_id, is_record, is_zero, is_fit, fit_units};
ghost use Rattle.nv_store.specs.Patch.{is_whole, reaches, stay};

use crate::Kept;
use ckd_types::{Geometry, RecId, Record, capacity, cost};
use track_image::TrackImage;

/// The numbers of an id are in their ranges.
fn in_range(id: RecId)
    ensures { is_id id ≡ true }
{
    let _ = id;
}

fn is_record(r: &Record) -> bool
    ensures { result ≡ is_record r.now }
{
    in_range(r.id);
    r.key.len() <= 255 && r.body.len() <= 65534
}

/// Whether a record may be record 0.
fn is_zero(r: &Record) -> bool
    ensures { result ≡ is_zero r.now }
{
    r.key.len() == 0 && r.body.len() == 8
}

/// Whether records have a record's lengths and fit behind others that take so many units.
fn fit_behind(geometry: Geometry, spent: u32, records: &[Record]) -> bool
    requires { spent ≤ capacity geometry }
    ensures { result ≡ fit_units geometry spent records.now }
{
    let mut units = u64::from(spent);
    for record in records {
        if !is_record(record) {
            return false;
        }
        let (key, body) = (record.key.len() as u8, record.body.len() as u16);
        units += u64::from(cost(geometry, key, body));
        if units > u64::from(capacity(geometry)) {
            return false;
        }
    }
    true
}

/// The units that records 1 to `last` take.
fn units_to(image: &TrackImage, last: usize) -> u32
    requires { last < length image.now.track.records }
    ensures value { result ≡ cost_of image.now.geometry (take (last + 1) image.now.track.records) }
    ensures bound { result ≤ capacity image.now.geometry }
{
    image.fits();
    let mut units = 0;
    for i in 0..last {
        let record = image.record_at(i + 1);
        let (key, body) = (record.key().len() as u8, record.body().len() as u16);
        units += cost(image.geometry(), key, body);
    }
    units
}

/// Whether the records that stay and those behind them fit on the track.
pub(crate) fn fits(image: &TrackImage, kept: Kept, behind: &[Record]) -> bool
    requires reached { reaches kept image.now.track.records ≡ true }
    requires behind { is_whole kept ≡ (length behind.now == 0) }
    ensures { result ≡ is_fit image.now.geometry (stay kept image.now.track.records ++ behind.now) }
{
    image.fits();
    match kept {
        Kept::Whole => true,
        Kept::UpTo(last) => fit_behind(image.geometry(), units_to(image, last), behind),
        Kept::Nothing => {
            let zero = &behind[0];
            is_zero(zero) && is_record(zero) && fit_behind(image.geometry(), 0, &behind[1..])
        }
    }
}
