ghost use Rattle.std.specs.Prelude.{◌≡◌, ◌<◌, IfOk, OnOk, length};
ghost use Rattle.ckd_rules.specs.Ending.{sent_of};
ghost use Rattle.ckd_rules.specs.Reads.{read_bytes};
ghost use Rattle.ckd_read.specs.Sending.{Takes};

use crate::sending::Sending;
use ckd_types::{Bytes, Ccw, NoMemory, ReadArea};
use std::alloc::Global;
use track_image::TrackImage;

/// Bytes of a home address.
const HOME: usize = 5;

/// Bytes of a count area.
const COUNT: usize = 8;

/// How many bytes the area has that a read of record `i`, or from it on, reads.
pub fn area_len(image: &TrackImage, area: ReadArea, i: usize) -> usize
    requires { i < length image.now.track.records }
    ensures { result ≡ length (read_bytes image.now.track area i) }
{
    let read = image.record_at(i);
    match area {
        ReadArea::Home => HOME,
        ReadArea::Zero => COUNT + read.body().len(),
        ReadArea::Count => COUNT,
        ReadArea::Data => read.body().len(),
        ReadArea::KeyData => read.key().len() + read.body().len(),
        ReadArea::CountKeyData => read.size(),
        ReadArea::Multiple => image.bytes_from(i),
        ReadArea::Track => image.bytes_behind(0).len(),
    }
}

fn put_area(
    sending: &mut Sending,
    image: &TrackImage,
    area: ReadArea,
    i: usize,
) -> Result<(), NoMemory>
    requires { i < length image.now.track.records }
    ensures { OnOk result (Takes sending.old sending.new (read_bytes image.now.track area i)) }
{
    let read = image.record_at(i);
    match area {
        ReadArea::Home => sending.put(&image.home_area())?,
        ReadArea::Zero => {
            sending.put(&read.count_area())?;
            sending.put(read.body())?;
        }
        ReadArea::Count => sending.put(&read.count_area())?,
        ReadArea::Data => sending.put(read.body())?,
        ReadArea::KeyData => {
            sending.put(read.key())?;
            sending.put(read.body())?;
        }
        ReadArea::CountKeyData => sending.put(image.bytes_of(i))?,
        ReadArea::Multiple => sending.put(image.bytes_of_rest(i))?,
        ReadArea::Track => sending.put(image.bytes_behind(0))?,
    }
    Ok(())
}

/// What is sent of an area that has so many bytes.
pub fn sent_of(
    alloc: Global,
    image: &TrackImage,
    area: ReadArea,
    ccw: &Ccw,
    i: usize,
    len: usize,
) -> Result<Bytes, NoMemory>
    requires { i < length image.now.track.records }
    ensures { IfOk result (λ sent. sent ≡ sent_of ccw.now (read_bytes image.now.track area i)) }
{
    if ccw.skips() {
        return Ok(Bytes::new());
    }
    let mut sending = Sending::new(alloc, usize::from(ccw.count), len)?;
    put_area(&mut sending, image, area, i)?;
    Ok(sending.into_bytes())
}
