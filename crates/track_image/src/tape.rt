ghost use Rattle.std.specs.Prelude.{◌≡◌, ◌≤◌, ◌<◌, ◌+◌, ◌++◌, OnOk, OnErr, length, take, drop, vec_capacity};
ghost use Rattle.ckd_types.specs.Track.{record_bytes, end_mark};
ghost use Rattle.track_image.specs.Packed.{most_bytes};
ghost use Rattle.track_image.specs.Reading.{size_of};

use crate::RecordRef;
use crate::count::AREA;
use ckd_types::NoMemory;

/// The end mark of a track.
const END_MARK: [u8; AREA] = [0xff; AREA];

/// The most bytes of a track: its home address, record 0, 34 for each unit of a 3390, and the end mark.
pub(crate) const MOST: usize = 58_815;

/// The bytes from a place on.
pub(crate) fn rest_of(bytes: &[u8], at: usize) -> &[u8]
    requires { at ≤ length bytes.now }
    ensures { result.now ≡ drop at bytes.now }
{
    let (_, rest) = bytes.split_at(at);
    rest
}

/// Makes room for a whole track.
pub(crate) fn make_room(bytes: &mut Vec<u8>) -> Result<(), NoMemory>
    requires { length bytes.old.items ≤ most_bytes }
    ensures items { bytes.new.items ≡ bytes.old.items }
    ensures room { vec_capacity bytes.old ≤ vec_capacity bytes.new }
    ensures made { OnOk result (most_bytes ≤ vec_capacity bytes.new) }
    ensures full { OnErr result (vec_capacity bytes.old < most_bytes) }
{
    bytes.reserve_exact(MOST - bytes.len())?;
    Ok(())
}

/// Adds bytes in room that was made.
pub(crate) fn append(bytes: &mut Vec<u8>, more: &[u8])
    requires { length bytes.old.items + length more.now ≤ vec_capacity bytes.old }
    ensures items { bytes.new.items ≡ bytes.old.items ++ more.now }
    ensures room { vec_capacity bytes.old ≤ vec_capacity bytes.new }
{
    match bytes.extend_from_slice(more) {
        Ok(()) => {}
        Err(_) => unreachable!(),
    }
}

/// Ends a track at `end` with one more record, in room that was made.
pub(crate) fn end_with(bytes: &mut Vec<u8>, end: usize, added: &RecordRef<'_>)
    requires place { end ≤ length bytes.old.items }
    requires room { end + size_of added.now + 8 ≤ vec_capacity bytes.old }
    ensures items { bytes.new.items ≡ take end bytes.old.items ++ (record_bytes added.now ++ end_mark) }
    ensures room { vec_capacity bytes.old ≤ vec_capacity bytes.new }
{
    bytes.truncate(end);
    append(bytes, &added.count_area());
    append(bytes, added.key());
    append(bytes, added.body());
    append(bytes, &END_MARK);
}

/// Writes bytes over as many at a place.
fn write_at(bytes: &mut [u8], at: usize, with: &[u8])
    requires { at + length with.now ≤ length bytes.old }
    ensures { bytes.new ≡ take at bytes.old ++ (with.now ++ drop (at + length with.now) bytes.old) }
{
    bytes[at..at + with.len()].copy_from_slice(with);
}

/// Writes a key and data over as many bytes at a place.
pub(crate) fn write_areas(bytes: &mut [u8], at: usize, key: &[u8], body: &[u8])
    requires { at + (length key.now + length body.now) ≤ length bytes.old }
    ensures { bytes.new ≡ take at bytes.old ++ ((key.now ++ body.now) ++ drop (at + (length key.now + length body.now)) bytes.old) }
{
    write_at(bytes, at, key);
    write_at(bytes, at + key.len(), body);
}
