ghost use Rattle.std.specs.Prelude.{◌≡◌, ◌≤◌, length};
ghost use Rattle.ckd_types.specs.Track.{home_bytes, count_area};
ghost use Rattle.track_image.specs.Reading.{count_at};

use byteorder::{BigEndian, ByteOrder};
use ckd_types::{Cchh, RecId};

/// The bytes of a count area.
pub(crate) const AREA: usize = 8;

/// What a count area says: an id, and the lengths of key and data.
#[derive(Clone, Copy, Debug)]
pub(crate) struct Count {
    pub id: RecId,
    pub key: u8,
    pub body: u16,
}

/// The id at the front of a count area.
pub(crate) fn id_at(bytes: &[u8]) -> RecId
    requires { 5 ≤ length bytes.now }
    ensures { result ≡ (count_at bytes.now).id }
{
    let cc = BigEndian::read_u16(bytes);
    let hh = BigEndian::read_u16(&bytes[2..]);
    let cchh = Cchh { cc, hh };
    RecId { cchh, r: bytes[4] }
}

/// The count area at the front of bytes.
pub(crate) fn count_at(bytes: &[u8]) -> Count
    requires { 8 ≤ length bytes.now }
    ensures { result ≡ count_at bytes.now }
{
    let id = id_at(bytes);
    let key = bytes[5];
    let body = BigEndian::read_u16(&bytes[6..]);
    Count { id, key, body }
}

/// The count area of a record with this id, key and data.
pub(crate) fn count_area(id: RecId, key: &[u8], body: &[u8]) -> [u8; 8]
    requires key { length key.now ≤ 255 }
    requires body { length body.now ≤ 65534 }
    ensures { result ≡ count_area (record { id = id; key = key.now; body = body.now }) }
{
    let mut area = [0; 8];
    BigEndian::write_u16(&mut area, id.cchh.cc);
    BigEndian::write_u16(&mut area[2..], id.cchh.hh);
    area[4] = id.r;
    area[5] = key.len() as u8;
    BigEndian::write_u16(&mut area[6..], body.len() as u16);
    area
}

/// The home address of a track.
pub(crate) fn home_area(home: Cchh) -> [u8; 5]
    ensures { result ≡ home_bytes home }
{
    let mut area = [0; 5];
    BigEndian::write_u16(&mut area[1..], home.cc);
    BigEndian::write_u16(&mut area[3..], home.hh);
    area
}
