ghost use Rattle.std.specs.Prelude.{◌≡◌, ◌<◌, ◌+◌, ◌^◌};
ghost use Rattle.ckd_types.specs.Geometry.{ceiling, data_units, key_units, cost, capacity, cchh_of};

use crate::TrackNo;

/// Heads, and so tracks, of a cylinder.
pub const HEADS: u16 = 15;

/// What kind of device a volume is: how many bytes its tracks hold (IBM's). Both have 15 heads.
#[derive(Clone, Copy, Debug, PartialEq, Eq)]
pub enum Geometry {
    D3390,
    D3380,
}

/// Where a track is: its cylinder and head, two bytes each with the high one first, as a count area has them.
#[derive(Clone, Copy, Debug, PartialEq, Eq)]
pub struct Cchh {
    pub cc: u16,
    pub hh: u16,
}

fn ceiling(n: u32, d: u32) -> u32
    requires some { 0 < d }
    requires fits { n + d < 2 ^ 32 }
    ensures { result ≡ ceiling n d }
{
    (n + (d - 1)) / d
}

fn data_units(geometry: Geometry, body: u16) -> u32
    ensures units { result ≡ data_units geometry body }
    ensures bound { result < 3000 }
{
    let body = u32::from(body);
    match geometry {
        Geometry::D3390 => 19 + ceiling(body + 6 * (ceiling(body + 6, 232) + 1), 34),
        Geometry::D3380 => 15 + ceiling(body + 12, 32),
    }
}

fn key_units(geometry: Geometry, key: u8) -> u32
    ensures units { result ≡ key_units geometry key }
    ensures bound { result < 100 }
{
    let key = u32::from(key);
    match geometry {
        Geometry::D3390 => 9 + ceiling(key + 6 * (ceiling(key + 6, 232) + 1), 34),
        Geometry::D3380 => 7 + ceiling(key + 12, 32),
    }
}

/// The units of a track that a record with these lengths of key and data takes.
/// Own in its formulas, as rounded as the manuals' tables of record lengths.
pub fn cost(geometry: Geometry, key: u8, body: u16) -> u32
    ensures { result ≡ cost geometry key body }
{
    let units = data_units(geometry, body);
    if key == 0 {
        units
    } else {
        units + key_units(geometry, key)
    }
}

/// The units that the records of a track behind record 0 take at most (the 3390's is IBM's, the 3380's own).
pub fn capacity(geometry: Geometry) -> u32
    ensures { result ≡ capacity geometry }
{
    match geometry {
        Geometry::D3390 => 1729,
        Geometry::D3380 => 1499,
    }
}

/// The cylinder and head of a track.
pub fn cchh_of(track: TrackNo) -> Cchh
    ensures { result ≡ cchh_of track }
{
    let n = track.get();
    Cchh {
        cc: n / HEADS,
        hh: n % HEADS,
    }
}
