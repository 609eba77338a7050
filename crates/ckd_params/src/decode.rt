ghost use Rattle.std.specs.Prelude.{◌≡◌, ◌+◌, ◌*◌, ◌<◌, ◌≤◌, IfOk, IfSome, length, slice_index};
ghost use Rattle.ckd_types.specs.Geometry.{track_at};
ghost use Rattle.ckd_types.specs.Parameters.{number_at, cchh_at, seek_to, head_to, attributes_mode, extent_number};
ghost use Rattle.ckd_types.specs.Parameters.{orientation_of, is_bad_count, extent_of, domain_of};
ghost use Rattle.ckd_params.specs.Wellformed.{IsExtent, IsDomain};

use crate::bits::{
    ARCHITECTURE, CACHE_FAST_WRITE, INHIBIT_FAST_WRITE, MODE, MODE_UNIT, OPERATION,
    ORIENTATION_UNIT, PARAMETERS, RESERVED_AUXILIARY,
};
use byteorder::{BigEndian, ByteOrder};
use ckd_types::{
    Cchh, Domain, Extent, HEADS, Mode, Operation, Orientation, ParamFault, RecId, TrackNo, is_mask,
    mode_of, operation_of,
};

fn attributes_mode(byte: u8) -> Option<Mode>
    ensures { result ≡ attributes_mode byte }
{
    if byte & ARCHITECTURE != ARCHITECTURE {
        return None;
    }
    mode_of((byte & MODE) / MODE_UNIT)
}

fn orientation_of(n: u8) -> Orientation
    ensures { result ≡ orientation_of n }
{
    match n {
        0 => Orientation::Count,
        1 => Orientation::Home,
        2 => Orientation::Body,
        _ => Orientation::Index,
    }
}

fn number_at(bytes: &[u8], i: usize) -> u16
    requires { i + 2 ≤ length bytes.now }
    ensures { result ≡ number_at bytes.now i }
{
    BigEndian::read_u16(&bytes[i..i + 2])
}

fn cchh_at(bytes: &[u8], i: usize) -> Cchh
    requires { i + 4 ≤ length bytes.now }
    ensures { result ≡ cchh_at bytes.now i }
{
    Cchh {
        cc: number_at(bytes, i),
        hh: number_at(bytes, i + 2),
    }
}

fn track_at(cylinders: u16, place: Cchh) -> Option<TrackNo>
    requires { cylinders ≤ 4369 }
    ensures track { result ≡ track_at cylinders place }
    ensures on_device { IfSome result (λ t. t < cylinders * 15) }
{
    if place.hh < HEADS && place.cc < cylinders {
        TrackNo::new(place.cc * HEADS + place.hh)
    } else {
        None
    }
}

/// The track that the parameters of seek and seek cylinder give on a device with so many cylinders:
/// two bytes of zeros, a cylinder and a head (IBM).
pub fn decode_seek(bytes: &[u8; 16], cylinders: u16) -> Option<TrackNo>
    requires { cylinders ≤ 4369 }
    ensures track { result ≡ seek_to cylinders bytes.now }
    ensures on_device { IfSome result (λ t. t < cylinders * 15) }
{
    if number_at(bytes, 0) == 0 {
        track_at(cylinders, cchh_at(bytes, 2))
    } else {
        None
    }
}

/// The track that the parameters of seek head give, on the cylinder of a track. Own: the cylinder that
/// is given isn't looked at.
pub fn decode_seek_head(bytes: &[u8; 16], track: TrackNo) -> Option<TrackNo>
    ensures { result ≡ head_to track bytes.now }
{
    let head = number_at(bytes, 4);
    if number_at(bytes, 0) == 0 && head < HEADS {
        TrackNo::new(track.get() / HEADS * HEADS + head)
    } else {
        None
    }
}

fn is_bad_count(operation: Operation, count: u8) -> bool
    ensures { result ≡ is_bad_count operation count }
{
    if operation == Operation::Orient {
        count != 0
    } else {
        count == 0
    }
}

/// The number of cache fast write data that an extent gives. Its bytes are ignored without its bit.
fn extent_number(bytes: &[u8]) -> Option<u16>
    requires { 6 ≤ length bytes.now }
    ensures { result ≡ extent_number bytes.now }
{
    if bytes[1] & CACHE_FAST_WRITE == 0 {
        None
    } else {
        Some(number_at(bytes, 4))
    }
}

/// The extent that the parameters of define extent give on a device with so many cylinders, with any
/// number. The block size is ignored.
pub fn decode_extent(bytes: &[u8], cylinders: u16) -> Result<Extent, ParamFault>
    requires { cylinders ≤ 4369 }
    ensures value { result ≡ extent_of cylinders bytes.now }
    ensures wellformed { IfOk result (λ e. IsExtent cylinders e) }
{
    if bytes.len() < PARAMETERS {
        return Err(ParamFault::Short);
    }
    let mask = bytes[0];
    if !is_mask(mask) {
        return Err(ParamFault::BadMask);
    }
    let mode = attributes_mode(bytes[1]).ok_or(ParamFault::BadMode)?;
    let first = track_at(cylinders, cchh_at(bytes, 8)).ok_or(ParamFault::BadRange)?;
    let last = track_at(cylinders, cchh_at(bytes, 12)).ok_or(ParamFault::BadRange)?;
    if first.get() > last.get() {
        return Err(ParamFault::BadRange);
    }
    Ok(Extent {
        mask,
        mode,
        inhibit_fast: bytes[1] & INHIBIT_FAST_WRITE != 0,
        number: extent_number(bytes),
        first,
        last,
    })
}

/// The domain that the parameters of locate record give on a device with so many cylinders. The
/// sector, the transfer length factor and the one bit of the auxiliary byte are ignored.
pub fn decode_domain(bytes: &[u8], cylinders: u16) -> Result<Domain, ParamFault>
    requires { cylinders ≤ 4369 }
    ensures value { result ≡ domain_of cylinders bytes.now }
    ensures wellformed { IfOk result (λ d. IsDomain cylinders d) }
{
    if bytes.len() < PARAMETERS {
        return Err(ParamFault::Short);
    }
    let operation = operation_of(bytes[0] & OPERATION).ok_or(ParamFault::BadOperation)?;
    let count = bytes[3];
    if is_bad_count(operation, count) {
        return Err(ParamFault::BadCount);
    }
    if bytes[1] & RESERVED_AUXILIARY != 0 || bytes[2] != 0 {
        return Err(ParamFault::BadAux);
    }
    let seek = track_at(cylinders, cchh_at(bytes, 4)).ok_or(ParamFault::BadRange)?;
    Ok(Domain {
        orientation: orientation_of(bytes[0] / ORIENTATION_UNIT),
        operation,
        count,
        seek,
        search: RecId {
            cchh: cchh_at(bytes, 8),
            r: bytes[12],
        },
    })
}
