ghost use Rattle.std.specs.Prelude.{◌≡◌, ◌∷◌, [], ◌++◌, IfOk};
ghost use Rattle.ckd_types.specs.Parameters.{operation_code};
ghost use Rattle.deck_gen.specs.Programs.{place_bytes, extent_word, locate_word, format_word, update_word, read_word};

use byteorder::{BigEndian, ByteOrder};
use ckd_params::encode_domain;
use ckd_types::{Bytes, Ccw, Domain, NoMemory, Operation, Orientation, RecId, TrackNo, cchh_of};
use std::alloc::Global;

/// Define extent over cylinders 0 and 1, chained: of its 16 parameter bytes the mask and the global attributes vary.
pub fn extent_word(alloc: Global, mask: u8, attributes: u8) -> Result<Ccw, NoMemory>
    ensures { IfOk result (λ ccw. ccw ≡ extent_word mask attributes) }
{
    let given = [
        mask, attributes, 0x10, 0, 0, 0, 0, 0, 0, 0, 0, 0, 0, 1, 0, 0x0e,
    ];
    Ok(Ccw {
        command: 0x63,
        flags: Ccw::CHAIN,
        count: 16,
        given: Bytes::from_slice(alloc, &given)?,
    })
}

/// Locate record, chained: `count` commands of the operation, from the record `r` of the track on, found by its count area.
pub fn locate_word(
    alloc: Global,
    operation: Operation,
    count: u8,
    track: TrackNo,
    r: u8,
) -> Result<Ccw, NoMemory>
    ensures { IfOk result (λ ccw. ccw ≡ locate_word (operation_code operation) count track r) }
{
    let domain = Domain {
        orientation: Orientation::Count,
        operation,
        count,
        seek: track,
        search: RecId {
            cchh: cchh_of(track),
            r,
        },
    };
    Ok(Ccw {
        command: 0x47,
        flags: Ccw::CHAIN,
        count: 16,
        given: Bytes::from_slice(alloc, &encode_domain(&domain))?,
    })
}

/// The count area of a record of 4,096 bytes without a key, and a number's eight bytes behind it.
fn format_bytes(track: TrackNo, r: u8, x: u64) -> [u8; 16]
    ensures { result ≡ (format_word 0 track r x).given }
{
    let place = cchh_of(track);
    let mut bytes = [0; 16];
    BigEndian::write_u16(&mut bytes, place.cc);
    BigEndian::write_u16(&mut bytes[2..], place.hh);
    bytes[4] = r;
    bytes[6] = 0x10;
    BigEndian::write_u64(&mut bytes[8..], x);
    bytes
}

/// Write count, key and data: a record `r` of 4,096 bytes without key, of which the word gives the count area and the first
/// eight data bytes.
pub fn format_word(alloc: Global, flags: u8, track: TrackNo, r: u8, x: u64) -> Result<Ccw, NoMemory>
    ensures { IfOk result (λ ccw. ccw ≡ format_word flags track r x) }
{
    Ok(Ccw {
        command: 0x1d,
        flags,
        count: 4104,
        given: Bytes::from_slice(alloc, &format_bytes(track, r, x))?,
    })
}

/// Write data in a domain: eight bytes, and no incorrect length where the record is longer.
pub fn update_word(alloc: Global, x: u64) -> Result<Ccw, NoMemory>
    ensures { IfOk result (λ ccw. ccw ≡ update_word x) }
{
    Ok(Ccw {
        command: 0x85,
        flags: Ccw::SUPPRESS_LENGTH,
        count: 8,
        given: Bytes::from_slice(alloc, &x.to_be_bytes())?,
    })
}

/// A read, which gives nothing: `count` is the most that it sends.
pub fn read_word(command: u8, flags: u8, count: u16) -> Ccw
    ensures { result ≡ read_word command flags count }
{
    Ccw {
        command,
        flags,
        count,
        given: Bytes::new(),
    }
}
