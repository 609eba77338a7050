ghost use Rattle.std.specs.Prelude.{◌≡◌, ◌≤◌, ◌<◌, ◌^◌, IfSome, length};
ghost use Rattle.disk_image.specs.File.{end_in, record_size};

/// The bytes of a home address.
const HOME: usize = 5;

/// The bytes of a count area.
const AREA: usize = 8;

/// As many count areas as the greatest room has place for.
const MOST_STEPS: u16 = 8192;

/// How many bytes the record has that bytes begin with, by its count area.
fn record_size(bytes: &[u8]) -> usize
    requires { AREA ≤ length bytes.now }
    ensures size { result ≡ record_size bytes.now }
    ensures range { result < 2 ^ 17 }
{
    AREA + usize::from(bytes[5]) + usize::from(bytes[6]) * 256 + usize::from(bytes[7])
}

/// How many bytes the track in a room has, if its records lead to an end mark. No byte of a record is looked at but its count area.
pub(crate) fn end_in(room: &[u8]) -> Option<usize>
    requires { length room.now ≤ 65536 }
    ensures value { result ≡ end_in room.now }
    ensures within { IfSome result (λ n. n ≤ length room.now) }
{
    let mut at = HOME;
    let mut steps = MOST_STEPS;
    while steps > 0 {
        if room.len() < at + AREA {
            return None;
        }
        let (_, rest) = room.split_at(at);
        if rest.starts_with(&[0xff; AREA]) {
            return Some(at + AREA);
        }
        at += record_size(rest);
        steps -= 1;
    }
    None
}
