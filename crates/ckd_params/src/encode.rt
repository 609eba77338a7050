ghost use Rattle.std.specs.Prelude.{◌≡◌, ℕ, ◌≤◌, ◌++◌, Ok, IfSome, drop, length};
ghost use Rattle.ckd_types.specs.Track.{two_bytes, cchh_bytes};
ghost use Rattle.ckd_types.specs.Parameters.{number_at, cchh_at, extent_of, domain_of};
ghost use Rattle.ckd_params.specs.Encoding.{mode_code, attributes, number_bytes, orientation_code, actions, extent_bytes, domain_bytes};
ghost use Rattle.ckd_params.specs.Wellformed.{IsExtent, IsDomain};

use crate::bits::{
    ARCHITECTURE, CACHE_FAST_WRITE, INHIBIT_FAST_WRITE, MODE_UNIT, ORIENTATION_UNIT, PARAMETERS,
};
use byteorder::{BigEndian, ByteOrder};
use ckd_types::{Cchh, Domain, Extent, Mode, Operation, Orientation, cchh_of, operation_code};

fn mode_code(mode: Mode) -> u8
    ensures { result ≡ mode_code mode }
{
    match mode {
        Mode::Normal => 0,
        Mode::Bypass => 1,
        Mode::InhibitLoad => 2,
        Mode::Sequential => 3,
    }
}

fn attributes(mode: Mode, numbered: bool, inhibit_fast: bool) -> u8
    ensures { result ≡ attributes mode numbered inhibit_fast }
{
    let fast = if numbered { CACHE_FAST_WRITE } else { 0 };
    let inhibit = if inhibit_fast { INHIBIT_FAST_WRITE } else { 0 };
    ARCHITECTURE + mode_code(mode) * MODE_UNIT + fast + inhibit
}

fn orientation_code(orientation: Orientation) -> u8
    ensures { result ≡ orientation_code orientation }
{
    match orientation {
        Orientation::Count => 0,
        Orientation::Home => 1,
        Orientation::Body => 2,
        Orientation::Index => 3,
    }
}

fn actions(orientation: Orientation, operation: Operation) -> u8
    ensures { result ≡ actions orientation operation }
{
    orientation_code(orientation) * ORIENTATION_UNIT + operation_code(operation)
}

fn put_cchh(out: &mut [u8], place: Cchh)
    requires { 4 ≤ length out.old }
    ensures bytes { out.new ≡ cchh_bytes place ++ drop 4 out.old }
    ensures reads_back { cchh_at (cchh_bytes place) 0 ≡ place }
{
    BigEndian::write_u16(out, place.cc);
    BigEndian::write_u16(&mut out[2..], place.hh);
}

/// Two zeros where there is no number.
fn put_number(out: &mut [u8], number: Option<u16>)
    requires { 2 ≤ length out.old }
    ensures bytes { out.new ≡ number_bytes number ++ drop 2 out.old }
    ensures reads_back { IfSome number (λ n. number_at (two_bytes n) 0 ≡ n) }
{
    match number {
        Some(number) => BigEndian::write_u16(out, number),
        None => BigEndian::write_u16(out, 0),
    }
}

/// Parameters of define extent that give an extent.
pub fn encode_extent(e: &Extent) -> [u8; 16]
    ensures bytes { result ≡ extent_bytes e.now }
    ensures decodes { (cylinders : ℕ) → IsExtent cylinders e.now → extent_of cylinders result ≡ Ok e.now }
{
    let mut bytes = [0; PARAMETERS];
    bytes[0] = e.mask;
    bytes[1] = attributes(e.mode, e.number.is_some(), e.inhibit_fast);
    put_number(&mut bytes[4..], e.number);
    put_cchh(&mut bytes[8..], cchh_of(e.first));
    put_cchh(&mut bytes[12..], cchh_of(e.last));
    bytes
}

/// Parameters of locate record that give a domain.
pub fn encode_domain(d: &Domain) -> [u8; 16]
    ensures bytes { result ≡ domain_bytes d.now }
    ensures decodes { (cylinders : ℕ) → IsDomain cylinders d.now → domain_of cylinders result ≡ Ok d.now }
{
    let mut bytes = [0; PARAMETERS];
    bytes[0] = actions(d.orientation, d.operation);
    bytes[3] = d.count;
    put_cchh(&mut bytes[4..], cchh_of(d.seek));
    put_cchh(&mut bytes[8..], d.search.cchh);
    bytes[12] = d.search.r;
    bytes
}
