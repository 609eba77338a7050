ghost use Rattle.std.specs.Prelude.{◌≡◌, ◌≢◌, ◌≤◌, Err, IfOk, slice_index};
ghost use Rattle.volume_file.specs.File.{head_of, model_byte};
ghost use Rattle.volume_file.specs.Loading.{cylinders_in, head_in, model_in};

use crate::LoadFault;
use ckd_types::Geometry;

/// The bytes of a head.
pub(crate) const HEAD: usize = 12;

/// What the head of a file tells.
#[derive(Clone, Copy, Debug)]
pub(crate) struct Head {
    pub geometry: Geometry,
    pub cylinders: u8,
}

fn byte_at(field: &[u8], i: usize) -> u8
    ensures { result ≡ slice_index field.now i }
{
    field.get(i).copied().unwrap_or(0)
}

fn model_in(b: u8) -> Result<Geometry, LoadFault>
    ensures exact { result ≡ model_in b }
    ensures byte { IfOk result (λ g. b ≡ model_byte g) }
    ensures calm { result ≢ Err LoadFault.ReadFault }
{
    match b {
        1 => Ok(Geometry::D3390),
        2 => Ok(Geometry::D3380),
        _ => Err(LoadFault::BadHead { offset: 8 }),
    }
}

fn cylinders_in(n: u8) -> Result<u8, LoadFault>
    ensures exact { result ≡ cylinders_in n }
    ensures range { IfOk result (λ c. (1 ≤ c) × (c ≤ 64)) }
    ensures same { IfOk result (λ c. c ≡ n) }
    ensures calm { result ≢ Err LoadFault.ReadFault }
{
    if 1 <= n && n <= 64 {
        Ok(n)
    } else {
        Err(LoadFault::BadHead { offset: 9 })
    }
}

/// What a head tells, of which at most its bytes are given.
#[tactic(auto, unfolding(crate::specs::Loading::head_in))]
pub(crate) fn head_in(field: &[u8]) -> Result<Head, LoadFault>
    ensures exact { result ≡ head_in field.now }
    ensures spelled { IfOk result (λ h. field.now ≡ head_of h.geometry h.cylinders) }
    ensures range { IfOk result (λ h. (1 ≤ h.cylinders) × (h.cylinders ≤ 64)) }
    ensures calm { result ≢ Err LoadFault.ReadFault }
{
    if !field.starts_with(b"CKDVOL01") {
        return Err(LoadFault::BadHead { offset: 0 });
    }
    let geometry = model_in(byte_at(field, 8))?;
    let cylinders = cylinders_in(byte_at(field, 9))?;
    if field.len() == HEAD && field[10] == 0 && field[11] == 0 {
        Ok(Head {
            geometry,
            cylinders,
        })
    } else {
        Err(LoadFault::BadHead { offset: 10 })
    }
}
