ghost use Rattle.std.specs.Prelude.{◌≡◌, ◌≢◌, ◌≤◌, ◌<◌, Err, IfOk, drop, slice_index};
ghost use Rattle.disk_image.specs.File.{file_size, head_front, type_byte};
ghost use Rattle.disk_image.specs.Opening.{head_in, layout_by, model_in, rest_in};

use crate::layout::{place_of, room_size};
use crate::{ImageFault, Layout};
use ckd_types::{Geometry, HEADS};

/// The bytes of a head.
pub(crate) const HEAD: usize = 512;

/// The bytes of a head that aren't always zero.
pub(crate) const FRONT: usize = 20;

/// How the file of such a volume begins. The rest of its head is zero.
pub(crate) fn head_front(geometry: Geometry) -> [u8; 20]
    ensures { result ≡ head_front geometry }
{
    let mut front = *b"CKD_P370\x0f\0\0\0\0\0\0\0\0\0\0\0";
    front[13] = match geometry {
        Geometry::D3390 => 0xde,
        Geometry::D3380 => 0xba,
    };
    front[16] = type_byte(geometry);
    front
}

fn type_byte(geometry: Geometry) -> u8
    ensures { result ≡ type_byte geometry }
{
    match geometry {
        Geometry::D3390 => 0x90,
        Geometry::D3380 => 0x80,
    }
}

fn byte_at(field: &[u8], i: usize) -> u8
    ensures { result ≡ slice_index field.now i }
{
    field.get(i).copied().unwrap_or(0)
}

/// What stands in a field from a byte on.
fn behind(field: &[u8], i: usize) -> &[u8]
    ensures { result.now ≡ drop i field.now }
{
    &field[i.min(field.len())..]
}

fn model_in(field: &[u8]) -> Result<Geometry, ImageFault>
    ensures exact { result ≡ model_in field.now }
    ensures calm { result ≢ Err ImageFault.FileFault }
    ensures want { result ≢ Err ImageFault.NoMemory }
{
    let size = behind(field, 12);
    if size.starts_with(&[0, 0xde, 0, 0]) {
        Ok(Geometry::D3390)
    } else if size.starts_with(&[0, 0xba, 0, 0]) {
        Ok(Geometry::D3380)
    } else {
        Err(ImageFault::BadHead { offset: 12 })
    }
}

fn rest_in(geometry: Geometry, field: &[u8]) -> Result<Geometry, ImageFault>
    ensures exact { result ≡ rest_in geometry field.now }
    ensures calm { result ≢ Err ImageFault.FileFault }
    ensures want { result ≢ Err ImageFault.NoMemory }
{
    if byte_at(field, 16) != type_byte(geometry) {
        return Err(ImageFault::BadHead { offset: 16 });
    }
    if byte_at(field, 17) != 0 || byte_at(field, 18) != 0 || byte_at(field, 19) != 0 {
        return Err(ImageFault::Parts);
    }
    if field.len() == HEAD && behind(field, FRONT).starts_with(&[0; 492]) {
        Ok(geometry)
    } else {
        Err(ImageFault::BadHead { offset: 20 })
    }
}

/// The model that a head tells, of which at most its bytes are given.
#[tactic(auto, unfolding(crate::specs::Opening::head_in))]
pub(crate) fn head_in(field: &[u8]) -> Result<Geometry, ImageFault>
    ensures exact { result ≡ head_in field.now }
    ensures calm { result ≢ Err ImageFault.FileFault }
    ensures want { result ≢ Err ImageFault.NoMemory }
{
    if field.starts_with(b"CKD_C370") || field.starts_with(b"CKD_S370") {
        return Err(ImageFault::Compressed);
    }
    if !field.starts_with(b"CKD_P370") {
        return Err(ImageFault::BadHead { offset: 0 });
    }
    if !behind(field, 8).starts_with(&[15, 0, 0, 0]) {
        return Err(ImageFault::BadHead { offset: 8 });
    }
    let geometry = model_in(field)?;
    rest_in(geometry, field)
}

/// The layout of a file of so many bytes.
#[tactic(auto, unfolding(crate::specs::Opening::layout_by))]
pub(crate) fn layout_by(geometry: Geometry, size: u64) -> Result<Layout, ImageFault>
    ensures exact { result ≡ layout_by geometry size }
    ensures range { IfOk result (λ l. (1 ≤ l.cylinders) × (l.cylinders ≤ 4369)) }
    ensures size { IfOk result (λ l. size ≡ file_size l.geometry l.cylinders) }
    ensures calm { result ≢ Err ImageFault.FileFault }
    ensures want { result ≢ Err ImageFault.NoMemory }
{
    let cylinder = u64::from(HEADS) * room_size(geometry) as u64;
    let cylinders = size.saturating_sub(HEAD as u64) / cylinder;
    if 1 <= cylinders && cylinders <= 4369 {
        let cylinders = cylinders as u16;
        if size == place_of(geometry, cylinders * HEADS) {
            return Ok(Layout {
                geometry,
                cylinders,
            });
        }
    }
    Err(ImageFault::BadLength { size })
}
