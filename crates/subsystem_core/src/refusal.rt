ghost use Rattle.std.specs.Prelude.{◌≡◌};
ghost use Rattle.device_core.specs.State.{device_of};
ghost use Rattle.subsystem_defs.specs.Refusals.{
  fail_fault,
  has_side,
  is_alike,
  is_same_kind,
  pair_fault,
  replace_fault,
  resume_fault,
  suspend_fault,
  unpair_fault,
};

use ckd_types::{Geometry, Side};
use device_core::Device;
use device_outside::Volume;
use subsystem_defs::OrderFault;

fn is_same_kind(a: Geometry, b: Geometry) -> bool
    ensures { result ≡ is_same_kind a b }
{
    match a {
        Geometry::D3390 => match b {
            Geometry::D3390 => true,
            Geometry::D3380 => false,
        },
        Geometry::D3380 => match b {
            Geometry::D3390 => false,
            Geometry::D3380 => true,
        },
    }
}

fn is_alike<V: Volume>(a: &Device<V>, b: &Device<V>) -> bool
    ensures { result ≡ is_alike (device_of a.now).store (device_of b.now).store }
{
    is_same_kind(a.geometry(), b.geometry()) && a.cylinders() == b.cylinders()
}

fn has_side<V: Volume>(d: &Device<V>, side: Side) -> bool
    ensures { result ≡ has_side (device_of d.now).store side }
{
    match side {
        Side::A => true,
        Side::B => d.paired(),
    }
}

/// Why the second device's volume can't be made side B of the first.
#[tactic(auto, unfolding(subsystem_defs::specs::Refusals::pair_fault))]
pub fn pair_fault<V: Volume>(a: &Device<V>, b: &Device<V>) -> Option<OrderFault>
    ensures { result ≡ pair_fault (device_of a.now) (device_of b.now) }
{
    if a.number() == b.number() {
        return Some(OrderFault::Same);
    }
    if let Some(of) = a.lent_to() {
        return Some(OrderFault::Lent { of });
    }
    if let Some(of) = b.lent_to() {
        return Some(OrderFault::Lent { of });
    }
    if a.paired() || b.paired() {
        return Some(OrderFault::Paired);
    }
    if let Some(path) = a.active() {
        return Some(OrderFault::Active { path });
    }
    if let Some(path) = b.active() {
        return Some(OrderFault::Active { path });
    }
    if !is_alike(a, b) {
        return Some(OrderFault::Geometry);
    }
    if !a.up(Side::A) || !b.up(Side::A) {
        return Some(OrderFault::Down);
    }
    None
}

/// Why side B of a device can't leave it.
#[tactic(auto, unfolding(subsystem_defs::specs::Refusals::unpair_fault))]
pub fn unpair_fault<V: Volume>(a: &Device<V>) -> Option<OrderFault>
    ensures { result ≡ unpair_fault (device_of a.now) }
{
    if !a.paired() {
        return Some(OrderFault::Unpaired);
    }
    if let Some(path) = a.active() {
        return Some(OrderFault::Active { path });
    }
    if a.half_open() {
        return Some(OrderFault::Half);
    }
    if !a.up(Side::A) {
        return Some(OrderFault::Down);
    }
    match a.stale(Side::A) {
        0 => None,
        n => Some(OrderFault::NotLevel { n }),
    }
}

/// Why side B of a device can't be held.
#[tactic(auto, unfolding(subsystem_defs::specs::Refusals::suspend_fault))]
pub fn suspend_fault<V: Volume>(a: &Device<V>) -> Option<OrderFault>
    ensures { result ≡ suspend_fault (device_of a.now) }
{
    if !a.paired() {
        return Some(OrderFault::Unpaired);
    }
    if a.half_open() {
        return Some(OrderFault::Half);
    }
    if !(a.up(Side::A) && a.up(Side::B)) {
        return Some(OrderFault::Down);
    }
    if a.held() {
        return Some(OrderFault::Held);
    }
    None
}

/// Why there is no side B that is held.
#[tactic(auto, unfolding(subsystem_defs::specs::Refusals::resume_fault))]
pub fn resume_fault<V: Volume>(a: &Device<V>) -> Option<OrderFault>
    ensures { result ≡ resume_fault (device_of a.now) }
{
    if !a.paired() {
        return Some(OrderFault::Unpaired);
    }
    if !a.held() {
        return Some(OrderFault::NotHeld);
    }
    None
}

/// Why a side can't be lost.
#[tactic(auto, unfolding(subsystem_defs::specs::Refusals::fail_fault))]
pub fn fail_fault<V: Volume>(d: &Device<V>, side: Side) -> Option<OrderFault>
    ensures { result ≡ fail_fault (device_of d.now) side }
{
    if let Some(of) = d.lent_to() {
        return Some(OrderFault::Lent { of });
    }
    if !has_side(d, side) {
        return Some(OrderFault::NoSide);
    }
    if !d.up(side) {
        return Some(OrderFault::Down);
    }
    None
}

/// Why a side can't get another volume.
#[tactic(auto, unfolding(subsystem_defs::specs::Refusals::replace_fault))]
pub fn replace_fault<V: Volume>(d: &Device<V>, side: Side) -> Option<OrderFault>
    ensures { result ≡ replace_fault (device_of d.now) side }
{
    if let Some(of) = d.lent_to() {
        return Some(OrderFault::Lent { of });
    }
    if !has_side(d, side) {
        return Some(OrderFault::NoSide);
    }
    if d.up(side) {
        return Some(OrderFault::Up);
    }
    if d.half_open() {
        return Some(OrderFault::Half);
    }
    None
}
