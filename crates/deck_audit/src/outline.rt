ghost use Rattle.std.specs.Prelude.{◌≡◌, false};
ghost use Rattle.std.specs.Prelude.{option_map};
ghost use Rattle.deck_audit.specs.Place.{is_declared, is_lost_of, is_totals_of, outline_in};

use crate::Outline;
use ckd_types::DeviceNo;
use report_text::{DeviceTotals, ReportLine};

/// The outline of the device of a number.
pub fn outline_in(devices: &[Outline], d: DeviceNo) -> Option<&Outline>
    ensures { option_map (λ a. a.now) result ≡ outline_in devices.now d }
{
    for a in devices {
        if a.number.get() == d.get() {
            return Some(a);
        }
    }
    None
}

/// Whether the deck has a device of that number.
pub fn is_declared(devices: &[Outline], d: DeviceNo) -> bool
    ensures { result ≡ is_declared devices.now d }
{
    match outline_in(devices, d) {
        Some(_) => true,
        None => false,
    }
}

/// Its totals: its calls, or to which device it is lent.
pub fn is_totals_of(line: &ReportLine, a: &Outline) -> bool
    ensures { result ≡ is_totals_of line.now a.now a.now.lent }
{
    match line {
        ReportLine::Device(device, DeviceTotals::Calls { .. }) => {
            a.lent.is_none() && device.get() == a.number.get()
        }
        ReportLine::Device(device, DeviceTotals::Lent(of)) => match &a.lent {
            Some(other) => device.get() == a.number.get() && of.get() == other.get(),
            None => false,
        },
        _ => false,
    }
}

/// A lost track of it, where it isn't lent.
pub fn is_lost_of(line: &ReportLine, a: &Outline) -> bool
    ensures { result ≡ is_lost_of line.now a.now a.now.lent }
{
    match line {
        ReportLine::Lost(device, _) => a.lent.is_none() && device.get() == a.number.get(),
        _ => false,
    }
}
