//! What a run comes to.

ghost use Rattle.std.specs.Prelude.{◌≡◌};
ghost use Rattle.device_defs.specs.Excused.{count_lost};
ghost use Rattle.report_text.specs.Counting.{counts_of};
ghost use Rattle.deck_top.specs.Summing.{added, sums_of, summary_by};

use device_core::Device;
use device_outside::Volume;
use loss_model::LostList;
use report_text::{RunRecord, Summary};
use subsystem_core::Subsystem;

/// The volume calls and the lost tracks of devices.
#[derive(Clone, Copy, Debug, PartialEq, Eq)]
pub(crate) struct Sums {
    reads: u64,
    writes: u64,
    lost: u64,
}

fn count_lost(lost: &LostList) -> u64
    ensures { result ≡ count_lost lost.now }
{
    lost.len() as u64
}

/// Sums of 64 bits, as the counts of a device are. Those of the run of a deck that was read never come to the greatest number.
fn added(n: u64, m: u64) -> u64
    ensures { result ≡ added n m }
{
    n.saturating_add(m)
}

fn sums_of<V: Volume>(devices: &[Device<V>]) -> Sums
    ensures { result ≡ sums_of devices.now }
{
    let mut sums = Sums {
        reads: 0,
        writes: 0,
        lost: 0,
    };
    for device in devices {
        sums = Sums {
            reads: added(sums.reads, device.reads()),
            writes: added(sums.writes, device.writes()),
            lost: added(sums.lost, count_lost(device.lost())),
        };
    }
    sums
}

/// What the lines of a run and its devices come to.
pub(crate) fn summary_of<V: Volume>(report: &RunRecord, sub: &Subsystem<V>) -> Summary
    ensures { result ≡ summary_by (counts_of report.now) (sums_of sub.now.devices.items) }
{
    let counts = report.counts();
    let sums = sums_of(sub.devices());
    Summary {
        programs: counts.programs,
        commands: counts.commands,
        checks: counts.checks,
        reads: sums.reads,
        writes: sums.writes,
        lost: sums.lost,
    }
}
