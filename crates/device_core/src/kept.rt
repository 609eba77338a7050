ghost use Rattle.std.specs.Prelude.{◌≡◌, ◌+◌, ◌<◌, ◌≤◌};
ghost use Rattle.device_core.specs.Kept.{of_path, with_one_more, with_unused, with_waiting};

use crate::history::KeptPath;
use ckd_types::PathNo;

/// A path was reset.
pub(crate) fn set_unused(kept: &mut [KeptPath; 4], path: PathNo)
    ensures kept { kept.new ≡ with_unused kept.old path }
    ensures path { (1 ≤ path) × (path ≤ 4) }
{
    kept[usize::from(path.get() - 1)].used = false;
}

/// Its reset waits from now on.
pub(crate) fn set_waiting(kept: &mut [KeptPath; 4], path: PathNo)
    ensures kept { kept.new ≡ with_waiting kept.old path }
    ensures path { (1 ≤ path) × (path ≤ 4) }
{
    kept[usize::from(path.get() - 1)].waits = true;
}

/// A program of it starts, and this is its ordinal.
pub(crate) fn count_one_more(kept: &mut [KeptPath; 4], path: PathNo) -> u16
    requires { (of_path kept.old path).started < 65535 }
    ensures ordinal { result ≡ (of_path kept.old path).started + 1 }
    ensures kept { kept.new ≡ with_one_more kept.old path }
    ensures path { (1 ≤ path) × (path ≤ 4) }
{
    let at = usize::from(path.get() - 1);
    let KeptPath { started, waits, .. } = kept[at];
    kept[at] = KeptPath {
        started: started + 1,
        used: true,
        waits,
    };
    started + 1
}
