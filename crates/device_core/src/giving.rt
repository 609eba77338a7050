//! What programs of bytes are.

ghost use Rattle.std.specs.Prelude.{◌≡◌, ◌<◌, ℕ, All};
ghost use Rattle.plain_defs.specs.Journal.{program_of};
ghost use Rattle.plain_defs.specs.Whole.{GiveBytes, GivesAll, GivesBytes};

use ckd_ccw::Program;
use ckd_types::{Ccw, PathNo};
use deck_plan::PathPlans;

fn are_bytes(bytes: &[u8])
    ensures { All (λ byte. byte < 256) bytes.now }
{
    let _bytes = bytes;
}

fn word_gives(ccw: &Ccw)
    ensures { GivesBytes ccw.now }
{
    are_bytes(ccw.given.as_slice());
}

pub(crate) fn program_gives(program: &Program)
    ensures { GivesAll program.now }
{
    for k in 0..program.len() {
        word_gives(program.at(k));
    }
}

fn path_gives(plans: &PathPlans, path: PathNo)
    ensures { (ordinal : ℕ) → GivesAll (program_of plans.now path ordinal) }
{
    for i in 0..plans.len(path) {
        program_gives(plans.at(path, i));
    }
}

/// The words of the programs of four paths give bytes. No code but for the proof.
pub fn plans_give(plans: &PathPlans)
    ensures { GiveBytes plans.now }
{
    path_gives(plans, PathNo::of(1));
    path_gives(plans, PathNo::of(2));
    path_gives(plans, PathNo::of(3));
    path_gives(plans, PathNo::of(4));
}
