//! What every plain device stays.

ghost use Rattle.std.specs.Prelude.{◌≡◌, ◌≤◌, ◌*◌, [], ℕ};
ghost use Rattle.ckd_types.specs.declared.channel.Ccw.{Ccw};
ghost use Rattle.ckd_types.specs.declared.geometry.Geometry.{Geometry};
ghost use Rattle.ckd_types.specs.Fixed.{Fixed};
ghost use Rattle.ckd_types.specs.Volume.{empty_volume};
ghost use Rattle.ckd_rules.specs.declared.stance.Stance.{Stance};
ghost use Rattle.plain_defs.specs.declared.journal.Act.{Act};
ghost use Rattle.plain_defs.specs.Effect.{effect_on, behind_effect};
ghost use Rattle.plain_defs.specs.Loose.{act_done, power_off};
ghost use Rattle.plain_defs.specs.PlainState.{PlainState, empty_state, reset_path};
ghost use Rattle.plain_defs.specs.Whole.{IsWhole, GivesBytes};
ghost use Rattle.plain_device.specs.Volume.{IsActOn};

/// An empty device is whole: each track fits and says where it is, and there are four paths.
pub fn is_whole_at_first()
    ensures { (g : Geometry) (cylinders : ℕ) → cylinders ≤ 4369 → IsWhole (empty_state g cylinders) }
{}

/// Each command of a program leaves it whole.
pub fn is_whole_behind_a_command()
    ensures { (f : Fixed) (d : PlainState) (path : ℕ) (s : Stance) (c : Ccw) → f.geometry ≡ d.geometry → GivesBytes c → IsWhole d →
        IsWhole (behind_effect d (effect_on f d path s c)) }
{}

/// So do a reset of a path, a new volume, an act on a track of the device, and a power loss.
pub fn is_whole_behind_an_event()
    ensures reset { (d : PlainState) (path : ℕ) → IsWhole d → IsWhole (record d { paths = reset_path d.paths path }) }
    ensures fresh { (d : PlainState) → d.cylinders ≤ 4369 → IsWhole d → IsWhole (record d { volume = empty_volume d.cylinders; loose = [] }) }
    ensures act { (d : PlainState) (act : Act) → IsActOn (d.cylinders * 15) act → IsWhole d → IsWhole (act_done d act) }
    ensures power { (d : PlainState) → IsWhole d → IsWhole (power_off d) }
{}
