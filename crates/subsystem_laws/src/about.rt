//! A law of one device over marks, whatever it is answered: what it is excused for.

ghost use Rattle.std.specs.Prelude.{◌<◌, ◌-◌, ◌^◌, ℕ, List};
ghost use Rattle.ckd_types.specs.declared.record.Track.{Track};
ghost use Rattle.device_defs.specs.Excused.{IsExcused};
ghost use Rattle.device_defs.specs.Marks.{MarksDevice};
ghost use Rattle.subsystem_defs.specs.Promised.{first_of};
ghost use Rattle.subsystem_laws.specs.CameAbout.{CameAboutOn};
ghost use Rattle.subsystem_laws.specs.Excused.{WasNeverLent};

/// A device that came about from a new one by its events, looks past the channel and orders, and was never lent, is excused for what it lost and for its checks,
/// whatever it was answered and whichever calls failed, while the counts of failed calls and of losses of the cache aren't at the greatest number.
pub fn device_stays_excused()
    ensures { (first : ℕ → List Track) (d : MarksDevice) → CameAboutOn first d → WasNeverLent d → d.store.counts.failed < 2 ^ 64 - 1 → d.store.counts.losses.cache < 2 ^ 64 - 1 →
        IsExcused d.plans (first_of first d) d.history.items d.store.lost d.store.counts }
{}
