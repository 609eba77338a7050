//! A chain follows the rules of its commands.

ghost use Rattle.std.specs.Prelude.{◌≡◌, ℕ, suc, None};
ghost use Rattle.ckd_types.specs.declared.record.Track.{Track};
ghost use Rattle.ckd_chain.specs.declared.progress.Settled.{Settled};
ghost use Rattle.ckd_chain.specs.Fed.{fed, fed_by_rules};
ghost use Rattle.ckd_chain.specs.State.{ChainState};
ghost use Rattle.ckd_rules.specs.declared.order.LocalAct.{LocalAct};

/// Fed with the images of any volume and the answers of any device, the command at hand of a chain has the
/// end and the edit that the rules give it, and the chain behind it is where they lead.
pub fn feeds_by_rules()
    ensures { (n : ℕ) (tracks : ℕ → Track) (answer : LocalAct → Settled) (s : ChainState) → s.stage ≡ None →
        fed (suc n) tracks answer s ≡ fed_by_rules (suc n) tracks answer s }
{}
