ghost use Rattle.std.specs.Prelude.{◌≡◌, List};
ghost use Rattle.subsystem_defs.specs.Lines.{Asked, last_behind, run_lines};
ghost use Rattle.subsystem_defs.specs.Subsystem.{Subsystem};
ghost use Rattle.line_drive.specs.Driven.{Goes, driven, run_course};

/// Where nothing is done behind the events, lines come to what they come to in the run of a deck: RUN and SETTLE mean the same in
/// both.
pub fn driven_is_run<E>()
    ensures { (xs : List Asked) (s : Subsystem) → driven (run_course {E = E}) xs s ≡ Goes (last_behind s (run_lines xs s)) }
{}
