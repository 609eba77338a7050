//! The run of a deck over the volumes of a bay, and its report.

ghost use Rattle.std.specs.Prelude.{◌≡◌, ◌≢◌, ◌≤◌, ◌+◌, [], IfOk, Ok, length, OnOk};
ghost use Rattle.report_text.specs.Counting.{counts_of};
ghost use Rattle.report_text.specs.Report.{report_text};
ghost use Rattle.run_report.specs.Report.{lines_of_run, report_on};
ghost use Rattle.subsystem_core.specs.Devices.{numbers_of};
ghost use Rattle.subsystem_defs.specs.Decks.{AreWhole, Firsts, run_on};
ghost use Rattle.deck_run.specs.Opening.{WasRead, numbers_in};
ghost use Rattle.deck_run.specs.Sides.{AreAccounted, all_sides};
ghost use Rattle.deck_run.specs.Standing.{StandsAs};
ghost use Rattle.deck_top.specs.Bays.{BayView, HandsOut};
ghost use Rattle.deck_top.specs.Handed.{TakesBackOn};
ghost use Rattle.deck_top.specs.Answers.{RunsAsPromisedOn, TellsDeckOn, WriteFaultHasCause};

use crate::bay::VolumeBay;
use crate::give::give_back;
use crate::handing::hand_out_all;
use crate::task::Task;
use crate::top::Status;
use ckd_outside::Sink;
use ckd_types::NoMemory;
use deck_run::{EmptyVolume, FinishedRun, run_on};
use deck_text::Deck;
use device_outside::Volume;
use move_laws::{fast_writes_are_not_checked, run_moves_exactly};
use promise_laws::run_on_volumes_keeps_promises;
use report_text::write_report;
use run_report::run_on_volumes_runs_plainly;
use std::alloc::Global;
use subsystem_core::Subsystem;
use subsystem_laws::run_on_volumes_is_promised;

/// A deck's devices behind its run, and the lines of its report, but for the last one; and all that is promised of the run.
pub(crate) fn run_deck<V: EmptyVolume, B: VolumeBay<V>>(
    alloc: Global,
    deck: &Deck,
    bay: &mut B,
) -> Result<FinishedRun<V>, NoMemory>
    requires { WasRead deck.now }
    ensures text { (firsts : Firsts) → HandsOut (B.view bay.old) firsts
        → IfOk result (λ ran. report_text ran.report [] [] ≡ report_on firsts deck.now) }
    ensures counts { (firsts : Firsts) → HandsOut (B.view bay.old) firsts
        → IfOk result (λ ran. counts_of ran.report ≡ counts_of (lines_of_run (run_on firsts deck.now))) }
    ensures well { (firsts : Firsts) → AreWhole firsts → IfOk result (λ ran. RunsAsPromisedOn firsts deck.now) }
    ensures stands { (firsts : Firsts) → HandsOut (B.view bay.old) firsts
        → IfOk result (λ ran. StandsAs ran.sub (run_on firsts deck.now).behind) }
    ensures numbers { IfOk result (λ ran. numbers_of ran.sub.devices.items ≡ numbers_in deck.now.devices) }
    ensures accounted { IfOk result (λ ran. AreAccounted (all_sides ran.sub.devices.items)) }
    ensures made { OnOk result ((B.view bay.new).made ≡ (B.view bay.old).made + length deck.now.devices) }
    ensures firsts { (B.view bay.new).firsts ≡ (B.view bay.old).firsts }
    ensures spoiled { (B.view bay.new).spoiled ≡ (B.view bay.old).spoiled }
    ensures taken { (B.view bay.new).taken ≡ (B.view bay.old).taken }
{
    run_on_volumes_is_promised();
    run_on_volumes_keeps_promises();
    run_moves_exactly();
    fast_writes_are_not_checked();
    run_on_volumes_runs_plainly();
    let volumes = hand_out_all(alloc, deck, bay)?;
    let ran = run_on(alloc, deck, volumes)?;
    Ok(ran)
}

/// The volumes of the devices of a deck, given to the bay. It has made as many more as there are devices, and as many stand there. The bay
/// before the run had taken as many.
pub(crate) fn take_back<V: Volume, B: VolumeBay<V>>(deck: &Deck, sub: Subsystem<V>, bay: &mut B)
    requires numbers { numbers_of sub.devices.items ≡ numbers_in deck.now.devices }
    requires accounted { AreAccounted (all_sides sub.devices.items) }
    requires room { length (B.view bay.old).taken + length deck.now.devices ≤ (B.view bay.old).made }
    ensures firsts { (B.view bay.new).firsts ≡ (B.view bay.old).firsts }
    ensures spoiled { (B.view bay.new).spoiled ≡ (B.view bay.old).spoiled }
    ensures volumes { (old : BayView V) → old.taken ≡ (B.view bay.old).taken
        → ((firsts : Firsts) → HandsOut old firsts → StandsAs sub (run_on firsts deck.now).behind)
        → TakesBackOn V.view deck.now old (B.view bay.new) }
{
    give_back(sub, bay);
}

#[tactic(auto, using(crate::proofs::Told::ran_told, crate::proofs::Told::ran_front))]
pub(crate) fn report<V: EmptyVolume, K: Sink, B: VolumeBay<V>>(
    alloc: Global,
    deck: &Deck,
    sink: &mut K,
    bay: &mut B,
) -> Status
    requires { WasRead deck.now }
    ensures told { TellsDeckOn V.view (B.view bay.old) (B.view bay.new) result Task.Run (Ok deck.now) (K.held sink.old) (K.held sink.new) }
    ensures firsts { (B.view bay.new).firsts ≡ (B.view bay.old).firsts }
    ensures spoiled { (B.view bay.new).spoiled ≡ (B.view bay.old).spoiled }
    ensures kept { result ≢ Status.Reported → (B.view bay.new).taken ≡ (B.view bay.old).taken }
    ensures later { K.faults sink.old ≤ K.faults sink.new }
    ensures write { WriteFaultHasCause result (K.faults sink.old) (K.faults sink.new) }
{
    let _taken = bay.count_back();
    let Ok(ran) = run_deck(alloc, deck, bay) else {
        return Status::NoMemory;
    };
    match write_report(sink, &ran.report, &[], &[]) {
        Ok(()) => {
            take_back(deck, ran.sub, bay);
            Status::Reported
        }
        Err(_) => Status::WriteFault,
    }
}
