//! The run of a deck over the volumes of a bay, and its summary.

ghost use Rattle.std.specs.Prelude.{◌≡◌, ◌≢◌, ◌≤◌, ◌+◌, IfOk, Ok, length, ℕ, OnOk};
ghost use Rattle.run_report.specs.Summed.{summary_of};
ghost use Rattle.subsystem_core.specs.Devices.{numbers_of};
ghost use Rattle.subsystem_defs.specs.Decks.{AreWhole, Firsts, run_on};
ghost use Rattle.deck_run.specs.Opening.{WasRead, numbers_in};
ghost use Rattle.deck_run.specs.Sides.{AreAccounted, all_sides};
ghost use Rattle.deck_run.specs.Standing.{StandsAs};
ghost use Rattle.deck_top.specs.Bays.{HandsOut};
ghost use Rattle.deck_top.specs.Answers.{RunsAsPromisedOn, TellsDeckOn, WriteFaultHasCause};

use crate::bay::VolumeBay;
use crate::report::{run_deck, take_back};
use crate::sums::summary_of;
use crate::task::Task;
use crate::top::Status;
use ckd_outside::Sink;
use ckd_types::NoMemory;
use deck_run::EmptyVolume;
use deck_text::Deck;
use device_outside::Volume;
use report_text::{Summary, write_summary};
use std::alloc::Global;
use subsystem_core::Subsystem;

/// The devices behind a run, and what it came to.
#[derive(Drop)]
struct SummedRun<V: Volume> {
    sub: Subsystem<V>,
    summary: Summary,
}

fn sum_deck<V: EmptyVolume, B: VolumeBay<V>>(
    alloc: Global,
    deck: &Deck,
    bay: &mut B,
) -> Result<SummedRun<V>, NoMemory>
    requires { WasRead deck.now }
    ensures summary { (firsts : Firsts) → HandsOut (B.view bay.old) firsts → IfOk result (λ ran. ran.summary ≡ summary_of (run_on firsts deck.now)) }
    ensures well { (firsts : Firsts) → AreWhole firsts → IfOk result (λ ran. RunsAsPromisedOn firsts deck.now) }
    ensures stands { (firsts : Firsts) → HandsOut (B.view bay.old) firsts
        → IfOk result (λ ran. StandsAs ran.sub (run_on firsts deck.now).behind) }
    ensures numbers { IfOk result (λ ran. numbers_of ran.sub.devices.items ≡ numbers_in deck.now.devices) }
    ensures accounted { IfOk result (λ ran. AreAccounted (all_sides ran.sub.devices.items)) }
    ensures made { OnOk result ((B.view bay.new).made ≡ (B.view bay.old).made + length deck.now.devices) }
    ensures firsts { (B.view bay.new).firsts ≡ (B.view bay.old).firsts }
    ensures spoiled { (B.view bay.new).spoiled ≡ (B.view bay.old).spoiled }
    ensures taken { (B.view bay.new).taken ≡ (B.view bay.old).taken }
{
    let ran = run_deck(alloc, deck, bay)?;
    let summary = summary_of(&ran.report, &ran.sub);
    Ok(SummedRun {
        sub: ran.sub,
        summary,
    })
}

#[tactic(auto, using(crate::proofs::Told::summed_told, crate::proofs::Told::summed_front))]
pub(crate) fn summarize<V: EmptyVolume, K: Sink, B: VolumeBay<V>>(
    alloc: Global,
    deck: &Deck,
    sink: &mut K,
    bay: &mut B,
) -> Status
    requires { WasRead deck.now }
    ensures told { (seed count : ℕ) → TellsDeckOn V.view (B.view bay.old) (B.view bay.new) result (Task.Generate seed count) (Ok deck.now)
        (K.held sink.old) (K.held sink.new) }
    ensures firsts { (B.view bay.new).firsts ≡ (B.view bay.old).firsts }
    ensures spoiled { (B.view bay.new).spoiled ≡ (B.view bay.old).spoiled }
    ensures kept { result ≢ Status.Reported → (B.view bay.new).taken ≡ (B.view bay.old).taken }
    ensures later { K.faults sink.old ≤ K.faults sink.new }
    ensures write { WriteFaultHasCause result (K.faults sink.old) (K.faults sink.new) }
{
    let _taken = bay.count_back();
    let Ok(ran) = sum_deck(alloc, deck, bay) else {
        return Status::NoMemory;
    };
    match write_summary(sink, &ran.summary) {
        Ok(()) => {
            take_back(deck, ran.sub, bay);
            Status::Reported
        }
        Err(_) => Status::WriteFault,
    }
}
