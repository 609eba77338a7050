ghost use Rattle.std.specs.Prelude.{◌≡◌, ◌≤◌, ◌+◌, ◌++◌, ◌∷◌, [], All, IfOk, OnOk, length, map, take, true};
ghost use Rattle.report_text.specs.declared.line.ReportLine.TheVariants as lines;
ghost use Rattle.run_report.specs.Report.{lines_of_run, report_lines};
ghost use Rattle.subsystem_defs.specs.Decks.{Firsts, run_of, run_on};
ghost use Rattle.subsystem_defs.specs.Lines.{asked_by, run_lines};
ghost use Rattle.subsystem_defs.specs.Subsystem as runs;
ghost use Rattle.subsystem_core.specs.Devices.{numbers_of};
ghost use Rattle.subsystem_core.specs.Frames.{HasSameDevices};
ghost use Rattle.subsystem_laws.specs.AllSound.{AreSound};
ghost use Rattle.subsystem_laws.specs.Served.{IsServedDeck};
ghost use Rattle.subsystem_laws.specs.SlotsApart.{AreApart};
ghost use Rattle.subsystem_laws.specs.Transfers.{MovesByTable};
ghost use Rattle.deck_run.specs.Fronts.{front_of, front_on};
ghost use Rattle.deck_run.specs.Going.{GoesOn};
ghost use Rattle.deck_run.specs.Opening.{AllHold, HaveTracks, WasRead, are_open_lines, numbers_in};
ghost use Rattle.deck_run.specs.Owning.{AreOwn};
ghost use Rattle.deck_run.specs.Sides.{AreAccounted, all_sides};
ghost use Rattle.deck_run.specs.Standing.{StandsAs, all_stood};

use crate::close::{record_devices, record_frames};
use crate::line::do_line;
use crate::open::{make_volumes, open_on};
use crate::volumes::EmptyVolume;
use ckd_types::NoMemory;
use deck_plan::EventLine;
use deck_text::Deck;
use device_outside::{MemBay, MemVolume, Volume};
use report_text::RunRecord;
use std::alloc::Global;
use subsystem_core::Subsystem;

/// A deck that ran: its devices behind its event lines, and what was recorded.
#[derive(Drop)]
pub struct FinishedRun<V: Volume> {
    pub sub: Subsystem<V>,
    pub report: RunRecord,
}

fn front(deck: &Deck, n: usize) -> &[EventLine]
    requires { n ≤ length deck.now.events }
    ensures { result.now ≡ take n deck.now.events }
{
    deck.schedule().as_slice().split_at(n).0
}

/// Event lines, one after another.
fn do_lines<V: EmptyVolume>(
    alloc: Global,
    sub: &mut Subsystem<V>,
    report: &mut RunRecord,
    lines: &[EventLine],
) -> Result<(), NoMemory>
    requires here { are_open_lines (numbers_of sub.old.devices.items) lines.now ≡ true }
    requires own { AreOwn sub.old.devices.items }
    ensures numbers { HasSameDevices sub.old sub.new }
    ensures own { OnOk result (AreOwn sub.new.devices.items) }
    ensures goes { OnOk result (GoesOn sub.old sub.new report.old report.new (run_lines (map asked_by lines.now))) }
{
    for line in lines {
        match do_line(alloc, sub, report, *line) {
            Err(NoMemory) => return Err(NoMemory),
            Ok(()) => (),
        }
    }
    Ok(())
}

/// The first `n` event lines of a deck over its devices, each on its volume.
fn run_first<V: EmptyVolume>(
    alloc: Global,
    deck: &Deck,
    n: usize,
    volumes: Vec<V>,
) -> Result<FinishedRun<V>, NoMemory>
    requires read { WasRead deck.now }
    requires within { n ≤ length deck.now.events }
    requires tracks { HaveTracks deck.now.devices (map V.view volumes.items) }
    ensures stands { (firsts : Firsts) → AllHold firsts deck.now deck.now.devices (map V.view volumes.items)
        → IfOk result (λ ran. StandsAs ran.sub (front_on firsts deck.now n).behind) }
    ensures lines { (firsts : Firsts) → AllHold firsts deck.now deck.now.devices (map V.view volumes.items)
        → IfOk result (λ ran. ran.report ≡ lines_of_run (front_on firsts deck.now n)) }
    ensures numbers { IfOk result (λ ran. numbers_of ran.sub.devices.items ≡ numbers_in deck.now.devices) }
    ensures own { IfOk result (λ ran. AreOwn ran.sub.devices.items) }
{
    let mut sub = open_on(alloc, deck, volumes)?;
    let mut report = RunRecord::new(alloc);
    do_lines(alloc, &mut sub, &mut report, front(deck, n))?;
    Ok(FinishedRun { sub, report })
}

/// Runs the first `n` event lines of a deck over volumes that the bay makes. Where no track is spoiled its devices are then those that
/// the defined run of these lines leaves.
pub fn run_front(
    alloc: Global,
    deck: &Deck,
    n: usize,
    bay: &mut MemBay,
) -> Result<Subsystem<MemVolume>, NoMemory>
    requires read { WasRead deck.now }
    requires within { n ≤ length deck.now.events }
    ensures stands { bay.old.spoiled ≡ [] → IfOk result (λ sub. StandsAs sub (front_of deck.now n).behind) }
    ensures numbers { IfOk result (λ sub. numbers_of sub.devices.items ≡ numbers_in deck.now.devices) }
    ensures own { IfOk result (λ sub. AreOwn sub.devices.items) }
    ensures made { OnOk result (bay.new.made ≡ bay.old.made + length deck.now.devices) }
    ensures spoiled { bay.new.spoiled ≡ bay.old.spoiled }
    ensures taken { bay.new.taken ≡ bay.old.taken }
{
    let volumes = make_volumes(alloc, deck, bay)?;
    let ran = run_first(alloc, deck, n, volumes)?;
    Ok(ran.sub)
}

/// All event lines of a deck over its devices.
fn run_events<V: EmptyVolume>(
    alloc: Global,
    deck: &Deck,
    volumes: Vec<V>,
) -> Result<FinishedRun<V>, NoMemory>
    requires read { WasRead deck.now }
    requires tracks { HaveTracks deck.now.devices (map V.view volumes.items) }
    ensures stands { (firsts : Firsts) → AllHold firsts deck.now deck.now.devices (map V.view volumes.items)
        → IfOk result (λ ran. StandsAs ran.sub (run_on firsts deck.now).behind) }
    ensures lines { (firsts : Firsts) → AllHold firsts deck.now deck.now.devices (map V.view volumes.items)
        → IfOk result (λ ran. ran.report ≡ lines_of_run (run_on firsts deck.now)) }
    ensures numbers { IfOk result (λ ran. numbers_of ran.sub.devices.items ≡ numbers_in deck.now.devices) }
    ensures accounted { IfOk result (λ ran. AreAccounted (all_sides ran.sub.devices.items)) }
{
    let ran = run_first(alloc, deck, deck.event_count(), volumes)?;
    Ok(ran)
}

/// Runs a deck over volumes that are there, one for each of its devices in their order. Whatever they hold, where it is tracks that fit and
/// the calls that fail are those of the deck's FAULT lines, its devices are those that the run defined on these tracks leaves, and what
/// was recorded are the lines of its report, but for the last one. The reads and writes of each event in it are those of the table of events.
pub fn run_on<V: EmptyVolume>(
    alloc: Global,
    deck: &Deck,
    volumes: Vec<V>,
) -> Result<FinishedRun<V>, NoMemory>
    requires read { WasRead deck.now }
    requires tracks { HaveTracks deck.now.devices (map V.view volumes.items) }
    ensures stands { (firsts : Firsts) → AllHold firsts deck.now deck.now.devices (map V.view volumes.items)
        → IfOk result (λ ran. StandsAs ran.sub (run_on firsts deck.now).behind) }
    ensures lines { (firsts : Firsts) → AllHold firsts deck.now deck.now.devices (map V.view volumes.items)
        → IfOk result (λ ran. ran.report ++ lines.Finish ∷ [] ≡ report_lines (run_on firsts deck.now)) }
    ensures slots { (firsts : Firsts) → AllHold firsts deck.now deck.now.devices (map V.view volumes.items)
        → IfOk result (λ ran. AreApart ran.sub.pool.pool.used (all_stood ran.sub.devices.items)) }
    ensures transfers { (firsts : Firsts) → IfOk result (λ ran. All MovesByTable (run_on firsts deck.now).events) }
    ensures numbers { IfOk result (λ ran. numbers_of ran.sub.devices.items ≡ numbers_in deck.now.devices) }
    ensures accounted { IfOk result (λ ran. AreAccounted (all_sides ran.sub.devices.items)) }
{
    let ran = run_events(alloc, deck, volumes)?;
    let sub = ran.sub;
    let mut report = ran.report;
    record_devices(alloc, &mut report, sub.devices())?;
    record_frames(&mut report, sub.pool())?;
    Ok(FinishedRun { sub, report })
}

/// Runs a deck over volumes that the bay makes. Where no track is spoiled its devices are those that the defined run leaves, and what
/// was recorded are the lines of its report, but for the last one. The reads and writes of each event in them are those of the table of events.
pub fn run_deck(
    alloc: Global,
    deck: &Deck,
    bay: &mut MemBay,
) -> Result<FinishedRun<MemVolume>, NoMemory>
    requires { WasRead deck.now }
    ensures stands { bay.old.spoiled ≡ [] → IfOk result (λ ran. StandsAs ran.sub (run_of deck.now).behind) }
    ensures lines { bay.old.spoiled ≡ [] → IfOk result (λ ran. ran.report ++ lines.Finish ∷ [] ≡ report_lines (run_of deck.now)) }
    ensures slots { bay.old.spoiled ≡ [] → IfOk result (λ ran. AreApart ran.sub.pool.pool.used (all_stood ran.sub.devices.items)) }
    ensures sound { bay.old.spoiled ≡ [] → IsServedDeck deck.now → IfOk result (λ ran. AreSound (all_stood ran.sub.devices.items)) }
    ensures transfers { IfOk result (λ ran. All MovesByTable (run_of deck.now).events) }
    ensures numbers { IfOk result (λ ran. numbers_of ran.sub.devices.items ≡ numbers_in deck.now.devices) }
    ensures accounted { IfOk result (λ ran. AreAccounted (all_sides ran.sub.devices.items)) }
    ensures made { OnOk result (bay.new.made ≡ bay.old.made + length deck.now.devices) }
    ensures spoiled { bay.new.spoiled ≡ bay.old.spoiled }
    ensures taken { bay.new.taken ≡ bay.old.taken }
{
    let volumes = make_volumes(alloc, deck, bay)?;
    let ran = run_on(alloc, deck, volumes)?;
    Ok(ran)
}
