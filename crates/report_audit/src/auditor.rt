ghost use Rattle.std.specs.Prelude.{◌≡◌, ◌≢◌, ◌≤◌, ◌<◌, ℕ, Bool, None, Some, false, true, IfOk, IfSome, OnOk, drop, length, map, slice_index, take};
ghost use Rattle.std.specs.List.{All};
ghost use Rattle.deck_plan.specs.declared.event.EventLine.TheVariants.{Pair, Reset, Start, Unpair};
ghost use Rattle.deck_audit.specs.declared.state.Did.TheVariants.{Halved};
ghost use Rattle.deck_audit.specs.declared.state.Due.TheVariants.{Behind, DataOf, Losses, Next, OverOf, SenseOf};
ghost use Rattle.report_audit.specs.declared.auditor.Auditor.{Auditor};
ghost use Rattle.report_audit.specs.Auditor.{Fits, FitsTotals, IsAuditOf, IsFor, IsJudged, IsSized, Makes, NoneRuns, behind_data, gone_on};
ghost use Rattle.report_audit.specs.Auditor.{is_nothing, is_quiet, judged_settled, kept_outline, placed};
ghost use Rattle.deck_audit.specs.Place.{IsDueOf, first_event, in_due, in_event, in_next, in_power, is_act_of, worker_of};
ghost use Rattle.deck_audit.specs.Stands.{in_state};
ghost use Rattle.deck_audit.specs.Device.{AuditedDevice, device_in};
ghost use Rattle.deck_audit.specs.History.{act_of_work, done_order, due_made, event_made, harden_made, is_legal, lent_to};
ghost use Rattle.deck_audit.specs.History.{loss_made, order_made, power_made, sense_made, shown, totals_made, work_made};
ghost use Rattle.deck_audit.specs.State.{AuditState, behind_work, first_state, outlines, over_by, settled_by, then_of, worker_number};
ghost use Rattle.deck_audit.specs.Task.{task_made};
ghost use Rattle.deck_audit.specs.Verdict.{judged, judged_text};

use crate::devices::{
    any_lent_runs, is_legal, judge_at, kept_devices, lose_power, outline_all, place_of, settle_at,
    take_all_back, work_at,
};
use crate::told::{
    OrderTold, behind_data, behind_of, cut_at, due_data_end, idle_fault, is_due_data, is_next,
    is_nothing, loose_at, order_told, told_of, totals_due,
};
use ckd_types::{CommandEnd, DeviceNo, NoMemory, PathNo, TrackNo};
use deck_audit::{
    AuditWhy, Did, Due, Kept, Outline, Task, Then, data_due, in_due, is_act_of, is_io, worker_of,
};
use deck_plan::EventLine;
use deck_text::Deck;
use report_text::ReportLine;
use std::alloc::Global;
use std::mem;

/// The devices of a deck as the lines of a report so far make them, the events that are left, and what is due. Its memory grows with the
/// deck alone.
#[derive(Debug, Drop)]
pub struct Auditor {
    deck: Deck,
    devices: Vec<Kept>,
    /// What `in_due` reads of the devices.
    outlines: Vec<Outline>,
    /// How many events are over.
    passed: usize,
    due: Due,
}

/// The events behind so many.
fn left_of(deck: &Deck, passed: usize) -> &[EventLine]
    ensures { result.now ≡ drop passed deck.now.events }
{
    let events = deck.schedule().as_slice();
    if passed >= events.len() {
        return &[];
    }
    events.split_at(passed).1
}

/// Whether a line may stand where this is due, of no more devices than there are.
#[tactic(auto, using(crate::proofs::OutlineLaw::due_of_told, crate::proofs::OutlineLaw::told_of_due))]
fn may_stand(devices: &[Outline], events: &[EventLine], line: &ReportLine, due: &Due) -> bool
    ensures { IsDueOf (length devices.now) due.now → result ≡ in_due devices.now events.now line.now due.now }
{
    if told_of(due) > devices.len() {
        return false;
    }
    in_due(devices, events, line, due)
}

impl Auditor {
    /// The auditor of a deck before the first line of its report.
    pub fn new(alloc: Global, deck: Deck) -> Result<Auditor, NoMemory>
        requires sizes { All IsSized deck.devices }
        ensures { IfOk result (λ auditor. IsAuditOf auditor (first_state deck)) }
    {
        let devices = kept_devices(alloc, &deck)?;
        let mut outlines = Vec::with_capacity(alloc, devices.len())?;
        outline_all(&devices, &mut outlines)?;
        Ok(Auditor {
            deck,
            devices,
            outlines,
            passed: 0,
            due: Due::Next,
        })
    }

    /// The report has had its FINISH line.
    pub fn is_finished(&self) -> bool
        ensures { (s : AuditState) → IsAuditOf self.now s → result ≡ is_nothing s.due }
    {
        is_nothing(&self.due)
    }

    #[inline(always)]
    fn go_on(&mut self, next: Then)
        ensures { self.new ≡ gone_on self.old next }
    {
        match next {
            Then::Passed => {
                if self.passed < self.deck.event_count() {
                    self.passed += 1;
                }
                self.due = Due::Next;
            }
            Then::Wait(due) => self.due = due,
        }
    }

    /// The events that are left.
    fn left(&self) -> &[EventLine]
        ensures { result.now ≡ drop self.now.passed self.now.deck.events }
    {
        left_of(&self.deck, self.passed)
    }

    /// The event that has begun or is the next.
    fn event(&self) -> Option<EventLine>
        ensures { result ≡ first_event (drop self.now.passed self.now.deck.events) }
    {
        match self.left().first() {
            Some(event) => Some(*event),
            None => None,
        }
    }

    /// The device at whose work the report is.
    fn worker(&self) -> Option<DeviceNo>
        ensures { result ≡ then_of (first_event (drop self.now.passed self.now.deck.events)) worker_of }
    {
        match self.left().first() {
            Some(event) => worker_of(event),
            None => None,
        }
    }

    /// The device of a number judges a line that is such a task.
    fn device_line(
        &mut self,
        alloc: Global,
        d: DeviceNo,
        line: &ReportLine,
        task: Task,
    ) -> Result<bool, NoMemory>
        ensures { IfOk result (λ good. (s : AuditState) → IsFor self.old s → Fits s d task →
            Makes good self.new (then_of (device_in s.devices d) (task_made s line.now task))) }
    {
        let at = match place_of(&self.devices, d) {
            Some(at) => at,
            None => return Ok(false),
        };
        match judge_at(
            alloc,
            &self.deck,
            &mut self.devices,
            &mut self.outlines,
            at,
            d,
            line,
            task,
        )? {
            Some(next) => {
                self.go_on(next);
                Ok(true)
            }
            None => Ok(false),
        }
    }

    /// A START.
    fn start_line(
        &mut self,
        alloc: Global,
        path: PathNo,
        d: DeviceNo,
        line: &ReportLine,
    ) -> Result<bool, NoMemory>
        ensures { IfOk result (λ good. (s : AuditState) → IsFor self.old s → is_quiet s.due ≡ true →
            Makes good self.new (event_made s line.now (Start path d))) }
    {
        let good = self.device_line(alloc, d, line, Task::Start(path))?;
        Ok(good)
    }

    /// The first line of a piece of work of the device.
    fn work_line(&mut self, alloc: Global, d: DeviceNo, line: &ReportLine) -> Result<bool, NoMemory>
        ensures { IfOk result (λ good. (s : AuditState) → IsFor self.old s → is_quiet s.due ≡ true → worker_number s ≡ Some d →
            Makes good self.new (then_of (device_in s.devices d) (work_made s line.now))) }
    {
        let at = match place_of(&self.devices, d) {
            Some(at) => at,
            None => return Ok(false),
        };
        match work_at(
            alloc,
            &self.deck,
            &mut self.devices,
            &mut self.outlines,
            at,
            d,
            line,
        )? {
            Some(next) => {
                self.go_on(next);
                Ok(true)
            }
            None => Ok(false),
        }
    }

    /// The SENSE of a command that ends so on the plain device.
    fn sense_line(
        &mut self,
        alloc: Global,
        d: DeviceNo,
        line: &ReportLine,
        e: CommandEnd,
    ) -> Result<bool, NoMemory>
        ensures { IfOk result (λ good. (s : AuditState) → IsFor self.old s → s.due ≡ SenseOf e → worker_number s ≡ Some d →
            Makes good self.new (then_of (device_in s.devices d) (sense_made s line.now e))) }
    {
        let good = self.device_line(alloc, d, line, Task::Sense(e))?;
        Ok(good)
    }

    /// A CFW line behind a piece of work.
    fn act_line(
        &mut self,
        alloc: Global,
        d: DeviceNo,
        line: &ReportLine,
        did: Did,
    ) -> Result<bool, NoMemory>
        ensures { IfOk result (λ good. (s : AuditState) (more : Bool) → IsFor self.old s → s.due ≡ Behind more did → worker_number s ≡ Some d →
            Makes good self.new (then_of (device_in s.devices d) (act_of_work s line.now did))) }
    {
        let good = self.device_line(alloc, d, line, Task::Act(did))?;
        Ok(good)
    }

    /// A piece of work of this event is taken as done.
    fn settle_line(
        &mut self,
        d: DeviceNo,
        event: Option<EventLine>,
        did: &Did,
    ) -> Result<bool, NoMemory>
        ensures { IfOk result (λ good. (s : AuditState) (more : Bool) → IsFor self.old s → s.due ≡ Behind more did.now → worker_number s ≡ Some d →
            event ≡ first_event s.events →
            Makes good self.new (then_of (device_in s.devices d) (λ a. Some (settled_by s a did.now (over_by a did.now a.history.running))))) }
    {
        let at = match place_of(&self.devices, d) {
            Some(at) => at,
            None => return Ok(false),
        };
        let next = settle_at(&mut self.devices, &mut self.outlines, at, event, did)?;
        self.go_on(next);
        Ok(true)
    }

    /// The OVER line that the event's work brings.
    fn over_line(
        &mut self,
        alloc: Global,
        d: DeviceNo,
        line: &ReportLine,
        event: Option<EventLine>,
        wanted: ReportLine,
    ) -> Result<bool, NoMemory>
        ensures { IfOk result (λ good. (s : AuditState) → IsFor self.old s → is_quiet s.due ≡ true → worker_number s ≡ Some d →
            event ≡ first_event s.events →
            Makes good self.new (then_of (device_in s.devices d) (λ a. shown wanted line.now (behind_work s a Halved)))) }
    {
        let good = self.device_line(alloc, d, line, Task::Over(event, wanted))?;
        Ok(good)
    }

    /// The bytes that a command sent.
    fn data_line(&mut self, line: &ReportLine, e: CommandEnd) -> bool
        ensures { (s : AuditState) → IsFor self.old s → s.due ≡ DataOf e → Makes result self.new (due_made s line.now (DataOf e)) }
    {
        match data_due(line, e) {
            Some(due) => {
                self.due = due;
                true
            }
            None => false,
        }
    }

    /// A track becomes firm, since its volume failed.
    fn harden_line(
        &mut self,
        alloc: Global,
        d: DeviceNo,
        line: &ReportLine,
        t: TrackNo,
    ) -> Result<bool, NoMemory>
        ensures { IfOk result (λ good. (s : AuditState) → IsFor self.old s → is_quiet s.due ≡ true →
            Makes good self.new (then_of (device_in s.devices d) (λ a. harden_made s a t Next))) }
    {
        let good = self.device_line(alloc, d, line, Task::Harden(t))?;
        Ok(good)
    }

    /// The cache failed: the device's loose tracks go back.
    fn loss_line(&mut self, alloc: Global, d: DeviceNo, line: &ReportLine) -> Result<bool, NoMemory>
        ensures { IfOk result (λ good. (s : AuditState) → IsFor self.old s → is_quiet s.due ≡ true →
            Makes good self.new (then_of (device_in s.devices d) (loss_made s line.now))) }
    {
        let good = self.device_line(alloc, d, line, Task::Loss)?;
        Ok(good)
    }

    /// A pair is made of device `of` and the volume of device `d`.
    fn lend_line(
        &mut self,
        alloc: Global,
        d: DeviceNo,
        line: &ReportLine,
        of: DeviceNo,
    ) -> Result<bool, NoMemory>
        ensures { IfOk result (λ good. (s : AuditState) → IsFor self.old s → is_quiet s.due ≡ true →
            Makes good self.new (then_of (device_in s.devices d) (lent_to s of))) }
    {
        let good = self.device_line(alloc, d, line, Task::Lend(of))?;
        Ok(good)
    }

    /// Whether the line may stand where this is due.
    fn is_placed(&self, line: &ReportLine, due: &Due) -> bool
        ensures { (s : AuditState) → IsFor self.now s → due.now ≡ s.due → result ≡ in_state s line.now }
    {
        let events = left_of(&self.deck, self.passed);
        may_stand(&self.outlines, events, line, due)
    }

    /// A line of the totals, where so many devices have had theirs.
    fn totals_line(&mut self, line: &ReportLine, told: usize)
        ensures { (s : AuditState) → IsFor self.old s → is_quiet s.due ≡ true → FitsTotals s line.now told → IsAuditOf self.new (totals_made s line.now told) }
    {
        let devices: &[Kept] = &self.devices;
        self.due = totals_due(devices.len(), line, told);
    }

    /// The sense of the command of the event's device.
    fn sense_due(
        &mut self,
        alloc: Global,
        line: &ReportLine,
        e: CommandEnd,
    ) -> Result<bool, NoMemory>
        ensures { IfOk result (λ good. (s : AuditState) → IsFor self.old s → s.due ≡ SenseOf e → Makes good self.new (due_made s line.now (SenseOf e))) }
    {
        let Some(d) = self.worker() else {
            return Ok(false);
        };
        let good = self.sense_line(alloc, d, line, e)?;
        Ok(good)
    }

    /// The OVER line of the event's device.
    fn over_due(
        &mut self,
        alloc: Global,
        line: &ReportLine,
        wanted: ReportLine,
    ) -> Result<bool, NoMemory>
        ensures { IfOk result (λ good. (s : AuditState) → IsFor self.old s → is_quiet s.due ≡ true →
            Makes good self.new (due_made s line.now (OverOf wanted))) }
    {
        let Some(d) = self.worker() else {
            return Ok(false);
        };
        let event = self.event();
        let good = self.over_line(alloc, d, line, event, wanted)?;
        Ok(good)
    }

    /// A RESET, or the OVER line of the program that it cuts.
    fn reset_line(
        &mut self,
        alloc: Global,
        path: PathNo,
        d: DeviceNo,
        line: &ReportLine,
    ) -> Result<bool, NoMemory>
        ensures { IfOk result (λ good. (s : AuditState) → IsFor self.old s → is_quiet s.due ≡ true →
            in_event (outlines s) line.now (Reset path d) ≡ true → Makes good self.new (event_made s line.now (Reset path d))) }
    {
        if let Some((_, n)) = cut_at(line) {
            let good = self.device_line(alloc, d, line, Task::Cut(n))?;
            return Ok(good);
        }
        let good = self.device_line(alloc, d, line, Task::Reset(path))?;
        Ok(good)
    }

    /// An order that ends a pair: its second volume comes back empty, unless it runs a program.
    fn unpair_line(&mut self, alloc: Global, a: DeviceNo) -> Result<bool, NoMemory>
        ensures { IfOk result (λ good. (s : AuditState) → IsFor self.old s → is_quiet s.due ≡ true → Makes good self.new (done_order s (Unpair a))) }
    {
        if any_lent_runs(&self.devices, a) {
            return Ok(false);
        }
        take_all_back(alloc, &mut self.devices, a)?;
        outline_all(&self.devices, &mut self.outlines)?;
        self.go_on(Then::Passed);
        Ok(true)
    }

    /// An order that makes a pair.
    fn pair_line(
        &mut self,
        alloc: Global,
        line: &ReportLine,
        a: DeviceNo,
        b: DeviceNo,
    ) -> Result<bool, NoMemory>
        ensures { IfOk result (λ good. (s : AuditState) → IsFor self.old s → is_quiet s.due ≡ true → Makes good self.new (done_order s (Pair a b))) }
    {
        if a.get() == b.get() {
            self.go_on(Then::Passed);
            return Ok(true);
        }
        let good = self.lend_line(alloc, b, line, a)?;
        Ok(good)
    }

    /// An order that is done.
    fn done_line(
        &mut self,
        alloc: Global,
        line: &ReportLine,
        event: EventLine,
    ) -> Result<bool, NoMemory>
        ensures { IfOk result (λ good. (s : AuditState) → IsFor self.old s → is_quiet s.due ≡ true → Makes good self.new (done_order s event)) }
    {
        match event {
            EventLine::Pair(a, b) => {
                let good = self.pair_line(alloc, line, a, b)?;
                Ok(good)
            }
            EventLine::Unpair(a) => {
                let good = self.unpair_line(alloc, a)?;
                Ok(good)
            }
            _ => {
                self.go_on(Then::Passed);
                Ok(true)
            }
        }
    }

    /// A line of an order.
    fn order_line(
        &mut self,
        alloc: Global,
        line: &ReportLine,
        event: EventLine,
    ) -> Result<bool, NoMemory>
        ensures { IfOk result (λ good. (s : AuditState) → IsFor self.old s → is_quiet s.due ≡ true → Makes good self.new (order_made s line.now event)) }
    {
        match order_told(line) {
            OrderTold::Done => {
                let good = self.done_line(alloc, line, event)?;
                Ok(good)
            }
            OrderTold::Firm(d, t) => {
                let good = self.harden_line(alloc, d, line, t)?;
                Ok(good)
            }
            OrderTold::Lost(d) => {
                let good = self.loss_line(alloc, d, line)?;
                Ok(good)
            }
            OrderTold::Other => {
                self.go_on(Then::Passed);
                Ok(true)
            }
        }
    }

    /// A line of a loss of power, where it was told of so many devices.
    fn power_line(
        &mut self,
        alloc: Global,
        line: &ReportLine,
        told: usize,
    ) -> Result<bool, NoMemory>
        ensures { IfOk result (λ good. (s : AuditState) → IsFor self.old s → is_quiet s.due ≡ true → NoneRuns told s.devices →
            in_power line.now (drop told (outlines s)) ≡ true → Makes good self.new (power_made s line.now)) }
    {
        if let Some(d) = loose_at(line) {
            let good = self.device_line(alloc, d, line, Task::PowerLoss)?;
            return Ok(good);
        }
        if let Some((d, n)) = cut_at(line) {
            let good = self.device_line(alloc, d, line, Task::PowerCut(n))?;
            return Ok(good);
        }
        lose_power(alloc, &mut self.devices);
        outline_all(&self.devices, &mut self.outlines)?;
        self.go_on(Then::Passed);
        Ok(true)
    }

    /// The first line of an event.
    fn event_line(
        &mut self,
        alloc: Global,
        line: &ReportLine,
        event: EventLine,
    ) -> Result<bool, NoMemory>
        ensures { IfOk result (λ good. (s : AuditState) → IsFor self.old s → is_quiet s.due ≡ true → first_event s.events ≡ Some event →
            in_event (outlines s) line.now event ≡ true → Makes good self.new (event_made s line.now event)) }
    {
        if let Some(d) = worker_of(&event) {
            let good = self.work_line(alloc, d, line)?;
            return Ok(good);
        }
        match event {
            EventLine::Start(path, d) => {
                let good = self.start_line(alloc, path, d, line)?;
                Ok(good)
            }
            EventLine::Reset(path, d) => {
                let good = self.reset_line(alloc, path, d, line)?;
                Ok(good)
            }
            EventLine::Power => {
                let good = self.power_line(alloc, line, 0)?;
                Ok(good)
            }
            event => {
                let good = self.order_line(alloc, line, event)?;
                Ok(good)
            }
        }
    }

    /// The first line of the next event, or of the totals.
    fn next_line(&mut self, alloc: Global, line: &ReportLine) -> Result<bool, NoMemory>
        ensures { IfOk result (λ good. (s : AuditState) → IsFor self.old s → s.due ≡ Next → in_next (outlines s) line.now s.events ≡ true →
            Makes good self.new (due_made s line.now Next)) }
    {
        match self.event() {
            Some(event) => {
                let good = self.event_line(alloc, line, event)?;
                Ok(good)
            }
            None => {
                self.totals_line(line, 0);
                Ok(true)
            }
        }
    }

    /// A line behind the losses of the cache's failure.
    fn losses_line(
        &mut self,
        alloc: Global,
        line: &ReportLine,
        d: DeviceNo,
    ) -> Result<bool, NoMemory>
        ensures { IfOk result (λ good. (s : AuditState) → IsFor self.old s → is_quiet s.due ≡ true → Makes good self.new (due_made s line.now (Losses d))) }
    {
        let Some(event) = self.event() else {
            return Ok(false);
        };
        let good = self.order_line(alloc, line, event)?;
        Ok(good)
    }

    /// A line where this is due, which may stand there.
    fn due_line(&mut self, alloc: Global, line: &ReportLine, due: Due) -> Result<bool, NoMemory>
        ensures { IfOk result (λ good. (s : AuditState) → IsFor self.old s → due ≡ s.due → in_due (outlines s) s.events line.now due ≡ true →
            Makes good self.new (due_made s line.now due)) }
    {
        match due {
            Due::Next => {
                let good = self.next_line(alloc, line)?;
                Ok(good)
            }
            Due::DataOf(e) => Ok(self.data_line(line, e)),
            Due::SenseOf(e) => {
                let good = self.sense_due(alloc, line, e)?;
                Ok(good)
            }
            Due::OverOf(wanted) => {
                let good = self.over_due(alloc, line, wanted)?;
                Ok(good)
            }
            Due::Losses(d) => {
                let good = self.losses_line(alloc, line, d)?;
                Ok(good)
            }
            Due::ResetOf => {
                self.go_on(Then::Passed);
                Ok(true)
            }
            Due::Powers(told) => {
                let good = self.power_line(alloc, line, told)?;
                Ok(good)
            }
            Due::Totals(told) => {
                self.totals_line(line, told);
                Ok(true)
            }
            Due::Frames => {
                self.totals_line(line, 0);
                Ok(true)
            }
            Due::Behind(_, _) => Ok(false),
            Due::Nothing => Ok(false),
        }
    }

    /// A line where this is due, and no piece of work is at its end.
    fn placed_line(
        &mut self,
        alloc: Global,
        line: &ReportLine,
        due: Due,
    ) -> Result<Option<AuditWhy>, NoMemory>
        ensures { IfOk result (λ why. (s : AuditState) → IsFor self.old s → due ≡ s.due → IsJudged why self.new (placed s line.now)) }
    {
        if !self.is_placed(line, &due) {
            return Ok(Some(AuditWhy::Place));
        }
        if self.due_line(alloc, line, due)? {
            Ok(None)
        } else {
            Ok(Some(AuditWhy::History))
        }
    }

    /// A line where the next one is due.
    fn next_placed(
        &mut self,
        alloc: Global,
        line: &ReportLine,
    ) -> Result<Option<AuditWhy>, NoMemory>
        ensures { IfOk result (λ why. (s : AuditState) → IsFor self.old s → s.due ≡ Next → IsJudged why self.new (placed s line.now)) }
    {
        if !self.is_placed(line, &Due::Next) {
            return Ok(Some(AuditWhy::Place));
        }
        if self.next_line(alloc, line)? {
            Ok(None)
        } else {
            Ok(Some(AuditWhy::History))
        }
    }

    /// What the device did that is at the end of a piece of work may be so.
    fn is_legal(&self, d: DeviceNo, did: &Did) -> bool
        ensures { (s : AuditState) (more : Bool) → IsFor self.now s → s.due ≡ Behind more did.now → worker_number s ≡ Some d → (a : AuditedDevice) →
            device_in s.devices d ≡ Some a → result ≡ is_legal did.now a }
    {
        match place_of(&self.devices, d) {
            Some(at) => is_legal(&self.devices[at], did),
            None => false,
        }
    }

    /// A line behind a piece of work that is taken as done.
    fn settled_line(
        &mut self,
        alloc: Global,
        line: &ReportLine,
        legal: bool,
    ) -> Result<Option<AuditWhy>, NoMemory>
        ensures { IfOk result (λ why. (t : AuditState) → IsAuditOf self.old t → IsJudged why self.new (judged_settled t line.now legal)) }
    {
        if is_io(line) {
            if legal {
                return Ok(None);
            }
            return Ok(Some(AuditWhy::History));
        }
        if legal && is_next(&self.due) {
            let why = self.next_placed(alloc, line)?;
            return Ok(why);
        }
        let due = mem::replace(&mut self.due, Due::Nothing);
        if legal {
            let why = self.placed_line(alloc, line, due)?;
            return Ok(why);
        }
        if self.is_placed(line, &due) {
            Ok(Some(AuditWhy::History))
        } else {
            Ok(Some(AuditWhy::Place))
        }
    }

    /// A line behind a piece of work of the device that is none of its acts.
    fn settle_and_judge(
        &mut self,
        alloc: Global,
        d: DeviceNo,
        line: &ReportLine,
        did: Did,
    ) -> Result<Option<AuditWhy>, NoMemory>
        ensures { IfOk result (λ why. (s : AuditState) (more : Bool) → IsFor self.old s → s.due ≡ Behind more did → worker_number s ≡ Some d →
            is_act_of more d line.now ≡ false → IsJudged why self.new (judged s line.now)) }
    {
        let legal = self.is_legal(d, &did);
        let event = self.event();
        if !self.settle_line(d, event, &did)? {
            return Ok(Some(idle_fault(line)));
        }
        let why = self.settled_line(alloc, line, legal)?;
        Ok(why)
    }

    /// A line behind a piece of work.
    fn behind_line(
        &mut self,
        alloc: Global,
        line: &ReportLine,
        more: bool,
        did: Did,
    ) -> Result<Option<AuditWhy>, NoMemory>
        ensures { IfOk result (λ why. (s : AuditState) → IsFor self.old s → s.due ≡ Behind more did → IsJudged why self.new (judged s line.now)) }
    {
        let Some(d) = self.worker() else {
            return Ok(Some(idle_fault(line)));
        };
        if !is_act_of(more, d, line) {
            let why = self.settle_and_judge(alloc, d, line, did)?;
            return Ok(why);
        }
        if self.act_line(alloc, d, line, did)? {
            Ok(None)
        } else {
            Ok(Some(AuditWhy::History))
        }
    }

    /// The bytes that a command sent were told.
    fn pass_data(&mut self)
        ensures { self.new ≡ record self.old { due = behind_data self.old.due } }
    {
        let due = mem::replace(&mut self.due, Due::Nothing);
        self.due = behind_data(due);
    }

    /// Takes the DATA line of the bytes that a command sent, where that is due. Else nothing changes.
    pub fn takes_data(&mut self, text: &[u8]) -> bool
        ensures taken { result ≡ true → (s : AuditState) → IsAuditOf self.old s → IsJudged None self.new (judged_text s text.now) }
        ensures same { result ≡ false → self.new ≡ self.old }
    {
        if !is_due_data(&self.due, text) {
            return false;
        }
        self.pass_data();
        true
    }

    /// Takes that line where a text begins with it and a line feed follows: where it ends. Else nothing changes.
    pub fn take_data(&mut self, text: &[u8]) -> Option<usize>
        ensures taken { IfSome result (λ end. (s : AuditState) → IsAuditOf self.old s → IsJudged None self.new (judged_text s (take end text.now))) }
        ensures none { IfSome result (λ end. (k : ℕ) → k < end → slice_index text.now k ≢ 10) }
        ensures stands { IfSome result (λ end. (end < length text.now) × (slice_index text.now end ≡ 10)) }
        ensures same { result ≡ None → self.new ≡ self.old }
    {
        let end = due_data_end(&self.due, text)?;
        self.pass_data();
        Some(end)
    }

    /// Judges the report's next line: none, or the fault that it shows, behind which nothing is said of the auditor.
    pub fn line(&mut self, alloc: Global, line: &ReportLine) -> Result<Option<AuditWhy>, NoMemory>
        ensures { IfOk result (λ why. (s : AuditState) → IsAuditOf self.old s → IsJudged why self.new (judged s line.now)) }
    {
        let due = mem::replace(&mut self.due, Due::Nothing);
        match behind_of(due) {
            Ok((more, did)) => {
                let why = self.behind_line(alloc, line, more, did)?;
                Ok(why)
            }
            Err(due) => {
                let why = self.placed_line(alloc, line, due)?;
                Ok(why)
            }
        }
    }
}

/// What `in_due` reads of the devices that are kept is what the definition reads of the audited ones.
pub fn outlines_are_same()
    ensures { (z : Auditor) (s : AuditState) → IsFor z s → map kept_outline z.devices.items ≡ outlines s }
{}
