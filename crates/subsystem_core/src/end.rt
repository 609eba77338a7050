use ckd_types::Growing;
use device_core::{SecondStep, Stepped};
use device_defs::{Did, StartFault};
use subsystem_defs::OrderFault;

/// How an event ended. `Started` has the program's ordinal from 1 on. `Running`: the path's own program runs. `Idle`: there was no
/// command to do. The end of a command stands in its device's journal (`Device::last_end`). `Pending`: a repair waits, as so many
/// tracks wait for their recovery.
#[derive(Debug, Drop)]
pub enum EventEnd {
    Started(u16),
    NotStarted(StartFault),
    Running,
    Stepped(Stepped),
    Second(SecondStep),
    Idle,
    Back(Did),
    Done,
    Pending(u32),
    Refused(OrderFault),
}

/// The ends of some events.
pub type EventEnds = Growing<EventEnd>;
