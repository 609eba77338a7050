ghost use Rattle.std.specs.Prelude.{◌≡◌, ◌≤◌, IfSome};
ghost use Rattle.plain_defs.specs.Loose.{is_loose_there};
ghost use Rattle.deck_audit.specs.History.{cut_half};
ghost use Rattle.deck_audit.specs.Kept.{is_idle, over_line, path_of, tells_loss, with_cut_half, with_half};
ghost use Rattle.deck_audit.specs.Replay.{lent_to};

use crate::HalfWrite;
use crate::replayed::ReplayedDevice;
use ckd_types::{DeviceNo, PathNo, TrackNo};
use report_text::{HowOver, LooseAnswer, ReportLine};

fn cut_half(half: HalfWrite) -> HalfWrite
    ensures { result ≡ cut_half half }
{
    match half {
        HalfWrite::OfCommand => HalfWrite::OfBackground,
        _ => half,
    }
}

impl ReplayedDevice {
    pub fn number(&self) -> DeviceNo
        ensures { result ≡ self.now.number }
    {
        self.number
    }

    /// Whether a write of the device is half done, and of what it is a part.
    pub fn half(&self) -> HalfWrite
        ensures { result ≡ self.now.half }
    {
        self.half
    }

    /// Sets it, as a line of the report told it.
    pub fn set_half(&mut self, half: HalfWrite)
        ensures { self.new ≡ with_half self.old half }
    {
        self.half = half;
    }

    /// From its program's cut on, a command's half write is of the background.
    pub fn cut_half(&mut self)
        ensures { self.new ≡ with_cut_half self.old }
    {
        self.half = cut_half(self.half);
    }

    /// Whether a track is loose.
    pub fn is_loose(&self, t: TrackNo) -> bool
        ensures { result ≡ is_loose_there self.now.device t }
    {
        self.device.is_loose(t)
    }

    /// The path of the program that runs.
    pub fn running_path(&self) -> Option<PathNo>
        ensures { result ≡ path_of self.now.running }
    {
        match &self.running {
            Some(o) => Some(o.path),
            None => None,
        }
    }

    /// Neither a program runs nor is a half write open.
    pub fn is_idle(&self) -> bool
        ensures { result ≡ is_idle self.now }
    {
        self.running.is_none() && self.half == HalfWrite::Closed
    }

    /// The OVER line of the program that runs.
    pub fn over_line(&self, how: HowOver) -> Option<ReportLine>
        ensures { result ≡ over_line self.now how }
    {
        match &self.running {
            Some(o) => Some(ReportLine::Over(o.path, self.number, o.ordinal, how)),
            None => None,
        }
    }

    /// The line tells that its loose tracks go back, all of them, and there are some.
    pub fn tells_loss(&self, line: &ReportLine) -> bool
        ensures { result ≡ tells_loss self.now line.now }
    {
        let loose = self.device.loose_count();
        let number = self.device.fixed().number().checked_add(1).unwrap_or(0);
        let wanted = [(number / 256) as u8, (number % 256) as u8];
        match line {
            ReportLine::Loose(d, LooseAnswer::Lost { count, id }) => {
                0 < loose
                    && self.number.get() == d.get()
                    && loose == usize::from(*count)
                    && wanted.as_slice() == id.as_slice()
            }
            _ => false,
        }
    }

    /// Another device has its volume.
    pub fn lend(&mut self, of: DeviceNo)
        ensures { self.new ≡ lent_to self.old of }
    {
        self.lent = Some(of);
    }
}
