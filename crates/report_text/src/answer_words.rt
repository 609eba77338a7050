ghost use Rattle.std.specs.Prelude.{◌≡◌, ◌∷◌, [], decimal};
ghost use Rattle.hex.specs.Hex.{encode_upper};
ghost use Rattle.ckd_outside.specs.Causes.{HasCause};
ghost use Rattle.ckd_outside.specs.Texts.{Puts};
ghost use Rattle.report_text.specs.declared.answers.DeviceTotals.TheVariants.{Calls};
ghost use Rattle.report_text.specs.declared.keyword.Keyword.TheVariants as words;
ghost use Rattle.report_text.specs.Keywords.{keyword_text};
ghost use Rattle.report_text.specs.Words.{all_spaced, answer_words, back_words, fault_words, loose_words, mark_key, order_words};
ghost use Rattle.report_text.specs.Words.{over_words, owner_words, side_key, start_words, totals_words, writes_words};

use crate::words::{
    HexWord, KeyWord, Words, put_behind, put_count, put_key, put_key_and, put_numbers,
};
use crate::{
    BackAnswer, DeviceTotals, HowOver, Keyword, LooseAnswer, Order, OrderAnswer, OrderRefusal,
    StartAnswer,
};
use ckd_outside::{Failed, LineBuffer, Sink};
use ckd_types::{Owner, Side, TrackNo};

/// How a frame's mark is written.
pub fn mark_key(modified: bool) -> Keyword
    ensures { result ≡ mark_key modified }
{
    if modified {
        Keyword::Modified
    } else {
        Keyword::Clean
    }
}

fn side_key(side: Side) -> Keyword
    ensures { result ≡ side_key side }
{
    match side {
        Side::A => Keyword::SideA,
        Side::B => Keyword::SideB,
    }
}

fn track(track: &TrackNo) -> u64
    ensures { result ≡ track.now }
{
    u64::from(track.get())
}

impl Words for Owner {
    ghost words = { owner_words };

    fn put<K: Sink>(&self, sink: &mut K, buffer: &mut LineBuffer) -> Result<(), Failed> {
        match self {
            Owner::Group(id) => put_key_and(sink, buffer, Keyword::Group, &HexWord(&id.bytes)),
            Owner::Path(path) => put_count(sink, buffer, Keyword::Path, u64::from(path.get())),
        }
    }
}

impl Words for StartAnswer {
    ghost words = { start_words };

    fn put<K: Sink>(&self, sink: &mut K, buffer: &mut LineBuffer) -> Result<(), Failed> {
        match self {
            StartAnswer::Accepted(n) => put_count(sink, buffer, Keyword::Accepted, u64::from(*n)),
            StartAnswer::Busy(path) => put_count(
                sink,
                buffer,
                Keyword::Busy,
                u64::from(path.get()),
            ),
            StartAnswer::Done => put_key(sink, buffer, Keyword::Done),
            StartAnswer::Running => put_key(sink, buffer, Keyword::Running),
            StartAnswer::Secondary(device) => {
                put_count(sink, buffer, Keyword::Secondary, u64::from(device.get()))
            }
            StartAnswer::Reserved(owner) => put_key_and(sink, buffer, Keyword::Reserved, owner),
            StartAnswer::Shut(owner) => put_key_and(sink, buffer, Keyword::Shut, owner),
        }
    }
}

impl Words for BackAnswer {
    ghost words = { back_words };

    fn put<K: Sink>(&self, sink: &mut K, buffer: &mut LineBuffer) -> Result<(), Failed> {
        match self {
            BackAnswer::Nothing => put_key(sink, buffer, Keyword::Nothing),
            BackAnswer::Recovered(t) => put_count(sink, buffer, Keyword::Recovered, track(t)),
            BackAnswer::Copied(t) => put_count(sink, buffer, Keyword::Copied, track(t)),
            BackAnswer::Staged(t) => put_count(sink, buffer, Keyword::Staged, track(t)),
            BackAnswer::Skipped(t) => put_count(sink, buffer, Keyword::Skipped, track(t)),
            BackAnswer::Destaged(t) => put_count(sink, buffer, Keyword::Destaged, track(t)),
            BackAnswer::Half(t) => put_count(sink, buffer, Keyword::Half, track(t)),
            BackAnswer::Finished(t) => put_count(sink, buffer, Keyword::Finished, track(t)),
            BackAnswer::Unwritten(t) => put_count(sink, buffer, Keyword::Unwritten, track(t)),
            BackAnswer::Fault(side) => {
                put_key_and(sink, buffer, Keyword::Fault, &KeyWord(side_key(*side)))
            }
            BackAnswer::BadBytes(side) => {
                put_key_and(sink, buffer, Keyword::BadBytes, &KeyWord(side_key(*side)))
            }
        }
    }
}

/// The lost tracks' count behind the keyword, and the new ID.
fn put_loosed<K: Sink>(
    sink: &mut K,
    buffer: &mut LineBuffer,
    count: u16,
    id: &[u8],
) -> Result<(), Failed>
    ensures bytes { Puts (K.held sink.old) buffer.old (K.held sink.new) buffer.new result
        (all_spaced (keyword_text words.Lost ∷ decimal count ∷ encode_upper id.now ∷ [])) }
    ensures cause { HasCause (K.faults sink.old) (K.faults sink.new) result }
{
    put_key(sink, buffer, Keyword::Lost)?;
    put_behind(sink, buffer, &[u64::from(count)], &HexWord(id))
}

impl Words for LooseAnswer {
    ghost words = { loose_words };

    fn put<K: Sink>(&self, sink: &mut K, buffer: &mut LineBuffer) -> Result<(), Failed> {
        match self {
            LooseAnswer::Harden(t) => put_count(sink, buffer, Keyword::Harden, track(t)),
            LooseAnswer::Loosen(t) => put_count(sink, buffer, Keyword::Loosen, track(t)),
            LooseAnswer::Lost { count, id } => put_loosed(sink, buffer, *count, id),
        }
    }
}

impl Words for HowOver {
    ghost words = { over_words };

    fn put<K: Sink>(&self, sink: &mut K, buffer: &mut LineBuffer) -> Result<(), Failed> {
        match self {
            HowOver::Full => put_key(sink, buffer, Keyword::Full),
            HowOver::Checked => put_key(sink, buffer, Keyword::Checked),
            HowOver::Cut(commands) => put_count(sink, buffer, Keyword::Cut, u64::from(*commands)),
        }
    }
}

impl Words for OrderRefusal {
    ghost words = { fault_words };

    fn put<K: Sink>(&self, sink: &mut K, buffer: &mut LineBuffer) -> Result<(), Failed> {
        match self {
            OrderRefusal::Same => put_key(sink, buffer, Keyword::Same),
            OrderRefusal::Lent(device) => {
                put_count(sink, buffer, Keyword::Lent, u64::from(device.get()))
            }
            OrderRefusal::Paired => put_key(sink, buffer, Keyword::Paired),
            OrderRefusal::Unpaired => put_key(sink, buffer, Keyword::Unpaired),
            OrderRefusal::Active(path) => {
                put_count(sink, buffer, Keyword::Active, u64::from(path.get()))
            }
            OrderRefusal::Geometry => put_key(sink, buffer, Keyword::Geometry),
            OrderRefusal::NoSide => put_key(sink, buffer, Keyword::NoSide),
            OrderRefusal::Down => put_key(sink, buffer, Keyword::Down),
            OrderRefusal::Up => put_key(sink, buffer, Keyword::Up),
            OrderRefusal::NotLevel(tracks) => {
                put_count(sink, buffer, Keyword::NotLevel, u64::from(*tracks))
            }
            OrderRefusal::Half => put_key(sink, buffer, Keyword::Half),
            OrderRefusal::Held => put_key(sink, buffer, Keyword::Held),
            OrderRefusal::NotHeld => put_key(sink, buffer, Keyword::NotHeld),
        }
    }
}

impl Words for OrderAnswer {
    ghost words = { answer_words };

    fn put<K: Sink>(&self, sink: &mut K, buffer: &mut LineBuffer) -> Result<(), Failed> {
        match self {
            OrderAnswer::Done => put_key(sink, buffer, Keyword::Done),
            OrderAnswer::Pending(tracks) => {
                put_count(sink, buffer, Keyword::Pending, u64::from(*tracks))
            }
            OrderAnswer::Refused(fault) => put_key_and(sink, buffer, Keyword::Refused, fault),
        }
    }
}

/// A side behind its device's number.
fn put_side<K: Sink>(
    sink: &mut K,
    buffer: &mut LineBuffer,
    device: u8,
    side: Side,
) -> Result<(), Failed>
    ensures bytes { Puts (K.held sink.old) buffer.old (K.held sink.new) buffer.new result (all_spaced (decimal device ∷ keyword_text (side_key side) ∷ [])) }
    ensures cause { HasCause (K.faults sink.old) (K.faults sink.new) result }
{
    put_behind(sink, buffer, &[u64::from(device)], &KeyWord(side_key(side)))
}

/// VOLUME, and a device's side.
fn put_volume<K: Sink>(
    sink: &mut K,
    buffer: &mut LineBuffer,
    device: u8,
    side: Side,
) -> Result<(), Failed>
    ensures bytes { Puts (K.held sink.old) buffer.old (K.held sink.new) buffer.new result
        (all_spaced (keyword_text words.Volume ∷ decimal device ∷ keyword_text (side_key side) ∷ [])) }
    ensures cause { HasCause (K.faults sink.old) (K.faults sink.new) result }
{
    put_key(sink, buffer, Keyword::Volume)?;
    put_side(sink, buffer, device, side)
}

impl Words for Order {
    ghost words = { order_words };

    fn put<K: Sink>(&self, sink: &mut K, buffer: &mut LineBuffer) -> Result<(), Failed> {
        match self {
            Order::FailCache => put_key(sink, buffer, Keyword::Cache),
            Order::FailStore => put_key(sink, buffer, Keyword::Store),
            Order::FailVolume(device, side) => put_volume(sink, buffer, device.get(), *side),
            Order::RepairCache => put_key(sink, buffer, Keyword::Cache),
            Order::RepairStore => put_key(sink, buffer, Keyword::Store),
            Order::Replace(device, side) => put_side(sink, buffer, device.get(), *side),
            Order::Pair(first, second) => {
                put_numbers(
                    sink,
                    buffer,
                    &[u64::from(first.get()), u64::from(second.get())],
                )
            }
            Order::Unpair(device) => put_numbers(sink, buffer, &[u64::from(device.get())]),
            Order::Suspend(device) => put_numbers(sink, buffer, &[u64::from(device.get())]),
            Order::Resume(device) => put_numbers(sink, buffer, &[u64::from(device.get())]),
            Order::Power => Ok(()),
        }
    }
}

/// A count of writes, and one of lost tracks.
fn put_writes<K: Sink>(
    sink: &mut K,
    buffer: &mut LineBuffer,
    writes: u64,
    lost: u64,
) -> Result<(), Failed>
    ensures bytes { Puts (K.held sink.old) buffer.old (K.held sink.new) buffer.new result (all_spaced (writes_words writes lost)) }
    ensures cause { HasCause (K.faults sink.old) (K.faults sink.new) result }
{
    put_count(sink, buffer, Keyword::Writes, writes)?;
    put_count(sink, buffer, Keyword::Lost, lost)
}

/// The calls of a device's volumes, and its lost tracks.
fn put_calls<K: Sink>(
    sink: &mut K,
    buffer: &mut LineBuffer,
    reads: u64,
    writes: u64,
    lost: u64,
) -> Result<(), Failed>
    ensures bytes { Puts (K.held sink.old) buffer.old (K.held sink.new) buffer.new result (all_spaced (totals_words (Calls reads writes lost))) }
    ensures cause { HasCause (K.faults sink.old) (K.faults sink.new) result }
{
    put_count(sink, buffer, Keyword::Reads, reads)?;
    put_writes(sink, buffer, writes, lost)
}

impl Words for DeviceTotals {
    ghost words = { totals_words };

    fn put<K: Sink>(&self, sink: &mut K, buffer: &mut LineBuffer) -> Result<(), Failed> {
        match self {
            DeviceTotals::Calls {
                reads,
                writes,
                lost,
            } => put_calls(sink, buffer, *reads, *writes, *lost),
            DeviceTotals::Lost(lost) => put_count(sink, buffer, Keyword::Lost, *lost),
            DeviceTotals::Lent(device) => {
                put_count(sink, buffer, Keyword::Lent, u64::from(device.get()))
            }
        }
    }
}
