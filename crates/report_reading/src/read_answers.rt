ghost use Rattle.std.specs.Prelude.{◌≡◌, ◌<◌};
ghost use Rattle.report_reading.specs.Answers.{answer_at, back_at, calls_at, fault_at, loose_at, loosed_at, over_at, owner_at, start_at, totals_at};

use crate::LineFault;
use crate::line_words::LineWords;
use crate::places::{
    count_at, device_at, is_key, key_at, long_at, path_at, short_at, side_at, sized_at, track_at,
    word_at,
};
use ckd_types::{GroupId, Owner};
use report_text::{
    BackAnswer, DeviceTotals, HowOver, Keyword, LooseAnswer, OrderAnswer, OrderRefusal, StartAnswer,
};

fn owner_at(words: &LineWords, i: usize) -> Result<Owner, LineFault>
    requires near { i < 100 }
    ensures { result ≡ owner_at words.now i }
{
    let word = word_at(words, i)?;
    if is_key(word, Keyword::Group) {
        let bytes = sized_at::<11>(words, i + 1)?;
        Ok(Owner::Group(GroupId { bytes }))
    } else if is_key(word, Keyword::Path) {
        Ok(Owner::Path(path_at(words, i + 1)?))
    } else {
        Err(LineFault::Word)
    }
}

/// The answer to a start, which begins at word `i`. Words behind it aren't looked at, here and in the calls below: the whole
/// line is compared later.
pub fn start_at(words: &LineWords, i: usize) -> Result<StartAnswer, LineFault>
    requires near { i < 90 }
    ensures { result ≡ start_at words.now i }
{
    let word = word_at(words, i)?;
    if is_key(word, Keyword::Accepted) {
        Ok(StartAnswer::Accepted(short_at(words, i + 1)?))
    } else if is_key(word, Keyword::Busy) {
        Ok(StartAnswer::Busy(path_at(words, i + 1)?))
    } else if is_key(word, Keyword::Done) {
        Ok(StartAnswer::Done)
    } else if is_key(word, Keyword::Running) {
        Ok(StartAnswer::Running)
    } else if is_key(word, Keyword::Secondary) {
        Ok(StartAnswer::Secondary(device_at(words, i + 1)?))
    } else if is_key(word, Keyword::Reserved) {
        Ok(StartAnswer::Reserved(owner_at(words, i + 1)?))
    } else if is_key(word, Keyword::Shut) {
        Ok(StartAnswer::Shut(owner_at(words, i + 1)?))
    } else {
        Err(LineFault::Word)
    }
}

/// What a device did by itself.
pub fn back_at(words: &LineWords, i: usize) -> Result<BackAnswer, LineFault>
    requires near { i < 100 }
    ensures { result ≡ back_at words.now i }
{
    let word = word_at(words, i)?;
    if is_key(word, Keyword::Nothing) {
        Ok(BackAnswer::Nothing)
    } else if is_key(word, Keyword::Recovered) {
        Ok(BackAnswer::Recovered(track_at(words, i + 1)?))
    } else if is_key(word, Keyword::Copied) {
        Ok(BackAnswer::Copied(track_at(words, i + 1)?))
    } else if is_key(word, Keyword::Staged) {
        Ok(BackAnswer::Staged(track_at(words, i + 1)?))
    } else if is_key(word, Keyword::Skipped) {
        Ok(BackAnswer::Skipped(track_at(words, i + 1)?))
    } else if is_key(word, Keyword::Destaged) {
        Ok(BackAnswer::Destaged(track_at(words, i + 1)?))
    } else if is_key(word, Keyword::Half) {
        Ok(BackAnswer::Half(track_at(words, i + 1)?))
    } else if is_key(word, Keyword::Finished) {
        Ok(BackAnswer::Finished(track_at(words, i + 1)?))
    } else if is_key(word, Keyword::Unwritten) {
        Ok(BackAnswer::Unwritten(track_at(words, i + 1)?))
    } else if is_key(word, Keyword::Fault) {
        Ok(BackAnswer::Fault(side_at(words, i + 1)?))
    } else if is_key(word, Keyword::BadBytes) {
        Ok(BackAnswer::BadBytes(side_at(words, i + 1)?))
    } else {
        Err(LineFault::Word)
    }
}

fn loosed_at(words: &LineWords, i: usize) -> Result<LooseAnswer, LineFault>
    requires near { i < 100 }
    ensures { result ≡ loosed_at words.now i }
{
    let count = short_at(words, i)?;
    let id = sized_at::<2>(words, i + 1)?;
    Ok(LooseAnswer::Lost { count, id })
}

/// What became of a device's loose tracks, or of its number of cache fast write data.
pub fn loose_at(words: &LineWords, i: usize) -> Result<LooseAnswer, LineFault>
    requires near { i < 90 }
    ensures { result ≡ loose_at words.now i }
{
    let word = word_at(words, i)?;
    if is_key(word, Keyword::Harden) {
        Ok(LooseAnswer::Harden(track_at(words, i + 1)?))
    } else if is_key(word, Keyword::Loosen) {
        Ok(LooseAnswer::Loosen(track_at(words, i + 1)?))
    } else if is_key(word, Keyword::Lost) {
        loosed_at(words, i + 1)
    } else {
        Err(LineFault::Word)
    }
}

/// How a program was over: in full, checked, or cut behind so many commands.
pub fn over_at(words: &LineWords, i: usize) -> Result<HowOver, LineFault>
    requires near { i < 100 }
    ensures { result ≡ over_at words.now i }
{
    let word = word_at(words, i)?;
    if is_key(word, Keyword::Full) {
        Ok(HowOver::Full)
    } else if is_key(word, Keyword::Checked) {
        Ok(HowOver::Checked)
    } else if is_key(word, Keyword::Cut) {
        Ok(HowOver::Cut(short_at(words, i + 1)?))
    } else {
        Err(LineFault::Word)
    }
}

fn fault_at(words: &LineWords, i: usize) -> Result<OrderRefusal, LineFault>
    requires near { i < 100 }
    ensures { result ≡ fault_at words.now i }
{
    let word = word_at(words, i)?;
    if is_key(word, Keyword::Same) {
        Ok(OrderRefusal::Same)
    } else if is_key(word, Keyword::Lent) {
        Ok(OrderRefusal::Lent(device_at(words, i + 1)?))
    } else if is_key(word, Keyword::Paired) {
        Ok(OrderRefusal::Paired)
    } else if is_key(word, Keyword::Unpaired) {
        Ok(OrderRefusal::Unpaired)
    } else if is_key(word, Keyword::Active) {
        Ok(OrderRefusal::Active(path_at(words, i + 1)?))
    } else if is_key(word, Keyword::Geometry) {
        Ok(OrderRefusal::Geometry)
    } else if is_key(word, Keyword::NoSide) {
        Ok(OrderRefusal::NoSide)
    } else if is_key(word, Keyword::Down) {
        Ok(OrderRefusal::Down)
    } else if is_key(word, Keyword::Up) {
        Ok(OrderRefusal::Up)
    } else if is_key(word, Keyword::NotLevel) {
        Ok(OrderRefusal::NotLevel(short_at(words, i + 1)?))
    } else if is_key(word, Keyword::Half) {
        Ok(OrderRefusal::Half)
    } else if is_key(word, Keyword::Held) {
        Ok(OrderRefusal::Held)
    } else if is_key(word, Keyword::NotHeld) {
        Ok(OrderRefusal::NotHeld)
    } else {
        Err(LineFault::Word)
    }
}

/// The answer to an order.
pub fn answer_at(words: &LineWords, i: usize) -> Result<OrderAnswer, LineFault>
    requires near { i < 90 }
    ensures { result ≡ answer_at words.now i }
{
    let word = word_at(words, i)?;
    if is_key(word, Keyword::Done) {
        Ok(OrderAnswer::Done)
    } else if is_key(word, Keyword::Pending) {
        Ok(OrderAnswer::Pending(count_at(words, i + 1)?))
    } else if is_key(word, Keyword::Refused) {
        Ok(OrderAnswer::Refused(fault_at(words, i + 1)?))
    } else {
        Err(LineFault::Word)
    }
}

/// What stands behind READS.
fn calls_at(words: &LineWords, i: usize) -> Result<DeviceTotals, LineFault>
    requires near { i < 100 }
    ensures { result ≡ calls_at words.now i }
{
    let reads = long_at(words, i)?;
    key_at(Keyword::Writes, words, i + 1)?;
    let writes = long_at(words, i + 2)?;
    key_at(Keyword::Lost, words, i + 3)?;
    let lost = long_at(words, i + 4)?;
    Ok(DeviceTotals::Calls {
        reads,
        writes,
        lost,
    })
}

/// The totals of a device at the end of a run, or to whom its volume is lent.
pub fn totals_at(words: &LineWords, i: usize) -> Result<DeviceTotals, LineFault>
    requires near { i < 90 }
    ensures { result ≡ totals_at words.now i }
{
    let word = word_at(words, i)?;
    if is_key(word, Keyword::Reads) {
        calls_at(words, i + 1)
    } else if is_key(word, Keyword::Lost) {
        Ok(DeviceTotals::Lost(long_at(words, i + 1)?))
    } else if is_key(word, Keyword::Lent) {
        Ok(DeviceTotals::Lent(device_at(words, i + 1)?))
    } else {
        Err(LineFault::Word)
    }
}
