ghost use Rattle.std.specs.Prelude.{◌≡◌, ◌<◌, ◌+◌, ℕ, slice_set, true};
ghost use Rattle.std.specs.Thread.{IsSync};
ghost use Rattle.device_turn.specs.Rule.{has};
ghost use Rattle.device_turn.specs.Answers.{IsAway};

use crate::counters::Counters;
use crate::*;
use ckd_types::NoMemory;
use std::alloc::Global;
use std::sync::Wait;
use std::test::Fail;
use std::thread::{Threads, join, yield_now};

type CountersTurn = Turn<Counters, u64>;

type CountersSeat = TurnSeat<Counters, u64>;

type CountersPair = (CountersSeat, CountersSeat);

/// With one count more for a seat.
fn with_one(mut counters: Box<Counters>, seat: u64) -> Box<Counters>
    requires { seat < 6 }
    ensures tag { result.value.tag ≡ counters.value.tag }
    ensures counts { (n : ℕ) × (result.value.counts ≡ slice_set counters.value.counts seat n) }
{
    counters.count_one(seat);
    counters
}

/// Counts one, as soon as it is the seat's turn.
fn count_one<R: Wait>(rt: &R, turn: &CountersTurn, seat: &mut CountersSeat)
    requires own { seat.old.seat.table_id ≡ turn.now.table.shared.table_id }
    requires away { IsAway seat.old.seat.me }
    ensures own { (seat.new.seat.table_id ≡ seat.old.seat.table_id) × (seat.new.number ≡ seat.old.number) × (seat.new.made ≡ seat.old.made) }
    ensures away { IsAway seat.new.seat.me }
    ensures same { (seat.new.seat.me.0.joined ≡ seat.old.seat.me.0.joined) × (seat.new.seat.me.0.pledge ≡ seat.old.seat.me.0.pledge) }
{
    for _ in rt.forever() {
        if let Enter::Got(counters) = turn.enter(seat) {
            let counted = with_one(counters, seat.number);
            turn.leave(seat, counted);
            return;
        }
        yield_now();
    }
    unreachable!()
}

/// Waits until another seat counted as many.
fn wait_for<R: Wait>(rt: &R, turn: &CountersTurn, seat: &mut CountersSeat, other: u64, least: u64)
    requires own { seat.old.seat.table_id ≡ turn.now.table.shared.table_id }
    requires other { other < 6 }
    ensures { (seat.new.seat.table_id ≡ seat.old.seat.table_id) × (seat.new.number ≡ seat.old.number) × (seat.new.made ≡ seat.old.made) ×
        (seat.new.seat.me ≡ seat.old.seat.me) }
{
    for _ in rt.forever() {
        if turn.seen(seat, other) >= least {
            return;
        }
        yield_now();
    }
    unreachable!()
}

/// Counts so often, each time only once the other seat counted as many.
fn count_in_step<R: Wait>(
    rt: &R,
    turn: &CountersTurn,
    mut seat: CountersSeat,
    other: u64,
    turns: u64,
) -> CountersSeat
    requires own { seat.seat.table_id ≡ turn.now.table.shared.table_id }
    requires away { IsAway seat.seat.me }
    requires other { other < 6 }
    ensures own { (result.seat.table_id ≡ seat.seat.table_id) × (result.number ≡ seat.number) × (result.made ≡ seat.made) }
    ensures away { IsAway result.seat.me }
    ensures same { (result.seat.me.0.joined ≡ seat.seat.me.0.joined) × (result.seat.me.0.pledge ≡ seat.seat.me.0.pledge) }
{
    for n in 0..turns {
        wait_for(rt, turn, &mut seat, other, n);
        count_one(rt, turn, &mut seat);
    }
    seat
}

/// Two seats count in step, each in a thread of its own.
fn two_count<R: Threads + Wait + Sync>(
    rt: &R,
    turn: &CountersTurn,
    first: CountersSeat,
    second: CountersSeat,
    turns: u64,
) -> (CountersSeat, CountersSeat)
    requires first { (first.seat.table_id ≡ turn.now.table.shared.table_id) × IsAway first.seat.me }
    requires second { (second.seat.table_id ≡ turn.now.table.shared.table_id) × IsAway second.seat.me }
    ensures own { (result.0.seat.table_id ≡ turn.now.table.shared.table_id) × (result.1.seat.table_id ≡ turn.now.table.shared.table_id) }
    ensures away { IsAway result.0.seat.me × IsAway result.1.seat.me }
    ensures numbers { (result.0.number ≡ first.number) × (result.0.made ≡ first.made) × (result.1.number ≡ second.number) }
    ensures same { (result.0.seat.me.0.joined ≡ first.seat.me.0.joined) × (result.0.seat.me.0.pledge ≡ first.seat.me.0.pledge) }
{
    let one = first.number;
    let other = second.number;
    join(
        rt,
        || count_in_step(rt, turn, first, other, turns),
        || count_in_step(rt, turn, second, one, turns),
    )
}

/// Four seats count, in a thread each.
fn four_count<R: Threads + Wait + Sync>(
    rt: &R,
    turn: &CountersTurn,
    first: CountersPair,
    second: CountersPair,
    turns: u64,
) -> (CountersPair, CountersPair)
    requires first { (first.0.seat.table_id ≡ turn.now.table.shared.table_id) × IsAway first.0.seat.me ×
        (first.1.seat.table_id ≡ turn.now.table.shared.table_id) × IsAway first.1.seat.me }
    requires second { (second.0.seat.table_id ≡ turn.now.table.shared.table_id) × IsAway second.0.seat.me ×
        (second.1.seat.table_id ≡ turn.now.table.shared.table_id) × IsAway second.1.seat.me }
    ensures first { (result.0.0.seat.table_id ≡ turn.now.table.shared.table_id) × IsAway result.0.0.seat.me ×
        (result.0.1.seat.table_id ≡ turn.now.table.shared.table_id) × IsAway result.0.1.seat.me }
    ensures second { (result.1.0.seat.table_id ≡ turn.now.table.shared.table_id) × IsAway result.1.0.seat.me ×
        (result.1.1.seat.table_id ≡ turn.now.table.shared.table_id) × IsAway result.1.1.seat.me }
    ensures numbers { (result.0.0.number ≡ first.0.number) × (result.0.1.number ≡ first.1.number) × (result.1.0.number ≡ second.0.number) ×
        (result.1.1.number ≡ second.1.number) }
    ensures same { (result.0.0.made ≡ first.0.made) × (result.0.0.seat.me.0.joined ≡ first.0.seat.me.0.joined) }
{
    let (one, two) = first;
    let (three, four) = second;
    join(
        rt,
        || -> CountersPair
            requires { IsSync R.row × (one.seat.table_id ≡ turn.now.table.shared.table_id) × IsAway one.seat.me ×
                (two.seat.table_id ≡ turn.now.table.shared.table_id) × IsAway two.seat.me }
            ensures { (result.0.seat.table_id ≡ turn.entry.now.table.shared.table_id) × IsAway result.0.seat.me ×
                (result.1.seat.table_id ≡ turn.entry.now.table.shared.table_id) × IsAway result.1.seat.me × (result.0.number ≡ one.number) ×
                (result.1.number ≡ two.number) × (result.0.made ≡ one.made) × (result.0.seat.me.0.joined ≡ one.seat.me.0.joined) }
        { two_count(rt, turn, one, two, turns) },
        || -> CountersPair
            requires { IsSync R.row × (three.seat.table_id ≡ turn.now.table.shared.table_id) × IsAway three.seat.me ×
                (four.seat.table_id ≡ turn.now.table.shared.table_id) × IsAway four.seat.me }
            ensures { (result.0.seat.table_id ≡ turn.entry.now.table.shared.table_id) × IsAway result.0.seat.me ×
                (result.1.seat.table_id ≡ turn.entry.now.table.shared.table_id) × IsAway result.1.seat.me × (result.0.number ≡ three.number) ×
                (result.1.number ≡ four.number) }
        { two_count(rt, turn, three, four, turns) },
    )
}

/// Six seats count, in a thread each.
fn six_count<R: Threads + Wait + Sync>(
    rt: &R,
    turn: &CountersTurn,
    first: CountersPair,
    second: CountersPair,
    third: CountersPair,
    turns: u64,
) -> ((CountersPair, CountersPair), CountersPair)
    requires first { (first.0.seat.table_id ≡ turn.now.table.shared.table_id) × IsAway first.0.seat.me ×
        (first.1.seat.table_id ≡ turn.now.table.shared.table_id) × IsAway first.1.seat.me }
    requires second { (second.0.seat.table_id ≡ turn.now.table.shared.table_id) × IsAway second.0.seat.me ×
        (second.1.seat.table_id ≡ turn.now.table.shared.table_id) × IsAway second.1.seat.me }
    requires third { (third.0.seat.table_id ≡ turn.now.table.shared.table_id) × IsAway third.0.seat.me ×
        (third.1.seat.table_id ≡ turn.now.table.shared.table_id) × IsAway third.1.seat.me }
    ensures first { (result.0.0.0.seat.table_id ≡ turn.now.table.shared.table_id) × IsAway result.0.0.0.seat.me ×
        (result.0.0.1.seat.table_id ≡ turn.now.table.shared.table_id) × IsAway result.0.0.1.seat.me }
    ensures second { (result.0.1.0.seat.table_id ≡ turn.now.table.shared.table_id) × IsAway result.0.1.0.seat.me ×
        (result.0.1.1.seat.table_id ≡ turn.now.table.shared.table_id) × IsAway result.0.1.1.seat.me }
    ensures third { (result.1.0.seat.table_id ≡ turn.now.table.shared.table_id) × IsAway result.1.0.seat.me ×
        (result.1.1.seat.table_id ≡ turn.now.table.shared.table_id) × IsAway result.1.1.seat.me }
    ensures numbers { (result.0.0.0.number ≡ first.0.number) × (result.0.0.1.number ≡ first.1.number) × (result.0.1.0.number ≡ second.0.number) ×
        (result.0.1.1.number ≡ second.1.number) × (result.1.0.number ≡ third.0.number) × (result.1.1.number ≡ third.1.number) }
    ensures same { (result.0.0.0.made ≡ first.0.made) × (result.0.0.0.seat.me.0.joined ≡ first.0.seat.me.0.joined) }
{
    let (five, six) = third;
    join(
        rt,
        || -> (CountersPair, CountersPair)
            requires { IsSync R.row × (first.0.seat.table_id ≡ turn.now.table.shared.table_id) × IsAway first.0.seat.me ×
                (first.1.seat.table_id ≡ turn.now.table.shared.table_id) × IsAway first.1.seat.me ×
                (second.0.seat.table_id ≡ turn.now.table.shared.table_id) × IsAway second.0.seat.me ×
                (second.1.seat.table_id ≡ turn.now.table.shared.table_id) × IsAway second.1.seat.me }
            ensures { (result.0.0.seat.table_id ≡ turn.entry.now.table.shared.table_id) × IsAway result.0.0.seat.me ×
                (result.0.1.seat.table_id ≡ turn.entry.now.table.shared.table_id) × IsAway result.0.1.seat.me ×
                (result.1.0.seat.table_id ≡ turn.entry.now.table.shared.table_id) × IsAway result.1.0.seat.me ×
                (result.1.1.seat.table_id ≡ turn.entry.now.table.shared.table_id) × IsAway result.1.1.seat.me × (result.0.0.number ≡ first.0.number) ×
                (result.0.1.number ≡ first.1.number) × (result.1.0.number ≡ second.0.number) × (result.1.1.number ≡ second.1.number) ×
                (result.0.0.made ≡ first.0.made) × (result.0.0.seat.me.0.joined ≡ first.0.seat.me.0.joined) }
        { four_count(rt, turn, first, second, turns) },
        || -> CountersPair
            requires { IsSync R.row × (five.seat.table_id ≡ turn.now.table.shared.table_id) × IsAway five.seat.me ×
                (six.seat.table_id ≡ turn.now.table.shared.table_id) × IsAway six.seat.me }
            ensures { (result.0.seat.table_id ≡ turn.entry.now.table.shared.table_id) × IsAway result.0.seat.me ×
                (result.1.seat.table_id ≡ turn.entry.now.table.shared.table_id) × IsAway result.1.seat.me × (result.0.number ≡ five.number) ×
                (result.1.number ≡ six.number) }
        { two_count(rt, turn, five, six, turns) },
    )
}

/// Seat 0 takes in the next seat.
fn take_in(turn: &CountersTurn, seat: &mut CountersSeat, gone: CountersSeat)
    requires own { (seat.old.seat.table_id ≡ turn.now.table.shared.table_id) × (gone.seat.table_id ≡ turn.now.table.shared.table_id) }
    requires rests { IsAway gone.seat.me }
    requires before { (k : ℕ) → 0 < k → k < gone.number → has k seat.old.seat.me.0.joined ≡ true }
    ensures own { (seat.new.seat.table_id ≡ seat.old.seat.table_id) × (seat.new.number ≡ seat.old.number) × (seat.new.made ≡ seat.old.made) ×
        (seat.new.seat.me.0.stage ≡ seat.old.seat.me.0.stage) }
    ensures after { (k : ℕ) → 0 < k → k < gone.number + 1 → has k seat.new.seat.me.0.joined ≡ true }
{
    turn.join(seat, gone);
}

fn count_by_two<R: Threads + Wait + Sync>(
    rt: &R,
    alloc: Global,
    turns: u64,
) -> Result<Counters, NoMemory> {
    let (turn, mut zero) = match Turn::make(alloc, Counters::new(7), &7) {
        Ok(made) => made,
        Err((no_memory, _)) => return Err(no_memory),
    };
    let one = turn.split(&mut zero);
    let (mut zero, one) = two_count(rt, &turn, zero, one, turns);
    turn.join(&mut zero, one);
    Ok(turn.close(zero))
}

fn count_by_six<R: Threads + Wait + Sync>(
    rt: &R,
    alloc: Global,
    turns: u64,
) -> Result<Counters, NoMemory> {
    let (turn, mut zero) = match Turn::make(alloc, Counters::new(7), &7) {
        Ok(made) => made,
        Err((no_memory, _)) => return Err(no_memory),
    };
    let one = turn.split(&mut zero);
    let two = turn.split(&mut zero);
    let three = turn.split(&mut zero);
    let four = turn.split(&mut zero);
    let five = turn.split(&mut zero);
    let (((mut zero, one), (two, three)), (four, five)) = six_count(
        rt,
        &turn,
        (zero, one),
        (two, three),
        (four, five),
        turns,
    );
    take_in(&turn, &mut zero, one);
    take_in(&turn, &mut zero, two);
    take_in(&turn, &mut zero, three);
    take_in(&turn, &mut zero, four);
    take_in(&turn, &mut zero, five);
    Ok(turn.close(zero))
}

#[test]
fn two_threads_take_a_thousand_turns_in_step(rt: HostRuntime) -> Result<(), Fail> {
    let counters = count_by_two(&rt, rt.alloc(), 1000)?;
    assert_eq!(rt; counters.tag, 7);
    assert_eq!(rt; counters.counts, [1000, 1000, 0, 0, 0, 0]);
    Ok(())
}

#[test]
fn six_threads_lose_no_count(rt: HostRuntime) -> Result<(), Fail> {
    let counters = count_by_six(&rt, rt.alloc(), 500)?;
    assert_eq!(rt; counters.counts, [500; 6]);
    Ok(())
}

#[test]
fn a_turn_is_found_taken(rt: HostRuntime) -> Result<(), Fail> {
    let Ok((turn, mut first)) = Turn::make(rt.alloc(), Counters::new(7), &7) else {
        return Err("no memory".into());
    };
    let mut second = turn.split(&mut first);
    if let Enter::Got(counters) = turn.enter(&mut first) {
        let found = turn.enter(&mut second);
        assert!(rt; matches!(found, Enter::Taken { seat: 0 }));
        turn.leave(&mut first, counters);
    }
    assert_eq!(rt; turn.seen(&mut first, 1), 0);
    count_one(&rt, &turn, &mut second);
    assert_eq!(rt; turn.seen(&mut first, 1), 1);
    turn.join(&mut first, second);
    let counters = turn.close(first);
    assert_eq!(rt; counters.counts, [0, 1, 0, 0, 0, 0]);
    Ok(())
}
