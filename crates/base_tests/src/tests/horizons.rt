//! What no clause says: that calls succeed, and what threads see of one another.
ghost use Rattle.std.specs.Prelude.{◌≡◌, ◌+◌, ◌*◌, ◌<◌, ◌≤◌, IfOk, IfSome};
ghost use Rattle.horizon_word.specs.Views.{IsSeatOf};

use delta_exchange::OutOfMemory;
use horizon_word::{HorizonWord, WordSeat};
use std::alloc::Global;
use std::sync::atomic::{AtomicU64, Ordering};
use std::test::Fail;
use std::thread;

/// A word at 100 that falls no lower than 10, and two seats of it.
fn two_seats(alloc: Global) -> Result<Option<(HorizonWord, WordSeat, WordSeat)>, OutOfMemory>
    ensures seats { IfOk result (λ made. IfSome made (λ held. IsSeatOf held.0 held.1 × IsSeatOf held.0 held.2)) }
    ensures floors { IfOk result (λ made. IfSome made (λ held. (held.1.floor ≡ 10) × (held.2.floor ≡ 10))) }
{
    let (word, mut seats) = HorizonWord::begin(alloc, 10, 100, 2)?;
    let (Some(one), Some(zero)) = (seats.pop(), seats.pop()) else {
        return Ok(None);
    };
    Ok(Some((word, zero, one)))
}

#[test]
fn an_offer_of_one_seat_reaches_the_other(rt: HostRuntime) -> Result<(), Fail> {
    let Some((word, mut zero, mut one)) = two_seats(rt.alloc())? else {
        panic!(rt; "a seat is missing")
    };
    assert!(rt; word.lower(&mut zero, 40) == 40);
    assert!(rt; word.read(&mut one) == 40);
    assert!(rt; word.lower(&mut one, 70) == 40);
    assert!(rt; word.lower(&mut zero, 10) == 10);
    assert!(rt; word.read(&mut one) == 10);
    Ok(())
}

/// Offers every fourth stamp from 40,006 + `lane` down to 10 + `lane`, and reads before each offer. Answers whether
/// each answer was at least the floor, at most the least offer, and at most the answer before.
fn race(word: &HorizonWord, mut seat: WordSeat, lane: u64) -> bool
    requires seat { IsSeatOf word.now seat }
    requires floor { seat.floor ≤ 10 }
    requires lane { lane < 4 }
{
    let mut least = 50_000;
    let mut seen = 50_000;
    let mut in_order = true;
    for left in (0..10_000u64).rev() {
        let read = word.read(&mut seat);
        in_order &= 10 <= read && read <= least && read <= seen;
        least = 10 + 4 * left + lane;
        seen = word.lower(&mut seat, least);
        in_order &= 10 <= seen && seen <= least && seen <= read;
    }
    in_order
}

#[test]
fn the_answers_keep_their_order_while_four_threads_lower(rt: HostRuntime) -> Result<(), Fail> {
    let (word, mut seats) = HorizonWord::begin(rt.alloc(), 10, 50_000, 5)?;
    let Some(mut last) = seats.pop() else {
        panic!(rt; "a seat is missing")
    };
    let lanes = AtomicU64::new(0);
    let in_order = thread::map_vec(
        &rt,
        seats,
        &|seat| { race(&word, seat, lanes.fetch_add(1, Ordering::SeqCst) % 4) },
    )?;
    assert!(rt; in_order.len() == 4);
    for each in in_order.iter() {
        assert!(rt; *each);
    }
    assert!(rt; word.read(&mut last) == 10);
    Ok(())
}

/// Reads until the word is at most the stamp. No wait: it gives up after many reads.
fn reads_down_to(word: &HorizonWord, seat: &mut WordSeat, stamp: u64) -> bool
    requires { IsSeatOf word.now seat.old }
    ensures seat { IsSeatOf word.now seat.new }
    ensures floor { seat.new.floor ≡ seat.old.floor }
{
    for _ in 0..20_000_000u32 {
        if word.read(seat) <= stamp {
            return true;
        }
        thread::yield_now();
    }
    false
}

#[test]
fn two_threads_answer_each_other_while_both_run(rt: HostRuntime) -> Result<(), Fail> {
    let Some((word, mut zero, mut one)) = two_seats(rt.alloc())? else {
        panic!(rt; "a seat is missing")
    };
    let (first, second) = thread::join(
        &rt,
        || {
            word.lower(&mut zero, 80);
            let met = reads_down_to(&word, &mut zero, 60);
            word.lower(&mut zero, 40);
            met && reads_down_to(&word, &mut zero, 20)
        },
        || {
            let met = reads_down_to(&word, &mut one, 80);
            word.lower(&mut one, 60);
            let again = reads_down_to(&word, &mut one, 40);
            word.lower(&mut one, 20);
            met && again
        },
    );
    assert!(rt; first);
    assert!(rt; second);
    Ok(())
}
