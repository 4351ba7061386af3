use crate::{Crew, Pairs, Solo, Wide};
use crossbeam_utils::Backoff;
use frp_base::Memory;
use std::alloc::Global;
use std::marker::PhantomData;
use std::process::Abort;
use std::sync::atomic::{AtomicBool, Ordering};
use std::test::Fail;
use std::thread::Threads;

/// The most turns for which a call waits for the other.
const TURNS: u32 = 1_000_000;

/// A crew without threads.
fn solo<R: Threads + Sync>(_hand: &R) -> Solo<R> {
    Solo { of: PhantomData }
}

/// A crew that halves, of so many workers.
fn pairs<R: Threads + Send + Sync>(_hand: &R, workers: u32) -> Pairs<R> {
    Pairs {
        workers,
        of: PhantomData,
    }
}

/// A crew that spreads long lists out, of so many workers for short ones.
fn wide<R: Threads + Send + Sync>(_hand: &R, workers: u32) -> Wide<R> {
    Wide {
        workers,
        of: PhantomData,
    }
}

/// Whether a crew maps the numbers to those after them, which are these.
fn maps<C: Crew>(
    alloc: Global,
    crew: &C,
    hand: &C::Hand,
    numbers: &[u64],
    next: &[u64],
) -> Result<bool, Memory> {
    let answers = crew.map(alloc, hand, numbers, &|n: &u64| Ok(n.saturating_add(1)))?;
    Ok(answers.as_slice() == next)
}

/// Five thousand numbers, one after the other.
fn five_thousand(alloc: Global, first: u64) -> Result<Vec<u64>, Memory> {
    let mut numbers = Vec::new(alloc);
    for n in 0..5_000u64 {
        numbers.push(first.saturating_add(n))?;
    }
    Ok(numbers)
}

/// Raises a flag, and says whether the other one is seen within so many turns.
fn meets(mine: &AtomicBool, other: &AtomicBool) -> bool {
    mine.store(true, Ordering::SeqCst);
    let backoff = Backoff::new();
    for _ in 0..TURNS {
        if other.load(Ordering::SeqCst) {
            return true;
        }
        backoff.snooze();
    }
    false
}

/// Whether the two calls of one map see each other's flags.
fn crew_meets<C: Crew>(alloc: Global, crew: &C, hand: &C::Hand) -> Result<bool, Memory> {
    let (left, right) = (AtomicBool::new(false), AtomicBool::new(false));
    let met = crew.map(
        alloc,
        hand,
        &[true, false],
        &|is_left: &bool| {
            Ok(if *is_left {
                meets(&left, &right)
            } else {
                meets(&right, &left)
            })
        },
    )?;
    Ok(met.as_slice() == [true, true].as_slice())
}

#[test]
fn crews_map_in_order(rt: HostRuntime) -> Result<(), Fail> {
    let (numbers, next) = ([1, 2, 3, 4, 5], [2, 3, 4, 5, 6]);
    assert!(rt; maps(rt.alloc(), &solo(&rt), &(), &numbers, &next)?);
    assert!(rt; maps(rt.alloc(), &pairs(&rt, 2), &rt, &numbers, &next)?);
    assert!(rt; maps(rt.alloc(), &wide(&rt, 4), &rt, &numbers, &next)?);
    Ok(())
}

#[test]
fn a_long_list_is_mapped_in_order(rt: HostRuntime) -> Result<(), Fail> {
    let numbers = five_thousand(rt.alloc(), 0)?;
    let next = five_thousand(rt.alloc(), 1)?;
    assert!(rt; maps(rt.alloc(), &wide(&rt, 4), &rt, &numbers, &next)?);
    Ok(())
}

#[test]
fn workers_meet(rt: HostRuntime) -> Result<(), Fail> {
    assert!(rt; crew_meets(rt.alloc(), &pairs(&rt, 2), &rt)?);
    assert!(rt; crew_meets(rt.alloc(), &wide(&rt, 2), &rt)?);
    Ok(())
}

#[test]
fn want_of_memory_of_one_call_is_that_of_all(rt: HostRuntime) -> Result<(), Fail> {
    let f = |n: &u64| if *n == 3 { Err(Memory) } else { Ok(*n) };
    let answers = pairs(&rt, 2).map(rt.alloc(), &rt, &[1, 2, 3, 4], &f);
    assert!(rt; answers.is_err());
    Ok(())
}
