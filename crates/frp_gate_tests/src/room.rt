ghost use Rattle.std.specs.Prelude.{◌≡◌, IfOk, IfSome};
ghost use Rattle.frp_gate.specs.Passes.{IsPassOf};
ghost use Rattle.std.specs.Thread.{IsSync};

use crate::counter::{Counter, Full, Pause};
use frp_gate::{Entry, Machine, Outcome, Pass, Room};
use std::alloc::Global;
use std::sync::Wait;
use std::test::Fail;
use std::thread;
use std::thread::Threads;

/// Makes the calls one after the other.
fn call_all<R: Wait>(rt: &R, room: &Room<Counter>, pass: Pass<Counter>, calls: u32) -> Pass<Counter>
    requires { IsPassOf room.now pass }
    ensures { IsPassOf room.now result }
{
    let pause = Pause::new(0);
    let mut pass = pass;
    for cmd in 0..calls {
        let (back, _) = room.call(rt, &pause, pass, cmd);
        pass = back;
    }
    pass
}

/// Two callers make their calls side by side.
fn call_two<R: Threads + Wait + Sync>(
    rt: &R,
    room: &Room<Counter>,
    left: Pass<Counter>,
    right: Pass<Counter>,
    calls: u32,
) -> (Pass<Counter>, Pass<Counter>)
    requires left { IsPassOf room.now left }
    requires right { IsPassOf room.now right }
    ensures left { IsPassOf room.now result.0 }
    ensures right { IsPassOf room.now result.1 }
{
    thread::join(
        rt,
        move || -> Pass<Counter>
            requires { IsPassOf room.now left }
            ensures { IsPassOf room.entry.now result }
        { call_all(rt, room, left, calls) },
        move || -> Pass<Counter>
            requires { IsPassOf room.now right }
            ensures { IsPassOf room.entry.now result }
        { call_all(rt, room, right, calls) },
    )
}

/// Four callers make their calls side by side.
fn call_four<R: Threads + Wait + Sync>(
    rt: &R,
    room: &Room<Counter>,
    left: (Pass<Counter>, Pass<Counter>),
    right: (Pass<Counter>, Pass<Counter>),
    calls: u32,
) -> (
    (Pass<Counter>, Pass<Counter>),
    (Pass<Counter>, Pass<Counter>),
)
    requires left { IsPassOf room.now left.0 × IsPassOf room.now left.1 }
    requires right { IsPassOf room.now right.0 × IsPassOf room.now right.1 }
    ensures left { IsPassOf room.now result.0.0 × IsPassOf room.now result.0.1 }
    ensures right { IsPassOf room.now result.1.0 × IsPassOf room.now result.1.1 }
{
    thread::join(
        rt,
        move || -> (Pass<Counter>, Pass<Counter>)
            requires { IsSync R.row × IsPassOf room.now left.0 × IsPassOf room.now left.1 }
            ensures { IsPassOf room.entry.now result.0 × IsPassOf room.entry.now result.1 }
        { call_two(rt, room, left.0, left.1, calls) },
        move || -> (Pass<Counter>, Pass<Counter>)
            requires { IsSync R.row × IsPassOf room.now right.0 × IsPassOf room.now right.1 }
            ensures { IsPassOf room.entry.now result.0 × IsPassOf room.entry.now result.1 }
        { call_two(rt, room, right.0, right.1, calls) },
    )
}

/// What `front` gives while another's call has the counter, if one comes to have it. Then the call is let go.
fn look_inside(room: &Room<Counter>, pause: &Pause, pass: Pass<Counter>) -> Option<u64>
    requires { IsPassOf room.now pass }
{
    let mut pass = pass;
    let inside = pause.is_inside(1_000_000);
    let front = room.front(&mut pass);
    pause.let_go();
    inside.then_some(front)
}

/// One caller looks at the front while another's call has the counter.
fn look_beside_call<R: Threads + Wait + Sync>(
    rt: &R,
    room: &Room<Counter>,
    looking: Pass<Counter>,
    calling: Pass<Counter>,
    cmd: u32,
) -> (Option<u64>, Outcome<Counter>)
    requires looking { IsPassOf room.now looking }
    requires calling { IsPassOf room.now calling }
{
    let pause = Pause::new(1_000_000);
    let pause = &pause;
    thread::join(
        rt,
        move || -> Option<u64>
            requires { IsPassOf room.now looking }
        { look_inside(room, pause, looking) },
        move || -> Outcome<Counter>
            requires { IsPassOf room.now calling }
        {
            let (_pass, outcome) = room.call(rt, pause, calling, cmd);
            outcome
        },
    )
}

/// A room with two passes, the one of number 0 first.
fn room_of_two<M: Machine>(alloc: Global, machine: M) -> Result<(Room<M>, Pass<M>, Pass<M>), M>
    ensures { IfOk result (λ made. IsPassOf made.0 made.1 × IsPassOf made.0 made.2) }
{
    match Room::new(alloc, machine, 2) {
        Ok((room, mut passes)) => {
            let one = passes.pop().unwrap();
            let zero = passes.pop().unwrap();
            passes.destroy_empty();
            Ok((room, zero, one))
        }
        Err((_, machine)) => Err(machine),
    }
}

/// The room and the pass, back from a close with this pass alone.
fn refused_alone(
    alloc: Global,
    room: Room<Counter>,
    pass: Pass<Counter>,
) -> Option<(Room<Counter>, Pass<Counter>)>
    requires { IsPassOf room pass }
    ensures room { IfSome result (λ back. back.0 ≡ room) }
    ensures pass { IfSome result (λ back. back.1 ≡ pass) }
{
    let Ok(mut passes) = Vec::with_capacity(alloc, 1) else {
        return None;
    };
    passes.push_reserved(pass);
    let Err((room, mut passes)) = room.close(passes) else {
        return None;
    };
    let pass = passes.pop()?;
    Some((room, pass))
}

/// The counter of a room that is closed with both passes.
fn closed_with_both(
    alloc: Global,
    room: Room<Counter>,
    zero: Pass<Counter>,
    one: Pass<Counter>,
) -> Option<Counter>
    requires zero { IsPassOf room zero }
    requires one { IsPassOf room one }
{
    let Ok(mut passes) = Vec::with_capacity(alloc, 2) else {
        return None;
    };
    passes.push_reserved(one);
    passes.push_reserved(zero);
    let Ok(counter) = room.close(passes) else {
        return None;
    };
    Some(counter)
}

/// Whether the call was entered at this place, with this reply.
fn is_entered(outcome: Outcome<Counter>, place: u64, reply: u64) -> bool {
    match outcome {
        Outcome::Entered(receipt, sum) => receipt.place == place && sum == reply,
        Outcome::NotEntered(Full, _) => false,
    }
}

/// Whether each caller's commands are 0, 1 and so on, so many of each.
fn counts_in_order(entries: &[Entry<u32, u64>], calls: u32) -> bool {
    let mut next = [0, 0, 0, 0];
    for entry in entries {
        let caller = entry.caller as usize;
        if caller >= 4 || entry.cmd != next[caller] || entry.cmd >= calls {
            return false;
        }
        next[caller] += 1;
    }
    next == [calls; 4]
}

#[test]
fn a_call_is_entered_at_the_next_place(rt: HostRuntime) -> Result<(), Fail> {
    let Ok((room, _zero, one)) = room_of_two(rt.alloc(), Counter::new(rt.alloc(), 10)?) else {
        panic!(rt; "no memory")
    };
    let (one, first) = room.call(&rt, &Pause::new(0), one, 5);
    let (_one, second) = room.call(&rt, &Pause::new(0), one, 6);
    assert!(rt; is_entered(first, 1, 5) && is_entered(second, 2, 11));
    Ok(())
}

#[test]
fn passes_have_the_numbers_from_zero(rt: HostRuntime) -> Result<(), Fail> {
    let Ok((_room, zero, one)) = room_of_two(rt.alloc(), Counter::new(rt.alloc(), 10)?) else {
        panic!(rt; "no memory")
    };
    assert!(rt; (zero.caller(), one.caller()) == (0, 1));
    Ok(())
}

#[test]
fn front_shows_another_callers_entry(rt: HostRuntime) -> Result<(), Fail> {
    let Ok((room, mut zero, one)) = room_of_two(rt.alloc(), Counter::new(rt.alloc(), 10)?) else {
        panic!(rt; "no memory")
    };
    let before = room.front(&mut zero);
    let (_one, _) = room.call(&rt, &Pause::new(0), one, 5);
    assert!(rt; (before, room.front(&mut zero)) == (0, 1));
    Ok(())
}

#[test]
fn a_full_counter_hands_the_command_back(rt: HostRuntime) -> Result<(), Fail> {
    let Ok((room, zero, one)) = room_of_two(rt.alloc(), Counter::new(rt.alloc(), 1)?) else {
        panic!(rt; "no memory")
    };
    let (zero, first) = room.call(&rt, &Pause::new(0), zero, 1);
    let (mut one, second) = room.call(&rt, &Pause::new(0), one, 2);
    let Outcome::NotEntered(Full, cmd) = second else {
        panic!(rt; "the counter has room for one call")
    };
    assert!(rt; is_entered(first, 1, 1) && cmd == 2 && room.front(&mut one) == 1);
    let Some(counter) = closed_with_both(rt.alloc(), room, zero, one) else {
        panic!(rt; "no pass was missing")
    };
    assert!(rt; matches!(counter.list(), [entry] if entry.caller == 0));
    Ok(())
}

#[test]
fn close_is_refused_while_a_pass_is_missing(rt: HostRuntime) -> Result<(), Fail> {
    let Ok((room, zero, one)) = room_of_two(rt.alloc(), Counter::new(rt.alloc(), 10)?) else {
        panic!(rt; "no memory")
    };
    let (one, _) = room.call(&rt, &Pause::new(0), one, 5);
    let Some((room, zero)) = refused_alone(rt.alloc(), room, zero) else {
        panic!(rt; "a pass was missing")
    };
    let Some(counter) = closed_with_both(rt.alloc(), room, zero, one) else {
        panic!(rt; "no pass was missing")
    };
    assert!(rt; matches!(counter.list(), [entry] if entry.caller == 1));
    Ok(())
}

#[test]
fn a_second_room_goes_on_with_the_history(rt: HostRuntime) -> Result<(), Fail> {
    let Ok((room, zero, one)) = room_of_two(rt.alloc(), Counter::new(rt.alloc(), 10)?) else {
        panic!(rt; "no memory")
    };
    let (zero, _) = room.call(&rt, &Pause::new(0), zero, 5);
    let Some(counter) = closed_with_both(rt.alloc(), room, zero, one) else {
        panic!(rt; "no pass was missing")
    };
    let Ok((room, mut zero, one)) = room_of_two(rt.alloc(), counter) else {
        panic!(rt; "no memory")
    };
    let front = room.front(&mut zero);
    let (_one, outcome) = room.call(&rt, &Pause::new(0), one, 6);
    assert!(rt; front == 1 && is_entered(outcome, 2, 11));
    Ok(())
}

#[test]
fn four_callers_calls_stand_in_order(rt: HostRuntime) -> Result<(), Fail> {
    let counter = Counter::new(rt.alloc(), 4000)?;
    let Ok((room, mut passes)) = Room::new(rt.alloc(), counter, 4) else {
        panic!(rt; "no memory")
    };
    let three = passes.pop().unwrap();
    let two = passes.pop().unwrap();
    let one = passes.pop().unwrap();
    let zero = passes.pop().unwrap();
    let ((zero, one), (two, three)) = call_four(&rt, &room, (zero, one), (two, three), 1000);
    passes.push_reserved(two);
    passes.push_reserved(zero);
    passes.push_reserved(three);
    passes.push_reserved(one);
    let Ok(counter) = room.close(passes) else {
        panic!(rt; "no pass was missing")
    };
    assert!(rt; counts_in_order(counter.list(), 1000));
    Ok(())
}

#[test]
fn front_answers_while_a_call_is_inside(rt: HostRuntime) -> Result<(), Fail> {
    let Ok((room, zero, one)) = room_of_two(rt.alloc(), Counter::new(rt.alloc(), 10)?) else {
        panic!(rt; "no memory")
    };
    let (looked, called) = look_beside_call(&rt, &room, zero, one, 7);
    assert!(rt; looked == Some(0) && is_entered(called, 1, 7));
    Ok(())
}
