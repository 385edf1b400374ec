use crate::bench::{Asked, Bench};
use crate::noting::{NotingDriver, QuietPort};
use gl_base::Errno;
use gl_driver::{
    DriverFault, FakeDriver, HoldDriver, Latch, LatchDriver, Port, SimDriver, SimPort,
};
use std::alloc::Global;
use std::sync::Wait;
use std::sync::atomic::Ordering;

/// Three calls of which the second one fails as the port plans, and the others are answered so.
fn second_fails(answer: u64) -> Asked {
    Asked {
        answers: [Some(Ok(answer)), Some(Err(DriverFault)), Some(Ok(answer))],
        faults: 1,
    }
}

/// Three calls of which the first one is kept too long, and the others are answered 0.
fn first_fails() -> Asked {
    Asked {
        answers: [Some(Err(DriverFault)), Some(Ok(0)), Some(Ok(0))],
        faults: 1,
    }
}

/// The flags of a latch: its driver's first call has begun, and may go on.
fn flags_of(latch: &Latch) -> [bool; 2] {
    [
        latch.entered.load(Ordering::SeqCst),
        latch.go.load(Ordering::SeqCst),
    ]
}

/// Whether drivers answer from nothing and from their levels, and fail as their ports plan, in this order.
fn answer_as_planned<R: Wait>(rt: &R, bench: &mut Bench, fake: &FakeDriver) -> [bool; 2] {
    [
        bench.ask_thrice(rt, &SimDriver, SimPort::new(), 2) == second_fails(0),
        bench.ask_thrice(rt, fake, SimPort::new(), 2) == second_fails(2),
    ]
}

/// Whether a driver that keeps its first call fails there alone, by the count, and whether one that is told to go on keeps none.
fn keep_the_first_call<R: Wait>(rt: &R, bench: &mut Bench) -> [bool; 5] {
    let (shut, open) = (Latch::new(), Latch::new());
    open.go.store(true, Ordering::SeqCst);
    [
        bench.ask_thrice(rt, &HoldDriver::new(2), SimPort::new(), 0) == first_fails(),
        flags_of(&shut) == [false, false],
        bench.ask_thrice(rt, &LatchDriver::new(&shut), SimPort::new(), 0) == first_fails(),
        flags_of(&shut) == [true, false],
        bench.ask_thrice(rt, &LatchDriver::new(&open), SimPort::new(), 2) == second_fails(0),
    ]
}

/// A driver whose lines 1 and 2 are high.
fn fake_driver(alloc: Global) -> Result<FakeDriver, Errno> {
    Ok(FakeDriver::new(vec![in alloc; false, true, true]?))
}

#[test]
fn drivers_answer_from_their_levels_and_fail_as_planned(rt: HostRuntime) {
    let Ok(mut bench) = Bench::new(rt.alloc(), 1) else {
        panic!(rt; "no memory")
    };
    let Ok(fake) = fake_driver(rt.alloc()) else {
        panic!(rt; "no memory")
    };
    assert!(rt; answer_as_planned(&rt, &mut bench, &fake) == [true; 2]);
    assert!(rt; keep_the_first_call(&rt, &mut bench) == [true; 5]);
}

/// Whether calls and a driver's own entries are answered until a history of two is full, in this order.
fn fill_up<R: Wait>(rt: &R, bench: &mut Bench) -> [bool; 5] {
    let mut port = QuietPort::new();
    [
        bench.ask(rt, &NotingDriver, &mut port) == Some(Ok(0)),
        bench.add(rt) == Ok(1),
        bench.add(rt) == Err(Errno::Full),
        bench.ask(rt, &NotingDriver, &mut port) == Some(Err(DriverFault)),
        port.faults() == 1,
    ]
}

#[test]
fn behind_the_last_entry_a_call_is_full_and_a_driver_that_makes_one_fails(rt: HostRuntime) {
    let Ok(mut bench) = Bench::new(rt.alloc(), 2) else {
        panic!(rt; "no memory")
    };
    assert!(rt; fill_up(&rt, &mut bench) == [true; 5]);
    assert!(rt; bench.finish() == (2, 2));
}
