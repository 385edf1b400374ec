ghost use Rattle.std.specs.Prelude.{◌≡◌};
ghost use Rattle.gl_rule.specs.Turn.{owes};
ghost use Rattle.gl_gate_tests.specs.contracts.adder.AdderMachine.TheImpl.{ghosts};
ghost use Rattle.gl_gate.specs.Values.{IsPassOf};
ghost use Rattle.gl_gate.specs.Calls.{SamePass};

use crate::adder::Adder;
use crate::adding::add_often;
use crate::errand::Answer;
use crate::house::House;
use crate::removal::{begin, finish, turn_away, work};
use gl_base::Phase;
use gl_gate::{Gate, Pass};
use gl_world::Entry;
use std::sync::Wait;
use std::thread::{Threads, join};

/// A pass, and how often its calls were answered.
type Answered = (Pass<Adder>, u32);

/// Two passes that make as many calls each, in two threads.
fn two_threads<R: Threads + Wait + Sync>(
    rt: &R,
    gate: &Gate<Adder>,
    first: Pass<Adder>,
    second: Pass<Adder>,
    count: u32,
) -> (Answered, Answered)
    requires first { IsPassOf gate.now first × (owes ghosts first.view ≡ 0) }
    requires second { IsPassOf gate.now second × (owes ghosts second.view ≡ 0) }
    ensures first { IsPassOf gate.now result.0.0 × SamePass first.view result.0.0.view }
    ensures second { IsPassOf gate.now result.1.0 × SamePass second.view result.1.0.view }
{
    join(
        rt,
        || -> Answered
            requires { IsPassOf gate.now first × (owes ghosts first.view ≡ 0) }
            ensures { IsPassOf gate.entry.now result.0 × SamePass first.view result.0.view }
        { add_often(rt, gate, first, count) },
        || -> Answered
            requires { IsPassOf gate.now second × (owes ghosts second.view ≡ 0) }
            ensures { IsPassOf gate.entry.now result.0 × SamePass second.view result.0.view }
        { add_often(rt, gate, second, count) },
    )
}

/// Four passes that make as many calls each, in four threads.
fn four_threads<R: Threads + Wait + Sync>(
    rt: &R,
    gate: &Gate<Adder>,
    first: Pass<Adder>,
    second: Pass<Adder>,
    third: Pass<Adder>,
    fourth: Pass<Adder>,
    count: u32,
) -> ((Answered, Answered), (Answered, Answered))
    requires first { IsPassOf gate.now first × (owes ghosts first.view ≡ 0) }
    requires second { IsPassOf gate.now second × (owes ghosts second.view ≡ 0) }
    requires third { IsPassOf gate.now third × (owes ghosts third.view ≡ 0) }
    requires fourth { IsPassOf gate.now fourth × (owes ghosts fourth.view ≡ 0) }
    ensures first { IsPassOf gate.now result.0.0.0 × SamePass first.view result.0.0.0.view }
    ensures second { IsPassOf gate.now result.0.1.0 × SamePass second.view result.0.1.0.view }
    ensures third { IsPassOf gate.now result.1.0.0 × SamePass third.view result.1.0.0.view }
    ensures fourth { IsPassOf gate.now result.1.1.0 × SamePass fourth.view result.1.1.0.view }
{
    join(
        rt,
        || -> (Answered, Answered)
            requires first { IsPassOf gate.now first × (owes ghosts first.view ≡ 0) }
            requires second { IsPassOf gate.now second × (owes ghosts second.view ≡ 0) }
            ensures first { IsPassOf gate.entry.now result.0.0 × SamePass first.view result.0.0.view }
            ensures second { IsPassOf gate.entry.now result.1.0 × SamePass second.view result.1.0.view }
        { two_threads(rt, gate, first, second, count) },
        || -> (Answered, Answered)
            requires third { IsPassOf gate.now third × (owes ghosts third.view ≡ 0) }
            requires fourth { IsPassOf gate.now fourth × (owes ghosts fourth.view ≡ 0) }
            ensures third { IsPassOf gate.entry.now result.0.0 × SamePass third.view result.0.0.view }
            ensures fourth { IsPassOf gate.entry.now result.1.0 × SamePass fourth.view result.1.0.view }
        { two_threads(rt, gate, third, fourth, count) },
    )
}

/// Whether the kth reply is k.
fn count_up(history: &[Entry<Adder>]) -> bool {
    let mut next = 0;
    for entry in history {
        if entry.reply != next {
            return false;
        }
        next = next.wrapping_add(1);
    }
    true
}

#[test]
fn four_threads_make_three_thousand_calls_and_the_kth_reply_is_k(rt: HostRuntime) {
    let Ok((gate, mut first)) = Gate::new(rt.alloc(), Adder { value: 0 }, 1, 3000) else {
        panic!(rt; "no memory")
    };
    let second = gate.split(&mut first);
    let third = gate.split(&mut first);
    let fourth = gate.split(&mut first);
    let (((mut first, a), (second, b)), ((third, c), (fourth, d))) = four_threads(
        &rt, &gate, first, second, third, fourth, 250,
    );
    gate.join(&mut first, second);
    gate.join(&mut first, third);
    gate.join(&mut first, fourth);
    let (machine, history) = gate.finish(first);
    let told = (machine.value, history.len());
    assert!(rt; [a, b, c, d] == [250; 4] && told == (3000, 3000) && count_up(&history));
}

#[test]
fn a_removal_waits_for_those_inside(rt: HostRuntime) {
    let house = House {
        phase: Phase::Up,
        remover: 0,
    };
    let Ok((gate, mut first)) = Gate::new(rt.alloc(), house, 1, 10) else {
        panic!(rt; "no memory")
    };
    let mut remover = gate.split(&mut first);
    let mut late = gate.split(&mut first);
    assert!(rt; gate.enter(&mut first, 0));
    assert!(rt; begin(&rt, &gate, &mut remover));
    gate.close_place(&mut remover, 0);
    let waits = !gate.look(&mut remover, 0);
    assert!(rt; !gate.enter(&mut late, 0));
    let turned_away = turn_away(&rt, &gate, &mut late) == Ok(Answer::NoDev);
    let worked = work(&rt, &gate, &mut first) == Ok(Answer::Done);
    gate.leave(&mut first, 0);
    let drained = gate.look(&mut remover, 0);
    gate.drain(&rt, &mut remover, 0);
    let finished = finish(&rt, &gate, &mut remover) == Answer::Done;
    gate.join(&mut first, remover);
    gate.join(&mut first, late);
    let (house, history) = gate.finish(first);
    assert!(rt; [waits, turned_away, worked, drained, finished] == [true; 5]);
    assert!(rt; house.phase == Phase::Gone && history.len() == 4);
}
