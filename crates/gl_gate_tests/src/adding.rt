//! Calls of one pass on the adder.
ghost use Rattle.std.specs.Prelude.{◌≡◌};
ghost use Rattle.gl_rule.specs.Turn.{owes};
ghost use Rattle.gl_gate_tests.specs.contracts.adder.AdderMachine.TheImpl.{ghosts};
ghost use Rattle.gl_gate.specs.Values.{IsPassOf};
ghost use Rattle.gl_gate.specs.Calls.{HoldsNoTurn, SamePass};

use crate::adder::Adder;
use crate::adder_call::AdderCall;
use gl_base::Errno;
use gl_gate::{Gate, Pass};
use std::sync::Wait;

/// Adds 1 by a call alone.
pub fn add<R: Wait>(rt: &R, gate: &Gate<Adder>, pass: &mut Pass<Adder>) -> Result<u64, Errno>
    requires gate { IsPassOf gate.now pass.old }
    requires free { owes ghosts pass.old.view ≡ 0 }
    ensures gate { IsPassOf gate.now pass.new }
    ensures same { SamePass pass.old.view pass.new.view }
    ensures free { owes ghosts pass.new.view ≡ 0 }
    ensures no_turn { HoldsNoTurn pass.new.view }
{
    gate.act(rt, pass, AdderCall::Alone, &mut (), &mut [])
}

/// Adds 1 by the first and then by the second of two calls. Where the first is answered, so is the second.
fn add_two<R: Wait>(rt: &R, gate: &Gate<Adder>, pass: &mut Pass<Adder>) -> bool
    requires gate { IsPassOf gate.now pass.old }
    requires free { owes ghosts pass.old.view ≡ 0 }
    ensures gate { IsPassOf gate.now pass.new }
    ensures same { SamePass pass.old.view pass.new.view }
    ensures free { owes ghosts pass.new.view ≡ 0 }
{
    if gate
        .act(rt, pass, AdderCall::First, &mut (), &mut [])
        .is_err()
    {
        return false;
    }
    match gate.act(rt, pass, AdderCall::Second, &mut (), &mut []) {
        Ok(_) => true,
        Err(_) => unreachable!(),
    }
}

/// Adds 1 by a call alone and by a pair of calls. Whether all three were answered.
fn add_three<R: Wait>(rt: &R, gate: &Gate<Adder>, pass: &mut Pass<Adder>) -> bool
    requires gate { IsPassOf gate.now pass.old }
    requires free { owes ghosts pass.old.view ≡ 0 }
    ensures gate { IsPassOf gate.now pass.new }
    ensures same { SamePass pass.old.view pass.new.view }
    ensures free { owes ghosts pass.new.view ≡ 0 }
{
    let alone = add(rt, gate, pass).is_ok();
    let both = add_two(rt, gate, pass);
    alone && both
}

/// Adds 3 so many times, and gives the pass back with how often all three calls were answered.
pub fn add_often<R: Wait>(
    rt: &R,
    gate: &Gate<Adder>,
    mut pass: Pass<Adder>,
    count: u32,
) -> (Pass<Adder>, u32)
    requires gate { IsPassOf gate.now pass }
    requires free { owes ghosts pass.view ≡ 0 }
    ensures gate { IsPassOf gate.now result.0 }
    ensures same { SamePass pass.view result.0.view }
    ensures free { owes ghosts result.0.view ≡ 0 }
{
    let mut answered = 0;
    for _ in 0..count {
        if add_three(rt, gate, &mut pass) && answered < count {
            answered += 1;
        }
    }
    (pass, answered)
}
