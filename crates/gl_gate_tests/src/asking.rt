//! Calls of drivers by passes of the adder's gate.
ghost use Rattle.std.specs.Prelude.{◌≡◌, []};
ghost use Rattle.gl_gate.specs.Values.{IsPassOf};
ghost use Rattle.gl_gate.specs.Calls.{HoldsNoTurn};
ghost use Rattle.gl_driver.specs.Calls.{FitsOp};
ghost use Rattle.gl_rule.specs.Turn.{owes};
ghost use Rattle.gl_gate_tests.specs.Bench.{IsAlone};
ghost use Rattle.gl_gate_tests.specs.contracts.adder.AdderMachine.TheImpl.{ghosts};

use crate::adder::Adder;
use gl_base::{Lines, PLACES};
use gl_driver::{Driver, DriverFault, Op};
use gl_gate::{Gate, Pass};
use std::sync::Wait;

/// Asks for the levels of lines 0 and 2.
fn levels_of_two() -> Op
    ensures { FitsOp result }
{
    let mut offsets = [0u32; 64];
    offsets[1] = 2;
    Op::Get {
        lines: Lines { count: 2, offsets },
    }
}

/// Asks a driver, which may make entries of its own, for the levels of lines 0 and 2 of the chip at place 0. Nothing where the place is
/// closed.
pub fn ask<R: Wait, D: Driver<Adder>>(
    rt: &R,
    driver: &D,
    gate: &Gate<Adder>,
    port: &mut D::Port,
    pass: &mut Pass<Adder>,
) -> Option<Result<u64, DriverFault>>
    requires gate { IsPassOf gate.now pass.old }
    requires places { gate.now.places ≡ PLACES }
    requires free { owes ghosts pass.old.view ≡ 0 }
    requires alone { IsAlone pass.old.view }
    ensures gate { IsPassOf gate.now pass.new }
    ensures free { owes ghosts pass.new.view ≡ 0 }
    ensures alone { IsAlone pass.new.view }
{
    let op = levels_of_two();
    if !gate.enter(pass, 0) {
        return None;
    }
    let answer = driver.call(rt, gate, port, pass, 0, &op);
    gate.leave(pass, 0);
    Some(answer)
}
