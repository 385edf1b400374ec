//! A gate over the adder with its only pass, through which calls are made and drivers are asked.

use crate::adder::Adder;
use crate::adding::add;
use crate::asking::ask;
use gl_base::{Errno, PLACES};
use gl_driver::{Driver, DriverFault, Port};
use gl_gate::{Gate, Pass};
use std::alloc::Global;
use std::marker::Model;
use std::sync::Wait;

/// A gate over the adder, and its only pass. That the one is a pass of the other is true of each value, so calls need not say it.
#[derive(Drop)]
pub struct Bench {
    gate: Gate<Adder>,
    pass: Pass<Adder>,
}

impl Model for Bench {
    ghost use Rattle.std.specs.Prelude.{◌≡◌};
    ghost use Rattle.gl_base.specs.declared.limits.TheConstants.{PLACES};
    ghost use Rattle.gl_gate.specs.Values.{IsPassOf};
    ghost use Rattle.gl_rule.specs.Turn.{owes};
    ghost use Rattle.gl_gate_tests.specs.Bench.{IsAlone};
    ghost use Rattle.gl_gate_tests.specs.contracts.adder.AdderMachine.TheImpl.{ghosts};

    ghost Value = { Unit {0} };

    ghost view = { λ _. tt };

    ghost invariant = { λ b. IsPassOf b.gate b.pass × (b.gate.places ≡ PLACES) × (owes ghosts b.pass.view ≡ 0) × IsAlone b.pass.view };
}

/// What a driver answered to three calls in a row, and how many failures their port counted.
#[derive(Clone, Copy, PartialEq, Eq)]
pub struct Asked {
    pub answers: [Option<Result<u64, DriverFault>>; 3],
    pub faults: u64,
}

impl Bench {
    /// A gate of all places over a new adder. Its history takes `room` entries.
    pub fn new(alloc: Global, room: u32) -> Result<Bench, Errno> {
        match Gate::new(alloc, Adder { value: 0 }, PLACES, room) {
            Ok((gate, pass)) => Ok(Bench { gate, pass }),
            Err(errno) => Err(errno),
        }
    }

    /// Adds 1, and answers the old number.
    pub fn add<R: Wait>(&mut self, rt: &R) -> Result<u64, Errno> {
        add(rt, &self.gate, &mut self.pass)
    }

    /// Asks a driver for the levels of lines 0 and 2.
    pub fn ask<R: Wait, D: Driver<Adder>>(
        &mut self,
        rt: &R,
        driver: &D,
        port: &mut D::Port,
    ) -> Option<Result<u64, DriverFault>> {
        ask(rt, driver, &self.gate, port, &mut self.pass)
    }

    /// Asks three times through a new port, which plans that the `planned`-th call fails, or none where that is 0.
    pub fn ask_thrice<R: Wait, D: Driver<Adder>>(
        &mut self,
        rt: &R,
        driver: &D,
        mut port: D::Port,
        planned: u32,
    ) -> Asked {
        port.plan(planned);
        let answers = [
            self.ask(rt, driver, &mut port),
            self.ask(rt, driver, &mut port),
            self.ask(rt, driver, &mut port),
        ];
        Asked {
            answers,
            faults: port.faults(),
        }
    }

    /// The number of the adder in the end, and how many entries the history has.
    pub fn finish(self) -> (u64, usize) {
        let Bench { gate, pass } = self;
        let (machine, history) = gate.finish(pass);
        (machine.value, history.len())
    }
}
