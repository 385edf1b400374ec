//! The device.

use gl_core::Core;
use gl_driver::Driver;
use gl_gate::Gate;
use std::marker::Model;

/// The device: one machine behind a gate, and its driver. Threads share it, each with an actor of its own.
///
/// Contracts see it as its gate.
#[derive(Drop)]
pub struct Gpio<D: Driver<Core>> {
    pub(crate) gate: Gate<Core>,
    pub(crate) driver: D,
}

impl<D: Driver<Core>> Model for Gpio<D> {
    ghost use Rattle.std.specs.Prelude.{◌≡◌};
    ghost use Rattle.gl_base.specs.declared.limits.TheConstants.{PLACES};
    ghost use Rattle.gl_gate.specs.Values.{GateValue};
    ghost use Rattle.gl_chip.specs.Values.{IsQuietDriver};

    ghost Value = { GateValue };

    ghost view = { λ g. g.gate };

    ghost invariant = { λ g. (g.gate.places ≡ PLACES) × IsQuietDriver D.OwnEntries };
}
