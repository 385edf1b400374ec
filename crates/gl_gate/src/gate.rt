//! Gates.

use crate::turnstile::Turnstile;
use gl_world::Machine;
use std::marker::Model;

/// A machine that threads share, with the history of its calls and a guard for each place.
///
/// Contracts see a gate as which one it is, and how many places it guards.
#[derive(Drop)]
pub struct Gate<M: Machine> {
    pub(crate) turnstile: Turnstile<M>,
}

impl<M: Machine> Model for Gate<M> {
    ghost use Rattle.gl_gate.specs.Values.{GateValue};

    ghost Value = { GateValue };

    ghost view = { λ g. record { id = g.turnstile.table.shared.table_id; places = g.turnstile.table.shared.key.places } };
}
