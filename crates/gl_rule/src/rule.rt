//! The rule of a gate's table.

use crate::held::Held;
use crate::view::View;
use atomic_table::TableRule;
use gl_world::Machine;
use std::marker::PhantomData;

/// What a gate is told when it is made, and what never changes.
#[derive(Copy, Clone, Drop)]
pub struct GateSize {
    /// How many entries the history takes before it is full.
    pub room: u64,
    /// How many places there are.
    pub places: u64,
}

/// The rule of a gate: what holds of the words, the slot and all views between any two steps.
pub struct GateRule<M> {
    machine: PhantomData<M>,
}

impl<M: Machine> TableRule<Held<M>, View<M>, GateSize> for GateRule<M> {
    ghost use Rattle.std.specs.Prelude.{[]};
    ghost use Rattle.gl_rule.specs.Views.{newcomer};
    ghost use Rattle.gl_rule.specs.Rule.{Rule};

    ghost holds = { λ size s. Rule M.Machine size.places s };

    ghost first = { λ size. newcomer 0 size.room [] 1 [] [] };
}
