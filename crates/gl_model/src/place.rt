//! What a place has beside its chip.

use gl_bank::Bank;
use gl_base::{Kind, Name};
use gl_desc::Descs;
use gl_irq::Irqs;
use gl_pins::Pins;

/// The tables of the lines of one chip: each has a row for each line, by offset, except for the pins.
#[derive(Drop)]
pub struct Place {
    /// The name of each line, and who has it.
    pub descs: Descs,
    /// The level of each line.
    pub bank: Bank,
    /// The interrupt of each line.
    pub irqs: Irqs,
    /// The ranges of pins, and the pins that are held for another function.
    pub pins: Pins,
}

/// Where a chip comes from, and who takes it away.
#[derive(Clone, Copy, PartialEq, Eq)]
pub struct Origin {
    /// Whether the chip is simulated.
    pub kind: Kind,
    /// The device of the tree that the chip is of, if it is of one.
    pub device: Option<Name>,
    /// The actor that removes the chip, from the moment at which it begins.
    pub remover: Option<u8>,
}
