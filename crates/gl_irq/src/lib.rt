//! The interrupts of a chip's lines, and their locks.
#![tactic(auto)]

mod irq;
mod irqs;

pub use irq::{Irq, IrqLine};
pub use irqs::Irqs;
