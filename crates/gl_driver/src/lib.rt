//! Drivers: what is asked of a chip's hardware, outside the turn of the gate, and the ports through which it
//! is asked. One port belongs to one actor.
#![tactic(auto)]

mod driver;
mod fake;
mod hold;
mod latch;
pub mod laws;
mod map;
mod op;
mod port;
mod sim;
mod waiting;

pub use driver::Driver;
pub use fake::FakeDriver;
pub use gl_base::Op;
pub use hold::HoldDriver;
pub use latch::{FirstCallDriver, KeepsFirstCall, Latch, LatchDriver};
pub use map::{Map, Target};
pub use op::{DriverCall, DriverFault};
pub use port::Port;
pub use sim::{SimDriver, SimPort};
