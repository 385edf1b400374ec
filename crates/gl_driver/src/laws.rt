//! How a call of a driver leaves a pass. Each is a function with nothing to do: its contract is the law, and a
//! caller gets it by the call.
ghost use Rattle.gl_driver.specs.OwnEntries.{CallIsOwn, RefusalIsNone, NothingIsNone, OneAfterAnother};

use gl_world::Machine;

/// A call of the gate that was made inside a driver's call, and that neither begins nor ends, is one entry of the
/// driver's own.
pub fn call_is_own<M: Machine>()
    ensures { CallIsOwn M.Machine }
{}

/// A call of the gate that the history had no room for is no entry of the driver's own.
pub fn refusal_is_none<M: Machine>()
    ensures { RefusalIsNone M.Machine }
{}

/// Where no call of the gate is made, the pass did nothing.
pub fn nothing_is_none<M: Machine>()
    ensures { NothingIsNone M.Machine }
{}

/// What a pass did in a driver's call, and what it did after that, are one after another what it did in both.
pub fn one_after_another<M: Machine>()
    ensures { OneAfterAnother M.Machine }
{}
