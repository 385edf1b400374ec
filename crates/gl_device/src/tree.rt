//! The configuration tree of simulated chips.

ghost use Rattle.gl_asking.specs.Results.{done_of, text_of};
ghost use Rattle.gl_chip.specs.Called.{ComesOut};
ghost use Rattle.gl_gate.specs.Calls.{KnowsTheSame};
ghost use Rattle.gl_model.specs.declared.call.Call.TheVariants.{MakeDir, Read as ReadCall, RemoveDir, Write as WriteCall};
ghost use Rattle.gl_model.specs.declared.device_call.DeviceCall.TheVariants.{Once};
ghost use Rattle.std.specs.Prelude.{◌≡◌, []};

use crate::device::Device;
use gl_base::{Errno, Name, Path};
use gl_core::Core;
use gl_driver::Driver;
use std::sync::Wait;

impl<D: Driver<Core>> Device<D> {
    /// Makes a directory of the tree.
    pub fn mkdir<R: Wait>(&mut self, rt: &R, path: &Path) -> Result<(), Errno>
        ensures port { self.new.port ≡ self.old.port }
        ensures places { KnowsTheSame self.old.pass.view self.new.pass.view }
        ensures called { ComesOut done_of result self.old.pass.view (Once (MakeDir path.now)) [] self.new.pass.view }
    {
        self.gpio.mkdir(rt, &mut self.actor, path)
    }

    /// Removes a directory of the tree.
    pub fn rmdir<R: Wait>(&mut self, rt: &R, path: &Path) -> Result<(), Errno>
        ensures port { self.new.port ≡ self.old.port }
        ensures places { KnowsTheSame self.old.pass.view self.new.pass.view }
        ensures called { ComesOut done_of result self.old.pass.view (Once (RemoveDir path.now)) [] self.new.pass.view }
    {
        self.gpio.rmdir(rt, &mut self.actor, path)
    }

    /// Writes a value to a file of the tree. `DEV/live` is none of them: see [`live`](Device::live).
    pub fn write<R: Wait>(&mut self, rt: &R, path: &Path, value: &Name) -> Result<(), Errno>
        ensures port { self.new.port ≡ self.old.port }
        ensures places { KnowsTheSame self.old.pass.view self.new.pass.view }
        ensures called { ComesOut done_of result self.old.pass.view (Once (WriteCall path.now value.now)) [] self.new.pass.view }
    {
        self.gpio.write(rt, &mut self.actor, path, value)
    }

    /// Reads a file of the tree, `DEV/live` among them.
    pub fn read<R: Wait>(&mut self, rt: &R, path: &Path) -> Result<Name, Errno>
        ensures port { self.new.port ≡ self.old.port }
        ensures places { KnowsTheSame self.old.pass.view self.new.pass.view }
        ensures called { ComesOut text_of result self.old.pass.view (Once (ReadCall path.now)) [] self.new.pass.view }
    {
        self.gpio.read(rt, &mut self.actor, path)
    }
}
