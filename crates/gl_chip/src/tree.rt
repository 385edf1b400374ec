//! The configuration tree of simulated chips. These calls take no guard.

ghost use Rattle.std.specs.Prelude.{◌≡◌, []};
ghost use Rattle.gl_gate.specs.Calls.{KnowsTheSame};
ghost use Rattle.gl_model.specs.declared.call.Call.TheVariants.{MakeDir, Read as ReadCall, RemoveDir, Write as WriteCall};
ghost use Rattle.gl_model.specs.declared.device_call.DeviceCall.TheVariants.{Once};
ghost use Rattle.gl_chip.specs.Called.{ComesOut};
ghost use Rattle.gl_asking.specs.Results.{done_of, text_of};
ghost use Rattle.gl_chip.specs.Values.{IsActorOf, IsSameActor};

use crate::actor::Actor;
use crate::gpio::Gpio;
use gl_asking::results;
use gl_base::{Errno, Name, Path};
use gl_core::{Call, Core};
use gl_driver::Driver;
use std::sync::Wait;

impl<D: Driver<Core>> Gpio<D> {
    /// Makes a directory of the tree.
    ///
    /// `Inval` where the path isn't of a directory's form; `NoEnt` where its parent isn't there; `Busy` where its device is live
    /// or leaving; `Exist` where it is there; `NoSpc` where there are 1024 directories; `Full` where the history is full.
    pub fn mkdir<R: Wait>(&self, rt: &R, actor: &mut Actor<D>, path: &Path) -> Result<(), Errno>
        requires actor { IsActorOf self.now actor.old }
        ensures actor { IsActorOf self.now actor.new }
        ensures same { IsSameActor actor.old.pass.view actor.new.pass.view }
        ensures port { actor.new.port ≡ actor.old.port }
        ensures places { KnowsTheSame actor.old.pass.view actor.new.pass.view }
        ensures called { ComesOut done_of result actor.old.pass.view (Once (MakeDir path.now)) [] actor.new.pass.view }
    {
        self.done_alone(rt, actor, &Call::MakeDir { path: *path })
    }

    /// Removes a directory of the tree.
    ///
    /// `Inval` where the path isn't of a directory's form; `NoEnt` where it isn't there; `Busy` where its device is live or
    /// leaving, or a directory is inside; `Full` where the history is full.
    pub fn rmdir<R: Wait>(&self, rt: &R, actor: &mut Actor<D>, path: &Path) -> Result<(), Errno>
        requires actor { IsActorOf self.now actor.old }
        ensures actor { IsActorOf self.now actor.new }
        ensures same { IsSameActor actor.old.pass.view actor.new.pass.view }
        ensures port { actor.new.port ≡ actor.old.port }
        ensures places { KnowsTheSame actor.old.pass.view actor.new.pass.view }
        ensures called { ComesOut done_of result actor.old.pass.view (Once (RemoveDir path.now)) [] actor.new.pass.view }
    {
        self.done_alone(rt, actor, &Call::RemoveDir { path: *path })
    }

    /// Writes a value to a file of the tree. `DEV/live` is none of them: see [`live`](Gpio::live).
    ///
    /// `Inval` where the path isn't of such a file's form; `NoEnt` where its directory isn't there; `Perm` for `chip_name`; `Busy`
    /// where the device is live or leaving; `Inval` where the file doesn't take the value; `Full` where the history is full.
    pub fn write<R: Wait>(
        &self,
        rt: &R,
        actor: &mut Actor<D>,
        path: &Path,
        value: &Name,
    ) -> Result<(), Errno>
        requires actor { IsActorOf self.now actor.old }
        ensures actor { IsActorOf self.now actor.new }
        ensures same { IsSameActor actor.old.pass.view actor.new.pass.view }
        ensures port { actor.new.port ≡ actor.old.port }
        ensures places { KnowsTheSame actor.old.pass.view actor.new.pass.view }
        ensures called { ComesOut done_of result actor.old.pass.view (Once (WriteCall path.now value.now)) [] actor.new.pass.view }
    {
        // That a name has at most 31 bytes is known once it is read.
        let _name = value.as_bytes();
        self.done_alone(
            rt,
            actor,
            &Call::Write {
                path: *path,
                value: *value,
            },
        )
    }

    /// Reads a file of the tree, `DEV/live` among them.
    ///
    /// `Inval` where the path isn't of a file's form; `NoEnt` where its directory isn't there; `Full` where the history is full.
    pub fn read<R: Wait>(&self, rt: &R, actor: &mut Actor<D>, path: &Path) -> Result<Name, Errno>
        requires actor { IsActorOf self.now actor.old }
        ensures actor { IsActorOf self.now actor.new }
        ensures same { IsSameActor actor.old.pass.view actor.new.pass.view }
        ensures port { actor.new.port ≡ actor.old.port }
        ensures places { KnowsTheSame actor.old.pass.view actor.new.pass.view }
        ensures called { ComesOut text_of result actor.old.pass.view (Once (ReadCall path.now)) [] actor.new.pass.view }
    {
        match self.bare(rt, actor, &Call::Read { path: *path }) {
            Ok(reply) => results::text(reply),
            Err(errno) => Err(errno),
        }
    }
}
