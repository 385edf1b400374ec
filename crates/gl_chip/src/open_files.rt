//! Calls on open files that ask no driver: polls, reads and closes.

ghost use Rattle.std.specs.Prelude.{◌≡◌, ◌<◌, ◌^◌, ◌++◌, ℕ, List, [], length, drop, IfErr};
ghost use Rattle.gl_gate.specs.Calls.{KnowsTheSame};
ghost use Rattle.gl_model.specs.declared.call.Call.TheVariants.{Close, PollChip as PollChipCall, PollLine as PollLineCall, ReadEdges, ReadInfo};
ghost use Rattle.gl_model.specs.declared.device_call.DeviceCall.TheVariants.{Once};
ghost use Rattle.gl_chip.specs.Called.{ComesOut};
ghost use Rattle.gl_chip.specs.Files.{plain_result};
ghost use Rattle.gl_asking.specs.Results.{done_of, number_of, ready_of};
ghost use Rattle.gl_chip.specs.Values.{IsActorOf, IsSameActor};

use crate::actor::Actor;
use crate::files::{ChipFd, LineFd};
use crate::gpio::Gpio;
use crate::numbers;
use gl_asking::results;
use gl_base::Errno;
use gl_core::{Call, Core, Gift};
use gl_driver::Driver;
use std::sync::Wait;

impl<D: Driver<Core>> Gpio<D> {
    /// Asks whether a change of a watched line waits at a chip file: bit 0 where one does. 6, which is bits 1 and 2 (an error and
    /// a hang-up), where the removal of its chip had closed the place.
    ///
    /// `BadF` where no open file has this number at this place; `Inval` where a request has it; `Full` where the history is full.
    pub fn poll_chip<R: Wait>(&self, rt: &R, actor: &mut Actor<D>, fd: &ChipFd) -> Result<u8, Errno>
        requires actor { IsActorOf self.now actor.old }
        ensures actor { IsActorOf self.now actor.new }
        ensures same { IsSameActor actor.old.pass.view actor.new.pass.view }
        ensures port { actor.new.port ≡ actor.old.port }
        ensures called { ComesOut ready_of result actor.old.pass.view (Once (PollChipCall fd.now.place fd.now.fd)) [] actor.new.pass.view }
    {
        let (place, fd) = (fd.place, fd.fd);
        match self.bare(rt, actor, &Call::PollChip { place, fd }) {
            Ok(reply) => results::ready(reply),
            Err(errno) => Err(errno),
        }
    }

    /// Asks whether an event of a request waits: bit 0 where one does. 6, which is bits 1 and 2 (an error and a hang-up), where
    /// the removal of its chip had closed the place.
    ///
    /// `BadF` where no open file has this number at this place; `Inval` where a chip file has it; `Full` where the history is
    /// full.
    pub fn poll_line<R: Wait>(&self, rt: &R, actor: &mut Actor<D>, fd: &LineFd) -> Result<u8, Errno>
        requires actor { IsActorOf self.now actor.old }
        ensures actor { IsActorOf self.now actor.new }
        ensures same { IsSameActor actor.old.pass.view actor.new.pass.view }
        ensures port { actor.new.port ≡ actor.old.port }
        ensures called { ComesOut ready_of result actor.old.pass.view (Once (PollLineCall fd.now.place fd.now.fd)) [] actor.new.pass.view }
    {
        let (place, fd) = (fd.place, fd.fd);
        match self.bare(rt, actor, &Call::PollLine { place, fd }) {
            Ok(reply) => results::ready(reply),
            Err(errno) => Err(errno),
        }
    }

    /// Reads changes of watched lines, as many as wait and the buffer has room for, and tells how many bytes it gave.
    ///
    /// `BadF` where no open file has this number at this place; `Inval` where a request has it, or the buffer is below 288 bytes;
    /// `Again` where nothing waits; `NoDev` where the removal of the chip had closed the place; `Full` where the history is full.
    pub fn read_info<R: Wait>(
        &self,
        rt: &R,
        actor: &mut Actor<D>,
        fd: &ChipFd,
        buf: &mut [u8],
    ) -> Result<u32, Errno>
        requires actor { IsActorOf self.now actor.old }
        requires length { length buf.old < 2 ^ 32 }
        ensures actor { IsActorOf self.now actor.new }
        ensures same { IsSameActor actor.old.pass.view actor.new.pass.view }
        ensures port { actor.new.port ≡ actor.old.port }
        ensures called { (bytes : List ℕ) × (buf.new ≡ bytes ++ drop (length bytes) buf.old)
            × ComesOut number_of result actor.old.pass.view (Once (ReadInfo fd.now.place fd.now.fd (length buf.old))) bytes actor.new.pass.view }
    {
        let (place, fd) = (fd.place, fd.fd);
        let len = buf.len() as u32;
        match self.one_call(
            rt,
            actor,
            &Call::ReadInfo { place, fd, len },
            &mut Gift::nothing(),
            buf,
        ) {
            Ok(reply) => numbers::count(reply),
            Err(errno) => Err(errno),
        }
    }

    /// Reads events of a request, as many as wait and the buffer has room for, and tells how many bytes it gave.
    ///
    /// `BadF` where no open file has this number at this place; `Inval` where a chip file has it, or the buffer is below 48 bytes;
    /// `Again` where nothing waits; `NoDev` where the removal of the chip had closed the place; `Full` where the history is full.
    pub fn read_edges<R: Wait>(
        &self,
        rt: &R,
        actor: &mut Actor<D>,
        fd: &LineFd,
        buf: &mut [u8],
    ) -> Result<u32, Errno>
        requires actor { IsActorOf self.now actor.old }
        requires length { length buf.old < 2 ^ 32 }
        ensures actor { IsActorOf self.now actor.new }
        ensures same { IsSameActor actor.old.pass.view actor.new.pass.view }
        ensures port { actor.new.port ≡ actor.old.port }
        ensures called { (bytes : List ℕ) × (buf.new ≡ bytes ++ drop (length bytes) buf.old)
            × ComesOut number_of result actor.old.pass.view (Once (ReadEdges fd.now.place fd.now.fd (length buf.old))) bytes actor.new.pass.view }
    {
        let (place, fd) = (fd.place, fd.fd);
        let len = buf.len() as u32;
        match self.one_call(
            rt,
            actor,
            &Call::ReadEdges { place, fd, len },
            &mut Gift::nothing(),
            buf,
        ) {
            Ok(reply) => numbers::count(reply),
            Err(errno) => Err(errno),
        }
    }

    /// Closes a chip, in every phase of it. Where it is refused, the file comes back.
    ///
    /// `BadF` where no open file has its number; `Full` where the history is full.
    pub fn close_chip<R: Wait>(
        &self,
        rt: &R,
        actor: &mut Actor<D>,
        fd: ChipFd,
    ) -> Result<(), (ChipFd, Errno)>
        requires actor { IsActorOf self.now actor.old }
        ensures actor { IsActorOf self.now actor.new }
        ensures same { IsSameActor actor.old.pass.view actor.new.pass.view }
        ensures port { actor.new.port ≡ actor.old.port }
        ensures places { KnowsTheSame actor.old.pass.view actor.new.pass.view }
        ensures called { ComesOut done_of (plain_result result) actor.old.pass.view (Once (Close fd.fd)) [] actor.new.pass.view }
        ensures file { IfErr result (λ refused. refused.0 ≡ fd) }
    {
        match self.done_alone(rt, actor, &Call::Close { fd: fd.fd }) {
            Ok(()) => Ok(()),
            Err(errno) => Err((fd, errno)),
        }
    }

    /// Closes a request, in every phase of its chip: its lines are free then. Where it is refused, the file comes back.
    ///
    /// `BadF` where no open file has its number; `Full` where the history is full.
    pub fn close_line<R: Wait>(
        &self,
        rt: &R,
        actor: &mut Actor<D>,
        fd: LineFd,
    ) -> Result<(), (LineFd, Errno)>
        requires actor { IsActorOf self.now actor.old }
        ensures actor { IsActorOf self.now actor.new }
        ensures same { IsSameActor actor.old.pass.view actor.new.pass.view }
        ensures port { actor.new.port ≡ actor.old.port }
        ensures places { KnowsTheSame actor.old.pass.view actor.new.pass.view }
        ensures called { ComesOut done_of (plain_result result) actor.old.pass.view (Once (Close fd.fd)) [] actor.new.pass.view }
        ensures file { IfErr result (λ refused. refused.0 ≡ fd) }
    {
        match self.done_alone(rt, actor, &Call::Close { fd: fd.fd }) {
            Ok(()) => Ok(()),
            Err(errno) => Err((fd, errno)),
        }
    }
}
