//! Any call of the device, as one value.

ghost use Rattle.std.specs.Prelude.{◌≡◌, ◌≢◌, ◌<◌, ◌^◌, ◌++◌, ℕ, List, length, drop, IfOk, IfErr, IfSome};
ghost use Rattle.gl_base.specs.Count.{Rises};
ghost use Rattle.gl_base.specs.Lines.{IsLineCount};
ghost use Rattle.gl_base.specs.declared.errno.Errno.TheVariants.{Full, NoMemory};
ghost use Rattle.gl_base.specs.declared.limits.TheConstants.{PLACES};
ghost use Rattle.gl_world.specs.Deeds.{entries_in};
ghost use Rattle.gl_world.specs.Events.{DrainedStaysEmpty};
ghost use Rattle.gl_rule.specs.Laws.{KnownDrainedStaysEmpty};
ghost use Rattle.gl_model.specs.declared.device_call.DeviceCall.TheVariants.{Commanding, Removing};
ghost use Rattle.gl_model.specs.declared.reply.Reply.TheVariants.{Number, Refused};
ghost use Rattle.gl_asking.specs.declared.kinds.FileKind.TheVariants.{Chip};
ghost use Rattle.gl_asking.specs.Fitting.{FitsDevice};
ghost use Rattle.gl_asking.specs.Handed.{command_in};
ghost use Rattle.gl_asking.specs.Rows.{HasLines, IsOn, is_chip};
ghost use Rattle.gl_chip.specs.Called.{HasCalled};
ghost use Rattle.gl_chip.specs.DriverCommands.{HasCommanded, IsOp};
ghost use Rattle.gl_asking.specs.Driving.{op_for};
ghost use Rattle.gl_chip.specs.Held.{given_up_in, is_close, is_given_up, kind_in, row_in};
ghost use Rattle.gl_chip.specs.Orders.{AnswersByEntries, AnswersOrder, Brings, CouldNot, EndsOrder, FitsOrder, GivesLines, GivesOn, HasDone, KnowsAfter, KnowsRemoved, RefusedInOrder, WroteByForm, WroteTo, answered_of, lines_on, op_ordered};
ghost use Rattle.gl_driver.specs.Told.{PortAfter};
ghost use Rattle.gl_core.specs.Device.{tells_in};
ghost use Rattle.gl_chip.specs.Steps.{FoundNoRoom};
ghost use Rattle.gl_chip.specs.Values.{IsActorOf, IsSameActor};
ghost use Rattle.gl_core.specs.Device.{core};

use crate::actor::Actor;
use crate::bringing::brought;
use crate::gpio::Gpio;
use crate::held::{Answer, Handed, HeldFile};
use gl_asking::parts::first_call;
use gl_asking::{Answered, FileKind};
use gl_base::Errno;
use gl_core::{Core, Gift, Reply};
use gl_driver::Driver;
use gl_model::{CommandIn, DeviceCall, RemovalOf};
use gl_rule::known_drained_stays_empty;
use gl_world::drained_stays_empty;
use std::alloc::Global;
use std::sync::Wait;

/// A call of the device, with what it has of the file that it acts on. It is made once: `Gpio::call` takes it.
#[derive(Drop)]
pub struct Order<'o> {
    /// The call.
    pub(crate) call: &'o DeviceCall,
    /// What it has of its file.
    pub(crate) file: Handed<'o>,
}

impl<'o> Order<'o> {
    /// A call of the device, on this file where it acts on one. A close wants its file given up, and every other call that acts on a file has it
    /// lent. The lines of a request are the file's.
    pub fn of(call: &'o DeviceCall, file: Handed<'o>) -> Order<'o>
        requires on { IsOn call.now (row_in file) }
        requires given_up { is_given_up file ≡ is_close call.now }
        ensures call { result.call.now ≡ call.now }
        ensures file { row_in result.file ≡ row_in file.entry }
        ensures given_up { given_up_in result.file ≡ given_up_in file.entry }
    {
        Order { call, file }
    }

    /// The file that was given up, for a close: an order that comes back from `Gpio::call` was not carried out, so this file is open.
    pub fn into_file(self) -> Option<HeldFile>
        ensures { result ≡ given_up_in self.entry.file }
    {
        self.file.into_given_up()
    }
}

/// A call of the device, and what the file is of that a command is on. For other calls that means nothing.
#[derive(Clone, Copy)]
pub(crate) struct CallOn<'a> {
    /// The call.
    pub(crate) call: &'a DeviceCall,
    /// What the command's file is of: of a request, its lines.
    pub(crate) on: &'a FileKind,
}

/// A command, and what its file is of.
#[derive(Clone, Copy)]
struct OnFile<'a> {
    command: &'a CommandIn,
    on: &'a FileKind,
}

impl<D: Driver<Core>> Gpio<D> {
    /// A removal.
    fn order_removal<R: Wait>(
        &self,
        rt: &R,
        actor: &mut Actor<D>,
        removal: &RemovalOf,
    ) -> Result<Reply, Errno>
        requires actor { IsActorOf self.now actor.old }
        requires fits { FitsDevice (Removing removal.now) }
        ensures actor { IsActorOf self.now actor.new }
        ensures same { IsSameActor actor.old.pass.view actor.new.pass.view }
        ensures done { IfOk result (λ r. (bytes : List ℕ)
            × HasDone D.Port.told D.Port.faults D.Port.maps D.Port.maps_left D.OwnEntries D.Follows D.ENTRIES (Removing removal.now) Chip actor.old r bytes actor.new) }
        ensures form { IfOk result (λ r. AnswersOrder (Removing removal.now) Chip r) }
        ensures ended { IfOk result (λ r. EndsOrder (Removing removal.now) r actor.old.pass.view actor.new.pass.view) }
        ensures places { IfOk result (λ r. KnowsRemoved removal.now r actor.old.pass.view actor.new.pass.view) }
        ensures full { IfErr result (λ e. (e ≡ Full) × (actor.new.port ≡ actor.old.port) × FoundNoRoom core actor.old.pass.view actor.new.pass.view) }
    {
        self.remove_by(rt, actor, &first_call(removal))
    }

    /// A command on an open file of this kind, with what its ask brings.
    fn order_command<R: Wait>(
        &self,
        rt: &R,
        actor: &mut Actor<D>,
        order: &OnFile<'_>,
        gift: &mut Gift,
        out: &mut [u8],
    ) -> Result<Answered, Errno>
        requires actor { IsActorOf self.now actor.old }
        requires place { order.now.command.now.place < PLACES }
        requires file { (order.now.command.now.of_chip ≡ is_chip order.now.on.now) × HasLines order.now.on.now }
        requires handed { let c = order.now.command.now in c ≡ command_in c.place c.fd c.of_chip c.cmd out.old }
        requires brings { Brings (Commanding order.now.command.now) gift.old }
        ensures actor { IsActorOf self.now actor.new }
        ensures same { IsSameActor actor.old.pass.view actor.new.pass.view }
        ensures commanded { let c = order.now.command.now in IfOk result (λ r. (bytes : List ℕ) × (out.new ≡ bytes ++ drop (length bytes) out.old)
            × HasCommanded D.Port.told D.Port.faults D.Port.maps D.Port.maps_left D.OwnEntries D.Follows D.ENTRIES (op_for (lines_on order.now.on.now c) c) actor.old c r.reply bytes actor.new) }
        ensures number { let c = order.now.command.now in IfOk result (λ r. (n : ℕ) → r.reply ≡ Number n → (n < 2 ^ 31) × IsOp (op_for (lines_on order.now.on.now c) c)) }
        ensures lines { IfOk result (GivesOn order.now.on.now order.now.command.now) }
        ensures counts { IfOk result (λ r. IfSome r.lines (λ lines. IsLineCount lines.count)) }
        ensures full { IfErr result (λ e. (e ≡ Full) × (out.new ≡ out.old) × (actor.new.port ≡ actor.old.port)
            × FoundNoRoom core actor.old.pass.view actor.new.pass.view) }
    {
        match order.on {
            FileKind::Chip => self.command_on_chip(rt, actor, order.command, gift, out),
            FileKind::Request(lines) => {
                match self.command_on_request(rt, actor, order.command, lines, out) {
                    Ok(reply) => Ok(Answered::without_lines(reply)),
                    Err(errno) => Err(errno),
                }
            }
        }
    }

    /// Carries a call of the device out, with the memory that it brings. Every call of the device goes this way: one call of the machine,
    /// with the guard that it needs, if it needs one, a removal, or a command on an open file, which may ask the driver.
    ///
    /// `Full` where the history is full; that is its only error.
    pub(crate) fn carry<R: Wait>(
        &self,
        rt: &R,
        actor: &mut Actor<D>,
        order: &CallOn<'_>,
        gift: &mut Gift,
        out: &mut [u8],
    ) -> Result<Answered, Errno>
        requires actor { IsActorOf self.now actor.old }
        requires fits { FitsOrder order.now.call.now order.now.on.now out.old }
        requires brings { Brings order.now.call.now gift.old }
        ensures actor { IsActorOf self.now actor.new }
        ensures same { IsSameActor actor.old.pass.view actor.new.pass.view }
        ensures done { IfOk result (λ r. (bytes : List ℕ) × WroteTo order.now.call.now bytes out.old out.new
            × HasDone D.Port.told D.Port.faults D.Port.maps D.Port.maps_left D.OwnEntries D.Follows D.ENTRIES order.now.call.now order.now.on.now actor.old r.reply bytes actor.new) }
        ensures form { IfOk result (λ r. AnswersOrder order.now.call.now order.now.on.now r.reply) }
        ensures lengths { IfOk result (λ r. WroteByForm order.now.call.now out.old out.new r.reply) }
        ensures ended { IfOk result (λ r. EndsOrder order.now.call.now r.reply actor.old.pass.view actor.new.pass.view) }
        ensures lines { IfOk result (GivesLines order.now.call.now order.now.on.now) }
        ensures counts { IfOk result (λ r. IfSome r.lines (λ lines. IsLineCount lines.count)) }
        ensures places { KnowsAfter order.now.call.now result actor.old.pass.view actor.new.pass.view }
        ensures full { IfErr result (λ e. (e ≡ Full) × (out.new ≡ out.old) × (actor.new.port ≡ actor.old.port)
            × FoundNoRoom core actor.old.pass.view actor.new.pass.view) }
    {
        match order.call {
            DeviceCall::Once(call) => match self.once(rt, actor, call, gift, out) {
                Ok(reply) => Ok(Answered::without_lines(reply)),
                Err(errno) => Err(errno),
            },
            DeviceCall::Removing(removal) => match self.order_removal(rt, actor, removal) {
                Ok(reply) => Ok(Answered::without_lines(reply)),
                Err(errno) => Err(errno),
            },
            DeviceCall::Commanding(command) => {
                let order = OnFile {
                    command,
                    on: order.on,
                };
                self.order_command(rt, actor, &order, gift, out)
            }
        }
    }

    /// A call of the device: one call of the machine, a removal, or a command on an open file with its buffer, which the call may
    /// write. It answers the reply of its last entry, also where that is a refusal, and with it the lines of a request that it made on a
    /// chip (`lines`). After a removal nobody is inside its places, then or later, and its second entry is done where its first one was
    /// (`ended`). What the tell of a command is answered is the answer (`told`), and the first faulty line decides (`first_faulty`).
    ///
    /// An open's queue and the ring of GET_LINE are taken before the first entry. `NoMemory` where one found no memory, and then
    /// nothing was done; no other call answers it. `Full` where the history is full. These two are its only errors. The order comes back
    /// with them, and with it a file that was given up (`Order::into_file`); of a close that is refused the answer has the file
    /// (`Answer::into_file`).
    ///
    /// Over a driver that makes no entries of its own, the port becomes what the answers in the call's entries say (`port`).
    pub fn call<'o, R: Wait>(
        &self,
        rt: &R,
        alloc: Global,
        actor: &mut Actor<D>,
        order: Order<'o>,
        out: &mut [u8],
    ) -> Result<Answer<'o>, (Order<'o>, Errno)>
        requires actor { IsActorOf self.now actor.old }
        requires fits { FitsOrder order.call.now (kind_in order.file) out.old }
        ensures actor { IsActorOf self.now actor.new }
        ensures call { IfOk result (λ r. r.order.call.now ≡ order.entry.call.now) }
        ensures file { IfOk result (λ r. row_in r.order.file ≡ row_in order.entry.file) }
        ensures given_up { IfOk result (λ r. given_up_in r.order.file ≡ given_up_in order.entry.file) }
        ensures same { IsSameActor actor.old.pass.view actor.new.pass.view }
        ensures done { IfOk result (λ r. (bytes : List ℕ) × WroteTo order.entry.call.now bytes out.old out.new
            × HasDone D.Port.told D.Port.faults D.Port.maps D.Port.maps_left D.OwnEntries D.Follows D.ENTRIES order.entry.call.now (kind_in order.entry.file) actor.old r.answered.reply bytes actor.new) }
        ensures port { D.ENTRIES ≡ 0 → IfOk result (λ r. (bytes : List ℕ) × WroteTo order.entry.call.now bytes out.old out.new
            × (called : HasCalled 0 actor.old.pass.view order.entry.call.now r.answered.reply bytes actor.new.pass.view)
            × PortAfter D.is_planned (op_ordered order.entry.call.now (kind_in order.entry.file)) (tells_in (entries_in called.did)) (D.Port.told actor.old.port) (D.Port.told actor.new.port)) }
        ensures form { IfOk result (λ r. AnswersOrder order.entry.call.now (kind_in order.entry.file) r.answered.reply) }
        ensures lines { IfOk result (λ r. GivesLines order.entry.call.now (kind_in order.entry.file) r.answered) }
        ensures ended { IfOk result (λ r. EndsOrder order.entry.call.now r.answered.reply actor.old.pass.view actor.new.pass.view) }
        ensures told { IfOk result (λ r. AnswersByEntries order.entry.call.now r.answered.reply actor.old.pass.view actor.new.pass.view) }
        ensures first_faulty { IfOk result (λ r. RefusedInOrder (Rises (D.Port.faults actor.old.port) (D.Port.faults actor.new.port)) order.entry.call.now (kind_in order.entry.file) r.answered.reply actor.old.pass.view actor.new.pass.view) }
        ensures stays_empty { DrainedStaysEmpty core }
        ensures nobody_inside { KnownDrainedStaysEmpty core }
        ensures places { KnowsAfter order.entry.call.now (answered_of result) actor.old.pass.view actor.new.pass.view }
        ensures not_full { IfOk result (λ r. r.answered.reply ≢ Refused Full) }
        ensures not_memory { IfOk result (λ r. r.answered.reply ≢ Refused NoMemory) }
        ensures could_not { IfErr result (λ refused. CouldNot order.entry.call.now refused.1 actor.old actor.new × (out.new ≡ out.old)) }
        ensures order { IfErr result (λ refused. refused.0 ≡ order.entry) }
    {
        drained_stays_empty::<Core>();
        known_drained_stays_empty::<Core>();
        // What holds of every actor is known once it has told its number.
        let _before = actor.number();
        match brought(order.call, alloc) {
            Err(errno) => Err((order, errno)),
            Ok(mut gift) => {
                let on = order.file.kind();
                let ordered = CallOn {
                    call: order.call,
                    on: &on,
                };
                match self.carry(rt, actor, &ordered, &mut gift, out) {
                    Ok(answered) => {
                        let _after = actor.number();
                        Ok(Answer { order, answered })
                    }
                    Err(errno) => Err((order, errno)),
                }
            }
        }
    }
}
