//! Calls of the device as one actor makes them, one after another: no other actor is there, so no place is left between two calls of
//! a removal, and the guard of a place is closed just where its chip is gone.

ghost use Rattle.std.specs.Prelude.{◌≡◌, ◌<◌, None, Some, IfOk, IfSome, OnErr, IsOkUnless};
ghost use Rattle.gl_asking.specs.Fitting.{FitsDevice};
ghost use Rattle.gl_base.specs.declared.limits.TheConstants.{PLACES};
ghost use Rattle.gl_core.specs.Kept.{StandsFor};
ghost use Rattle.gl_model.specs.Chips.{phase_at};
ghost use Rattle.gl_model.specs.Entries.{last_call};
ghost use Rattle.gl_model.specs.Fits.{Fits, FitsBuffer, FitsCall};
ghost use Rattle.gl_model.specs.Parts.{first_call, guard_of, in_ask, in_tell, is_poll};
ghost use Rattle.gl_model.specs.Step.{step};
ghost use Rattle.gl_model.specs.World.{World};
ghost use Rattle.gl_model.specs.declared.device_call.DeviceCall.TheVariants.{Commanding, Removing};
ghost use Rattle.gl_check.specs.One.{comes_to, goes_on, inside, is_asked, is_gone, two};
ghost use Rattle.gl_served.specs.Making.{Came, CameBy, FitsMaking, is_asked_inside, is_command_asked};
ghost use Rattle.gl_served.specs.Opening.{GivesLines, LinesFit, NumberFits, NumbersBy, lines_brought};
ghost use Rattle.gl_check.specs.Seating.{port_in};
ghost use Rattle.gl_served.specs.Port.{after_asking, next_to};

use gl_asking::parts::{applies, first_call, in_part, is_poll, last_call};
use gl_base::{Errno, Lines, Phase};
use gl_check::Planned;
use gl_core::Core;
use gl_core::entries::{begins, place_of};
use gl_core::fits::gift_for;
use gl_core::laws::core_is_well_kept;
use gl_model::{Call, CommandIn, DeviceCall, Gift, Part, RemovalOf, Reply, is_driver_asked};
use gl_world::Machine;
use std::alloc::Global;

/// What a call of the device came to.
#[derive(Drop)]
pub struct Made {
    /// What it was answered.
    pub reply: Reply,
    /// The lines that it asked for, where it made a request of lines. Only then do they mean something.
    pub lines: Option<Lines>,
    /// Its buffer.
    pub buffer: Vec<u8>,
}

/// The lines that a call asks for by what it brings, where its bytes alone don't have it refused.
fn lines_brought(gift: &Gift) -> Option<Lines>
    ensures { result ≡ lines_brought gift.now.asked }
{
    match &gift.asked {
        None => None,
        Some(brought) => match brought {
            Err(_) => None,
            Ok(asked) => Some(*asked.lines()),
        },
    }
}

/// Makes a call of the machine.
fn step(core: &mut Core, call: &Call, gift: Gift, buffer: Vec<u8>) -> Made
    requires { Fits call.now gift buffer.items }
    ensures came { (w : World) → StandsFor core.old w → Came (step w 0 call.now) result.reply core.new buffer.items result.buffer.items }
    ensures number { NumberFits call.now result.reply }
    ensures lines { LinesFit call.now result.reply result.lines }
{
    core_is_well_kept(core);
    let lines = lines_brought(&gift);
    let mut gift = gift;
    let mut buffer = buffer;
    let reply = core.step(0, call, &mut gift, &mut buffer);
    Made {
        reply,
        lines,
        buffer,
    }
}

/// Makes one call of the machine, with the memory that it needs.
fn make_one(core: &mut Core, alloc: Global, call: &Call, buffer: Vec<u8>) -> Result<Made, Errno>
    requires call { FitsCall call.now }
    requires buffer { FitsBuffer call.now buffer.items }
    ensures made { (w : World) → StandsFor core.old w → IfOk result (λ made. Came (step w 0 call.now) made.reply core.new buffer.items made.buffer.items) }
    ensures number { IfOk result (λ made. NumberFits call.now made.reply) }
    ensures lines { IfOk result (λ made. LinesFit call.now made.reply made.lines) }
    ensures kept { OnErr result (core.new ≡ core.old) }
    ensures memory_alone { IsOkUnless result Errno.NoMemory }
{
    match gift_for(call, alloc) {
        Ok(gift) => Ok(step(core, call, gift, buffer)),
        Err(errno) => Err(errno),
    }
}

/// A removal.
fn remove(
    core: &mut Core,
    alloc: Global,
    removal: &RemovalOf,
    buffer: Vec<u8>,
) -> Result<Made, Errno>
    requires fits { FitsDevice (Removing removal.now) }
    requires buffer { FitsMaking (Removing removal.now) buffer.items }
    ensures made { (w : World) → StandsFor core.old w → IfOk result (λ made. CameBy (Removing removal.now) (two w (first_call removal.now) (last_call (first_call removal.now))) made.reply core.new buffer.items made.buffer.items) }
    ensures kept { OnErr result (core.new ≡ core.old) }
    ensures memory_alone { IsOkUnless result Errno.NoMemory }
{
    let first = first_call(removal);
    match make_one(core, alloc, &first, buffer) {
        Ok(made) => Ok(end_removal(core, alloc, removal, &first, made)),
        Err(errno) => Err(errno),
    }
}

/// The last call of a removal whose first one came to this, where that began it.
fn end_removal(
    core: &mut Core,
    alloc: Global,
    removal: &RemovalOf,
    first: &Call,
    made: Made,
) -> Made
    requires first { first.now ≡ first_call removal.now }
    requires fits { FitsCall first.now }
    ensures made { (w : World) → StandsFor core.old (step w 0 first.now).world → made.reply ≡ (step w 0 first.now).reply
        → (StandsFor core.new (two w first.now (last_call (first_call removal.now))).world) × (result.reply ≡ (two w first.now (last_call (first_call removal.now))).reply) }
{
    if begins(first, &made.reply) {
        step(core, &last_call(first), Gift::nothing(), Vec::new(alloc))
    } else {
        made
    }
}

/// A command for which the driver may be asked.
fn drive(
    core: &mut Core,
    alloc: Global,
    port: &mut Planned,
    command: &CommandIn,
    buffer: Vec<u8>,
) -> Result<Made, Errno>
    requires fits { FitsDevice (Commanding command.now) }
    requires buffer { FitsBuffer (in_ask command.now) buffer.items }
    ensures made { (w : World) → StandsFor core.old w → IfOk result (λ made.
        Came (two w (in_ask command.now) (in_tell (next_to (Commanding command.now) (port_in port.old)) command.now)) made.reply core.new buffer.items made.buffer.items
        × (port_in port.new ≡ after_asking (goes_on w (in_ask command.now)) (port_in port.old))) }
    ensures number { IfOk result (λ made. NumbersBy (Commanding command.now) made.reply) }
    ensures lines { IfOk result (λ made. GivesLines (Commanding command.now) made.reply made.lines) }
    ensures kept { OnErr result ((core.new ≡ core.old) × (port_in port.new ≡ port_in port.old)) }
    ensures memory_alone { IsOkUnless result Errno.NoMemory }
{
    let spare = buffer.to_vec(alloc)?;
    let ask = in_part(command, Part::Ask);
    match make_one(core, alloc, &ask, buffer) {
        Ok(made) => Ok(tell(core, port, command, &ask, made, spare)),
        Err(errno) => Err(errno),
    }
}

/// The tell of a command whose ask came to this, where that was answered Go.
fn tell(
    core: &mut Core,
    port: &mut Planned,
    command: &CommandIn,
    ask: &Call,
    made: Made,
    spare: Vec<u8>,
) -> Made
    requires fits { FitsDevice (Commanding command.now) }
    requires ask { ask.now ≡ in_ask command.now }
    requires buffer { FitsBuffer (in_ask command.now) spare.items }
    requires number { NumbersBy (Commanding command.now) made.reply }
    requires lines { LinesFit ask.now made.reply made.lines }
    ensures made { (w : World) → Came (step w 0 (in_ask command.now)) made.reply core.old spare.items made.buffer.items
        → Came (two w (in_ask command.now) (in_tell (next_to (Commanding command.now) (port_in port.old)) command.now)) result.reply core.new spare.items result.buffer.items
        × (port_in port.new ≡ after_asking (goes_on w (in_ask command.now)) (port_in port.old)) }
    ensures number { NumbersBy (Commanding command.now) result.reply }
    ensures lines { GivesLines (Commanding command.now) result.reply result.lines }
{
    if begins(ask, &made.reply) {
        let answer = port.next_answer(applies(command.cmd));
        port.count();
        let tell = in_part(command, Part::Tell(answer));
        let lines = made.lines;
        let Made { reply, buffer, .. } = step(core, &tell, Gift::nothing(), spare);
        Made {
            reply,
            lines,
            buffer,
        }
    } else {
        made
    }
}

/// A command.
fn command(
    core: &mut Core,
    alloc: Global,
    port: &mut Planned,
    command: &CommandIn,
    buffer: Vec<u8>,
) -> Result<Made, Errno>
    requires fits { FitsDevice (Commanding command.now) }
    requires buffer { FitsBuffer (in_ask command.now) buffer.items }
    ensures made { (w : World) → StandsFor core.old w → IfOk result (λ made.
        CameBy (Commanding command.now) (inside w (Commanding command.now) (next_to (Commanding command.now) (port_in port.old))) made.reply core.new buffer.items made.buffer.items
        × (port_in port.new ≡ after_asking (is_command_asked w command.now) (port_in port.old))) }
    ensures number { IfOk result (λ made. NumbersBy (Commanding command.now) made.reply) }
    ensures lines { IfOk result (λ made. GivesLines (Commanding command.now) made.reply made.lines) }
    ensures kept { OnErr result ((core.new ≡ core.old) × (port_in port.new ≡ port_in port.old)) }
    ensures memory_alone { IsOkUnless result Errno.NoMemory }
{
    if is_driver_asked(command) {
        drive(core, alloc, port, command, buffer)
    } else {
        make_one(core, alloc, &in_part(command, Part::Whole), buffer)
    }
}

/// A call of the device that its guard lets in.
fn make_inside(
    core: &mut Core,
    alloc: Global,
    port: &mut Planned,
    call: &DeviceCall,
    buffer: Vec<u8>,
) -> Result<Made, Errno>
    requires fits { FitsDevice call.now }
    requires buffer { FitsMaking call.now buffer.items }
    ensures made { (w : World) → StandsFor core.old w → IfOk result (λ made.
        CameBy call.now (inside w call.now (next_to call.now (port_in port.old))) made.reply core.new buffer.items made.buffer.items
        × (port_in port.new ≡ after_asking (is_asked_inside w call.now) (port_in port.old))) }
    ensures number { IfOk result (λ made. NumbersBy call.now made.reply) }
    ensures lines { IfOk result (λ made. GivesLines call.now made.reply made.lines) }
    ensures kept { OnErr result ((core.new ≡ core.old) × (port_in port.new ≡ port_in port.old)) }
    ensures memory_alone { IsOkUnless result Errno.NoMemory }
{
    match call {
        DeviceCall::Once(call) => make_one(core, alloc, call, buffer),
        DeviceCall::Removing(removal) => remove(core, alloc, removal, buffer),
        DeviceCall::Commanding(handed) => command(core, alloc, port, handed, buffer),
    }
}

/// Whether the guard of a place is closed: its chip is gone.
fn is_closed(core: &Core, place: u8) -> bool
    ensures { (w : World) → StandsFor core.now w → result ≡ is_gone (phase_at w place) }
{
    match core.phase(place) {
        Phase::Gone => true,
        Phase::Absent | Phase::Up | Phase::Leaving => false,
    }
}

/// The place whose guard a call of the device enters.
fn guard_of(call: &DeviceCall) -> Option<u8>
    requires { FitsDevice call.now }
    ensures guard { result ≡ guard_of call.now }
    ensures below { IfSome result (λ place. place < PLACES) }
{
    match call {
        DeviceCall::Once(call) => place_of(call),
        DeviceCall::Removing(_) => None,
        DeviceCall::Commanding(command) => Some(command.place),
    }
}

/// A call of the device is a poll.
fn polls(call: &DeviceCall) -> bool
    ensures { result ≡ is_poll call.now }
{
    match call {
        DeviceCall::Once(call) => is_poll(call),
        DeviceCall::Removing(_) | DeviceCall::Commanding(_) => false,
    }
}

/// A call of the device.
pub fn make(
    core: &mut Core,
    alloc: Global,
    port: &mut Planned,
    call: &DeviceCall,
    buffer: Vec<u8>,
) -> Result<Made, Errno>
    requires fits { FitsDevice call.now }
    requires buffer { FitsMaking call.now buffer.items }
    ensures made { (w : World) → StandsFor core.old w → IfOk result (λ made.
        CameBy call.now (comes_to w call.now (next_to call.now (port_in port.old))) made.reply core.new buffer.items made.buffer.items
        × (port_in port.new ≡ after_asking (is_asked w call.now) (port_in port.old))) }
    ensures number { IfOk result (λ made. NumbersBy call.now made.reply) }
    ensures lines { IfOk result (λ made. GivesLines call.now made.reply made.lines) }
    ensures kept { OnErr result ((core.new ≡ core.old) × (port_in port.new ≡ port_in port.old)) }
    ensures memory_alone { IsOkUnless result Errno.NoMemory }
{
    match guard_of(call) {
        Some(place) => make_at(core, alloc, port, call, place, buffer),
        None => make_inside(core, alloc, port, call, buffer),
    }
}

/// A call of the device at the guard of a place.
fn make_at(
    core: &mut Core,
    alloc: Global,
    port: &mut Planned,
    call: &DeviceCall,
    place: u8,
    buffer: Vec<u8>,
) -> Result<Made, Errno>
    requires fits { FitsDevice call.now }
    requires buffer { FitsMaking call.now buffer.items }
    requires guard { guard_of call.now ≡ Some place }
    requires place { place < PLACES }
    ensures made { (w : World) → StandsFor core.old w → IfOk result (λ made.
        CameBy call.now (comes_to w call.now (next_to call.now (port_in port.old))) made.reply core.new buffer.items made.buffer.items
        × (port_in port.new ≡ after_asking (is_asked w call.now) (port_in port.old))) }
    ensures number { IfOk result (λ made. NumbersBy call.now made.reply) }
    ensures lines { IfOk result (λ made. GivesLines call.now made.reply made.lines) }
    ensures kept { OnErr result ((core.new ≡ core.old) × (port_in port.new ≡ port_in port.old)) }
    ensures memory_alone { IsOkUnless result Errno.NoMemory }
{
    if is_closed(core, place) {
        core_is_well_kept(core);
        let poll = polls(call);
        make_one(core, alloc, &Call::Refused { place, poll }, buffer)
    } else {
        make_inside(core, alloc, port, call, buffer)
    }
}
