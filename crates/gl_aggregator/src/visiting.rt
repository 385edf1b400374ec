//! The two halves of a visit of a target.
ghost use Rattle.std.specs.Prelude.{◌≡◌, ◌<◌, ◌≤◌, false, None, take};
ghost use Rattle.gl_base.specs.declared.limits.TheConstants.{PLACES};
ghost use Rattle.gl_core.specs.Device.{core};
ghost use Rattle.gl_gate.specs.Calls.{HoldsNoTurn, IsInside, IsOutside};
ghost use Rattle.gl_gate.specs.Values.{IsPassOf};
ghost use Rattle.gl_model.specs.Entries.{is_done};
ghost use Rattle.gl_model.specs.Parts.{in_ask};
ghost use Rattle.gl_model.specs.declared.call.Call.TheVariants.{Refused as RefusedCall};
ghost use Rattle.gl_model.specs.Values.{bits_in};
ghost use Rattle.gl_uapi.specs.declared.layout.TheConstants.{LINE_VALUES_SIZE};
ghost use Rattle.gl_rule.specs.Turn.{owes};
ghost use Rattle.gl_aggregator.specs.Visiting.{Begins, Ends, IsAskAt, IsAsking, IsRecordOf, IsTellAt, WasTold};

use crate::commands::Asking;
use gl_asking::parts::in_part;
use gl_core::{Call, Core, Gift, Part, Reply};
use gl_gate::{Gate, Pass};
use gl_model::answers::replies_tell_lengths;
use gl_uapi::ValuesRef;
use gl_uapi::layout::LINE_REQUEST_SIZE;
use gl_world::Machine;
use std::sync::Wait;

/// Enters a place and asks there, or records that the place is closed. True where a tell is owed then, and the pass is inside the place.
fn begin<M: Machine, R: Wait>(
    rt: &R,
    gate: &Gate<M>,
    pass: &mut Pass<M>,
    place: u8,
    refused: &M::Call,
    ask: &M::Call,
    gift: &mut M::Gift,
    out: &mut [u8],
) -> bool
    requires gate { IsPassOf gate.now pass.old }
    requires place { place < gate.now.places }
    requires outside { IsOutside pass.old.view place }
    requires no_turn { HoldsNoTurn pass.old.view }
    requires owed { owes M.Machine pass.old.view ≤ 1 }
    requires refused_fits { M.Fits refused.now gift.old out.old }
    requires ask_fits { M.Fits ask.now gift.old out.old }
    requires recorded { IsRecordOf M.Machine place refused.now }
    requires ask { IsAskAt M.Machine place ask.now }
    ensures gate { IsPassOf gate.now pass.new }
    ensures begins { Begins M.Machine place refused.now ask.now pass.old.view pass.new.view result }
{
    // What holds of every pass is known once it has told its number.
    let _number = pass.number();
    if !gate.enter(pass, place) {
        let _number = pass.number();
        return match gate.act(rt, pass, *refused, gift, out) {
            Ok(_) => false,
            Err(_) => false,
        };
    }
    let _number = pass.number();
    match gate.act(rt, pass, *ask, gift, out) {
        Err(_) => {
            gate.leave(pass, place);
            false
        }
        Ok(reply) => {
            if M::begins(ask, &reply) {
                return true;
            }
            gate.leave(pass, place);
            false
        }
    }
}

/// Tells the answer of an ask, which is never refused for want of room, and leaves the place.
fn end<M: Machine, R: Wait>(
    rt: &R,
    gate: &Gate<M>,
    pass: &mut Pass<M>,
    place: u8,
    tell: &M::Call,
    gift: &mut M::Gift,
    out: &mut [u8],
) -> M::Reply
    requires gate { IsPassOf gate.now pass.old }
    requires place { place < gate.now.places }
    requires inside { IsInside pass.old.view place }
    requires no_turn { HoldsNoTurn pass.old.view }
    requires owed { 0 < owes M.Machine pass.old.view }
    requires fits { M.Fits tell.now gift.old out.old }
    requires tell { IsTellAt M.Machine place tell.now }
    ensures gate { IsPassOf gate.now pass.new }
    ensures told { WasTold M.Machine place tell.now pass.old.view pass.new.view result out.old out.new }
{
    // What holds of every pass is known once it has told its number.
    let _number = pass.number();
    match gate.act(rt, pass, *tell, gift, out) {
        Ok(reply) => {
            gate.leave(pass, place);
            reply
        }
        Err(_) => unreachable!(),
    }
}

/// Enters a target's place and asks there; true where the driver behind is to be asked next. Where the place is closed, just that is recorded.
pub(crate) fn begin_visit<R: Wait>(
    rt: &R,
    gate: &Gate<Core>,
    pass: &mut Pass<Core>,
    asking: &Asking,
) -> bool
    requires gate { IsPassOf gate.now pass.old }
    requires places { gate.now.places ≡ PLACES }
    requires place { asking.now.command.place < PLACES }
    requires asking { IsAsking asking.now.command.place asking.now }
    requires outside { IsOutside pass.old.view asking.now.command.place }
    requires no_turn { HoldsNoTurn pass.old.view }
    requires owed { owes core pass.old.view ≤ 1 }
    ensures gate { IsPassOf gate.now pass.new }
    ensures begins { Begins core asking.now.command.place (RefusedCall asking.now.command.place false) (in_ask asking.now.command)
        pass.old.view pass.new.view result }
{
    let place = asking.command.place;
    let mut out = asking.command.bytes;
    let refused = Call::Refused { place, poll: false };
    let ask = in_part(&asking.command, Part::Ask);
    let mut gift = Gift::nothing();
    begin(
        rt,
        gate,
        pass,
        place,
        &refused,
        &ask,
        &mut gift,
        &mut out[..asking.command.len as usize],
    )
}

/// Tells what the driver behind answered, and leaves the target's place. Gives the word that a GET_VALUES wrote, if the tell was done.
pub(crate) fn end_visit<R: Wait>(
    rt: &R,
    gate: &Gate<Core>,
    pass: &mut Pass<Core>,
    asking: &Asking,
    answer: Option<u64>,
) -> Option<u64>
    requires gate { IsPassOf gate.now pass.old }
    requires places { gate.now.places ≡ PLACES }
    requires place { asking.now.command.place < PLACES }
    requires asking { IsAsking asking.now.command.place asking.now }
    requires inside { IsInside pass.old.view asking.now.command.place }
    requires no_turn { HoldsNoTurn pass.old.view }
    requires owed { 0 < owes core pass.old.view }
    ensures gate { IsPassOf gate.now pass.new }
    ensures told { Ends core asking.now answer pass.old.view pass.new.view result }
{
    replies_tell_lengths::<Core>();
    let mut out = asking.command.bytes;
    let tell = in_part(&asking.command, Part::Tell(answer));
    let mut gift = Gift::nothing();
    let reply = end(
        rt,
        gate,
        pass,
        asking.command.place,
        &tell,
        &mut gift,
        &mut out[..asking.command.len as usize],
    );
    if is_done(&reply) {
        Some(word_in(&out))
    } else {
        None
    }
}

/// The word of values at the front of a buffer.
fn word_in(out: &[u8; LINE_REQUEST_SIZE]) -> u64
    ensures { result ≡ bits_in (take LINE_VALUES_SIZE out.now) }
{
    ValuesRef::of(out).unwrap().bits()
}

/// The call was done.
fn is_done(reply: &Reply) -> bool
    ensures { result ≡ is_done reply.now }
{
    matches!(reply, Reply::Done)
}
