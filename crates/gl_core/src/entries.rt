//! The calls as entries of a history: which place each needs, and which belong together in pairs.

ghost use Rattle.std.specs.Prelude.{◌≡◌};
ghost use Rattle.gl_model.specs.Entries.{begins, ends, guarded_place, refused_place};

use gl_model::{Call, Part, Reply};

/// The place whose guard a call needs: the calls on open files but Close, and those that name a line or a pin of a place.
pub fn place_of(call: &Call) -> Option<u8>
    ensures { result ≡ guarded_place call.now }
{
    match *call {
        Call::Pin { place, .. }
        | Call::Irq { place, .. }
        | Call::Pull { place, .. }
        | Call::Level { place, .. }
        | Call::Interrupt { place, .. }
        | Call::Ioctl { place, .. }
        | Call::ReadEdges { place, .. }
        | Call::ReadInfo { place, .. }
        | Call::PollLine { place, .. }
        | Call::PollChip { place, .. } => Some(place),
        _ => None,
    }
}

/// Whether the actor owes a second entry after this call with this reply: after an ask that was answered Go, and after the
/// first call of a removal that was answered Done.
pub fn begins(call: &Call, reply: &Reply) -> bool
    ensures { result ≡ begins call.now reply.now }
{
    match *call {
        Call::Unplug { last: false, .. } | Call::Remove { last: false, .. } => {
            matches!(reply, Reply::Done)
        }
        Call::Ioctl {
            part: Part::Ask,
            ..
        } => matches!(reply, Reply::Go(_)),
        _ => false,
    }
}

/// Whether the call is such a second entry: a tell, or the last call of a removal.
pub fn ends(call: &Call) -> bool
    ensures { result ≡ ends call.now }
{
    match *call {
        Call::Unplug { last, .. } | Call::Remove { last, .. } => last,
        Call::Ioctl {
            part: Part::Tell(_),
            ..
        } => true,
        _ => false,
    }
}

/// The place at whose closed guard a call was refused, for the calls that record just that.
pub fn refused_at(call: &Call) -> Option<u8>
    ensures { result ≡ refused_place call.now }
{
    match *call {
        Call::Refused { place, .. } => Some(place),
        _ => None,
    }
}
