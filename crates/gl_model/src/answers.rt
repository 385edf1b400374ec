//! What holds of the machine's answers. The laws stand as the contracts of functions that do nothing, over the
//! definition of the machine's step.

ghost use Rattle.gl_model.specs.Refusing.{RefusalsLeaveAll};
ghost use Rattle.gl_model.specs.Replies.{EntriesHaveForm, IoHasCause, RepliesHaveForm};
ghost use Rattle.gl_model.specs.Rings.{GapsAreOldest, ReadsInOrder, ReadsSpellEvents};
ghost use Rattle.gl_model.specs.Taking.{ReadsTakeChanges, ReadsTakeEvents};
ghost use Rattle.gl_model.specs.Written.{ChangesKeepNames, LegalRepliesTellLengths, RepliesTellLengths};

use crate::image::Image;

/// A refused call leaves the world as it was and writes nothing, except for one: where a request of lines is told
/// and refused with EIO. Then the driver failed, and the actor had an unfinished claim at that place; this claim
/// is dropped with the holds of its lines, all else stays, and nothing is written.
pub fn refusals_leave_all()
    ensures { RefusalsLeaveAll }
{}

/// A read answers a number or a refusal. By a number it takes just what it gives: the first items that wait, as
/// many as fit, in order. Of the world nothing but the items that wait for the read's own file is changed.
pub fn reads_take_what_they_give()
    ensures events { ReadsTakeEvents }
    ensures changes { ReadsTakeChanges }
{}

/// The reply of a call tells how many bytes it has written. GET_CHIPINFO, GET_LINEINFO, GET_LINEINFO_WATCH,
/// GET_LINEINFO_UNWATCH and GET_VALUES that were done: as many as their structure has. GET_LINE that answers a
/// number: its structure, as far as the buffer goes. The first call of a removal that was done: two. A read: as many
/// as it answers. Every other call and every other reply: none.
///
/// For a command this rests on the world's names being names, on its place and on the length of the bytes that
/// it is called with, and for a read of changes on the names in the changes that wait. All this is so in each world
/// that a legal history leads to, whatever happens, for calls in range.
pub fn replies_tell_lengths<K: Image>()
    ensures of_a_step { RepliesTellLengths }
    ensures behind_a_history { LegalRepliesTellLengths K.Image.stands_for }
{}

/// The names in the changes that wait are names: at first, as none waits, and each call that finds a world whose names
/// are names keeps it so.
pub fn changes_keep_names()
    ensures { ChangesKeepNames }
{}

/// The reply of each call, in every world, has the form that its call asks for: what a call is answered that was done, and
/// by which errors it may be refused. So ENODEV comes from an open, the first call of an unplug and a recorded refusal
/// alone; no reply is ENOMEM or that the history is full; and a call that is answered Go writes nothing. The same holds of
/// each entry of a legal history, whatever happens.
pub fn replies_have_form<K: Image>()
    ensures of_a_step { RepliesHaveForm }
    ensures of_entries { EntriesHaveForm K.Image.stands_for }
{}

/// EIO of GET_VALUES and SET_VALUES comes from the tell of a driver that failed alone. That of GET_LINE and SET_CONFIG
/// comes from such a tell, or from a line that is to be an output and is locked as an enabled interrupt. No other command
/// is answered EIO.
pub fn io_has_cause()
    ensures { IoHasCause }
{}

/// What all reads of a request gave, joined in order, are some of the events that came to it, in order, be the request
/// there still or closed since; what a read gave is what it wrote. While the request is there, the events that came are
/// those of all its edges, and an edge is neither read nor waiting exactly where the edge as many numbers later as the
/// request's capacity came before it was read. All this is so after every legal history, whatever happens.
pub fn rings_keep_order<K: Image>()
    ensures order { ReadsInOrder K.Image.stands_for }
    ensures gaps { GapsAreOldest K.Image.stands_for }
    ensures spelled { ReadsSpellEvents }
{}
