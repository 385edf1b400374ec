//! The laws of the machine, over its worlds. Each is a function with nothing to do: its contract is the law, and a
//! caller gets it by the call.

ghost use Rattle.gl_model.specs.Banks.{BanksAlwaysAgree, BanksStayAgreed};
ghost use Rattle.gl_model.specs.Bounds.{LegalWorldsHaveBounds, WorldsStayBounded};
ghost use Rattle.gl_model.specs.Devices.{DevicesAgree};
ghost use Rattle.gl_model.specs.EndingRemovals.{LastCallsAreDone};
ghost use Rattle.gl_model.specs.Holders.{HoldersAlwaysAgree, HoldersStayAgreed, NoLineIsShared};
ghost use Rattle.gl_model.specs.Holds.{OneHolder};
ghost use Rattle.gl_model.specs.Machine.{CallLaws, machine};
ghost use Rattle.gl_model.specs.Marks.{TellsMarkLines};
ghost use Rattle.gl_model.specs.Names.{LegalWorldsHaveNames, NamesStay};
ghost use Rattle.gl_model.specs.NewPlaces.{ProbesTakeFreePlaces};
ghost use Rattle.gl_model.specs.OneClaim.{CallsFinishClaims, OneClaim};
ghost use Rattle.gl_model.specs.OneRemoval.{BeginsOnce, OneRemoval};
ghost use Rattle.gl_model.specs.SoundRequests.{RequestsStaySound};
ghost use Rattle.gl_world.specs.Events.{AlwaysLegal};
ghost use Rattle.gl_world.specs.Laws.{Laws};

use crate::image::Image;

/// The machine has the laws of every machine, over sound worlds and calls in range: the opening world is sound, and
/// each call keeps a world sound; at first no place is leaving or gone, and phases go forward; a removal begins with
/// just the places that its first call names, its remover stays, and the one call that is awaited ends it. Of calls
/// alone: what fits is in range, and a call that ends begins nothing.
pub fn machine_has_laws<K: Image>()
    ensures worlds { Laws (machine K.Image.stands_for) }
    ensures calls { CallLaws }
{}

/// Whatever happens, in whatever order, the history of this machine is legal: so what is true of every legal history is true
/// whatever happens.
pub fn every_run_is_legal<K: Image>()
    ensures { AlwaysLegal (machine K.Image.stands_for) }
{}

/// No two holds have the same place and offset, be they of one request, of two, or hogs: a line has one holder at most. This
/// is so in each world that a legal history leads to, whatever happens.
pub fn one_holder<K: Image>()
    ensures { OneHolder K.Image.stands_for }
{}

/// Requests and lines agree on who has what, in each world that a legal history leads to, and each call keeps it so:
/// requests and chip files have different numbers, below the next number; each line of a request is a line of its chip
/// and is held by just this request, or claimed by it; and each line that is claimed or held is one of the lines of the
/// request of that number. So no line stands in two requests.
pub fn holders_agree<K: Image>()
    ensures stay { HoldersStayAgreed }
    ensures agree { HoldersAlwaysAgree K.Image.stands_for }
    ensures apart { NoLineIsShared K.Image.stands_for }
{}

/// What the bank of a chip holds as held agrees with the holders of its lines: a line is held there exactly where a
/// request holds it or the board itself does, and a line that nobody holds has no flags and no period. So it is in each
/// world that a legal history leads to, whatever happens, and each call keeps it so where requests and lines agree on who
/// has what.
pub fn banks_agree<K: Image>()
    ensures stay { BanksStayAgreed }
    ensures reached { BanksAlwaysAgree K.Image.stands_for }
{}

/// No legal history leads to a world in which an actor has two unfinished claims.
pub fn one_claim<K: Image>()
    ensures { OneClaim K.Image.stands_for }
{}

/// An actor that calls the device, one call after another, has no unfinished claim between its calls, and none when
/// it asks for lines. While a call goes on, a claim that the actor has is of the place of the tell that it makes next.
/// Where its next GET_LINE is a tell, it has just one claim, of that place, and the tell is answered EIO or the claim's
/// number: in each world that a legal history leads to, where a driver's own entries have nothing to do with removals
/// and request no lines.
pub fn calls_finish_claims<K: Image>()
    ensures { CallsFinishClaims K.Image.stands_for }
{}

/// Of one chip, and of one device, there is one unfinished removal at most: while it goes on, none begins.
pub fn removals_begin_once()
    ensures { BeginsOnce }
{}

/// An actor that calls the device, one call after another, has at most one unfinished removal while a call goes on,
/// and none between its calls: in each world that a legal history leads to, where a driver's own entries have nothing
/// to do with removals and request no lines. A device of the tree that is leaving is being removed by one actor, and
/// while all actors are between their calls no device of the tree is leaving.
pub fn one_removal<K: Image>()
    ensures { OneRemoval K.Image.stands_for }
{}

/// In each world that a legal history leads to, a device of the tree is live exactly where a chip of it is up, and
/// leaving exactly where a chip of it is leaving. The last call of its removal that is answered Done leaves it off.
pub fn devices_agree<K: Image>()
    ensures { DevicesAgree K.Image.stands_for }
{}

/// In the opening world no request took or dropped more edges than it had, has more than 64 lines, or names a line twice,
/// and each call keeps that true.
pub fn requests_stay_sound()
    ensures { RequestsStaySound }
{}

/// The labels of chips, the names and the consumers of lines, and the texts of the tree are names in the opening world, and
/// each call in range keeps them so. Then the label at any place is a name, and so are the name and the
/// consumer at any offset.
pub fn names_stay()
    ensures { NamesStay }
{}

/// In each world that a legal history leads to, whatever happens, the labels of chips, and the names and the consumers of
/// lines, are names.
pub fn legal_worlds_have_names<K: Image>()
    ensures { LegalWorldsHaveNames K.Image.stands_for }
{}

/// There are at most PLACES chips, and files have numbers below 2^31: in each world that a legal history leads to,
/// whatever happens, and each call keeps it so.
pub fn worlds_have_bounds<K: Image>()
    ensures stay { WorldsStayBounded }
    ensures reached { LegalWorldsHaveBounds K.Image.stands_for }
{}

/// The call that ends the removal of a place is answered Done, if the place's remover makes it. So the last call of a
/// removal is answered Done, where the actor's first call of this removal was and its entries since have nothing to do
/// with removals: after every legal history, whatever happens.
pub fn last_calls_are_done<K: Image>()
    ensures { LastCallsAreDone K.Image.stands_for }
{}

/// Which lines their driver debounces. A tell of GET_LINE makes the i-th line of the request hard exactly where the line has a
/// debounce period and bit i of the driver's answer is set. A tell of SET_CONFIG does so with each line that it gives a direction,
/// and the others of the request stay as they were. No line of a request that is let go of is hard. And lines of no such request
/// stay as they were.
pub fn tells_mark_lines()
    ensures { TellsMarkLines }
{}

/// What a Probe is answered is the place of no request, in each world that a legal history leads to. So a chip that was made just now stands at
/// another place than each line that is requested.
pub fn probes_take_free_places<K: Image>()
    ensures { ProbesTakeFreePlaces K.Image.stands_for }
{}
