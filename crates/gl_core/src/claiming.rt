//! GET_LINE: lines are claimed when they are asked for, and held when the driver has answered.

ghost use Rattle.std.specs.Prelude.{◌≡◌, ◌<◌, ◌++◌, [], IfNone, IfSome, Some, drop, is_some, length, take};
ghost use Rattle.circular_buffer.specs.Buffer.{buffer};
ghost use Rattle.gl_base.specs.Lines.{IsLineCount, offsets_of};
ghost use Rattle.gl_base.specs.Positions.{first_fault};
ghost use Rattle.gl_base.specs.Rows.{Each};
ghost use Rattle.gl_base.specs.declared.limits.TheConstants.{LINES_PER_REQUEST};
ghost use Rattle.gl_model.specs.Claiming.{claim, claim_at, claim_by, claim_lines, claim_number, claim_refusal, drop_claim, errno_of, get_line_ask, get_line_tell, hold_claim, line_refusal, with_fd};
ghost use Rattle.gl_model.specs.Fits.{HoldsRequest};
ghost use Rattle.gl_model.specs.Places.{place_at};
ghost use Rattle.gl_model.specs.World.{Request};
ghost use Rattle.gl_request.specs.Request.{StandsAt, held, request_at as row_at};
ghost use Rattle.gl_request.specs.declared.row.RequestRow.{RequestRow};
ghost use Rattle.std.specs.Option.{option_map};
ghost use Rattle.gl_uapi.specs.declared.layout.TheConstants.{LINE_REQUEST_SIZE};
ghost use Rattle.gl_core.specs.Claims.{AreFree, MayClaim, NumbersAreBelow, ring_left, row_found, settled_claim, without_ring};
ghost use Rattle.gl_core.specs.Kept.{kept_request};
ghost use Rattle.gl_core.specs.Reached.{IsReached};
ghost use Rattle.gl_core.specs.Shape.{HasLine, HasLines, KeepsLines};
ghost use Rattle.gl_core.specs.Steps.{Follows, Steps, StepsInto, Tells};

use crate::commanded::Commanded;
use crate::configuring::interrupt_fault;
use crate::state::State;
use gl_base::{Errno, Lines};
use gl_desc::LineFault;
use gl_model::{Asked, Gift, Place, Reply};
use gl_request::{Claim, RequestAt};
use gl_ring::EdgeRing;
use gl_uapi::layout::{CHANGED_REQUESTED, LINE_REQUEST_SIZE};
use gl_uapi::write_request_answer;

/// The error of a line that can't be claimed.
fn errno_of(fault: LineFault) -> Errno
    ensures { result ≡ errno_of fault }
{
    match fault {
        LineFault::BadOffset => Errno::Inval,
        LineFault::Busy => Errno::Busy,
    }
}

/// What is wrong with the line at position `i` of a request, first case first: the chip has no such line; somebody has the
/// line, or it stands earlier in the request; its pin is held for another function; its settings don't go with its interrupt.
fn line_refusal(tables: &Place, asked: &Asked, i: u32) -> Option<Errno>
    requires i { i < LINES_PER_REQUEST }
    requires tables { HasLines (length tables.now.descs) tables.now }
    ensures { result ≡ line_refusal tables.now asked.now i }
{
    let lines = asked.lines();
    if let Some(fault) = tables.descs.line_fault(lines, i) {
        return Some(errno_of(fault));
    }
    let offset = lines.offsets[i as usize];
    if tables.pins.is_held(offset) {
        return Some(Errno::Busy);
    }
    interrupt_fault(
        &asked.settings().lines[i as usize],
        tables.irqs.line(offset),
    )
}

/// What is wrong with the first faulty line of a request.
#[tactic(auto, using(gl_base::proofs::AtPositions::first_fault_more, gl_base::proofs::AtPositions::first_fault_here, gl_base::proofs::AtPositions::first_fault_all))]
fn first_refusal(tables: &Place, asked: &Asked) -> Option<Errno>
    requires { HasLines (length tables.now.descs) tables.now }
    ensures { result ≡ first_fault (line_refusal tables.now asked.now) 0 asked.now.lines.count }
{
    for i in 0..asked.lines().count {
        if let Some(errno) = line_refusal(tables, asked, i) {
            return Some(errno);
        }
    }
    None
}

/// Writes a request with the number of its file, as far as the buffer goes.
fn write_with_fd(out: &mut [u8], request: &[u8; LINE_REQUEST_SIZE], fd: u32)
    ensures { let bytes = with_fd (length out.old) fd request.now in out.new ≡ bytes ++ drop (length bytes) out.old }
{
    let end = out.len().min(LINE_REQUEST_SIZE);
    write_request_answer(&mut out[..end], request, fd);
}

impl State {
    /// Whether an actor has an unfinished claim.
    fn has_claim(&self, actor: u8) -> bool
        ensures { Tells (λ w. is_some (claim_number w.requests actor)) self.now result }
    {
        self.requests.pending(actor).is_some()
    }

    /// What is wrong with the first faulty line of a request.
    fn lines_refusal(&self, place: u8, asked: &Asked) -> Option<Errno>
        requires { IsLineCount asked.now.lines.count }
        ensures told { Tells (λ w. first_fault (line_refusal (place_at w place) asked.now) 0 asked.now.lines.count) self.now result }
        ensures free { IfNone result (AreFree self.now place asked.now) }
    {
        if !self.places.has(place) {
            return Some(Errno::Inval);
        }
        first_refusal(self.places.at(place), asked)
    }

    /// Why a request is refused, first case first: `MFile` where no more file can be open; `Busy` where the actor's last claim is
    /// unfinished; what is wrong with one of the lines, in order.
    fn claim_refusal(&self, place: u8, actor: u8, asked: &Asked) -> Option<Errno>
        requires { IsLineCount asked.now.lines.count }
        ensures told { Tells (claim_refusal place actor asked.now) self.now result }
        ensures may { IfNone result (MayClaim self.now place asked.now) }
    {
        if let Some(errno) = self.number_refusal() {
            return Some(errno);
        }
        if self.has_claim(actor) {
            return Some(Errno::Busy);
        }
        self.lines_refusal(place, asked)
    }

    /// Claims the lines of a request that isn't refused, by a request of the next number.
    fn claim_lines(&mut self, place: u8, actor: u8, asked: &Asked, ring: EdgeRing)
        requires lines { IsLineCount asked.now.lines.count }
        requires may { MayClaim self.old place asked.now }
        requires numbers { NumbersAreBelow self.old }
        requires ring { ring ≡ buffer [] asked.now.capacity }
        ensures { Follows (claim_lines place actor asked.now) self.old self.new }
    {
        let fd = self.next;
        let lines = asked.lines();
        self.places.claim(place, lines, fd, asked.consumer());
        let claim = Claim {
            fd,
            place,
            actor,
            lines: *lines,
            settings: *asked.settings(),
        };
        self.requests.claim(claim, ring);
        self.next = fd + 1;
    }

    /// Claims what a request asks for, or refuses it. A claim takes the ring.
    fn claim(&mut self, place: u8, actor: u8, asked: &Asked, ring: &mut Option<EdgeRing>) -> Reply
        requires lines { IsLineCount asked.now.lines.count }
        requires numbers { NumbersAreBelow self.old }
        requires ring { ring.old ≡ Some (buffer [] asked.now.capacity) }
        ensures steps { Steps (claim place actor asked.now) self.old self.new result }
        ensures ring { ring.new ≡ ring_left result ring.old }
    {
        match self.claim_refusal(place, actor, asked) {
            Some(errno) => Reply::Refused(errno),
            None => {
                let fd = self.next;
                let ring = ring.take().unwrap();
                self.claim_lines(place, actor, asked, ring);
                Reply::Go(fd)
            }
        }
    }

    /// GET_LINE is asked for, with what its bytes ask for in the gift, or why they alone have it refused. What the bytes decide comes
    /// first; then `MFile` where no more file can be open; `Busy` where the actor's last claim is unfinished; and what is wrong with
    /// one of the lines, in order. A refused call changes nothing and leaves the gift. Else the lines are claimed, the claim takes the
    /// ring, and the answer is Go with the number of the request.
    pub(crate) fn get_line_ask(
        &mut self,
        actor: u8,
        commanded: &Commanded<'_>,
        gift: &mut Gift,
    ) -> Reply
        requires reached { IsReached self.old }
        requires brings { HoldsRequest (take LINE_REQUEST_SIZE commanded.now.bytes.now) gift.old }
        ensures steps { let c = commanded.now in Steps (get_line_ask c.place actor (take LINE_REQUEST_SIZE c.bytes.now)) self.old self.new result }
        ensures gift { gift.new ≡ without_ring result gift.old }
    {
        let Gift { ring, asked, .. } = gift;
        match &*asked {
            None => unreachable!(),
            Some(brought) => match brought {
                Err(errno) => Reply::Refused(*errno),
                Ok(asked) => {
                    // That they are 1 to 64 is known once they were asked for.
                    let _lines = asked.lines();
                    self.claim(commanded.place, actor, asked, ring)
                }
            },
        }
    }

    /// Where an actor's unfinished claim stands, if it is of this place.
    fn claim_at(&self, place: u8, actor: u8) -> Option<RequestAt>
        requires { IsReached self.now }
        ensures told { Tells (λ w. option_map kept_request (claim_at place (claim_by w.requests actor))) self.now (row_found self.now.requests result) }
        ensures stands { IfSome result (λ found. StandsAt found self.now.requests) }
        ensures lines { IfSome result (λ found. (row : RequestRow) → row_at self.now.requests found.fd ≡ Some row → Each (HasLine self.now.places row.place) (offsets_of row.lines)) }
    {
        match self.requests.find_pending(actor) {
            None => None,
            Some(found) => {
                if self.requests.row(found).place == place {
                    Some(found)
                } else {
                    None
                }
            }
        }
    }

    /// Gives up the claim that was found: its lines are free again.
    fn drop_claim(&mut self, found: RequestAt)
        requires { StandsAt found self.old.requests }
        ensures { (request : Request) → row_at self.old.requests found.fd ≡ Some (kept_request request) → Follows (drop_claim request) self.old self.new }
    {
        let row = self.requests.take_at(found);
        self.places.unclaim(row.place, &row.lines);
    }

    /// The claim that was found becomes a hold of its lines at its place.
    fn settle_claim(&mut self, place: u8, lines: &Lines, found: RequestAt)
        requires count { IsLineCount lines.now.count }
        requires stands { StandsAt found self.old.requests }
        ensures follows { (request : Request) → row_at self.old.requests found.fd ≡ Some (kept_request request) → request.place ≡ place → request.lines ≡ lines.now
            → Follows (settled_claim request) self.old self.new }
        ensures lines { KeepsLines self.old.places self.new.places }
        ensures row { row_at self.new.requests found.fd ≡ option_map held (row_at self.old.requests found.fd) }
        ensures stands { StandsAt found self.new.requests }
    {
        self.requests.settle_at(found);
        self.places.settle(place, lines);
    }

    /// Finishes the claim that was found: its lines are held, configured behind the driver's answer, and told of as requested,
    /// each in order.
    fn hold_claim(&mut self, found: RequestAt, bits: u64)
        requires stands { StandsAt found self.old.requests }
        requires lines { (row : RequestRow) → row_at self.old.requests found.fd ≡ Some row → Each (HasLine self.old.places row.place) (offsets_of row.lines) }
        ensures { (request : Request) → row_at self.old.requests found.fd ≡ Some (kept_request request) → Follows (hold_claim bits request) self.old self.new }
    {
        let row = self.requests.row(found);
        let place = row.place;
        let lines = row.lines;
        self.settle_claim(place, &lines, found);
        self.configure_each(place, &lines, found, bits);
        self.notify_each(place, &lines, CHANGED_REQUESTED);
    }

    /// GET_LINE is told what the driver answered, `None` where it failed. The actor's unfinished claim at this place alone
    /// decides: `Inval` without one; `Io` where the driver failed, and then the claim is given up, so that this is the one
    /// refusal that changes the machine. Else the lines are held, the driver debounces those with a period whose bit it answered,
    /// the request is written with the number of its file, as far as
    /// the buffer goes, and the answer is this number.
    pub(crate) fn get_line_tell(
        &mut self,
        place: u8,
        actor: u8,
        answer: Option<u64>,
        bytes: &[u8; LINE_REQUEST_SIZE],
        out: &mut [u8],
    ) -> Reply
        requires { IsReached self.old }
        ensures { StepsInto (get_line_tell place actor answer (length out.old) bytes.now) self.old self.new result out.old out.new }
    {
        match self.claim_at(place, actor) {
            None => Reply::Refused(Errno::Inval),
            Some(found) => match answer {
                None => {
                    self.drop_claim(found);
                    Reply::Refused(Errno::Io)
                }
                Some(bits) => {
                    self.hold_claim(found, bits);
                    write_with_fd(out, bytes, found.fd);
                    Reply::Number(u64::from(found.fd))
                }
            },
        }
    }
}
