//! Reads and polls of open files: whole items, as many as wait and fit.

ghost use Rattle.std.specs.Prelude.{◌≡◌, ◌<◌, ◌/◌, None, Some, IfErr, IfOk, length};
ghost use Rattle.gl_request.specs.Request.{StandsAt};
ghost use Rattle.gl_model.specs.Reading.{events_for, poll_line, read_edges, read_refusal, readiness};
ghost use Rattle.gl_core.specs.OpenRequests.{edges_refusal};
ghost use Rattle.gl_core.specs.Steps.{Steps, StepsInto, Tells};

use crate::state::State;
use gl_base::Errno;
use gl_model::Reply;
use gl_request::RequestAt;
use gl_uapi::layout::LINE_EVENT_SIZE;

/// Why a read of items of one size is refused where so many wait, first case first: `Inval` where the buffer is shorter than
/// one item; `Again` where nothing waits.
pub(crate) fn read_refusal(size: usize, len: u32, count: u32) -> Option<Errno>
    ensures { result ≡ read_refusal size len count }
{
    if (len as usize) < size {
        return Some(Errno::Inval);
    }
    if count == 0 {
        return Some(Errno::Again);
    }
    None
}

/// How many whole items of one size a buffer has room for.
pub(crate) fn room_for(size: usize, len: u32) -> u32
    requires { 0 < size }
    ensures { result ≡ len / size }
{
    (len as usize / size) as u32
}

/// What a poll answers where so many items wait: bit 0, which tells that a read finds something, or nothing.
pub(crate) fn readiness(count: u32) -> u8
    ensures { result ≡ readiness count }
{
    if count == 0 { 0 } else { 1 }
}

impl State {
    /// How many events of an open request wait.
    fn events_waiting(&self, found: RequestAt) -> u32
        requires { StandsAt found self.now.requests }
        ensures { Tells (λ w. length (events_for found.fd w)) self.now result }
    {
        self.requests.row(found).ring.len()
    }

    /// Where the request stands that is read into a buffer of `len` bytes, or why the read is refused, first case first: the
    /// number isn't that of an open request of the place; nothing can be read.
    fn edges_file(&self, place: u8, fd: u32, len: u32) -> Result<RequestAt, Errno>
        ensures number { IfOk result (λ found. found.fd ≡ fd) }
        ensures stands { IfOk result (λ found. StandsAt found self.now.requests) }
        ensures passed { IfOk result (λ _. Tells (edges_refusal place fd len) self.now None) }
        ensures refused { IfErr result (λ errno. Tells (edges_refusal place fd len) self.now (Some errno)) }
    {
        match self.open_request(place, fd) {
            Err(errno) => Err(errno),
            Ok(found) => match read_refusal(LINE_EVENT_SIZE, len, self.events_waiting(found)) {
                Some(errno) => Err(errno),
                None => Ok(found),
            },
        }
    }

    /// Reads the first events of a request that wait into a buffer of `len` bytes, as many as fit, and answers how many
    /// bytes they have.
    pub(crate) fn read_edges(&mut self, place: u8, fd: u32, len: u32, out: &mut [u8]) -> Reply
        requires { length out.old ≡ len }
        ensures { StepsInto (read_edges place fd len) self.old self.new result out.old out.new }
    {
        match self.edges_file(place, fd, len) {
            Err(errno) => Reply::Refused(errno),
            Ok(found) => {
                let room = room_for(LINE_EVENT_SIZE, len);
                let count = self.requests.read_at(found, room, out);
                Reply::Number(LINE_EVENT_SIZE as u64 * u64::from(count))
            }
        }
    }

    /// Asks whether an event of a request waits.
    pub(crate) fn poll_line(&self, place: u8, fd: u32) -> Reply
        ensures { Steps (poll_line place fd) self.now self.now result }
    {
        match self.open_request(place, fd) {
            Err(errno) => Reply::Refused(errno),
            Ok(found) => Reply::Ready(readiness(self.events_waiting(found))),
        }
    }
}
