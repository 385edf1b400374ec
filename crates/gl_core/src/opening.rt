//! Opening chips and closing files.

ghost use Rattle.std.specs.Prelude.{◌≡◌, ◌+◌, ◌<◌, ◌^◌, [], None, Some, length, IfNone};
ghost use Rattle.gl_base.specs.Lines.{offsets_of};
ghost use Rattle.gl_base.specs.Rows.{Each};
ghost use Rattle.gl_base.specs.declared.limits.TheConstants.{FILES_MAX};
ghost use Rattle.gl_request.specs.Request.{StandsAt, request_at as row_at};
ghost use Rattle.gl_request.specs.declared.row.RequestRow.{RequestRow};
ghost use Rattle.gl_watch.specs.Files.{file_at};
ghost use Rattle.gl_model.specs.declared.call.Call.TheVariants.{OpenChip};
ghost use Rattle.gl_model.specs.Fits.{FitsGift, Leaves};
ghost use Rattle.gl_model.specs.Opening.{close, close_request, open_chip, open_refusal, with_file, with_timers_let_go};
ghost use Rattle.gl_model.specs.World.{request_at};
ghost use Rattle.gl_core.specs.Reached.{IsReached};
ghost use Rattle.gl_core.specs.Shape.{HasLine, IsInRange};
ghost use Rattle.gl_core.specs.Steps.{Follows, Steps, Tells};

use crate::state::State;
use gl_base::{Errno, Path, Phase};
use gl_debounce::Timers;
use gl_model::{Gift, Reply};
use gl_request::RequestAt;
use gl_uapi::layout::CHANGED_RELEASED;
use gl_watch::InfoQueue;

impl State {
    /// Opens the chip that has a word, and answers the number of the file, which takes the queue. `NoEnt` comes where no chip
    /// that is up or leaving has the word; then the refusals of [`State::open_refusal`].
    pub(crate) fn open_chip(&mut self, word: &Path, gift: &mut Gift) -> Reply
        requires brings { FitsGift (OpenChip word.now) gift.old }
        requires reached { IsReached self.old }
        ensures steps { Steps (open_chip word.now) self.old self.new result }
        ensures leaves { Leaves (OpenChip word.now) result gift.old gift.new }
    {
        match self.chips.by_word(word.as_bytes()) {
            None => Reply::Refused(Errno::NoEnt),
            Some(place) => match self.open_refusal(place) {
                Some(errno) => Reply::Refused(errno),
                None => {
                    let fd = self.next;
                    self.open_file(place, gift.queue.take().unwrap());
                    Reply::Number(u64::from(fd))
                }
            },
        }
    }

    /// Why the chip of a place isn't opened, first case first: `NoDev` where it is leaving; `MFile` where there is no number
    /// for the file.
    fn open_refusal(&self, place: u8) -> Option<Errno>
        ensures told { Tells (open_refusal place) self.now result }
        ensures room { IfNone result (length self.now.files + length self.now.requests < FILES_MAX) }
        ensures next { IfNone result (self.now.next < 2 ^ 31) }
    {
        if self.phase(place) == Phase::Leaving {
            return Some(Errno::NoDev);
        }
        self.number_refusal()
    }

    /// Opens a chip file of the next number.
    fn open_file(&mut self, place: u8, queue: InfoQueue)
        requires empty { queue ≡ [] }
        requires room { length self.old.files < FILES_MAX }
        requires next { self.old.next < 2 ^ 31 }
        requires number { file_at self.old.next self.old.files ≡ None }
        ensures { Follows (with_file place) self.old self.new }
    {
        self.files.add(self.next, place, queue);
        self.next += 1;
    }

    /// Closes a file, whatever the phase of its chip. `BadF` comes where no open file has the number.
    pub(crate) fn close(&mut self, fd: u32) -> Reply
        requires reached { IsReached self.old }
        ensures { Steps (close fd) self.old self.new result }
    {
        match self.requests.find(fd) {
            Some(found) => self.close_hold(found),
            None => self.close_file(fd),
        }
    }

    /// Closes the request that was found. `BadF` comes where it is a claim: that isn't open yet.
    fn close_hold(&mut self, found: RequestAt) -> Reply
        requires reached { IsReached self.old }
        requires stands { StandsAt found self.old.requests }
        ensures { Steps (close found.fd) self.old self.new result }
    {
        if !self.requests.row(found).held {
            return Reply::Refused(Errno::BadF);
        }
        self.close_request(found);
        Reply::Done
    }

    /// Closes the chip file of a number that is no request's. `BadF` comes where there is none.
    fn close_file(&mut self, fd: u32) -> Reply
        requires { row_at self.old.requests fd ≡ None }
        ensures { Steps (close fd) self.old self.new result }
    {
        let there = self.files.remove(fd).is_some();
        if !there {
            return Reply::Refused(Errno::BadF);
        }
        Reply::Done
    }

    /// Lets go of the lines of a request and of the request itself, and tells of each line as released.
    fn close_request(&mut self, found: RequestAt)
        requires stands { StandsAt found self.old.requests }
        requires lines { (row : RequestRow) → row_at self.old.requests found.fd ≡ Some row → Each (HasLine self.old.places row.place) (offsets_of row.lines) }
        ensures { Follows (λ w. close_request (request_at w.requests found.fd) w) self.old self.new }
    {
        let row = self.requests.take_at(found);
        let_go_each(&mut self.timers, row.place, row.lines.offsets());
        self.places.free(row.place, &row.lines);
        self.notify_each(row.place, &row.lines, CHANGED_RELEASED);
    }
}

/// Lets go of the timers of the lines at these offsets of a place.
fn let_go_each(timers: &mut Timers, place: u8, offsets: &[u32])
    requires { Each (IsInRange place) offsets.now }
    ensures { timers.new ≡ with_timers_let_go place offsets.now timers.old }
{
    for offset in offsets {
        timers.let_go(place, *offset);
    }
}
