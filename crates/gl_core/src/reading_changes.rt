//! Reads and polls of chip files: the changes of watched lines that wait.

ghost use Rattle.std.specs.Prelude.{◌≡◌, None, Some, IfErr, IfOk, length};
ghost use Rattle.gl_model.specs.Reading.{changes_for, poll_chip, read_info, take_changes};
ghost use Rattle.gl_watch.specs.Files.{StandsAt};
ghost use Rattle.gl_core.specs.OpenRequests.{changes_refusal};
ghost use Rattle.gl_core.specs.Steps.{Steps, StepsInto, Tells};

use crate::reading::{read_refusal, readiness, room_for};
use crate::state::State;
use gl_base::Errno;
use gl_model::Reply;
use gl_uapi::layout::INFO_CHANGED_SIZE;
use gl_watch::FileAt;

impl State {
    /// Reads a chip file: the first changes that wait, as many as fit in the buffer of `len` bytes. After the refusals of
    /// [`State::open_chip_file`] `Inval` comes where not one fits, then `Again` where none waits.
    pub(crate) fn read_info(&mut self, place: u8, fd: u32, len: u32, out: &mut [u8]) -> Reply
        requires { length out.old ≡ len }
        ensures { StepsInto (read_info place fd len) self.old self.new result out.old out.new }
    {
        match self.info_file(place, fd, len) {
            Err(errno) => Reply::Refused(errno),
            Ok(found) => self.take_changes(found, len, out),
        }
    }

    /// Asks whether a change waits for a chip file.
    pub(crate) fn poll_chip(&self, place: u8, fd: u32) -> Reply
        ensures { Steps (poll_chip place fd) self.now self.now result }
    {
        match self.open_chip_file(place, fd) {
            Err(errno) => Reply::Refused(errno),
            Ok(found) => Reply::Ready(readiness(self.changes_waiting(found))),
        }
    }

    /// How many changes wait for an open chip file.
    fn changes_waiting(&self, found: FileAt) -> u32
        requires { StandsAt found self.now.files }
        ensures { Tells (λ w. length (changes_for found.fd w)) self.now result }
    {
        self.files.waiting_at(found)
    }

    /// Where the chip file stands that is read into a buffer of `len` bytes, or why the read is refused, first case first: the
    /// number isn't that of an open chip file of the place; nothing can be read.
    fn info_file(&self, place: u8, fd: u32, len: u32) -> Result<FileAt, Errno>
        ensures number { IfOk result (λ found. found.fd ≡ fd) }
        ensures stands { IfOk result (λ found. StandsAt found self.now.files) }
        ensures passed { IfOk result (λ _. Tells (changes_refusal place fd len) self.now None) }
        ensures refused { IfErr result (λ errno. Tells (changes_refusal place fd len) self.now (Some errno)) }
    {
        match self.open_chip_file(place, fd) {
            Err(errno) => Err(errno),
            Ok(found) => {
                match read_refusal(INFO_CHANGED_SIZE, len, self.changes_waiting(found)) {
                    Some(errno) => Err(errno),
                    None => Ok(found),
                }
            }
        }
    }

    /// Takes the first changes that wait for an open chip file.
    fn take_changes(&mut self, found: FileAt, len: u32, out: &mut [u8]) -> Reply
        requires stands { StandsAt found self.old.files }
        requires room { length out.old ≡ len }
        ensures { StepsInto (take_changes found.fd len) self.old self.new result out.old out.new }
    {
        let count = self
            .files
            .read_at(found, room_for(INFO_CHANGED_SIZE, len), out);
        Reply::Number(INFO_CHANGED_SIZE as u64 * u64::from(count))
    }
}
