//! The commands on a chip file that ask no driver.

ghost use Rattle.std.specs.Prelude.{◌≡◌, ◌≤◌, ◌++◌, length, take, drop, nat_le, IfNone};
ghost use Rattle.gl_base.specs.Refusals.{when};
ghost use Rattle.gl_base.specs.declared.errno.Errno.TheVariants.{Inval};
ghost use Rattle.gl_uapi.specs.Fields.{number_at, number_bytes};
ghost use Rattle.gl_uapi.specs.declared.layout.TheConstants.{CHIP_INFO_SIZE, LINE_INFO_SIZE, UNWATCH_SIZE};
ghost use Rattle.gl_model.specs.Commands.{get_chip_info, get_line_info, info_refusal, offset_named, unwatch_line, watch_line, write_info};
ghost use Rattle.gl_model.specs.Places.{lines_at};
ghost use Rattle.gl_model.specs.declared.reply.Reply.TheVariants.{Done};
ghost use Rattle.gl_watch.specs.Files.{StandsAt};
ghost use Rattle.gl_core.specs.Shape.{HasLine};
ghost use Rattle.gl_core.specs.Steps.{StepsInto, Tells};

use crate::information::info_of;
use crate::state::State;
use gl_base::{Errno, chip_name};
use gl_model::Reply;
use gl_uapi::layout::UNWATCH_SIZE;
use gl_uapi::{InfoRef, UnwatchRef, write_chip_info, write_line_info};
use gl_watch::FileAt;

impl State {
    /// GET_CHIPINFO: the chip's name, its label and its number of lines.
    pub(crate) fn get_chip_info(&self, place: u8, out: &mut [u8]) -> Reply
        requires { CHIP_INFO_SIZE ≤ length out.old }
        ensures { StepsInto (get_chip_info place) self.now self.now result out.old out.new }
    {
        let label = self.chips.label(place);
        write_chip_info(out, &chip_name(place), &label, self.chips.lines(place));
        Reply::Done
    }

    /// GET_LINEINFO: the information on the line that the structure names.
    pub(crate) fn get_line_info(&self, place: u8, bytes: &[u8], out: &mut [u8]) -> Reply
        requires bytes { LINE_INFO_SIZE ≤ length bytes.now }
        requires out { LINE_INFO_SIZE ≤ length out.old }
        ensures { StepsInto (get_line_info place (take LINE_INFO_SIZE bytes.now)) self.now self.now result out.old out.new }
    {
        let asked = asked_info(bytes);
        match self.info_refusal(place, &asked) {
            Some(errno) => Reply::Refused(errno),
            None => self.write_info(place, asked.offset(), out),
        }
    }

    /// GET_LINEINFO_WATCH: the same, and the file watches the line from now on. `Busy` comes besides where it watches it.
    pub(crate) fn watch_line(
        &mut self,
        place: u8,
        found: FileAt,
        bytes: &[u8],
        out: &mut [u8],
    ) -> Reply
        requires stands { StandsAt found self.old.files }
        requires bytes { LINE_INFO_SIZE ≤ length bytes.now }
        requires out { LINE_INFO_SIZE ≤ length out.old }
        ensures { StepsInto (watch_line place found.fd (take LINE_INFO_SIZE bytes.now)) self.old self.new result out.old out.new }
    {
        let asked = asked_info(bytes);
        match self.info_refusal(place, &asked) {
            Some(errno) => Reply::Refused(errno),
            None => {
                let offset = asked.offset();
                match self.files.watch_at(found, offset) {
                    Err(errno) => Reply::Refused(errno),
                    Ok(()) => self.write_info(place, offset, out),
                }
            }
        }
    }

    /// GET_LINEINFO_UNWATCH: the file watches the line no more. `Inval` comes where the chip has no such line, then `Busy`
    /// where this file doesn't watch it.
    pub(crate) fn unwatch_line(
        &mut self,
        place: u8,
        found: FileAt,
        bytes: &[u8],
        out: &mut [u8],
    ) -> Reply
        requires stands { StandsAt found self.old.files }
        requires bytes { UNWATCH_SIZE ≤ length bytes.now }
        requires out { UNWATCH_SIZE ≤ length out.old }
        ensures { StepsInto (unwatch_line place found.fd (take UNWATCH_SIZE bytes.now)) self.old self.new result out.old out.new }
    {
        let offset = asked_offset(bytes);
        match self.offset_refusal(place, offset) {
            Some(errno) => Reply::Refused(errno),
            None => match self.files.unwatch_at(found, offset) {
                Err(errno) => Reply::Refused(errno),
                Ok(()) => write_offset(bytes, out),
            },
        }
    }

    /// Why the information on a line is refused: `Inval` where the padding isn't zero, and where the chip has no such line.
    fn info_refusal(&self, place: u8, asked: &InfoRef<'_>) -> Option<Errno>
        ensures told { Tells (info_refusal place asked.now) self.now result }
        ensures there { IfNone result (HasLine self.now.places place (offset_named asked.now)) }
    {
        if !asked.padding_is_zero() {
            return Some(Errno::Inval);
        }
        self.offset_refusal(place, asked.offset())
    }

    /// Why an offset is refused: `Inval` where the chip has no such line.
    fn offset_refusal(&self, place: u8, offset: u32) -> Option<Errno>
        ensures told { Tells (λ w. when (nat_le (lines_at w place) offset) Inval) self.now result }
        ensures there { IfNone result (HasLine self.now.places place offset) }
    {
        if self.chips.lines(place) <= offset {
            return Some(Errno::Inval);
        }
        None
    }

    /// Writes the information on a line.
    fn write_info(&self, place: u8, offset: u32, out: &mut [u8]) -> Reply
        requires there { HasLine self.now.places place offset }
        requires out { LINE_INFO_SIZE ≤ length out.old }
        ensures { StepsInto (write_info place offset) self.now self.now result out.old out.new }
    {
        write_line_info(out, &info_of(self.places.at(place), offset));
        Reply::Done
    }
}

/// The information on a line as it was handed in.
fn asked_info(bytes: &[u8]) -> InfoRef<'_>
    requires { LINE_INFO_SIZE ≤ length bytes.now }
    ensures { result ≡ take LINE_INFO_SIZE bytes.now }
{
    InfoRef::of(bytes).unwrap()
}

/// The offset of the line that is to be watched no more.
fn asked_offset(bytes: &[u8]) -> u32
    requires { UNWATCH_SIZE ≤ length bytes.now }
    ensures { result ≡ number_at 4 0 (take UNWATCH_SIZE bytes.now) }
{
    UnwatchRef::of(bytes).unwrap().offset()
}

/// Writes the offset of a line as it was handed in.
fn write_offset(bytes: &[u8], out: &mut [u8]) -> Reply
    requires bytes { UNWATCH_SIZE ≤ length bytes.now }
    requires out { UNWATCH_SIZE ≤ length out.old }
    ensures done { result ≡ Done }
    ensures out { out.new ≡ number_bytes 4 (number_at 4 0 (take UNWATCH_SIZE bytes.now)) ++ drop UNWATCH_SIZE out.old }
{
    out[..UNWATCH_SIZE].copy_from_slice(&bytes[..UNWATCH_SIZE]);
    Reply::Done
}
