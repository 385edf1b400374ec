//! GET_VALUES and SET_VALUES: the values of a request's lines, a bit a line.

ghost use Rattle.std.specs.Prelude.{◌≡◌, ◌<◌, ◌≤◌, ◌&&◌, length, slice_index, take};
ghost use Rattle.gl_base.specs.Bits.{has_bit};
ghost use Rattle.gl_base.specs.Lines.{IsLineCount, offsets_of};
ghost use Rattle.gl_base.specs.Positions.{first_fault};
ghost use Rattle.gl_base.specs.declared.settings.Resolved.{Resolved};
ghost use Rattle.gl_model.specs.Bits.{has_bit_below};
ghost use Rattle.gl_model.specs.Configuring.{with_levels};
ghost use Rattle.gl_model.specs.OpenFiles.{on_request};
ghost use Rattle.gl_model.specs.Places.{with_place};
ghost use Rattle.gl_model.specs.Values.{drive_from, driven_with, get_values, output_fault, set_values, set_values_refusal, value_of, values_of};
ghost use Rattle.gl_model.specs.World.{request_at};
ghost use Rattle.gl_uapi.specs.declared.layout.TheConstants.{LINE_VALUES_SIZE};
ghost use Rattle.gl_core.specs.Commanded.{part_of};
ghost use Rattle.gl_core.specs.OpenRequests.{IsOpenAt};
ghost use Rattle.gl_core.specs.Reached.{IsReached};
ghost use Rattle.gl_core.specs.Shape.{HasEachLine, HasLine, KeepsLines};
ghost use Rattle.gl_core.specs.Steps.{Follows, Steps, StepsInto, Tells};
ghost use Rattle.gl_core.specs.LineByLine.{drive_masked};

use crate::commanded::DriverPart;
use crate::information::bit_where;
use crate::state::State;
use gl_bank::flip;
use gl_base::{Errno, Kind, LINES_PER_REQUEST, Lines, has_bit};
use gl_model::Reply;
use gl_request::RequestAt;
use gl_uapi::layout::{LINE_REQUEST_SIZE, LINE_VALUES_SIZE};
use gl_uapi::{ValuesRef, write_values};

/// Whether a word has one of its lowest bits, so many.
fn has_bit_below(count: u32, word: u64) -> bool
    requires { IsLineCount count }
    ensures { result ≡ has_bit_below count word }
{
    if count == LINES_PER_REQUEST {
        word != 0
    } else {
        word % (1 << count) != 0
    }
}

impl State {
    /// The value of the line at position `i` of a request: where it is debounced, and not by its driver, the level at which it
    /// has settled, inverted where it is active low; else its logical value on a simulated chip, and what the driver answered on a remote one.
    fn value_of(&self, place: u8, lines: &Lines, answered: u64, i: u32) -> bool
        requires i { i < lines.now.count }
        requires count { IsLineCount lines.now.count }
        requires line { HasLine self.now.places place (slice_index lines.now.offsets i) }
        ensures { Tells (λ w. value_of place lines.now answered w i) self.now result }
    {
        let offset = lines.offsets[i as usize];
        let bank = &self.places.at(place).bank;
        let line = bank.line(offset);
        if line.debounce_us == 0 || self.timers.is_hard(place, offset) {
            return match self.kind(place) {
                Kind::Simulated => bank.logical(offset),
                Kind::Remote => has_bit(answered, i),
            };
        }
        let settled = match self.timers.settled(place, offset) {
            Some(level) => level,
            None => bank.level(offset),
        };
        flip(line.flags, settled)
    }

    /// The bit of the line at position `i` of a request: its value where it is masked, else 0.
    fn masked_value(&self, place: u8, lines: &Lines, mask: u64, answered: u64, i: u32) -> bool
        requires i { i < lines.now.count }
        requires count { IsLineCount lines.now.count }
        requires line { HasLine self.now.places place (slice_index lines.now.offsets i) }
        ensures { Tells (λ w. has_bit mask i && value_of place lines.now answered w i) self.now result }
    {
        has_bit(mask, i) && self.value_of(place, lines, answered, i)
    }

    /// The values of the masked lines, a bit a line; the other bits are 0.
    fn values_of(&self, place: u8, lines: &Lines, mask: u64, answered: u64) -> u64
        requires count { IsLineCount lines.now.count }
        requires lines { HasEachLine self.now.places place lines.now }
        ensures { Tells (values_of place lines.now mask answered) self.now result }
    {
        let mut bits = 0;
        for i in 0..lines.count {
            bits += bit_where(self.masked_value(place, lines, mask, answered, i), i);
        }
        bits
    }

    /// GET_VALUES on a request with these lines.
    fn get_values_of(
        &self,
        place: u8,
        lines: &Lines,
        bytes: &[u8; LINE_REQUEST_SIZE],
        part: DriverPart,
        out: &mut [u8],
    ) -> Reply
        requires count { IsLineCount lines.now.count }
        requires lines { HasEachLine self.now.places place lines.now }
        requires room { LINE_VALUES_SIZE ≤ length out.old }
        ensures { (settings : Resolved) → StepsInto (get_values place (take LINE_VALUES_SIZE bytes.now) (part_of part) lines.now settings) self.now self.now result out.old out.new }
    {
        let mask = ValuesRef::of(bytes).unwrap().mask();
        if !has_bit_below(lines.count, mask) {
            return Reply::Refused(Errno::Inval);
        }
        match part {
            DriverPart::Ask => Reply::Go(0),
            DriverPart::Tell(None) => Reply::Refused(Errno::Io),
            DriverPart::Tell(Some(answered)) => {
                let bits = self.values_of(place, lines, mask, answered);
                write_values(out, bits, mask);
                Reply::Done
            }
        }
    }

    /// GET_VALUES on an open request: `Inval` where the mask has none of its lines; then it goes to the driver; `Io` where the
    /// driver failed; else the values of the masked lines are written, and 0 for the others.
    pub(crate) fn get_values(
        &self,
        place: u8,
        found: RequestAt,
        bytes: &[u8; LINE_REQUEST_SIZE],
        part: DriverPart,
        out: &mut [u8],
    ) -> Reply
        requires reached { IsReached self.now }
        requires opened { IsOpenAt self.now place found }
        requires room { LINE_VALUES_SIZE ≤ length out.old }
        ensures { StepsInto (λ w. on_request (get_values place (take LINE_VALUES_SIZE bytes.now) (part_of part)) (request_at w.requests found.fd) w) self.now self.now result out.old out.new }
    {
        let row = self.requests.row(found);
        self.get_values_of(place, &row.lines, bytes, part, out)
    }

    /// What is wrong with the line at position `i` of a request whose values are to be set: `Perm` where it is masked and is no
    /// output.
    fn output_fault(&self, place: u8, lines: &Lines, mask: u64, i: u32) -> Option<Errno>
        requires i { i < lines.now.count }
        requires count { IsLineCount lines.now.count }
        requires line { HasLine self.now.places place (slice_index lines.now.offsets i) }
        ensures { Tells (λ w. output_fault place lines.now mask w i) self.now result }
    {
        let offset = lines.offsets[i as usize];
        if has_bit(mask, i) && !self.places.at(place).bank.is_output(offset) {
            return Some(Errno::Perm);
        }
        None
    }

    /// What is wrong with the first faulty line of a request whose values are to be set.
    fn first_output_fault(&self, place: u8, lines: &Lines, mask: u64) -> Option<Errno>
        requires count { IsLineCount lines.now.count }
        requires lines { HasEachLine self.now.places place lines.now }
        ensures { Tells (λ w. first_fault (output_fault place lines.now mask w) 0 lines.now.count) self.now result }
    {
        for i in 0..lines.count {
            match self.output_fault(place, lines, mask, i) {
                Some(errno) => return Some(errno),
                None => {}
            }
        }
        None
    }

    /// Why values aren't set, first case first: `Perm` where one of the masked lines is no output; `Inval` where the mask has
    /// none of the lines.
    fn set_values_refusal(&self, place: u8, lines: &Lines, mask: u64) -> Option<Errno>
        requires count { IsLineCount lines.now.count }
        requires lines { HasEachLine self.now.places place lines.now }
        ensures { Tells (set_values_refusal place lines.now mask) self.now result }
    {
        if let Some(errno) = self.first_output_fault(place, lines, mask) {
            return Some(errno);
        }
        if !has_bit_below(lines.count, mask) {
            return Some(Errno::Inval);
        }
        None
    }

    /// Drives a line with a value, inverted where it is active low.
    fn drive(&mut self, place: u8, offset: u32, value: bool)
        requires { HasLine self.old.places place offset }
        ensures follows { Follows (with_place place (with_levels offset (driven_with value))) self.old self.new }
        ensures lines { KeepsLines self.old.places self.new.places }
    {
        self.places.drive(place, offset, value);
    }

    /// Drives the line at position `i` of a request with its bit, where it is masked.
    fn drive_masked(&mut self, place: u8, lines: &Lines, mask: u64, bits: u64, i: u32)
        requires i { i < lines.now.count }
        requires count { IsLineCount lines.now.count }
        requires line { HasLine self.old.places place (slice_index lines.now.offsets i) }
        ensures follows { Follows (drive_masked place lines.now mask bits i) self.old self.new }
        ensures lines { KeepsLines self.old.places self.new.places }
    {
        if has_bit(mask, i) {
            self.drive(place, lines.offsets[i as usize], has_bit(bits, i));
        }
    }

    /// Drives the masked lines of a request with their bits, in order.
    fn drive_each(&mut self, place: u8, lines: &Lines, mask: u64, bits: u64)
        requires count { IsLineCount lines.now.count }
        requires lines { HasEachLine self.old.places place lines.now }
        ensures { Follows (drive_from place mask bits 0 (offsets_of lines.now)) self.old self.new }
    {
        for i in 0..lines.count {
            self.drive_masked(place, lines, mask, bits, i);
        }
    }

    /// SET_VALUES on a request with these lines.
    fn set_values_of(
        &mut self,
        place: u8,
        lines: &Lines,
        bytes: &[u8; LINE_REQUEST_SIZE],
        part: DriverPart,
    ) -> Reply
        requires count { IsLineCount lines.now.count }
        requires lines { HasEachLine self.old.places place lines.now }
        ensures { (settings : Resolved) → Steps (set_values place (take LINE_VALUES_SIZE bytes.now) (part_of part) lines.now settings) self.old self.new result }
    {
        let values = ValuesRef::of(bytes).unwrap();
        if let Some(errno) = self.set_values_refusal(place, lines, values.mask()) {
            return Reply::Refused(errno);
        }
        match part {
            DriverPart::Ask => Reply::Go(0),
            DriverPart::Tell(None) => Reply::Refused(Errno::Io),
            DriverPart::Tell(Some(_)) => {
                self.drive_each(place, lines, values.mask(), values.bits());
                Reply::Done
            }
        }
    }

    /// SET_VALUES on an open request: `Perm` where one of the masked lines is no output; `Inval` where the mask has none of the
    /// lines; then it goes to the driver; `Io` where the driver failed; else the masked lines are driven with their bits.
    pub(crate) fn set_values(
        &mut self,
        place: u8,
        found: RequestAt,
        bytes: &[u8; LINE_REQUEST_SIZE],
        part: DriverPart,
    ) -> Reply
        requires reached { IsReached self.old }
        requires opened { IsOpenAt self.old place found }
        ensures { Steps (λ w. on_request (set_values place (take LINE_VALUES_SIZE bytes.now) (part_of part)) (request_at w.requests found.fd) w) self.old self.new result }
    {
        let lines = self.requests.row(found).lines;
        self.set_values_of(place, &lines, bytes, part)
    }
}
