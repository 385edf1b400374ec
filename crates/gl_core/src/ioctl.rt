//! The commands on open files, by their numbers.

ghost use Rattle.std.specs.Prelude.{◌≡◌, ◌≤◌, ℕ, false, length, take};
ghost use Rattle.gl_uapi.specs.Command.{size_of};
ghost use Rattle.gl_uapi.specs.declared.commands.Command.TheVariants.{GetLine};
ghost use Rattle.gl_model.specs.Entries.{is_tell};
ghost use Rattle.gl_model.specs.Fits.{BringsRequest, Leaves};
ghost use Rattle.gl_model.specs.Ioctl.{act_on, checked, in_part, ioctl};
ghost use Rattle.gl_model.specs.declared.call.Call.TheVariants.{Ioctl};
ghost use Rattle.gl_model.specs.declared.call.Part.{Part as APart};
ghost use Rattle.gl_watch.specs.Files.{StandsAt};
ghost use Rattle.gl_core.specs.Claims.{BringsItsRequest, left_by, left_by_part};
ghost use Rattle.gl_core.specs.Commanded.{chip_command, part_of, request_command};
ghost use Rattle.gl_core.specs.OpenRequests.{IsOpenAt};
ghost use Rattle.gl_core.specs.Reached.{IsReached};
ghost use Rattle.gl_core.specs.Steps.{StepsInto};

use crate::commanded::{ChipCommand, CommandKind, Commanded, DriverPart, RequestCommand};
use crate::state::State;
use gl_model::{Gift, Part, Reply};
use gl_request::RequestAt;
use gl_uapi::Command;
use gl_watch::FileAt;

impl State {
    /// A command on the file of a number, into a buffer of `len` bytes that begins with these. A number that is no command's is
    /// refused, and so is a command whose file, buffer or part isn't right; GET_LINE that is told is decided by the actor's
    /// claim alone. An ask of lines that is answered Go takes the ring of the gift; else the gift stays.
    pub(crate) fn ioctl(
        &mut self,
        actor: u8,
        cmd: u32,
        commanded: &Commanded<'_>,
        gift: &mut Gift,
        out: &mut [u8],
    ) -> Reply
        requires reached { IsReached self.old }
        requires brings { BringsRequest cmd commanded.now.bytes.now commanded.now.part gift.old }
        requires room { length out.old ≡ commanded.now.len }
        ensures steps { let c = commanded.now in StepsInto (ioctl actor c.place c.fd cmd c.len c.bytes.now c.part) self.old self.new result out.old out.new }
        ensures gift { let c = commanded.now in Leaves (Ioctl c.place c.fd cmd c.len c.bytes.now c.part) result gift.old gift.new }
    {
        match Command::of(cmd) {
            None => Reply::Refused(self.unknown_refusal(commanded.place, commanded.fd)),
            Some(command) => self.in_part(actor, command, commanded, gift, out),
        }
    }

    /// A command in one of its parts, by the file that it is for. A request of lines alone looks at the gift.
    fn in_part(
        &mut self,
        actor: u8,
        command: Command,
        commanded: &Commanded<'_>,
        gift: &mut Gift,
        out: &mut [u8],
    ) -> Reply
        requires reached { IsReached self.old }
        requires brings { BringsItsRequest command commanded.now.bytes.now commanded.now.part gift.old }
        requires room { length out.old ≡ commanded.now.len }
        ensures steps { let c = commanded.now in StepsInto (in_part actor c.place c.fd c.len command c.bytes.now c.part) self.old self.new result out.old out.new }
        ensures gift { gift.new ≡ left_by command commanded.now.part result gift.old }
    {
        match CommandKind::of(command) {
            CommandKind::OnChip(command) => self.on_chip(command, commanded, out),
            CommandKind::OfLines => self.get_line(actor, commanded, gift, out),
            CommandKind::OnRequest(command) => self.on_request(command, commanded, out),
        }
    }

    /// GET_LINE in one of its parts. Told, the claim alone decides it.
    fn get_line(
        &mut self,
        actor: u8,
        commanded: &Commanded<'_>,
        gift: &mut Gift,
        out: &mut [u8],
    ) -> Reply
        requires reached { IsReached self.old }
        requires brings { BringsItsRequest GetLine commanded.now.bytes.now commanded.now.part gift.old }
        requires room { length out.old ≡ commanded.now.len }
        ensures steps { let c = commanded.now in StepsInto (in_part actor c.place c.fd c.len GetLine c.bytes.now c.part) self.old self.new result out.old out.new }
        ensures gift { gift.new ≡ left_by_part commanded.now.part result gift.old }
    {
        match commanded.part {
            Part::Tell(answer) => {
                self.get_line_tell(commanded.place, actor, answer, commanded.bytes, out)
            }
            Part::Whole | Part::Ask => self.ask_for_lines(actor, commanded, gift, out),
        }
    }

    /// GET_LINE that isn't told, after the refusals with which every command begins.
    fn ask_for_lines(
        &mut self,
        actor: u8,
        commanded: &Commanded<'_>,
        gift: &mut Gift,
        out: &mut [u8],
    ) -> Reply
        requires reached { IsReached self.old }
        requires brings { BringsItsRequest GetLine commanded.now.bytes.now commanded.now.part gift.old }
        requires told { is_tell commanded.now.part ≡ false }
        requires room { length out.old ≡ commanded.now.len }
        ensures steps { let c = commanded.now in StepsInto (checked actor c.place c.fd c.len GetLine c.bytes.now c.part) self.old self.new result out.old out.new }
        ensures gift { gift.new ≡ left_by_part commanded.now.part result gift.old }
    {
        match self.file_of_command(Command::GetLine, commanded) {
            Err(errno) => Reply::Refused(errno),
            Ok(_) => self.get_line_ask(actor, commanded, gift),
        }
    }

    /// A command on a chip file that asks no driver, after the refusals with which every command begins. It is the same for
    /// every actor.
    fn on_chip(&mut self, command: ChipCommand, commanded: &Commanded<'_>, out: &mut [u8]) -> Reply
        requires room { length out.old ≡ commanded.now.len }
        ensures { (actor : ℕ) → let c = commanded.now in StepsInto (checked actor c.place c.fd c.len (chip_command command) c.bytes.now c.part) self.old self.new result out.old out.new }
    {
        match self.file_of_command(command.command(), commanded) {
            Err(errno) => Reply::Refused(errno),
            Ok(found) => self.act_on_chip(found, command, commanded, out),
        }
    }

    /// What such a command does once its file, its buffer's length and its part are right.
    fn act_on_chip(
        &mut self,
        found: FileAt,
        command: ChipCommand,
        commanded: &Commanded<'_>,
        out: &mut [u8],
    ) -> Reply
        requires stands { StandsAt found self.old.files }
        requires room { size_of (chip_command command) ≤ length out.old }
        ensures { (actor : ℕ) (part : APart) → let c = commanded.now in
            StepsInto (act_on actor c.place found.fd (chip_command command) (take (size_of (chip_command command)) c.bytes.now) part) self.old self.new result out.old out.new }
    {
        let place = commanded.place;
        let bytes = commanded.bytes;
        match command {
            ChipCommand::ChipInfo => self.get_chip_info(place, out),
            ChipCommand::LineInfo => self.get_line_info(place, bytes, out),
            ChipCommand::Watch => self.watch_line(place, found, bytes, out),
            ChipCommand::Unwatch => self.unwatch_line(place, found, bytes, out),
        }
    }

    /// A command on a request, after the refusals with which every command begins. It is the same for every actor.
    fn on_request(
        &mut self,
        command: RequestCommand,
        commanded: &Commanded<'_>,
        out: &mut [u8],
    ) -> Reply
        requires reached { IsReached self.old }
        requires room { length out.old ≡ commanded.now.len }
        ensures { (actor : ℕ) → let c = commanded.now in StepsInto (checked actor c.place c.fd c.len (request_command command) c.bytes.now c.part) self.old self.new result out.old out.new }
    {
        match self.request_of_command(command.command(), commanded) {
            Err(errno) => Reply::Refused(errno),
            Ok((found, part)) => self.act_on_request(found, part, command, commanded, out),
        }
    }

    /// What a command on a request does once its file, its buffer's length and its part are right.
    fn act_on_request(
        &mut self,
        found: RequestAt,
        part: DriverPart,
        command: RequestCommand,
        commanded: &Commanded<'_>,
        out: &mut [u8],
    ) -> Reply
        requires reached { IsReached self.old }
        requires opened { IsOpenAt self.old commanded.now.place found }
        requires part { part_of part ≡ commanded.now.part }
        requires room { size_of (request_command command) ≤ length out.old }
        ensures { (actor : ℕ) → let c = commanded.now in
            StepsInto (act_on actor c.place found.fd (request_command command) (take (size_of (request_command command)) c.bytes.now) c.part) self.old self.new result out.old out.new }
    {
        let place = commanded.place;
        let bytes = commanded.bytes;
        match command {
            RequestCommand::SetConfig => self.set_config(place, found, bytes, part),
            RequestCommand::GetValues => self.get_values(place, found, bytes, part, out),
            RequestCommand::SetValues => self.set_values(place, found, bytes, part),
        }
    }
}
