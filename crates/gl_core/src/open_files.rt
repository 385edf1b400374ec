//! Open files, and the refusals with which every call on one begins.

ghost use Rattle.std.specs.Prelude.{◌≡◌, ◌+◌, ◌<◌, ◌≤◌, ◌^◌, ◌∷◌, [], not, true, false, nat_lt, if◌then◌else◌, length, None, Some, IfErr, IfNone, IfOk};
ghost use Rattle.gl_base.specs.Refusals.{first_of, when};
ghost use Rattle.gl_base.specs.declared.errno.Errno.TheVariants.{BadF, Fault, Inval};
ghost use Rattle.gl_base.specs.declared.limits.TheConstants.{FILES_MAX};
ghost use Rattle.gl_uapi.specs.Command.{size_of};
ghost use Rattle.gl_model.specs.OpenFiles.{asks_driver, chip_file_refusal, command_refusal, has_part, is_chip_file, is_for_chips, is_place, is_request_file, is_whole, number_refusal, request_file_refusal, unknown_refusal};
ghost use Rattle.gl_watch.specs.Files.{StandsAt};
ghost use Rattle.gl_core.specs.Commanded.{part_of};
ghost use Rattle.gl_core.specs.OpenRequests.{IsOpenAt};
ghost use Rattle.gl_core.specs.Steps.{Tells};

use crate::commanded::{Commanded, DriverPart};
use crate::state::State;
use gl_base::{Errno, FILES_MAX};
use gl_model::{Part, asks_driver};
use gl_request::RequestAt;
use gl_uapi::Command;
use gl_watch::FileAt;

impl State {
    /// Whether the number is that of an open chip file of this place.
    fn is_chip_file(&self, place: u8, fd: u32) -> bool
        ensures { Tells (is_chip_file place fd) self.now result }
    {
        is_place(place, self.files.place(fd))
    }

    /// Whether the number is that of an open request of this place. A claim isn't open yet.
    fn is_request_file(&self, place: u8, fd: u32) -> bool
        ensures { Tells (is_request_file place fd) self.now result }
    {
        self.requests.find_open(place, fd).is_some()
    }

    /// Where the open chip file of a number and a place stands, or why a call that is for chip files alone is refused, first
    /// case first: `BadF` where no open file of the place has the number; `Inval` where a request has it.
    pub(crate) fn open_chip_file(&self, place: u8, fd: u32) -> Result<FileAt, Errno>
        ensures number { IfOk result (λ found. found.fd ≡ fd) }
        ensures stands { IfOk result (λ found. StandsAt found self.now.files) }
        ensures passed { IfOk result (λ _. Tells (chip_file_refusal place fd) self.now None) }
        ensures refused { IfErr result (λ errno. Tells (chip_file_refusal place fd) self.now (Some errno)) }
    {
        match self.files.find_open(place, fd) {
            Some(found) => Ok(found),
            None => Err(self.no_chip_file(place, fd)),
        }
    }

    /// Why a number is refused that isn't that of an open chip file of the place.
    fn no_chip_file(&self, place: u8, fd: u32) -> Errno
        ensures { Tells (λ w. if is_request_file place fd w then Inval else BadF) self.now result }
    {
        if self.is_request_file(place, fd) {
            Errno::Inval
        } else {
            Errno::BadF
        }
    }

    /// Where the open request of a number and a place stands, or why a call that is for requests alone is refused, first case
    /// first: `BadF` where no open file of the place has the number; `Inval` where a chip file has it.
    pub(crate) fn open_request(&self, place: u8, fd: u32) -> Result<RequestAt, Errno>
        ensures number { IfOk result (λ found. found.fd ≡ fd) }
        ensures opened { IfOk result (IsOpenAt self.now place) }
        ensures passed { IfOk result (λ _. Tells (request_file_refusal place fd) self.now None) }
        ensures refused { IfErr result (λ errno. Tells (request_file_refusal place fd) self.now (Some errno)) }
    {
        match self.requests.find_open(place, fd) {
            Some(found) => Ok(found),
            None => Err(self.no_request(place, fd)),
        }
    }

    /// Why a number is refused that isn't that of an open request of the place.
    fn no_request(&self, place: u8, fd: u32) -> Errno
        ensures { Tells (λ w. if is_chip_file place fd w then Inval else BadF) self.now result }
    {
        if self.is_chip_file(place, fd) {
            Errno::Inval
        } else {
            Errno::BadF
        }
    }

    /// Where the open chip file stands that a command is for, or why the command is refused before it is looked at, first case
    /// first: `BadF` where no open file of the place has the number; `Inval` where a request has it; `Fault` where the buffer is
    /// shorter than the command's structure; `Inval` where the command hasn't this part.
    pub(crate) fn file_of_command(
        &self,
        command: Command,
        commanded: &Commanded<'_>,
    ) -> Result<FileAt, Errno>
        requires { is_for_chips command ≡ true }
        ensures number { IfOk result (λ found. found.fd ≡ commanded.now.fd) }
        ensures stands { IfOk result (λ found. StandsAt found self.now.files) }
        ensures long { IfOk result (λ _. size_of command ≤ commanded.now.len) }
        ensures part { IfOk result (λ _. has_part command commanded.now.part ≡ true) }
        ensures passed { let c = commanded.now in IfOk result (λ _. Tells (command_refusal c.place c.fd c.len command c.part) self.now None) }
        ensures refused { let c = commanded.now in IfErr result (λ errno. Tells (command_refusal c.place c.fd c.len command c.part) self.now (Some errno)) }
    {
        match self.open_chip_file(commanded.place, commanded.fd) {
            Err(errno) => Err(errno),
            Ok(found) => match part_refusal(command, commanded) {
                Some(errno) => Err(errno),
                None => Ok(found),
            },
        }
    }

    /// Where the open request stands that a command is for, and which entry the command makes; or why it is refused before it is
    /// looked at, first case first: `BadF` where no open file of the place has the number; `Inval` where a chip file has it;
    /// `Fault` where the buffer is shorter than the command's structure; `Inval` where the command hasn't this part.
    pub(crate) fn request_of_command(
        &self,
        command: Command,
        commanded: &Commanded<'_>,
    ) -> Result<(RequestAt, DriverPart), Errno>
        requires file { is_for_chips command ≡ false }
        requires driver { asks_driver command ≡ true }
        ensures number { IfOk result (λ it. it.0.fd ≡ commanded.now.fd) }
        ensures opened { IfOk result (λ it. IsOpenAt self.now commanded.now.place it.0) }
        ensures part { IfOk result (λ it. part_of it.1 ≡ commanded.now.part) }
        ensures long { IfOk result (λ _. size_of command ≤ commanded.now.len) }
        ensures passed { let c = commanded.now in IfOk result (λ _. Tells (command_refusal c.place c.fd c.len command c.part) self.now None) }
        ensures refused { let c = commanded.now in IfErr result (λ errno. Tells (command_refusal c.place c.fd c.len command c.part) self.now (Some errno)) }
    {
        match self.open_request(commanded.place, commanded.fd) {
            Err(errno) => Err(errno),
            Ok(found) => match driver_part(command, commanded) {
                Err(errno) => Err(errno),
                Ok(part) => Ok((found, part)),
            },
        }
    }

    /// Why a number that is no command's is refused: `Inval` where an open file of the place has the number `fd`, else `BadF`.
    pub(crate) fn unknown_refusal(&self, place: u8, fd: u32) -> Errno
        ensures { Tells (unknown_refusal place fd) self.now result }
    {
        if self.is_chip_file(place, fd) || self.is_request_file(place, fd) {
            Errno::Inval
        } else {
            Errno::BadF
        }
    }

    /// Why there is no number for a new file: `MFile` where `FILES_MAX` files are open or claimed, or where the last number,
    /// 2^31 - 1, was given.
    pub(crate) fn number_refusal(&self) -> Option<Errno>
        ensures told { Tells number_refusal self.now result }
        ensures room { IfNone result (length self.now.files + length self.now.requests < FILES_MAX) }
        ensures next { IfNone result (self.now.next < 2 ^ 31) }
    {
        let open = self.files.len() + self.requests.len();
        if open >= FILES_MAX || self.next >= 1 << 31 {
            Some(Errno::MFile)
        } else {
            None
        }
    }
}

/// Whether a file's place, where there is such a file, is this one.
fn is_place(place: u8, found: Option<u8>) -> bool
    ensures { result ≡ is_place place found }
{
    match found {
        Some(other) => other == place,
        None => false,
    }
}

/// Why a command is refused whose file is of its kind.
fn part_refusal(command: Command, commanded: &Commanded<'_>) -> Option<Errno>
    ensures told { result ≡ first_of (when (nat_lt commanded.now.len (size_of command)) Fault ∷ when (not (has_part command commanded.now.part)) Inval ∷ []) }
    ensures long { IfNone result (size_of command ≤ commanded.now.len) }
    ensures part { IfNone result (has_part command commanded.now.part ≡ true) }
{
    if commanded.len < command.size() {
        return Some(Errno::Fault);
    }
    if !has_part(command, &commanded.part) {
        return Some(Errno::Inval);
    }
    None
}

/// Which entry a command makes that asks the driver, and whose file is of its kind, or why it is refused.
fn driver_part(command: Command, commanded: &Commanded<'_>) -> Result<DriverPart, Errno>
    requires { asks_driver command ≡ true }
    ensures part { IfOk result (λ part. part_of part ≡ commanded.now.part) }
    ensures long { IfOk result (λ _. size_of command ≤ commanded.now.len) }
    ensures passed { IfOk result (λ _. None ≡ first_of (when (nat_lt commanded.now.len (size_of command)) Fault ∷ when (not (has_part command commanded.now.part)) Inval ∷ [])) }
    ensures refused { IfErr result (λ errno. Some errno ≡ first_of (when (nat_lt commanded.now.len (size_of command)) Fault ∷ when (not (has_part command commanded.now.part)) Inval ∷ [])) }
{
    if commanded.len < command.size() {
        return Err(Errno::Fault);
    }
    match DriverPart::of(&commanded.part) {
        None => Err(Errno::Inval),
        Some(part) => Ok(part),
    }
}

/// Whether the part is the whole.
fn is_whole(part: &Part) -> bool
    ensures { result ≡ is_whole part.now }
{
    match part {
        Part::Whole => true,
        Part::Ask | Part::Tell(_) => false,
    }
}

/// Whether a command has this part: whole where it asks no driver, else an ask and a tell.
fn has_part(command: Command, part: &Part) -> bool
    ensures { result ≡ has_part command part.now }
{
    if asks_driver(command) {
        !is_whole(part)
    } else {
        is_whole(part)
    }
}
