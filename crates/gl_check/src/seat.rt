//! An actor in the midst of a history.

ghost use Rattle.std.specs.Prelude.{◌≡◌, ℕ, List, Some, [], false, map, IfOk, OnOk, IsOkUnless, IsTrue};
ghost use Rattle.std.specs.Bool.{Decides};
ghost use Rattle.gl_client.specs.Program.{given};
ghost use Rattle.gl_asking.specs.Asking.{files_behind, got_of};
ghost use Rattle.gl_asking.specs.Changes.{IsFilled, OpensWithin};
ghost use Rattle.gl_asking.specs.Files.{OpenFile};
ghost use Rattle.gl_asking.specs.Rows.{row_file};
ghost use Rattle.gl_talk.specs.Over.{columns_in};
ghost use Rattle.gl_check.specs.Buffers.{buffer_at};
ghost use Rattle.gl_check.specs.Seating.{IsFilledAt, IsGoing, IsKept, OpensAt, comes_behind, first_names, left_by, port_in, seat_in, settled_from};
ghost use Rattle.gl_check.specs.Seats.{SuitsStand, called, deed, is_ended, moved, new_bearing, settles};

use crate::buffers::buffer_at;
use crate::port::Planned;
use crate::rows::{keep, row_for};
use crate::speech::{first_talk, go_on};
use crate::stand::Stand;
use crate::started::{Started, ask};
use crate::suiting::suits;
use gl_asking::{FileRow, answered_by, got_of};
use gl_base::{Do, Errno, Got};
use gl_client::Next;
use gl_core::Core;
use gl_core::entries::begins;
use gl_model::{Call, Reply};
use gl_script::Statement;
use gl_talk::Talk;
use gl_world::Entry;
use std::alloc::Global;

/// An actor begins fewer statements than this: more of them count as out of memory.
const STATEMENTS_MAX: u32 = 2_147_483_647;

/// An actor in the midst of a history.
#[derive(Drop)]
pub struct Seat {
    /// Its statements, as a client of the device.
    pub talk: Talk,
    /// Whether its statements are done, and what is open is closed.
    pub closes: bool,
    /// Its open files.
    pub rows: Vec<FileRow>,
    /// What a planned driver goes by at its port.
    pub port: Planned,
    /// Where it stands.
    pub stand: Stand,
    /// What it printed.
    pub text: Vec<u8>,
}

impl Seat {
    /// An actor with a new port and no open file, who goes on to the first call of the device in these statements, or to their end.
    /// `NoMemory` alone is refused.
    pub fn start(alloc: Global, statements: &[Statement<'_>], quit: bool) -> Result<Seat, Errno>
        ensures seat { IfOk result (λ s. seat_in quit (map columns_in statements.now) s
            ≡ settles (comes_behind false quit 0 (map columns_in statements.now) (first_names quit)) new_bearing []) }
        ensures kept { IfOk result (IsKept quit (map columns_in statements.now)) }
        ensures memory_alone { IsOkUnless result Errno.NoMemory }
    {
        let talk = first_talk(alloc, quit)?;
        let mut seat = Seat {
            talk,
            closes: false,
            rows: Vec::new(alloc),
            port: Planned::new(),
            stand: Stand::Ended,
            text: Vec::new(alloc),
        };
        match seat.settle(alloc, statements, quit, None) {
            Ok(()) => Ok(seat),
            Err(errno) => Err(errno),
        }
    }

    /// Whether the actor is at its end.
    pub fn is_ended(&self) -> bool
        ensures { result ≡ is_ended self.now.stand }
    {
        match &self.stand {
            Stand::Ended => true,
            Stand::Before { .. } => false,
            Stand::Between { .. } => false,
        }
    }

    /// Whether an entry is the actor's next one.
    pub fn suits(&self, entry: &Entry<Core>) -> bool
        ensures { Decides result (SuitsStand self.now.stand (port_in self.now.port) entry.now) }
    {
        suits(&self.stand, &self.port, entry)
    }

    /// The buffer of the actor's next entry. `NoMemory` alone is refused.
    pub fn buffer(&self, alloc: Global) -> Result<Vec<u8>, Errno>
        ensures ok { IfOk result (λ buffer. buffer.items ≡ buffer_at self.now.stand) }
        ensures memory_alone { IsOkUnless result Errno.NoMemory }
    {
        buffer_at(alloc, &self.stand)
    }

    /// Goes on with the result of the operation that was asked for last, to the next call of the device, or to the end. `NoMemory`
    /// alone is refused.
    pub fn settle(
        &mut self,
        alloc: Global,
        statements: &[Statement<'_>],
        quit: bool,
        got: Option<Got>,
    ) -> Result<(), Errno>
        requires going { IsGoing quit (map columns_in statements.now) self.old }
        ensures seat { OnOk result (seat_in quit (map columns_in statements.now) self.new ≡ settled_from quit (map columns_in statements.now) self.old got) }
        ensures kept { OnOk result (IsKept quit (map columns_in statements.now) self.new) }
        ensures memory_alone { IsOkUnless result Errno.NoMemory }
    {
        let mut got = got;
        for _ in 0..u64::MAX {
            match self.turn(alloc, statements, quit, &mut got) {
                Ok(true) => {}
                Ok(false) => return Ok(()),
                Err(errno) => return Err(errno),
            }
        }
        Err(Errno::NoMemory)
    }

    /// One turn of it. False where the actor stands then.
    fn turn(
        &mut self,
        alloc: Global,
        statements: &[Statement<'_>],
        quit: bool,
        got: &mut Option<Got>,
    ) -> Result<bool, Errno>
        requires going { IsGoing quit (map columns_in statements.now) self.old }
        ensures going { OnOk result (IsGoing quit (map columns_in statements.now) self.new) }
        ensures more { IfOk result (λ more. IsTrue more → settled_from quit (map columns_in statements.now) self.new got.new
            ≡ settled_from quit (map columns_in statements.now) self.old got.old) }
        ensures stands { IfOk result (λ more. more ≡ false → seat_in quit (map columns_in statements.now) self.new
            ≡ settled_from quit (map columns_in statements.now) self.old got.old) }
        ensures kept { IfOk result (λ more. more ≡ false → IsKept quit (map columns_in statements.now) self.new) }
        ensures memory_alone { IsOkUnless result Errno.NoMemory }
    {
        if self.talk.begun >= STATEMENTS_MAX {
            return Err(Errno::NoMemory);
        }
        match self.talk.next(alloc, got.as_ref()) {
            Ok(Next::Call(what)) => match ask(&mut self.rows, &mut self.port, &what) {
                Ok(Started::Done(result_of)) => {
                    *got = Some(result_of);
                    Ok(true)
                }
                Ok(Started::Calls(first)) => {
                    self.stand = Stand::Before { what, first };
                    Ok(false)
                }
                Err(errno) => Err(errno),
            },
            Ok(Next::Print(piece)) => match self.text.extend_from_slice(piece.as_slice()) {
                Ok(()) => {
                    *got = None;
                    Ok(true)
                }
                Err(_) => Err(Errno::NoMemory),
            },
            Ok(Next::End) => match go_on(
                alloc,
                &mut self.talk,
                &mut self.closes,
                statements,
                quit,
            ) {
                Ok(true) => {
                    *got = None;
                    Ok(true)
                }
                Ok(false) => {
                    self.stand = Stand::Ended;
                    Ok(false)
                }
                Err(errno) => Err(errno),
            },
            Err(errno) => Err(errno),
        }
    }

    /// A call of the device was answered at an entry, whose buffer this is. `NoMemory` alone is refused.
    fn answer(
        &mut self,
        alloc: Global,
        statements: &[Statement<'_>],
        quit: bool,
        what: &Do,
        reply: Reply,
        buffer: Vec<u8>,
    ) -> Result<(), Errno>
        requires going { IsGoing quit (map columns_in statements.now) self.old }
        requires opens { OpensWithin what.now reply }
        ensures seat { OnOk result ((wrote : List ℕ) → IsFilled what.now wrote buffer.items → seat_in quit (map columns_in statements.now) self.new
            ≡ settles (given (left_by quit (map columns_in statements.now) self.old.talk self.old.closes) (Some (got_of what.now reply wrote)))
            (record { files = files_behind what.now reply (map row_file self.old.rows.items); port = port_in self.old.port }) self.old.text.items) }
        ensures kept { OnOk result (IsKept quit (map columns_in statements.now) self.new) }
        ensures memory_alone { IsOkUnless result Errno.NoMemory }
    {
        self.rows.reserve(1)?;
        let row = row_for(&self.rows, what);
        let answered = answered_by(what, reply);
        keep(&mut self.rows, what, row, &answered);
        let got = got_of(what, &reply, buffer);
        self.settle(alloc, statements, quit, Some(got))
    }

    /// Goes on after an entry of its own, whose buffer this is. `NoMemory` alone is refused.
    pub fn take(
        &mut self,
        alloc: Global,
        statements: &[Statement<'_>],
        quit: bool,
        entry: &Entry<Core>,
        buffer: Vec<u8>,
    ) -> Result<(), Errno>
        requires kept { IsKept quit (map columns_in statements.now) self.old }
        requires opens { OpensAt self.old.stand entry.now }
        ensures seat { OnOk result ((wrote : List ℕ) → IsFilledAt self.old.stand wrote buffer.items → seat_in quit (map columns_in statements.now) self.new
            ≡ moved (seat_in quit (map columns_in statements.now) self.old) (deed entry.now wrote)) }
        ensures kept { OnOk result (IsKept quit (map columns_in statements.now) self.new) }
        ensures memory_alone { IsOkUnless result Errno.NoMemory }
    {
        let stand = self.stand;
        match &stand {
            Stand::Ended => Ok(()),
            Stand::Before { what, first } => {
                if begins(&entry.call, &entry.reply) {
                    self.stand = Stand::Between {
                        what: *what,
                        first: *first,
                    };
                    return Ok(());
                }
                self.answer(alloc, statements, quit, what, entry.reply, buffer)
            }
            Stand::Between { what, first } => {
                pass(&mut self.port, first);
                self.answer(alloc, statements, quit, what, entry.reply, buffer)
            }
        }
    }
}

/// The port after the second entry of a call of the device: a tell is one answer more.
fn pass(port: &mut Planned, first: &Call)
    ensures { (files : List OpenFile) → record { files = files; port = port_in port.new } ≡ called first.now (record { files = files; port = port_in port.old }) }
{
    match first {
        Call::Ioctl { .. } => port.count(),
        _ => {}
    }
}
