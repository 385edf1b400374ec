//! Operations that an actor asks for.

ghost use Rattle.std.specs.Prelude.{◌≡◌, ℕ, List, map, IfOk, OnOk, IsOkUnless};
ghost use Rattle.gl_client.specs.Program.{Left};
ghost use Rattle.gl_asking.specs.Asking.{asking};
ghost use Rattle.gl_asking.specs.Rows.{IsRow, row_file};
ghost use Rattle.gl_base.specs.Rows.{Each};
ghost use Rattle.gl_base.specs.declared.operation.Got.{Got as GotOf};
ghost use Rattle.gl_talk.specs.Open.{Names};
ghost use Rattle.gl_check.specs.Seating.{IsAskedAs, bearing_by, goes_as};
ghost use Rattle.gl_check.specs.Seats.{Bearing, Seat as SeatOf, goes_by};

use crate::parts::first_inside;
use crate::port::Planned;
use crate::rows::{keep, row_for};
use gl_asking::{Answered, Asking, FileRow, asking_of};
use gl_base::{Do, Errno, Got};
use gl_model::{Call, Reply};

/// What comes of an operation that is asked for.
#[derive(Drop)]
pub enum Started {
    /// It is done at once, and gives this.
    Done(Got),
    /// It is a call of the device, whose first entry has this call where its guard is open.
    Calls(Call),
}

/// What comes of an operation that is asked for. What is no call of the device is done at once. `NoMemory` alone is refused.
pub fn ask(rows: &mut Vec<FileRow>, port: &mut Planned, what: &Do) -> Result<Started, Errno>
    requires rows { Each IsRow rows.old.items }
    ensures rows { OnOk result (Each IsRow rows.new.items) }
    ensures asked { IfOk result (λ asked. IsAskedAs what.now asked) }
    ensures goes { IfOk result (λ asked. (l : Left Names) (text : List ℕ) (on : GotOf → Bearing → SeatOf)
        → goes_by (asking (map row_file rows.old.items) what.now) what.now l (bearing_by rows.old.items port.old) text on
        ≡ goes_as asked what.now l (bearing_by rows.new.items port.new) text on) }
    ensures memory_alone { IsOkUnless result Errno.NoMemory }
{
    rows.reserve(1)?;
    let row = row_for(rows, what);
    match asking_of(what, row) {
        Asking::Calls(call) => Ok(Started::Calls(first_inside(&call))),
        Asking::Plans(nth) => {
            port.plan(nth);
            keep(rows, what, row, &Answered::without_lines(Reply::Done));
            Ok(Started::Done(Got::Done))
        }
        Asking::Accepts(bits) => {
            port.accept(bits);
            keep(rows, what, row, &Answered::without_lines(Reply::Done));
            Ok(Started::Done(Got::Done))
        }
        Asking::Refuses(errno) => {
            let answered = Answered::without_lines(Reply::Refused(errno));
            keep(rows, what, row, &answered);
            Ok(Started::Done(Got::Refused(errno)))
        }
    }
}
