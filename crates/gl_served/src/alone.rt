//! The machine with its one actor: the open files, and the answers of its driver.

ghost use Rattle.std.specs.Prelude.{vec_len, vec_capacity, ◌≡◌, ◌+◌, ◌≤◌, ℕ, [], map, take, IfOk, OnOk, OnErr, IsOkUnless, List};
ghost use Rattle.gl_asking.specs.Asking.{asking, file_for, files_behind, got_of};
ghost use Rattle.gl_asking.specs.Changes.{NamesMade, OpensWithin};
ghost use Rattle.gl_asking.specs.Files.{OpenFile};
ghost use Rattle.gl_asking.specs.Fitting.{FitsDevice};
ghost use Rattle.gl_asking.specs.Rows.{IsRow, IsSomeRow, file_of, row_file};
ghost use Rattle.gl_asking.specs.declared.kinds.Asking.TheVariants.{Calls};
ghost use Rattle.gl_base.specs.Rows.{Each};
ghost use Rattle.gl_core.specs.Kept.{StandsFor};
ghost use Rattle.gl_model.specs.World.{opening};
ghost use Rattle.gl_check.specs.One.{PlannedPort, Standing, from_plan, performs};
ghost use Rattle.gl_check.specs.Ports.{unplanned};
ghost use Rattle.gl_check.specs.Seating.{port_in};
ghost use Rattle.gl_served.specs.Alone.{StandsAs, alone_in};
ghost use Rattle.gl_served.specs.Closing.{all_closed, closes, front_closed};

use crate::closing::in_order;
use crate::making::{Made, make};
use gl_asking::{Answered, Asking, FileRow, asking_of, got_of};
use gl_base::{Do, Errno, Got};
use gl_check::rows::{keep, row_for};
use gl_check::{Planned, buffer_for};
use gl_core::Core;
use gl_core::laws::core_is_well_kept;
use gl_model::{DeviceCall, Reply};
use std::alloc::Global;

/// A machine that one actor alone calls, over a planned driver.
#[derive(Drop)]
pub struct Alone {
    /// The machine.
    pub core: Core,
    /// The open files.
    pub rows: Vec<FileRow>,
    /// The port of the driver.
    pub port: Planned,
}

impl Alone {
    /// A new machine, without an open file.
    pub fn new(alloc: Global) -> Result<Alone, Errno>
        ensures ok { IfOk result (λ a. StandsFor a.core opening × (a.rows.items ≡ []) × (port_in a.port ≡ unplanned)) }
        ensures memory_alone { IsOkUnless result Errno.NoMemory }
    {
        let core = Core::new(alloc)?;
        Ok(Alone {
            core,
            rows: Vec::new(alloc),
            port: Planned::new(),
        })
    }

    /// Carries an operation out. `NoMemory` alone is refused, and then nothing was done.
    pub fn perform(&mut self, alloc: Global, what: &Do) -> Result<Got, Errno>
        requires rows { Each IsRow self.old.rows.items }
        ensures rows { Each IsRow self.new.rows.items }
        ensures ok { (s : Standing PlannedPort) → StandsAs self.old s → IfOk result (λ got. (got ≡ (performs 0 from_plan what.now s).0) × StandsAs self.new (performs 0 from_plan what.now s).1) }
        ensures kept { OnErr result (alone_in self.new ≡ alone_in self.old) }
        ensures memory_alone { IsOkUnless result Errno.NoMemory }
    {
        self.rows.reserve(1)?;
        let row = row_for(&self.rows, what);
        match asking_of(what, row) {
            Asking::Calls(call) => self.call(alloc, what, row, &call),
            Asking::Plans(nth) => {
                self.port.plan(nth);
                self.keep(what, row, &Answered::without_lines(Reply::Done));
                Ok(Got::Done)
            }
            Asking::Accepts(bits) => {
                self.port.accept(bits);
                self.keep(what, row, &Answered::without_lines(Reply::Done));
                Ok(Got::Done)
            }
            Asking::Refuses(errno) => {
                let answered = Answered::without_lines(Reply::Refused(errno));
                self.keep(what, row, &answered);
                Ok(Got::Refused(errno))
            }
        }
    }

    /// Closes the open files, in the order of their numbers. `NoMemory` alone is refused: then so many of them are closed, those with the
    /// lowest numbers.
    pub fn close_all(&mut self, alloc: Global) -> Result<(), Errno>
        requires rows { Each IsRow self.old.rows.items }
        ensures rows { Each IsRow self.new.rows.items }
        ensures closed { (s : Standing PlannedPort) → StandsAs self.old s → OnOk result (StandsAs self.new (all_closed s)) }
        ensures none_open { OnOk result (self.new.rows.items ≡ []) }
        ensures front { (s : Standing PlannedPort) → StandsAs self.old s → OnErr result ((count : ℕ) × StandsAs self.new (front_closed count s)) }
        ensures memory_alone { IsOkUnless result Errno.NoMemory }
    {
        core_is_well_kept(&self.core);
        let rows = in_order(alloc, &self.rows)?;
        self.close_rows(alloc, &rows)
    }

    /// Closes these files, one after another.
    fn close_rows(&mut self, alloc: Global, rows: &[FileRow]) -> Result<(), Errno>
        requires rows { Each IsRow self.old.rows.items }
        ensures rows { Each IsRow self.new.rows.items }
        ensures closed { (s : Standing PlannedPort) → StandsAs self.old s → OnOk result (StandsAs self.new (closes (map row_file rows.now) s)) }
        ensures front { (s : Standing PlannedPort) → StandsAs self.old s → OnErr result ((count : ℕ) × StandsAs self.new (closes (take count (map row_file rows.now)) s)) }
        ensures memory_alone { IsOkUnless result Errno.NoMemory }
    {
        for row in rows {
            match self.perform(alloc, &Do::Close { slot: row.slot() }) {
                Ok(_) => {}
                Err(errno) => return Err(errno),
            }
        }
        Ok(())
    }

    /// Makes the call of an operation.
    fn call(
        &mut self,
        alloc: Global,
        what: &Do,
        row: Option<FileRow>,
        call: &DeviceCall,
    ) -> Result<Got, Errno>
        requires rows { Each IsRow self.old.rows.items }
        requires room { vec_len self.old.rows + 1 ≤ vec_capacity self.old.rows }
        requires row { IsSomeRow row }
        requires found { file_for what.now (map row_file self.old.rows.items) ≡ file_of row }
        requires fits { FitsDevice call.now }
        requires asks { (files : List OpenFile) → file_for what.now files ≡ file_of row → Calls call.now ≡ asking files what.now }
        ensures rows { Each IsRow self.new.rows.items }
        ensures ok { (s : Standing PlannedPort) → StandsAs self.old s → IfOk result (λ got. (got ≡ (performs 0 from_plan what.now s).0) × StandsAs self.new (performs 0 from_plan what.now s).1) }
        ensures kept { OnErr result (alone_in self.new ≡ alone_in self.old) }
        ensures memory_alone { IsOkUnless result Errno.NoMemory }
    {
        let buffer = buffer_for(alloc, what)?;
        core_is_well_kept(&self.core);
        match make(&mut self.core, alloc, &mut self.port, call, buffer) {
            Ok(
                Made {
                    reply,
                    lines,
                    buffer,
                },
            ) => {
                self.keep(what, row, &Answered { reply, lines });
                Ok(got_of(what, &reply, buffer))
            }
            Err(errno) => Err(errno),
        }
    }

    /// The open files after an operation that was answered so. There is room for a file more.
    fn keep(&mut self, what: &Do, row: Option<FileRow>, answered: &Answered)
        requires rows { Each IsRow self.old.rows.items }
        requires room { vec_len self.old.rows + 1 ≤ vec_capacity self.old.rows }
        requires row { IsSomeRow row }
        requires found { file_for what.now (map row_file self.old.rows.items) ≡ file_of row }
        requires opens { OpensWithin what.now answered.now.reply }
        requires named { NamesMade what.now row answered.now }
        ensures rows { Each IsRow self.new.rows.items }
        ensures files { map row_file self.new.rows.items ≡ files_behind what.now answered.now.reply (map row_file self.old.rows.items) }
        ensures core { self.new.core ≡ self.old.core }
        ensures port { self.new.port ≡ self.old.port }
    {
        keep(&mut self.rows, what, row, answered);
    }
}
