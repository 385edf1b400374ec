//! Who carries the operations of talks out on a device.

ghost use Rattle.std.specs.Prelude.{◌≡◌, List, false, true};
ghost use Rattle.std.specs.List.{list_any};
ghost use Rattle.gl_model.specs.declared.reply.Reply.{Reply};
ghost use Rattle.gl_asking.specs.Asking.{asking, file_for, files_behind};
ghost use Rattle.gl_asking.specs.Changes.{IsChange, NamesMade, OpensWithin, changed};
ghost use Rattle.gl_asking.specs.Files.{OpenFile};
ghost use Rattle.gl_asking.specs.Rows.{IsSomeRow, file_of};
ghost use Rattle.gl_chip.specs.Files.{plain_result};
ghost use Rattle.gl_chip.specs.Held.{row_in};
ghost use Rattle.gl_check.specs.Joining.{Maps, asking_with, is_joined};
ghost use Rattle.gl_session.specs.Asked.{IsAsked, left_for};

use crate::joining::Targets;
use crate::rows::Rows;
use gl_asking::{Asking, Change, FileRow, asking_of, got_of};
use gl_base::command::GET_LINE;
use gl_base::{Do, Errno, Got, Kind, LINES_MAX, Name};
use gl_check::buffer_for;
use gl_chip::{Actor, Answer, Gpio, HeldFile, Order, files_behind};
use gl_core::Core;
use gl_driver::{Driver, Map, Target};
use gl_model::{Call, DeviceCall, Reply};
use std::alloc::Global;
use std::marker::Model;
use std::mem;
use std::sync::Wait;

/// An actor of a device, with the open files of the talk that it carries out, the maps of its port, and what its talks printed.
#[derive(Drop)]
pub struct Player<'d, D: Driver<Core>> {
    pub(crate) device: &'d Gpio<D>,
    pub(crate) actor: Actor<D>,
    files: Rows,
    pub(crate) maps: Vec<Map>,
    text: Vec<u8>,
}

impl<'d, D: Driver<Core>> Model for Player<'d, D> {
    ghost use Rattle.std.specs.Prelude.{◌≡◌};
    ghost use Rattle.gl_chip.specs.Values.{IsActorOf};
    ghost use Rattle.gl_session.specs.Player.{Playing};
    ghost use Rattle.gl_session.specs.Placed.{AreFilesPlaced, AreMapsPlaced};
    ghost use Rattle.gl_session.specs.Ports.{AreMaps, maps_of};

    ghost Value = { Playing };

    ghost view = { λ p. record {
      gate = p.device.now;
      view = p.actor.pass.view;
      carried = record { files = p.files; told = D.Port.told p.actor.port; maps = maps_of D.Port.maps D.Port.maps_left p.actor.port };
      text = p.text.items;
    } };

    ghost invariant = { λ p. IsActorOf p.device.now p.actor × AreMaps p.maps.items × (p.maps.items ≡ D.Port.maps p.actor.port)
        × AreFilesPlaced p.actor.pass.view.seen p.files × AreMapsPlaced p.actor.pass.view.seen p.maps.items };
}

/// Whether an operation opens a file, where it isn't refused. No other has a file more, and a close has given its own up before its call.
fn opens(what: &Do) -> bool
    ensures stays { result ≡ false → (reply : Reply) (files : List OpenFile) → left_for what.now files ≡ files_behind what.now reply files }
    ensures left { result ≡ true → (files : List OpenFile) → left_for what.now files ≡ files }
    ensures asks { result ≡ true → (m : Maps) (files : List OpenFile) → asking_with m files what.now ≡ asking files what.now }
{
    match what {
        Do::OpenChip { .. } => true,
        Do::Ioctl { cmd, .. } => *cmd == GET_LINE,
        _ => false,
    }
}

/// What becomes of the open files by the answer to an operation. The file of a close was taken out before.
fn change_by(what: &Do, answer: Answer<'_>) -> Change<HeldFile>
    requires asks { IsAsked what.now (row_in answer.order.file) answer.order.call.now }
    requires within { OpensWithin what.now answer.answered.reply }
    requires named { NamesMade what.now (row_in answer.order.file) answer.answered }
    requires row { IsSomeRow (row_in answer.order.file) }
    ensures row { IsChange result }
    ensures told { (files : List OpenFile) → file_for what.now files ≡ file_of (row_in answer.entry.order.file) → changed result (left_for what.now files) ≡ files_behind what.now answer.entry.answered.reply files }
{
    if opens(what) {
        files_behind(what, answer)
    } else {
        Change::Stays
    }
}

/// What a device answered, or why it did not make the call. An order that comes back is let go of: the run ends there.
fn answer_or_errno<'o>(made: Result<Answer<'o>, (Order<'o>, Errno)>) -> Result<Answer<'o>, Errno>
    ensures { result ≡ plain_result made.entry }
{
    match made {
        Ok(answer) => Ok(answer),
        Err((_order, errno)) => Err(errno),
    }
}

/// Whether one of these requests is of a chip that the port of an actor has a map of.
fn is_any_joined<D: Driver<Core>>(actor: &Actor<D>, targets: &[Target]) -> bool
    ensures { result ≡ list_any (is_joined (D.Port.maps actor.now.port)) targets.now }
{
    for target in targets {
        if actor.map(target.place).is_some() {
            return true;
        }
    }
    false
}

impl<'d, D: Driver<Core>> Player<'d, D> {
    ghost use Rattle.std.specs.Prelude.{◌≡◌, ◌⊎◌, ◌++◌, ◌≤◌, ℕ, List, [], Option, None, take, IfOk, IfErr, OnOk, IsOkUnless};
    ghost use Rattle.std.specs.List.{list_any};
    ghost use Rattle.gl_base.specs.declared.errno.Errno.TheVariants.{Full, NoMemory};
    ghost use Rattle.gl_base.specs.declared.operation.Do.TheVariants.{Aggregate};
    ghost use Rattle.gl_world.specs.History.{StartsWith};
    ghost use Rattle.gl_rule.specs.Turn.{NoStrangers};
    ghost use Rattle.gl_gate.specs.Calls.{HasItsOwn};
    ghost use Rattle.gl_driver.specs.Maps.{FitsMap, map_at};
    ghost use Rattle.gl_driver.specs.Told.{with_bits, with_plan};
    ghost use Rattle.gl_core.specs.Device.{core};
    ghost use Rattle.gl_asking.specs.declared.kinds.Asking.TheVariants.{Calls};
    ghost use Rattle.gl_asking.specs.declared.kinds.FileRow.{FileRow as RowOf};
    ghost use Rattle.gl_asking.specs.Asking.{file_for, files_behind};
    ghost use Rattle.gl_asking.specs.Changes.{IsChange, changed};
    ghost use Rattle.gl_asking.specs.Files.{OpenFile};
    ghost use Rattle.gl_asking.specs.Fitting.{FitsAsking, FitsDevice};
    ghost use Rattle.gl_asking.specs.Rows.{AsksOn, IsSomeRow, file_of};
    ghost use Rattle.gl_chip.specs.Held.{kind_in, row_in};
    ghost use Rattle.gl_chip.specs.Orders.{AnswersOrder, FitsOrder, GivesLines, WroteTo};
    ghost use Rattle.gl_chip.specs.Steps.{FoundNoRoom};
    ghost use Rattle.gl_chip.specs.Values.{IsActorOf};
    ghost use Rattle.gl_check.specs.Buffers.{buffer_for};
    ghost use Rattle.gl_check.specs.Drivers.{driver_kind};
    ghost use Rattle.gl_check.specs.Joining.{asking_with, is_joined, joining_fault, learned, maps_behind, targets_in, with_one};
    ghost use Rattle.gl_session.specs.Asked.{AnswersSo, MayJoin, MayLearn, left_for, with_files};
    ghost use Rattle.gl_session.specs.Performed.{MadeFor, Performs};
    ghost use Rattle.gl_session.specs.Placed.{AreFilesPlaced, AreMapsPlaced, IsPlaced};
    ghost use Rattle.gl_session.specs.Ports.{AreMaps, OwnsNothing, maps_of};

    /// An actor of this device that has no file open and has printed nothing. Its port keeps no map.
    pub fn new(alloc: Global, device: &'d Gpio<D>, actor: Actor<D>) -> Player<'d, D>
        requires actor { IsActorOf device.now actor }
        requires bare { D.Port.maps actor.port ≡ [] }
        ensures device { result.gate ≡ device.now }
        ensures view { result.view ≡ actor.pass.view }
        ensures files { result.carried.files ≡ [] }
        ensures told { result.carried.told ≡ D.Port.told actor.port }
        ensures maps { result.carried.maps ≡ maps_of D.Port.maps D.Port.maps_left actor.port }
        ensures text { result.text ≡ [] }
    {
        Player::with_maps(alloc, device, actor, Vec::new(alloc))
    }

    /// The same where its port keeps these maps.
    pub fn with_maps(
        alloc: Global,
        device: &'d Gpio<D>,
        actor: Actor<D>,
        maps: Vec<Map>,
    ) -> Player<'d, D>
        requires actor { IsActorOf device.now actor }
        requires maps { AreMaps maps.items }
        requires kept { maps.items ≡ D.Port.maps actor.port }
        requires placed { AreMapsPlaced actor.pass.view.seen maps.items }
        ensures device { result.gate ≡ device.now }
        ensures view { result.view ≡ actor.pass.view }
        ensures files { result.carried.files ≡ [] }
        ensures told { result.carried.told ≡ D.Port.told actor.port }
        ensures maps { result.carried.maps ≡ maps_of D.Port.maps D.Port.maps_left actor.port }
        ensures text { result.text ≡ [] }
    {
        Player {
            device,
            actor,
            files: Rows::new(alloc),
            maps,
            text: Vec::new(alloc),
        }
    }

    /// The actor. Its files are left as they are on the device.
    pub fn into_actor(self) -> Actor<D>
        ensures actor { IsActorOf self.entry.gate result }
        ensures view { result.pass.view ≡ self.entry.view }
        ensures port { D.Port.told result.port ≡ self.entry.carried.told }
        ensures maps { maps_of D.Port.maps D.Port.maps_left result.port ≡ self.entry.carried.maps }
    {
        let (actor, _maps) = self.into_parts();
        actor
    }

    /// The actor, and the maps that its port keeps.
    pub fn into_parts(self) -> (Actor<D>, Vec<Map>)
        ensures actor { IsActorOf self.entry.gate result.0 }
        ensures view { result.0.pass.view ≡ self.entry.view }
        ensures port { D.Port.told result.0.port ≡ self.entry.carried.told }
        ensures maps { maps_of D.Port.maps D.Port.maps_left result.0.port ≡ self.entry.carried.maps }
        ensures kept { result.1.items ≡ self.entry.carried.maps.kept }
        ensures may_be_learned { AreMaps result.1.items }
    {
        let Player {
            device: _,
            actor,
            files: _,
            maps,
            text: _,
        } = self;
        (actor, maps)
    }

    /// The maps that its port keeps, in the order in which it learned them.
    pub fn maps(&self) -> &[Map]
        ensures kept { result.now ≡ self.now.carried.maps.kept }
        ensures may_be_learned { AreMaps result.now }
        ensures placed { AreMapsPlaced self.now.view.seen result.now }
    {
        &self.maps
    }

    /// The number of the actor. It knows its own entries, and of other actors those alone that some actor may have made.
    pub fn number(&self) -> u8
        ensures number { result ≡ self.now.view.number }
        ensures own { HasItsOwn self.now.view }
        ensures strangers { NoStrangers self.now.view self.now.view.seen }
    {
        self.actor.number()
    }

    /// Appends a piece of text.
    pub fn print(&mut self, piece: &[u8]) -> Result<(), Errno>
        ensures device { self.new.gate ≡ self.old.gate }
        ensures view { self.new.view ≡ self.old.view }
        ensures carried { self.new.carried ≡ self.old.carried }
        ensures printed { OnOk result (self.new.text ≡ self.old.text ++ piece.now) }
        ensures memory_alone { IsOkUnless result NoMemory }
    {
        match self.text.extend_from_slice(piece) {
            Ok(()) => Ok(()),
            Err(_) => Err(Errno::NoMemory),
        }
    }

    /// Gives what was printed so far, and begins a new text.
    pub fn take_text(&mut self, alloc: Global) -> Vec<u8>
        ensures text { result.items ≡ self.old.text }
        ensures device { self.new.gate ≡ self.old.gate }
        ensures view { self.new.view ≡ self.old.view }
        ensures carried { self.new.carried ≡ self.old.carried }
        ensures empty { self.new.text ≡ [] }
    {
        mem::replace(&mut self.text, Vec::new(alloc))
    }

    /// Goes on with these files open, and gives those that were open.
    pub fn change_files(&mut self, files: Rows) -> Rows
        requires placed { AreFilesPlaced self.old.view.seen files }
        ensures given { result ≡ self.old.carried.files }
        ensures given_placed { AreFilesPlaced self.old.view.seen result }
        ensures device { self.new.gate ≡ self.old.gate }
        ensures view { self.new.view ≡ self.old.view }
        ensures files { self.new.carried.files ≡ files }
        ensures told { self.new.carried.told ≡ self.old.carried.told }
        ensures maps { self.new.carried.maps ≡ self.old.carried.maps }
        ensures text { self.new.text ≡ self.old.text }
    {
        mem::replace(&mut self.files, files)
    }

    /// Carries an operation out, and gives its result. Being out of memory and a full history are no result, and are the errors here.
    pub fn perform<R: Wait>(&mut self, rt: &R, alloc: Global, what: &Do) -> Result<Got, Errno>
        requires none { OwnsNothing D.OwnEntries }
        ensures device { self.new.gate ≡ self.old.gate }
        ensures text { self.new.text ≡ self.old.text }
        ensures performs { Performs (driver_kind D.ENTRIES D.is_planned D.OwnEntries D.Follows) what.now result self.old.view self.old.carried self.new.view self.new.carried }
    {
        let mut files = self.change_files(Rows::new(alloc));
        let result = self.perform_on(rt, alloc, what, &mut files);
        let _none = self.change_files(files);
        result
    }

    /// The same with the open files at hand: they aren't the player's, which can be called while one of them is lent.
    fn perform_on<R: Wait>(
        &mut self,
        rt: &R,
        alloc: Global,
        what: &Do,
        files: &mut Rows,
    ) -> Result<Got, Errno>
        requires none { OwnsNothing D.OwnEntries }
        requires placed { AreFilesPlaced self.old.view.seen files.old }
        ensures device { self.new.gate ≡ self.old.gate }
        ensures text { self.new.text ≡ self.old.text }
        ensures placed { AreFilesPlaced self.new.view.seen files.new }
        ensures performs { Performs (driver_kind D.ENTRIES D.is_planned D.OwnEntries D.Follows) what.now result
            self.old.view (with_files files.old self.old.carried) self.new.view (with_files files.new self.new.carried) }
    {
        let mut buffer = match buffer_for(alloc, what) {
            Ok(buffer) => buffer,
            Err(errno) => return Err(errno),
        };
        match self.ask(rt, alloc, what, files, &mut buffer) {
            Ok((reply, change)) => match self.settle(what, reply, change, files) {
                Ok(()) => Ok(got_of(what, &reply, buffer)),
                Err(errno) => Err(errno),
            },
            Err(errno) => Err(errno),
        }
    }

    /// What an operation is answered, by the machine, or without a call; and what becomes of the open files. The file of a close is taken out.
    fn ask<R: Wait>(
        &mut self,
        rt: &R,
        alloc: Global,
        what: &Do,
        files: &mut Rows,
        out: &mut [u8],
    ) -> Result<(Reply, Change<HeldFile>), Errno>
        requires none { OwnsNothing D.OwnEntries }
        requires placed { AreFilesPlaced self.old.view.seen files.old }
        requires buffer { out.old ≡ buffer_for what.now }
        ensures device { self.new.gate ≡ self.old.gate }
        ensures text { self.new.text ≡ self.old.text }
        ensures maps { self.new.carried.maps ≡ self.old.carried.maps }
        ensures later { StartsWith self.new.view.seen self.old.view.seen }
        ensures left { files.new ≡ left_for what.now files.old }
        ensures change { IfOk result (λ asked. IsChange asked.1) }
        ensures changed { IfOk result (λ asked. changed asked.1 files.new ≡ files_behind what.now asked.0 files.old) }
        ensures placed { IfOk result (λ asked. AreFilesPlaced self.new.view.seen (files_behind what.now asked.0 files.old)) }
        ensures may_learn { IfOk result (λ asked. MayLearn asked.0 what.now files.old self.old.carried.maps self.new.view.seen) }
        ensures answers { AnswersSo (driver_kind D.ENTRIES D.is_planned D.OwnEntries D.Follows) what.now result
            self.old.view (with_files files.old self.old.carried) out.new self.new.view self.new.carried.told }
    {
        let given = files.give_up(what);
        let handed = files.handed(what, given);
        let asking = self.asking(what, handed.row(), files);
        match &asking {
            Asking::Calls(call) => self.call(rt, alloc, what, Order::of(call, handed), out),
            Asking::Plans(nth) => {
                self.plan(*nth);
                Ok((Reply::Done, Change::Stays))
            }
            Asking::Accepts(bits) => {
                self.accept(*bits);
                Ok((Reply::Done, Change::Stays))
            }
            Asking::Refuses(errno) => Ok((Reply::Refused(*errno), Change::Stays)),
        }
    }

    /// What an operation is, by the row of the file that it names, the files that are open beside it, and the maps of the port.
    fn asking(&self, what: &Do, row: Option<FileRow>, files: &Rows) -> Asking
        requires row { IsSomeRow row }
        ensures told { (all : List OpenFile) → files.now ≡ left_for what.now all → file_for what.now all ≡ file_of row → result ≡ asking_with self.now.carried.maps all what.now }
        ensures on { (all : List OpenFile) → file_for what.now all ≡ file_of row → AsksOn row result }
        ensures fits { FitsAsking result }
    {
        match what {
            Do::Aggregate {
                label,
                slots,
                count,
            } => self.joining(label, slots, *count, files),
            _ => asking_of(what, row),
        }
    }

    /// What a chip over the requests in these slots is: it is probed, or refused.
    fn joining(&self, label: &Name, slots: &[u32; 4], count: u32, files: &Rows) -> Asking
        ensures told { result ≡ asking_with self.now.carried.maps files.now (Aggregate label.now slots.now count) }
        ensures on { (row : Option RowOf) → AsksOn row result }
        ensures fits { FitsAsking result }
    {
        // That a name is one is known once it is read.
        let _name = label.as_bytes();
        let targets = Targets::in_slots(files, slots, count);
        match self.joining_fault(&targets) {
            Some(errno) => Asking::Refuses(errno),
            None => Asking::Calls(DeviceCall::Once(Call::Probe {
                label: *label,
                lines: targets.line_count(),
                kind: Kind::Remote,
            })),
        }
    }

    /// Why these requests can't be joined, the first that holds.
    fn joining_fault(&self, targets: &Targets) -> Option<Errno>
        ensures { result ≡ joining_fault self.now.carried.maps targets.now }
    {
        let lines = targets.line_count();
        if self.is_one_joined(targets) {
            Some(Errno::Inval)
        } else if self.actor.maps_left() == 0 {
            Some(Errno::NoSpc)
        } else if lines == 0 || lines > LINES_MAX {
            Some(Errno::Inval)
        } else {
            None
        }
    }

    /// Whether one of them is of a chip whose lines are joined themselves.
    fn is_one_joined(&self, targets: &Targets) -> bool
        ensures { result ≡ list_any (is_joined self.now.carried.maps.kept) targets.now }
    {
        is_any_joined(&self.actor, targets.as_slice())
    }

    /// Makes the call of an operation, on the file of its order.
    fn call<R: Wait>(
        &mut self,
        rt: &R,
        alloc: Global,
        what: &Do,
        order: Order<'_>,
        out: &mut [u8],
    ) -> Result<(Reply, Change<HeldFile>), Errno>
        requires none { OwnsNothing D.OwnEntries }
        requires row { IsSomeRow (row_in order.file) }
        requires fits { FitsDevice order.call.now }
        requires asks { (all : List OpenFile) × (file_for what.now all ≡ file_of (row_in order.file)) × (Calls order.call.now ≡ asking_with self.old.carried.maps all what.now) }
        requires buffer { out.old ≡ buffer_for what.now }
        ensures device { self.new.gate ≡ self.old.gate }
        ensures text { self.new.text ≡ self.old.text }
        ensures maps { self.new.carried.maps ≡ self.old.carried.maps }
        ensures later { StartsWith self.new.view.seen self.old.view.seen }
        ensures change { IfOk result (λ asked. IsChange asked.1) }
        ensures changed { (all : List OpenFile) → file_for what.now all ≡ file_of (row_in order.entry.file) → IfOk result (λ asked. changed asked.1 (left_for what.now all) ≡ files_behind what.now asked.0 all) }
        ensures placed { (all : List OpenFile) → Calls order.entry.call.now ≡ asking_with self.old.carried.maps all what.now → AreFilesPlaced self.old.view.seen all
            → IfOk result (λ asked. AreFilesPlaced self.new.view.seen (files_behind what.now asked.0 all)) }
        ensures may_learn { (all : List OpenFile) → Calls order.entry.call.now ≡ asking_with self.old.carried.maps all what.now → AreFilesPlaced self.old.view.seen all
            → IfOk result (λ asked. MayLearn asked.0 what.now all self.old.carried.maps self.new.view.seen) }
        ensures answers { (all : List OpenFile) → file_for what.now all ≡ file_of (row_in order.entry.file) → Calls order.entry.call.now ≡ asking_with self.old.carried.maps all what.now
            → AnswersSo (driver_kind D.ENTRIES D.is_planned D.OwnEntries D.Follows) what.now result
            self.old.view (with_files all self.old.carried) out.new self.new.view self.new.carried.told }
    {
        // What is known of the maps is known once they are read.
        let _maps = self.maps();
        match self.make(rt, alloc, order, out) {
            Ok(answer) => Ok((answer.reply(), change_by(what, answer))),
            Err(errno) => Err(errno),
        }
    }

    /// Makes a call of the device.
    fn make<'o, R: Wait>(
        &mut self,
        rt: &R,
        alloc: Global,
        order: Order<'o>,
        out: &mut [u8],
    ) -> Result<Answer<'o>, Errno>
        requires none { OwnsNothing D.OwnEntries }
        requires fits { FitsOrder order.call.now (kind_in order.file) out.old }
        ensures device { self.new.gate ≡ self.old.gate }
        ensures text { self.new.text ≡ self.old.text }
        ensures files { self.new.carried.files ≡ self.old.carried.files }
        ensures made { IfOk result (λ r. (bytes : List ℕ) × WroteTo order.entry.call.now bytes out.old out.new
            × MadeFor (driver_kind D.ENTRIES D.is_planned D.OwnEntries D.Follows) self.old.carried.maps order.entry.call.now (kind_in order.entry.file) self.old.view r.answered.reply bytes self.new.view
            self.old.carried.told self.new.carried.told) }
        ensures call { IfOk result (λ r. r.order.call.now ≡ order.entry.call.now) }
        ensures file { IfOk result (λ r. row_in r.order.file ≡ row_in order.entry.file) }
        ensures maps { self.new.carried.maps ≡ self.old.carried.maps }
        ensures later { StartsWith self.new.view.seen self.old.view.seen }
        ensures form { IfOk result (λ r. AnswersOrder order.entry.call.now (kind_in order.entry.file) r.answered.reply) }
        ensures lines { IfOk result (λ r. GivesLines order.entry.call.now (kind_in order.entry.file) r.answered) }
        ensures could_not { IfErr result (λ e. (e ≡ NoMemory) ⊎ ((e ≡ Full) × FoundNoRoom core self.old.view self.new.view)) }
    {
        answer_or_errno(self.device.call(rt, alloc, &mut self.actor, order, out))
    }

    /// Keeps what an answer says: what becomes of the open files, and a map that it teaches.
    fn settle(
        &mut self,
        what: &Do,
        reply: Reply,
        change: Change<HeldFile>,
        files: &mut Rows,
    ) -> Result<(), Errno>
        requires change { IsChange change }
        requires placed { AreFilesPlaced self.old.view.seen files.old }
        requires then_placed { AreFilesPlaced self.old.view.seen (changed change files.old) }
        requires may_learn { MayLearn reply what.now (changed change files.old) self.old.carried.maps self.old.view.seen }
        ensures device { self.new.gate ≡ self.old.gate }
        ensures view { self.new.view ≡ self.old.view }
        ensures told { self.new.carried.told ≡ self.old.carried.told }
        ensures text { self.new.text ≡ self.old.text }
        ensures placed { AreFilesPlaced self.new.view.seen files.new }
        ensures files { OnOk result (files.new ≡ changed change files.old) }
        ensures maps { OnOk result (self.new.carried.maps ≡ maps_behind what.now reply (changed change files.old) self.old.carried.maps) }
        ensures memory_alone { IsOkUnless result NoMemory }
    {
        match files.change(change) {
            Ok(()) => self.learn_behind(what, reply, files),
            Err(errno) => Err(errno),
        }
    }

    /// Has the port keep the map that a reply teaches, if it teaches one.
    fn learn_behind(&mut self, what: &Do, reply: Reply, files: &Rows) -> Result<(), Errno>
        requires may_learn { MayLearn reply what.now files.now self.old.carried.maps self.old.view.seen }
        ensures device { self.new.gate ≡ self.old.gate }
        ensures view { self.new.view ≡ self.old.view }
        ensures told { self.new.carried.told ≡ self.old.carried.told }
        ensures text { self.new.text ≡ self.old.text }
        ensures maps { OnOk result (self.new.carried.maps ≡ maps_behind what.now reply files.now self.old.carried.maps) }
        ensures memory_alone { IsOkUnless result NoMemory }
    {
        match (what, reply) {
            (Do::Aggregate { slots, count, .. }, Reply::Number(place)) => {
                self.learn_joined(place, slots, *count, files)
            }
            _ => Ok(()),
        }
    }

    /// Has the port keep the map of a new chip over the requests in these slots.
    fn learn_joined(
        &mut self,
        place: u64,
        slots: &[u32; 4],
        count: u32,
        files: &Rows,
    ) -> Result<(), Errno>
        requires may_join { MayJoin place (targets_in (take count slots.now) files.now) self.old.carried.maps self.old.view.seen }
        ensures device { self.new.gate ≡ self.old.gate }
        ensures view { self.new.view ≡ self.old.view }
        ensures told { self.new.carried.told ≡ self.old.carried.told }
        ensures text { self.new.text ≡ self.old.text }
        ensures maps { OnOk result (self.new.carried.maps ≡ learned (Reply.Number place) (targets_in (take count slots.now) files.now) self.old.carried.maps) }
        ensures memory_alone { IsOkUnless result NoMemory }
    {
        let targets = Targets::in_slots(files, slots, count);
        self.learn(targets.joined_at(place as u8))
    }

    /// Has the port keep a map more.
    fn learn(&mut self, map: Map) -> Result<(), Errno>
        requires room { 1 ≤ self.old.carried.maps.left }
        requires new { map_at map.place self.old.carried.maps.kept ≡ None }
        requires fits { FitsMap map }
        requires placed { IsPlaced self.old.view.seen map.place }
        ensures device { self.new.gate ≡ self.old.gate }
        ensures view { self.new.view ≡ self.old.view }
        ensures files { self.new.carried.files ≡ self.old.carried.files }
        ensures told { self.new.carried.told ≡ self.old.carried.told }
        ensures text { self.new.text ≡ self.old.text }
        ensures maps { OnOk result (self.new.carried.maps ≡ with_one map self.old.carried.maps) }
        ensures memory_alone { IsOkUnless result NoMemory }
    {
        match self.maps.push(map) {
            Ok(()) => {
                self.actor.learn(&map);
                Ok(())
            }
            Err(_) => Err(Errno::NoMemory),
        }
    }

    /// Plans that the `nth` driver call from now on fails, counted from 1; 0 takes a plan away.
    fn plan(&mut self, nth: u32)
        ensures device { self.new.gate ≡ self.old.gate }
        ensures view { self.new.view ≡ self.old.view }
        ensures files { self.new.carried.files ≡ self.old.carried.files }
        ensures told { self.new.carried.told ≡ with_plan nth self.old.carried.told }
        ensures maps { self.new.carried.maps ≡ self.old.carried.maps }
        ensures text { self.new.text ≡ self.old.text }
    {
        self.actor.plan(nth);
    }

    /// Makes these the bits that the actor's port accepts.
    fn accept(&mut self, bits: u64)
        ensures device { self.new.gate ≡ self.old.gate }
        ensures view { self.new.view ≡ self.old.view }
        ensures files { self.new.carried.files ≡ self.old.carried.files }
        ensures told { self.new.carried.told ≡ with_bits bits self.old.carried.told }
        ensures maps { self.new.carried.maps ≡ self.old.carried.maps }
        ensures text { self.new.text ≡ self.old.text }
    {
        self.actor.accept(bits);
    }
}
