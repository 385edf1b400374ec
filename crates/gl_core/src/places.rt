//! The tables of all places.

ghost use Rattle.std.specs.Prelude.{◌≡◌, ◌<◌, ◌≤◌, ◌+◌, ◌-◌, ◌↔◌, [], ◌∷◌, ◌++◌, None, length, nat_lt, slice_index_or, take, vec_capacity, IfOk, IfSome, IsOkUnless, IsSome};
ghost use Rattle.gl_base.specs.declared.limits.TheConstants.{LINES_MAX, PLACES};
ghost use Rattle.gl_model.specs.Chips.{new_place};
ghost use Rattle.gl_model.specs.Places.{no_place};
ghost use Rattle.gl_base.specs.Lines.{IsLineCount, offsets_of};
ghost use Rattle.gl_bank.specs.Level.{first_levels, levels_at, released};
ghost use Rattle.gl_base.specs.Positions.{change_at, change_each};
ghost use Rattle.gl_model.specs.Opening.{with_lines_freed};
ghost use Rattle.gl_base.specs.Refusals.{answer};
ghost use Rattle.gl_desc.specs.Desc.{claim_fault, claimed, freed, settled};
ghost use Rattle.gl_irq.specs.Irq.{act_refusal};
ghost use Rattle.gl_model.specs.Claiming.{with_descs};
ghost use Rattle.gl_model.specs.Configuring.{configured_on, with_levels};
ghost use Rattle.gl_model.specs.Interrupts.{irq_line, is_claimed};
ghost use Rattle.gl_model.specs.Pulls.{pull_change};
ghost use Rattle.gl_model.specs.Values.{driven_with};
ghost use Rattle.gl_core.specs.Live.{furnished};
ghost use Rattle.gl_core.specs.Levels.{with_pull};
ghost use Rattle.gl_model.specs.Pins.{pin_refusal};
ghost use Rattle.gl_core.specs.Shape.{AreNew, HasLine, HasPlace, with_irq_done, with_pin_done};

use crate::pins::pin_at;
use crate::prepared_bank::PreparedBank;
use crate::state::both;
use gl_bank::{Bank, Change, flip};
use gl_base::{
    Errno, IrqDo, Kind, Lines, Name, PLACES, PinDo, Settings, flag, has_bit, push_within,
};
use gl_desc::{Descs, Holder};
use gl_irq::{IrqLine, Irqs};
use gl_model::Place;
use gl_pins::Pins;
use std::alloc::Global;
use std::marker::Model;

/// The tables of the places that have a chip, by place, and new ones for all other places. Contracts see the first.
#[derive(Drop)]
pub struct Places {
    used: Vec<Place>,
    spare: Vec<Place>,
}

impl Model for Places {
    ghost use Rattle.std.specs.Prelude.{List, vec_capacity};
    ghost use Rattle.gl_model.specs.declared.place.Place.{Place};
    ghost use Rattle.gl_core.specs.Shape.{IsSpare};

    ghost Value = { List Place };

    ghost view = { λ p. p.used.items };

    ghost invariant = { λ p. IsSpare p.used.items p.spare.items (vec_capacity p.used) };
}

/// The tables of a place that waits for its chip: without a line, and with room for as many as a chip can have.
fn waiting_place(alloc: Global) -> Result<Place, Errno>
    ensures ok { IfOk result (λ place. place ≡ no_place) }
    ensures memory_alone { IsOkUnless result Errno.NoMemory }
{
    let lines = both(Descs::new(alloc, 0), Bank::new(alloc, 0));
    let rest = both(Irqs::new(alloc, 0), Pins::new(alloc));
    match both(lines, rest) {
        Err(errno) => Err(errno),
        Ok(((descs, bank), (irqs, pins))) => Ok(Place {
            descs,
            bank,
            irqs,
            pins,
        }),
    }
}

/// The tables of all places, each of which waits for its chip.
fn waiting_places(alloc: Global) -> Result<Vec<Place>, Errno>
    ensures ok { IfOk result (λ places. (length places.items ≡ PLACES) × AreNew places.items) }
    ensures memory_alone { IsOkUnless result Errno.NoMemory }
{
    let mut places = Vec::with_capacity(alloc, usize::from(PLACES))?;
    for _place in 0..PLACES {
        push_within(&mut places, waiting_place(alloc)?);
    }
    Ok(places)
}

/// Takes the last item.
fn take_last<T>(items: &mut Vec<T>) -> Option<T>
    ensures last { IfSome result (λ x. (0 < length items.old.items) × (x ≡ slice_index_or items.old.items (length items.old.items - 1) x)) }
    ensures rest { items.new.items ≡ take (length items.old.items - 1) items.old.items }
    ensures some { IsSome result ↔ (0 < length items.old.items) }
{
    items.pop()
}

/// What the interrupt of a line has to know of the line.
fn irq_line(place: &Place, offset: u32) -> IrqLine
    requires descs { offset < length place.now.descs }
    requires bank { offset < length place.now.bank }
    ensures { result ≡ irq_line place.now offset }
{
    let line = place.bank.line(offset);
    IrqLine {
        claimed: is_claimed(place.descs.holder(offset)),
        output: line.output,
        open_drain: has_bit(line.flags, flag::OPEN_DRAIN),
        watched: line.held
            && (has_bit(line.flags, flag::EDGE_RISING)
                || has_bit(line.flags, flag::EDGE_FALLING)
                || line.debounce_us != 0),
    }
}

/// Releases the lines at these offsets.
#[tactic(auto, using(gl_base::proofs::AtPositions::change_each_more))]
fn release_each(bank: &mut Bank, offsets: &[u32])
    ensures { bank.new ≡ change_each first_levels offsets.now released bank.old }
{
    for offset in offsets {
        bank.release(*offset);
    }
}

/// Lets go of the lines of a request.
fn free(places: &mut Vec<Place>, place: u8, lines: &Lines)
    requires { IsLineCount lines.now.count }
    ensures places { places.new.items ≡ change_at no_place place (with_lines_freed (offsets_of lines.now)) places.old.items }
    ensures capacity { vec_capacity places.new ≡ vec_capacity places.old }
    ensures as_many { length places.new.items ≡ length places.old.items }
{
    if usize::from(place) < places.len() {
        let tables = &mut places[usize::from(place)];
        tables.descs.free(lines);
        release_each(&mut tables.bank, lines.offsets());
    }
}

/// Gives the lines of a place the names of a plan, and holds its hogs.
fn furnish(places: &mut Vec<Place>, place: u8, plan: &PreparedBank)
    ensures places { places.new.items ≡ change_at no_place place (furnished plan.now) places.old.items }
    ensures capacity { vec_capacity places.new ≡ vec_capacity places.old }
    ensures as_many { length places.new.items ≡ length places.old.items }
{
    if usize::from(place) < places.len() {
        plan.furnish(&mut places[usize::from(place)]);
    }
}

/// Nobody has the lines of a claim any more.
fn unclaim(places: &mut Vec<Place>, place: u8, lines: &Lines)
    requires { IsLineCount lines.now.count }
    ensures places { places.new.items ≡ change_at no_place place (with_descs (offsets_of lines.now) freed) places.old.items }
    ensures capacity { vec_capacity places.new ≡ vec_capacity places.old }
    ensures as_many { length places.new.items ≡ length places.old.items }
{
    if usize::from(place) < places.len() {
        places[usize::from(place)].descs.free(lines);
    }
}

/// The lines of a claim are held.
fn settle(places: &mut Vec<Place>, place: u8, lines: &Lines)
    requires { IsLineCount lines.now.count }
    ensures places { places.new.items ≡ change_at no_place place (with_descs (offsets_of lines.now) settled) places.old.items }
    ensures capacity { vec_capacity places.new ≡ vec_capacity places.old }
    ensures as_many { length places.new.items ≡ length places.old.items }
{
    if usize::from(place) < places.len() {
        places[usize::from(place)].descs.settle(lines);
    }
}

/// A request has claimed the line, and doesn't hold it yet.
fn is_claimed(holder: Holder) -> bool
    ensures { result ≡ is_claimed holder }
{
    match holder {
        Holder::Claimed(_) => true,
        Holder::Free | Holder::Held(_) | Holder::Hog => false,
    }
}

/// Does something with the interrupt of a line of a place.
fn act(places: &mut Vec<Place>, place: u8, offset: u32, what: IrqDo) -> Result<(), Errno>
    requires { HasLine places.old.items place offset }
    ensures answer { let tables = slice_index_or places.old.items place no_place in result ≡ answer (act_refusal tables.irqs offset what (irq_line tables offset)) tt }
    ensures places { places.new.items ≡ change_at no_place place (with_irq_done offset what) places.old.items }
    ensures capacity { vec_capacity places.new ≡ vec_capacity places.old }
    ensures as_many { length places.new.items ≡ length places.old.items }
{
    let tables = &mut places[usize::from(place)];
    let line = irq_line(tables, offset);
    tables.irqs.act(offset, what, line)
}

/// Pulls a line of a place, and tells the change of its physical level.
fn pull(places: &mut Vec<Place>, place: u8, offset: u32, up: bool) -> Option<Change>
    requires { HasLine places.old.items place offset }
    ensures change { result ≡ pull_change up (levels_at (slice_index_or places.old.items place no_place).bank offset) }
    ensures places { places.new.items ≡ change_at no_place place (with_pull offset up) places.old.items }
    ensures capacity { vec_capacity places.new ≡ vec_capacity places.old }
    ensures as_many { length places.new.items ≡ length places.old.items }
{
    let tables = &mut places[usize::from(place)];
    tables.bank.set_pull(offset, up)
}

/// Claims the lines of a request, which are free.
fn claim(places: &mut Vec<Place>, place: u8, lines: &Lines, fd: u32, consumer: Name)
    requires place { place < length places.old.items }
    requires lines { IsLineCount lines.now.count }
    requires free { claim_fault (slice_index_or places.old.items place no_place).descs lines.now ≡ None }
    ensures places { places.new.items ≡ change_at no_place place (with_descs (offsets_of lines.now) (claimed fd consumer)) places.old.items }
    ensures capacity { vec_capacity places.new ≡ vec_capacity places.old }
    ensures as_many { length places.new.items ≡ length places.old.items }
{
    let tables = &mut places[usize::from(place)];
    match tables.descs.claim(lines, fd, consumer) {
        Ok(()) => {}
        Err(_) => {}
    }
}

/// Drives a line of a place with a value.
fn drive(places: &mut Vec<Place>, place: u8, offset: u32, value: bool)
    requires { HasLine places.old.items place offset }
    ensures places { places.new.items ≡ change_at no_place place (with_levels offset (driven_with value)) places.old.items }
    ensures capacity { vec_capacity places.new ≡ vec_capacity places.old }
    ensures as_many { length places.new.items ≡ length places.old.items }
{
    let bank = &mut places[usize::from(place)].bank;
    let flags = bank.line(offset).flags;
    bank.drive(offset, flip(flags, value));
}

/// Configures a line of a chip of this kind. The pull of a line of a remote chip is what its driver reports, and stays.
fn configure_line(bank: &mut Bank, offset: u32, kind: Kind, settings: &Settings)
    requires { offset < length bank.old }
    ensures { bank.new ≡ change_at first_levels offset (configured_on kind settings.now) bank.old }
{
    match kind {
        Kind::Simulated => bank.apply(offset, *settings),
        Kind::Remote => {
            let pull = bank.pull(offset);
            bank.apply(offset, *settings);
            bank.set_pull(offset, pull);
        }
    }
}

/// Configures a line of a place whose chip is of this kind.
fn configure(places: &mut Vec<Place>, place: u8, offset: u32, kind: Kind, settings: &Settings)
    requires { HasLine places.old.items place offset }
    ensures places { places.new.items ≡ change_at no_place place (with_levels offset (configured_on kind settings.now)) places.old.items }
    ensures capacity { vec_capacity places.new ≡ vec_capacity places.old }
    ensures as_many { length places.new.items ≡ length places.old.items }
{
    let tables = &mut places[usize::from(place)];
    configure_line(&mut tables.bank, offset, kind, settings);
}

impl Places {
    /// No place has a chip yet. It takes the memory of all tables.
    pub fn new(alloc: Global) -> Result<Places, Errno>
        ensures ok { IfOk result (λ places. places ≡ []) }
        ensures memory_alone { IsOkUnless result Errno.NoMemory }
    {
        let used = Vec::with_capacity(alloc, usize::from(PLACES))?;
        let spare = waiting_places(alloc)?;
        Ok(Places { used, spare })
    }

    /// Whether a place has a chip.
    pub fn has(&self, place: u8) -> bool
        ensures { result ≡ nat_lt place (length self.now) }
    {
        usize::from(place) < self.used.len()
    }

    /// The tables of a place.
    #[tactic(auto, using(std::proofs::lemmas::List::get_or_default))]
    pub fn at(&self, place: u8) -> &Place
        requires { place < length self.now }
        ensures { result.now ≡ slice_index_or self.now place no_place }
    {
        &self.used[usize::from(place)]
    }

    /// Gives the lines of a place the names of a plan, and holds its hogs.
    pub(crate) fn furnish(&mut self, place: u8, plan: &PreparedBank)
        ensures { self.new ≡ change_at no_place place (furnished plan.now) self.old }
    {
        furnish(&mut self.used, place, plan);
    }

    /// Lets go of the lines of a request: nobody has them, and their flags and periods are gone. Without a chip at the place
    /// nothing changes.
    pub fn free(&mut self, place: u8, lines: &Lines)
        requires { IsLineCount lines.now.count }
        ensures { self.new ≡ change_at no_place place (with_lines_freed (offsets_of lines.now)) self.old }
    {
        free(&mut self.used, place, lines);
    }

    /// Gives the next place the tables of so many lines. It takes no memory.
    pub fn open(&mut self, lines: u32)
        requires room { length self.old < PLACES }
        requires lines { lines ≤ LINES_MAX }
        ensures { self.new ≡ self.old ++ new_place lines ∷ [] }
    {
        match take_last(&mut self.spare) {
            None => {}
            Some(mut place) => {
                place.descs.fit(lines);
                place.bank.fit(lines);
                place.irqs.fit(lines);
                push_within(&mut self.used, place);
            }
        }
    }

    /// Does something with the pins of a place with so many lines. A refused call changes nothing.
    pub fn pin(&mut self, place: u8, lines: u32, what: PinDo) -> Result<(), Errno>
        requires { HasPlace lines self.old place }
        ensures answer { result ≡ answer (pin_refusal lines (slice_index_or self.old place no_place) what) tt }
        ensures places { self.new ≡ change_at no_place place (with_pin_done lines what) self.old }
    {
        pin_at(&mut self.used, place, lines, what)
    }

    /// Does something with the interrupt of a line of a place. A refused call changes nothing.
    pub fn act(&mut self, place: u8, offset: u32, what: IrqDo) -> Result<(), Errno>
        requires { HasLine self.old place offset }
        ensures answer { let tables = slice_index_or self.old place no_place in result ≡ answer (act_refusal tables.irqs offset what (irq_line tables offset)) tt }
        ensures places { self.new ≡ change_at no_place place (with_irq_done offset what) self.old }
    {
        act(&mut self.used, place, offset, what)
    }

    /// Pulls a line of a place, and tells the change of its physical level: None exactly where that stays.
    pub fn pull(&mut self, place: u8, offset: u32, up: bool) -> Option<Change>
        requires { HasLine self.old place offset }
        ensures change { result ≡ pull_change up (levels_at (slice_index_or self.old place no_place).bank offset) }
        ensures places { self.new ≡ change_at no_place place (with_pull offset up) self.old }
    {
        pull(&mut self.used, place, offset, up)
    }

    /// The request of this number claims lines that are free.
    pub fn claim(&mut self, place: u8, lines: &Lines, fd: u32, consumer: Name)
        requires place { place < length self.old }
        requires lines { IsLineCount lines.now.count }
        requires free { claim_fault (slice_index_or self.old place no_place).descs lines.now ≡ None }
        ensures { self.new ≡ change_at no_place place (with_descs (offsets_of lines.now) (claimed fd consumer)) self.old }
    {
        claim(&mut self.used, place, lines, fd, consumer);
    }

    /// Drives a line with a value, inverted where the line is active low.
    pub fn drive(&mut self, place: u8, offset: u32, value: bool)
        requires { HasLine self.old place offset }
        ensures { self.new ≡ change_at no_place place (with_levels offset (driven_with value)) self.old }
    {
        drive(&mut self.used, place, offset, value);
    }

    /// Configures a line of a chip of this kind.
    pub fn configure(&mut self, place: u8, offset: u32, kind: Kind, settings: &Settings)
        requires { HasLine self.old place offset }
        ensures { self.new ≡ change_at no_place place (with_levels offset (configured_on kind settings.now)) self.old }
    {
        configure(&mut self.used, place, offset, kind, settings);
    }

    /// Nobody has the lines of a claim any more. Their levels stay.
    pub fn unclaim(&mut self, place: u8, lines: &Lines)
        requires { IsLineCount lines.now.count }
        ensures { self.new ≡ change_at no_place place (with_descs (offsets_of lines.now) freed) self.old }
    {
        unclaim(&mut self.used, place, lines);
    }

    /// The request that claimed lines holds them.
    pub fn settle(&mut self, place: u8, lines: &Lines)
        requires { IsLineCount lines.now.count }
        ensures { self.new ≡ change_at no_place place (with_descs (offsets_of lines.now) settled) self.old }
    {
        settle(&mut self.used, place, lines);
    }
}
