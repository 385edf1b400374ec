//! How the lines of a request are configured, and SET_CONFIG.

ghost use Rattle.std.specs.Prelude.{◌≡◌, ◌<◌, IfErr, IfOk, None, Some, slice_index, slice_index_or, take};
ghost use Rattle.gl_attrs.specs.Setting.{resolved_for};
ghost use Rattle.gl_bank.specs.Level.{levels_at};
ghost use Rattle.gl_base.specs.Lines.{IsLineCount, offsets_of};
ghost use Rattle.gl_base.specs.Positions.{first_fault};
ghost use Rattle.gl_base.specs.declared.limits.TheConstants.{LINES_PER_REQUEST};
ghost use Rattle.gl_uapi.specs.declared.layout.TheConstants.{LINE_CONFIG_SIZE};
ghost use Rattle.gl_model.specs.Configuring.{config_refusal, configure, configure_each, directed_fault, interrupt_fault, is_debounced_hard, is_directed, needs_interrupt, reconfigure, reconfigure_from, set_config, settings_after, with_period};
ghost use Rattle.gl_model.specs.OpenFiles.{in_parts, on_request};
ghost use Rattle.gl_model.specs.Outcome.{done};
ghost use Rattle.gl_model.specs.Places.{no_place, place_at};
ghost use Rattle.gl_model.specs.World.{request_at};
ghost use Rattle.gl_request.specs.Request.{StandsAt, request_at as row_at};
ghost use Rattle.gl_request.specs.declared.row.RequestRow.{RequestRow};
ghost use Rattle.gl_core.specs.Commanded.{part_of};
ghost use Rattle.gl_core.specs.LineByLine.{configure_at, line_after, reconfigure_at, with_settings_of};
ghost use Rattle.gl_core.specs.OpenRequests.{IsOpenAt};
ghost use Rattle.gl_core.specs.Reached.{IsReached};
ghost use Rattle.gl_core.specs.Shape.{HasEachLine, HasLine, KeepsLines};
ghost use Rattle.gl_core.specs.Steps.{Follows, Steps, Tells};

use crate::commanded::DriverPart;
use crate::state::State;
use gl_attrs::resolve;
use gl_bank::Levels;
use gl_base::{Errno, LINES_PER_REQUEST, Lines, Resolved, Settings, flag, has_bit};
use gl_irq::Irq;
use gl_model::Reply;
use gl_request::RequestAt;
use gl_uapi::ConfigRef;
use gl_uapi::layout::{CHANGED_CONFIG, LINE_CONFIG_SIZE, LINE_REQUEST_SIZE};

/// Whether a line with these settings tells of edges, or is debounced, and so needs its interrupt.
fn needs_interrupt(settings: &Settings) -> bool
    ensures { result ≡ needs_interrupt settings.now }
{
    has_bit(settings.flags, flag::EDGE_RISING)
        || has_bit(settings.flags, flag::EDGE_FALLING)
        || settings.debounce_us != 0
}

/// The driver debounces a line with these settings: they have a debounce period, and the driver's answer has the line's bit.
fn is_debounced_hard(settings: &Settings, answered: bool) -> bool
    ensures { result ≡ is_debounced_hard settings.now answered }
{
    settings.debounce_us != 0 && answered
}

/// What is wrong with these settings for a line with this interrupt, first case first: `NxIo` where they need one and it has
/// none; `Io` where they make it an output and it is locked as an enabled interrupt.
pub(crate) fn interrupt_fault(settings: &Settings, irq: Irq) -> Option<Errno>
    ensures { result ≡ interrupt_fault settings.now irq }
{
    if needs_interrupt(settings) && !irq.has {
        return Some(Errno::NxIo);
    }
    if has_bit(settings.flags, flag::OUTPUT) && irq.locked && irq.enabled {
        return Some(Errno::Io);
    }
    None
}

/// The settings give the line at position `i` of a request a direction.
fn is_directed(settings: &Resolved, i: u32) -> bool
    requires { i < LINES_PER_REQUEST }
    ensures { result ≡ is_directed settings.now i }
{
    let flags = settings.lines[i as usize].flags;
    has_bit(flags, flag::INPUT) || has_bit(flags, flag::OUTPUT)
}

/// The settings of the line at position `i` of a request after new ones came. Without a direction it keeps what it had.
fn line_after(before: &Resolved, after: &Resolved, i: u32) -> Settings
    requires { i < LINES_PER_REQUEST }
    ensures { result ≡ line_after before.now after.now i }
{
    if is_directed(after, i) {
        after.lines[i as usize]
    } else {
        before.lines[i as usize]
    }
}

/// The settings of a request of so many lines after new ones came.
fn settings_after(before: &Resolved, after: &Resolved, count: u32) -> Resolved
    ensures { result ≡ settings_after before.now after.now count }
{
    let first = line_after(before, after, 0);
    let mut lines = [first; LINES_PER_REQUEST as usize];
    for i in 1..LINES_PER_REQUEST {
        lines[i as usize] = line_after(before, after, i);
    }
    Resolved { count, lines }
}

impl State {
    /// The line is hard from now on, or isn't. Where that is another thing than before, or its debounce period is, the line has
    /// settled at the level that it has now, and no deadline runs.
    fn set_period(&mut self, place: u8, offset: u32, before: &Levels, hard: bool)
        requires { HasLine self.old.places place offset }
        ensures { self.new ≡ record self.old { timers = with_period place offset before.now (levels_at (slice_index_or self.old.places place no_place).bank offset) hard self.old.timers } }
    {
        let bank = &self.places.at(place).bank;
        let same_period = before.debounce_us == bank.line(offset).debounce_us;
        if !(same_period && self.timers.is_hard(place, offset) == hard) {
            let level = bank.level(offset);
            self.timers.start(place, offset, level, hard);
        }
    }

    /// Configures a line, of which the driver's answer has the bit, or hasn't.
    pub(crate) fn configure(&mut self, place: u8, settings: &Settings, answered: bool, offset: u32)
        requires { HasLine self.old.places place offset }
        ensures follows { Follows (configure place settings.now answered offset) self.old self.new }
        ensures lines { KeepsLines self.old.places self.new.places }
        ensures requests { self.new.requests ≡ self.old.requests }
    {
        let before = self.places.at(place).bank.line(offset);
        let kind = self.kind(place);
        self.places.configure(place, offset, kind, settings);
        self.set_period(
            place,
            offset,
            &before,
            is_debounced_hard(settings, answered),
        );
    }

    /// Configures the line at position `i` of a request with its settings, and with its bit in the driver's answer.
    fn configure_at(&mut self, place: u8, lines: &Lines, settings: &Resolved, bits: u64, i: u32)
        requires i { i < lines.now.count }
        requires count { IsLineCount lines.now.count }
        requires line { HasLine self.old.places place (slice_index lines.now.offsets i) }
        ensures follows { Follows (configure_at place lines.now settings.now bits i) self.old self.new }
        ensures lines { KeepsLines self.old.places self.new.places }
    {
        self.configure(
            place,
            &settings.lines[i as usize],
            has_bit(bits, i),
            lines.offsets[i as usize],
        );
    }

    /// Configures the line at position `i` of the request that was found with its settings, and with its bit in the driver's
    /// answer.
    fn configure_found(&mut self, place: u8, lines: &Lines, found: RequestAt, bits: u64, i: u32)
        requires i { i < lines.now.count }
        requires count { IsLineCount lines.now.count }
        requires line { HasLine self.old.places place (slice_index lines.now.offsets i) }
        requires stands { StandsAt found self.old.requests }
        ensures follows { (row : RequestRow) → row_at self.old.requests found.fd ≡ Some row → Follows (configure_at place lines.now row.settings bits i) self.old self.new }
        ensures lines { KeepsLines self.old.places self.new.places }
        ensures requests { self.new.requests ≡ self.old.requests }
    {
        let settings = self.requests.row(found).settings.lines[i as usize];
        let answered = has_bit(bits, i);
        self.configure(place, &settings, answered, lines.offsets[i as usize]);
    }

    /// Configures the lines of the request that was found, in order, each with its settings and its bit in the driver's answer.
    pub(crate) fn configure_each(&mut self, place: u8, lines: &Lines, found: RequestAt, bits: u64)
        requires count { IsLineCount lines.now.count }
        requires lines { HasEachLine self.old.places place lines.now }
        requires stands { StandsAt found self.old.requests }
        ensures follows { (row : RequestRow) → row_at self.old.requests found.fd ≡ Some row → Follows (configure_each place lines.now row.settings bits) self.old self.new }
        ensures lines { KeepsLines self.old.places self.new.places }
    {
        for i in 0..lines.count {
            self.configure_found(place, lines, found, bits, i);
        }
    }

    /// What is wrong with new settings for the line at position `i` of a request. A line that they give no direction is left as
    /// it is.
    fn directed_fault(&self, place: u8, lines: &Lines, settings: &Resolved, i: u32) -> Option<Errno>
        requires i { i < lines.now.count }
        requires count { IsLineCount lines.now.count }
        requires line { HasLine self.now.places place (slice_index lines.now.offsets i) }
        ensures { Tells (λ w. directed_fault (place_at w place) lines.now settings.now i) self.now result }
    {
        if !is_directed(settings, i) {
            return None;
        }
        let irq = self.places.at(place).irqs.line(lines.offsets[i as usize]);
        interrupt_fault(&settings.lines[i as usize], irq)
    }

    /// What is wrong with new settings for the first faulty line of a request.
    fn first_directed_fault(&self, place: u8, lines: &Lines, settings: &Resolved) -> Option<Errno>
        requires count { IsLineCount lines.now.count }
        requires lines { HasEachLine self.now.places place lines.now }
        ensures { Tells (λ w. first_fault (directed_fault (place_at w place) lines.now settings.now) 0 lines.now.count) self.now result }
    {
        for i in 0..lines.count {
            match self.directed_fault(place, lines, settings, i) {
                Some(errno) => return Some(errno),
                None => {}
            }
        }
        None
    }

    /// Configures the line at position `i` of a request with new settings, and tells of it, where they give it a direction.
    fn reconfigure_at(&mut self, place: u8, lines: &Lines, settings: &Resolved, bits: u64, i: u32)
        requires i { i < lines.now.count }
        requires count { IsLineCount lines.now.count }
        requires line { HasLine self.old.places place (slice_index lines.now.offsets i) }
        ensures follows { Follows (reconfigure_at place lines.now settings.now bits i) self.old self.new }
        ensures lines { KeepsLines self.old.places self.new.places }
    {
        if is_directed(settings, i) {
            self.configure_at(place, lines, settings, bits, i);
            self.notify(place, lines.offsets[i as usize], CHANGED_CONFIG);
        }
    }

    /// Configures the lines of a request with new settings, in order, and tells of each.
    fn reconfigure_each(&mut self, place: u8, lines: &Lines, settings: &Resolved, bits: u64)
        requires count { IsLineCount lines.now.count }
        requires lines { HasEachLine self.old.places place lines.now }
        ensures { Follows (reconfigure_from place settings.now bits 0 (offsets_of lines.now)) self.old self.new }
    {
        for i in 0..lines.count {
            self.reconfigure_at(place, lines, settings, bits, i);
        }
    }

    /// The request that was found has these settings from now on.
    fn keep_settings(&mut self, found: RequestAt, settings: &Resolved)
        requires { StandsAt found self.old.requests }
        ensures follows { Follows (with_settings_of found.fd settings.now) self.old self.new }
        ensures places { self.new.places ≡ self.old.places }
    {
        self.requests.configure_at(found, settings);
    }

    /// Configures the lines of a request anew, behind the driver's answer. Its events and their numbers go on.
    fn reconfigure(&mut self, place: u8, found: RequestAt, after: &Resolved, bits: u64)
        requires stands { StandsAt found self.old.requests }
        requires lines { (row : RequestRow) → row_at self.old.requests found.fd ≡ Some row → HasEachLine self.old.places place row.lines }
        ensures { (row : RequestRow) → row_at self.old.requests found.fd ≡ Some row → Follows (reconfigure place found.fd row.lines row.settings after.now bits) self.old self.new }
    {
        let row = self.requests.row(found);
        let lines = row.lines;
        let settings = settings_after(&row.settings, after, lines.count);
        self.keep_settings(found, &settings);
        self.reconfigure_each(place, &lines, after, bits);
    }

    /// The settings that a configuration asks for, or why it is refused for these lines: what is wrong with its bytes, and then
    /// with it for one of the lines, in order.
    fn new_settings(
        &self,
        place: u8,
        lines: &Lines,
        bytes: &[u8; LINE_REQUEST_SIZE],
    ) -> Result<Resolved, Errno>
        requires count { IsLineCount lines.now.count }
        requires lines { HasEachLine self.now.places place lines.now }
        ensures ok { IfOk result (λ settings. settings ≡ resolved_for (take LINE_CONFIG_SIZE bytes.now) lines.now.count) }
        ensures passed { IfOk result (λ _. Tells (config_refusal place lines.now (take LINE_CONFIG_SIZE bytes.now)) self.now None) }
        ensures refused { IfErr result (λ errno. Tells (config_refusal place lines.now (take LINE_CONFIG_SIZE bytes.now)) self.now (Some errno)) }
    {
        match resolve(ConfigRef::of(bytes).unwrap(), lines.count) {
            Err(errno) => Err(errno),
            Ok(settings) => match self.first_directed_fault(place, lines, &settings) {
                Some(errno) => Err(errno),
                None => Ok(settings),
            },
        }
    }

    /// New settings of a request, once nothing is wrong with them: they go to the driver; `Io` where the driver failed; else the
    /// lines are configured, and those whose bit it answered are debounced by it.
    fn take_settings(
        &mut self,
        place: u8,
        found: RequestAt,
        settings: &Resolved,
        part: DriverPart,
    ) -> Reply
        requires stands { StandsAt found self.old.requests }
        requires lines { (row : RequestRow) → row_at self.old.requests found.fd ≡ Some row → HasEachLine self.old.places place row.lines }
        ensures { (row : RequestRow) → row_at self.old.requests found.fd ≡ Some row → Steps (in_parts (part_of part) (λ bits v. done (reconfigure place found.fd row.lines row.settings settings.now bits v))) self.old self.new result }
    {
        match part {
            DriverPart::Ask => Reply::Go(0),
            DriverPart::Tell(None) => Reply::Refused(Errno::Io),
            DriverPart::Tell(Some(bits)) => {
                self.reconfigure(place, found, settings, bits);
                Reply::Done
            }
        }
    }

    /// SET_CONFIG on an open request: refused by what is wrong with the bytes of the configuration, and then with it for one of
    /// the lines, in order; then it goes to the driver; `Io` where the driver failed; else the lines that it gives a direction
    /// are configured and told of, in order.
    pub(crate) fn set_config(
        &mut self,
        place: u8,
        found: RequestAt,
        bytes: &[u8; LINE_REQUEST_SIZE],
        part: DriverPart,
    ) -> Reply
        requires reached { IsReached self.old }
        requires opened { IsOpenAt self.old place found }
        ensures { Steps (λ w. on_request (set_config place found.fd (take LINE_CONFIG_SIZE bytes.now) (part_of part)) (request_at w.requests found.fd) w) self.old self.new result }
    {
        let row = self.requests.row(found);
        match self.new_settings(place, &row.lines, bytes) {
            Err(errno) => Reply::Refused(errno),
            Ok(settings) => self.take_settings(place, found, &settings, part),
        }
    }
}
