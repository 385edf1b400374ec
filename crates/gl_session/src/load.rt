//! A generated load, run as a session: what it comes to is told by four numbers.
ghost use Rattle.std.specs.Prelude.{◌≡◌, ◌≤◌, ◌%◌, ◌^◌, false, List, drop, length, sum, IfOk, IsOkUnless};
ghost use Rattle.gl_script.specs.Cost.{has_aggregate};
ghost use Rattle.gl_script.specs.Script.{sections_of};
ghost use Rattle.gl_script.specs.Section.{SaidSection, statements_of};
ghost use Rattle.gl_script.specs.Sentence.{Sentence};
ghost use Rattle.gl_check.specs.Drivers.{driver_kind};
ghost use Rattle.gl_check.specs.Joining.{no_maps};
ghost use Rattle.gl_chip.specs.Values.{IsQuietDriver};
ghost use Rattle.gl_session.specs.Figures.{CameToFigures, CameToLoad, figures, statement_count};
ghost use Rattle.gl_session.specs.Ports.{AreAllThere, OwnsNothing, TakeMaps, left_at, maps_at};
ghost use Rattle.gl_session.specs.Workers.{told_at};

use crate::ports::run_alone;
use crate::text::put_numbered;
use gl_base::Errno;
use gl_core::Core;
use gl_driver::Driver;
use gl_script::{
    RefusalKind, Script, TURNS_MAX, generate, loads_are_sessions, loads_have_no_aggregate,
};
use std::alloc::Global;
use std::sync::Wait;

/// How many statements the section of a number has; none past the last section.
fn count_in_section(script: &Script<'_>, section: u32) -> u64
    ensures { result ≡ length (statements_of section (sections_of script.now)) }
{
    match script.statements(section) {
        Some(statements) => statements.len() as u64,
        None => 0,
    }
}

/// How many statements a session has.
fn count_statements(script: &Script<'_>) -> u64
    requires few { statement_count (sections_of script.now) ≤ 1048576 }
    ensures { result ≡ statement_count (sections_of script.now) }
{
    let mut count = 0;
    for section in 0..script.sections() {
        count += count_in_section(script, section);
    }
    count
}

/// The sum of bytes, modulo 2^32.
fn sum_of(text: &[u8]) -> u32
    ensures { result ≡ sum text.now % 2 ^ 32 }
{
    let mut sum = 0u32;
    for byte in text {
        sum = sum.wrapping_add(u32::from(*byte));
    }
    sum
}

/// The four lines on a session that made so many entries and printed this text.
fn figures_of(
    alloc: Global,
    script: &Script<'_>,
    entries: u64,
    text: &[u8],
) -> Result<Vec<u8>, Errno>
    requires few { statement_count (sections_of script.now) ≤ 1048576 }
    ensures ok { IfOk result (λ out. out.items ≡ figures (sections_of script.now) entries text.now) }
    ensures memory_alone { IsOkUnless result Errno.NoMemory }
{
    let mut out = Vec::new(alloc);
    put_numbered(b"statements", count_statements(script), &mut out)?;
    put_numbered(b"entries", entries, &mut out)?;
    put_numbered(b"bytes", text.len() as u64, &mut out)?;
    put_numbered(b"sum", u64::from(sum_of(text)), &mut out)?;
    Ok(out)
}

/// Runs the session that bytes say by one actor through the first port, which is put back after it. Gives the four lines on it.
///
/// `NoMemory` alone is refused, and then the first port may be missing.
fn carry_bytes<R: Wait, D: Driver<Core>>(
    rt: &R,
    alloc: Global,
    bytes: &[u8],
    driver: D,
    ports: &mut [Option<D::Port>],
) -> Result<Vec<u8>, Errno>
    requires none { OwnsNothing D.OwnEntries }
    requires quiet { IsQuietDriver D.OwnEntries }
    requires few_own { D.ENTRIES ≤ 8 }
    requires bare { TakeMaps D.Port.maps D.Port.maps_left ports.old }
    requires session { (sections : List SaidSection) × Sentence bytes.now sections × (has_aggregate sections ≡ false) }
    requires ports { AreAllThere ports.old }
    ensures came { IfOk result (λ out. CameToFigures (driver_kind D.ENTRIES D.is_planned D.OwnEntries D.Follows) bytes.now (told_at D.Port.told ports.old 0) (told_at D.Port.told ports.new 0) out.items) }
    ensures there { IfOk result (λ _. AreAllThere ports.new) }
    ensures bare { IfOk result (λ _. maps_at D.Port.maps D.Port.maps_left ports.new 0 ≡ no_maps (left_at D.Port.maps_left ports.old 0)) }
    ensures others { drop 1 ports.new ≡ drop 1 ports.old }
    ensures memory_alone { IsOkUnless result Errno.NoMemory }
{
    let script = match Script::parse(alloc, bytes) {
        Ok(script) => script,
        Err(refusal) if refusal.kind == RefusalKind::NoMemory => return Err(Errno::NoMemory),
        Err(_) => unreachable!(),
    };
    match run_alone(rt, alloc, &script, driver, ports) {
        Ok((text, entries)) => figures_of(alloc, &script, entries, &text),
        Err(errno) => Err(errno),
    }
}

/// Runs the load of a number by one actor through the first port, which is put back after it. Gives the four lines on it: how many
/// statements it has, how many entries it made, how many bytes it printed, and their sum modulo 2^32.
///
/// `NoMemory` alone is refused, and then the first port may be missing.
pub fn carry_load<R: Wait, D: Driver<Core>>(
    rt: &R,
    alloc: Global,
    turns: u32,
    driver: D,
    ports: &mut [Option<D::Port>],
) -> Result<Vec<u8>, Errno>
    requires none { OwnsNothing D.OwnEntries }
    requires quiet { IsQuietDriver D.OwnEntries }
    requires few_own { D.ENTRIES ≤ 8 }
    requires bare { TakeMaps D.Port.maps D.Port.maps_left ports.old }
    requires turns { (1 ≤ turns) × (turns ≤ TURNS_MAX) }
    requires ports { AreAllThere ports.old }
    ensures came { IfOk result (λ out. CameToLoad (driver_kind D.ENTRIES D.is_planned D.OwnEntries D.Follows) turns (told_at D.Port.told ports.old 0) (told_at D.Port.told ports.new 0) out.items) }
    ensures there { IfOk result (λ _. AreAllThere ports.new) }
    ensures bare { IfOk result (λ _. maps_at D.Port.maps D.Port.maps_left ports.new 0 ≡ no_maps (left_at D.Port.maps_left ports.old 0)) }
    ensures others { drop 1 ports.new ≡ drop 1 ports.old }
    ensures memory_alone { IsOkUnless result Errno.NoMemory }
{
    loads_are_sessions();
    loads_have_no_aggregate();
    let mut load = Vec::new(alloc);
    match generate(turns, &mut load) {
        Ok(()) => carry_bytes(rt, alloc, &load, driver, ports),
        Err(errno) => Err(errno),
    }
}
