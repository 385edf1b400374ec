//! gpiomon and gpionotify over scripted results.

use crate::parts::{part, words_of};
use crate::transcript::results_of;
use crate::turns::{Form, TURNS, Turn, all_taken, result_of, take_turn};
use gl_args::{Tool, read_tool};
use gl_base::{Errno, Got};
use gl_monitor::Monitor;
use std::alloc::Global;

/// Appends what a monitor asks and prints, up to its end, over just these results, and whether it has ended.
fn drive(
    alloc: Global,
    monitor: &mut Monitor,
    results: &[Got],
    out: &mut Vec<u8>,
) -> Result<(), Errno> {
    let mut left = results;
    let mut turn = Turn::Printed;
    for _ in 0..TURNS {
        let got = result_of(&mut left, turn)?;
        let next = monitor.next(alloc, got)?;
        turn = take_turn(next, Form::Whole, out)?;
        if turn == Turn::Ended {
            out.extend_from_slice(state_of(monitor))?;
            return all_taken(left);
        }
    }
    Err(Errno::Again)
}

/// The same over the results that a text tells.
fn drive_over(
    alloc: Global,
    monitor: &mut Monitor,
    results: &[u8],
    out: &mut Vec<u8>,
) -> Result<(), Errno> {
    let results = results_of(alloc, results)?;
    drive(alloc, monitor, &results, out)
}

/// Whether a monitor has ended, in a line.
fn state_of(monitor: &Monitor) -> &'static [u8] {
    if monitor.ended() {
        return b"ended\n";
    }
    b"watches\n"
}

/// A monitor of these words.
fn monitor_of(alloc: Global, text: &[u8]) -> Result<Monitor, Errno> {
    let words = words_of(alloc, text)?;
    match read_tool(alloc, &words) {
        Ok(Tool::Watch(opts)) => Ok(Monitor::new(alloc, Tool::Watch(opts), 0)),
        Ok(Tool::Notify(opts)) => Ok(Monitor::new(alloc, Tool::Notify(opts), 0)),
        _ => Err(Errno::Inval),
    }
}

/// Appends what a monitor asks and prints, at its start and in three steps of three turns each, over the results of each.
pub fn put(alloc: Global, words: &[u8], results: &[u8], out: &mut Vec<u8>) -> Result<(), Errno> {
    let mut monitor = monitor_of(alloc, words)?;
    watch(alloc, &mut monitor, results, out)
}

/// The same of this monitor.
fn watch(
    alloc: Global,
    monitor: &mut Monitor,
    results: &[u8],
    out: &mut Vec<u8>,
) -> Result<(), Errno> {
    let mut rest = results;
    drive_over(alloc, monitor, part(&mut rest), out)?;
    for _ in 0..3 {
        monitor.step(3);
        drive_over(alloc, monitor, part(&mut rest), out)?;
    }
    Ok(())
}

/// Appends what a monitor asks and prints that is stopped after its start.
pub fn put_stopped(
    alloc: Global,
    words: &[u8],
    results: &[u8],
    out: &mut Vec<u8>,
) -> Result<(), Errno> {
    let mut monitor = monitor_of(alloc, words)?;
    start_and_stop(alloc, &mut monitor, results, out)
}

/// The same of this monitor.
fn start_and_stop(
    alloc: Global,
    monitor: &mut Monitor,
    results: &[u8],
    out: &mut Vec<u8>,
) -> Result<(), Errno> {
    drive_over(alloc, monitor, results, out)?;
    monitor.stop();
    drive_over(alloc, monitor, b"ok", out)
}
