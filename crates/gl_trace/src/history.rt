//! The history at the end of an output, read.
ghost use Rattle.std.specs.Prelude.{◌≡◌, ◌==◌, ◌+◌, ◌<◌, ◌≤◌, ◌^◌, if◌then◌else◌, ℕ, List, Some, [], ◌∷◌, suc, length, min, true, IfOk, IfErr, IfSome, MatchOption};
ghost use Rattle.std.specs.Option.{option_copied};
ghost use Rattle.gl_base.specs.Words.{pieces, pieces_left};
ghost use Rattle.gl_trace.specs.HistoryRead.{Bad, Broken, Good, Whole, count_told, entry_at, history_from, history_in, in_front, is_head, last_head, line_count, lines_read, next_line, of_lines, one_line};
ghost use Rattle.gl_trace.specs.HistoryFaults.{IsFault, IsFaultOf};
ghost use Rattle.gl_trace.specs.HistoryText.{AreTold};
ghost use Rattle.gl_trace.specs.EntryText.{HasText};
ghost use Rattle.gl_trace.specs.Typed.{IsTyped};

use crate::read::read_line;
use crate::typed::fits_entry;
use crate::word_read::{behind, number64};
use gl_base::{COST_MAX, split_first};
use gl_core::Core;
use gl_world::Entry;
use std::alloc::Global;

/// What the line above the entries begins with.
const HEAD: &[u8] = b"== history ";

/// The history of an output.
#[derive(Drop)]
pub struct OutputHistory<'a> {
    /// What stands in front of it.
    pub front: &'a [u8],
    /// Its entries.
    pub entries: Vec<Entry<Core>>,
}

/// Why an output has no history that could be read.
#[derive(Clone, Copy, PartialEq, Eq)]
pub enum NoHistory {
    /// The line of this number is at fault or missing, counted from 1, and none before it from the history's first on.
    Line(u64),
    /// Out of memory.
    NoMemory,
}

/// The history at the end of an output: the last line that begins with `== history ` goes on with the number of entries, at most as
/// many as a session may cost, without leading zeros, and ends there. Just so many lines follow, each the entry of its index, counted
/// from 0. Every line ends with 0x0A.
pub fn read_history<'a>(alloc: Global, output: &'a [u8]) -> Result<OutputHistory<'a>, NoHistory>
    ensures ok { IfOk result (λ printed. history_in output.now ≡ Good printed.front.now printed.entries.items) }
    ensures few { IfOk result (λ printed. length printed.entries.items ≤ COST_MAX) }
    ensures told { IfOk result (λ printed. AreTold 0 printed.entries.items) }
    ensures fault { IfErr result (λ why. IsFault why (history_in output.now)) }
{
    match last_head(output) {
        Some(at) => {
            let (front, text) = output.split_at(at);
            history_from(alloc, front, text)
        }
        None => Err(NoHistory::Line(count_lines(output) + 1)),
    }
}

/// The history whose text this is, with what stands in front of it.
fn history_from<'a>(
    alloc: Global,
    front: &'a [u8],
    text: &[u8],
) -> Result<OutputHistory<'a>, NoHistory>
    ensures ok { IfOk result (λ printed. history_from (next_line front.now) front.now (pieces 10 text.now) ≡ Good printed.front.now printed.entries.items) }
    ensures few { IfOk result (λ printed. length printed.entries.items ≤ COST_MAX) }
    ensures told { IfOk result (λ printed. AreTold 0 printed.entries.items) }
    ensures fault { IfErr result (λ why. IsFault why (history_from (next_line front.now) front.now (pieces 10 text.now))) }
{
    let line = count_lines(front) + 1;
    match first_line(text) {
        Some((count, rest)) => match read_lines(alloc, line + 1, count, rest) {
            Ok(entries) => Ok(OutputHistory { front, entries }),
            Err(why) => Err(why),
        },
        None => Err(NoHistory::Line(line)),
    }
}

/// How many entries the line at the front of a text tells, and what stands after it; none where it isn't one above entries.
fn first_line(text: &[u8]) -> Option<(u32, &[u8])>
    ensures count { MatchOption result
        ((line : ℕ) (front : List ℕ) → history_from line front (pieces 10 text.now) ≡ Bad line)
        (λ got. (line : ℕ) (front : List ℕ) → history_from line front (pieces 10 text.now) ≡ of_lines front (lines_read (line + 1) 0 got.0 (pieces 10 got.1.now))) }
    ensures few { IfSome result (λ got. got.0 ≤ COST_MAX) }
{
    let (head, after) = split_first(text, b'\n');
    match after {
        Some(rest) => match count_told(head) {
            Some(count) => Some((count, rest)),
            None => None,
        },
        None => None,
    }
}

/// Where the last line begins that begins as one above entries does.
fn last_head(output: &[u8]) -> Option<usize>
    ensures place { result ≡ last_head true output.now }
    ensures within { IfSome result (λ at. at < length output.now) }
{
    let mut found = None;
    let mut starts = true;
    for at in 0..output.len() {
        let (_, text) = output.split_at(at);
        found = later(found, at, is_head(starts, text));
        starts = output[at] == b'\n';
    }
    found
}

/// Whether a line begins at the front of a text, and begins as one above entries does.
fn is_head(starts: bool, text: &[u8]) -> bool
    ensures { result ≡ is_head starts text.now }
{
    starts && text.starts_with(HEAD)
}

/// A place that is right, or else the one that was found before.
fn later(found: Option<usize>, at: usize, is_right: bool) -> Option<usize>
    ensures { result ≡ (if is_right then Some at else found) }
{
    if is_right { Some(at) } else { found }
}

/// How many lines a text has; the last one needs no end.
fn count_lines(text: &[u8]) -> u64
    ensures count { result ≡ line_count (pieces 10 text.now) }
    ensures few { result ≤ length text.now }
{
    let mut count = 0;
    let mut rest = Some(text);
    while let Some(bytes) = rest {
        let (line, after) = split_first(bytes, b'\n');
        count += one_line(line, after);
        rest = after;
    }
    count
}

/// Whether a piece of a text is a line: 1 where it has a byte, or another one follows.
fn one_line(line: &[u8], after: Option<&[u8]>) -> u64
    ensures one { result ≡ one_line line.now (pieces_left 10 (option_copied after.entry)) }
    ensures few { result ≤ 1 }
{
    match after {
        Some(_) => 1,
        None => { if line.is_empty() { 0 } else { 1 } }
    }
}

/// How many entries the line above them tells, where it tells it.
fn count_told(head: &[u8]) -> Option<u32>
    ensures count { result ≡ count_told head.now }
    ensures few { IfSome result (λ count. count ≤ COST_MAX) }
{
    match behind(HEAD, head) {
        Some(number) => match number64(number) {
            Some(count) if count <= COST_MAX => Some(count as u32),
            _ => None,
        },
        None => None,
    }
}

/// The entry of an index at the front of a text, in a line that has its end, and what stands after that line.
fn next_entry(index: u32, text: &[u8]) -> Option<(Entry<Core>, &[u8])>
    ensures entry { MatchOption result
        ((line count : ℕ) → lines_read line index (suc count) (pieces 10 text.now) ≡ Broken line)
        (λ got. (line count : ℕ) → lines_read line index (suc count) (pieces 10 text.now) ≡ in_front (got.0 ∷ []) (lines_read (line + 1) (index + 1) count (pieces 10 got.1.now))) }
    ensures told { IfSome result (λ got. IsTyped index got.0 × HasText got.0) }
{
    let (line, after) = split_first(text, b'\n');
    match after {
        Some(rest) => match entry_at(index, line) {
            Some(entry) => Some((entry, rest)),
            None => None,
        },
        None => None,
    }
}

/// The entry of an index that a line is.
fn entry_at(index: u32, line: &[u8]) -> Option<Entry<Core>>
    ensures entry { result ≡ entry_at index line.now }
    ensures told { IfSome result (λ entry. IsTyped index entry × HasText entry) }
{
    match read_line(line) {
        Some((at, entry)) => {
            if at != index {
                return None;
            }
            fits_entry(at, &entry);
            Some(entry)
        }
        None => None,
    }
}

/// For how many entries room is made at first: as many as are told of, but no more than there are lines, so that a history takes
/// memory by its length alone.
fn room(count: u32, text: &[u8]) -> usize
    ensures { result ≡ min count (line_count (pieces 10 text.now)) }
{
    u64::from(count).min(count_lines(text)) as usize
}

/// Whether nothing stands after the entries that are told of.
fn is_end(text: &[u8]) -> bool
    ensures { result ≡ (length text.now == 0) }
{
    text.is_empty()
}

/// So many entries, a line each from the one of this number on, and nothing after them.
fn read_lines(
    alloc: Global,
    line: u64,
    count: u32,
    text: &[u8],
) -> Result<Vec<Entry<Core>>, NoHistory>
    requires lines { line < 2 ^ 63 + 2 }
    ensures ok { IfOk result (λ entries. lines_read line 0 count (pieces 10 text.now) ≡ Whole entries.items) }
    ensures many { IfOk result (λ entries. length entries.items ≡ count) }
    ensures told { IfOk result (λ entries. AreTold 0 entries.items) }
    ensures fault { IfErr result (λ why. IsFaultOf why (lines_read line 0 count (pieces 10 text.now))) }
{
    let Ok(mut entries) = Vec::with_capacity(alloc, room(count, text)) else {
        return Err(NoHistory::NoMemory);
    };
    let mut rest = text;
    for index in 0..count {
        match next_entry(index, rest) {
            Some((entry, after)) => {
                if entries.push(entry).is_err() {
                    return Err(NoHistory::NoMemory);
                }
                rest = after;
            }
            None => return Err(NoHistory::Line(line + u64::from(index))),
        }
    }
    if is_end(rest) {
        Ok(entries)
    } else {
        Err(NoHistory::Line(line + u64::from(count)))
    }
}
