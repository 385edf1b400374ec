//! The cost of a session.
ghost use Rattle.std.specs.Prelude.{◌≡◌, ◌+◌, ◌*◌, ◌≤◌, ◌<◌, ◌^◌, ◌||◌, nat_eq, if◌then◌else◌, min, length, map, sum_by, codes, MatchOption, Some};
ghost use Rattle.std.specs.List.{list_any, starts_with};
ghost use Rattle.std.specs.Str.{bytes_eq};
ghost use Rattle.gl_base.specs.Words.{words_at, text_at};
ghost use Rattle.gl_script.specs.Cost.{are_none, has_aggregate, is_bare, is_chip_option, section_aggregates, section_cost, session_cost, start_cost, statement_aggregates, statement_cost, statements_cost};
ghost use Rattle.gl_script.specs.SaidCost.{cost_said};
ghost use Rattle.gl_script.specs.Meaning.{line_in, said_in};

use crate::faults::text_at;
use crate::forms::is_text;
use crate::said::Said;
use crate::section::{Section, Statement};
use gl_base::command::GET_LINE;
use gl_base::{COST_MAX, LINES_MAX, PLACES, next_word};

/// The least cost that is over the limit.
const OVER: u64 = COST_MAX + 1;

/// The cost of gpiodetect of all places: an open, a question and a close each.
const DETECT_ALL: u64 = 3 * PLACES as u64;

/// The cost of gpioinfo of one chip: an open, a question, one a line, and a close.
const INFO_ONE: u64 = LINES_MAX as u64 + 3;

/// The cost of gpioinfo of all places.
const INFO_ALL: u64 = PLACES as u64 * INFO_ONE;

/// The cost of sections, if it is at most `COST_MAX`.
pub fn cost_within_limit(sections: &[Section<'_>]) -> Option<u64>
    ensures { MatchOption result (COST_MAX < session_cost (map said_in sections.now)) (λ cost. (cost ≡ session_cost (map said_in sections.now)) × (session_cost (map said_in sections.now) ≤ COST_MAX)) }
{
    let cost = session_cost(sections);
    if cost > COST_MAX {
        return None;
    }
    Some(cost)
}

/// The cost of sections, or one more than `COST_MAX` where it is more than that.
#[tactic(auto, using(crate::proofs::Sums::five_capped))]
fn session_cost(sections: &[Section<'_>]) -> u64
    ensures { result ≡ min (session_cost (map said_in sections.now)) OVER }
{
    let total = sections_cost(sections);
    if has_aggregate(sections) {
        return (5 * total).min(OVER);
    }
    total
}

/// The cost of all statements, or one more than `COST_MAX` where it is more than that.
#[tactic(auto, using(crate::proofs::Sums::capped))]
fn sections_cost(sections: &[Section<'_>]) -> u64
    ensures cost { result ≡ min (statements_cost (map said_in sections.now)) OVER }
{
    let mut total = 0;
    for section in sections {
        total = (total + section_cost(section)).min(OVER);
    }
    total
}

/// Whether one of the sections has an `aggregate`.
pub fn has_aggregate(sections: &[Section<'_>]) -> bool
    ensures { result ≡ has_aggregate (map said_in sections.now) }
{
    for section in sections {
        if section_aggregates(section) {
            return true;
        }
    }
    false
}

/// Whether a section has one.
fn section_aggregates(section: &Section<'_>) -> bool
    ensures { result ≡ section_aggregates (said_in section.now) }
{
    one_aggregates(&section.statements)
}

fn one_aggregates(statements: &[Statement<'_>]) -> bool
    ensures { result ≡ list_any statement_aggregates (map line_in statements.now) }
{
    for statement in statements {
        if statement_aggregates(statement) {
            return true;
        }
    }
    false
}

/// Whether a statement is one.
fn statement_aggregates(statement: &Statement<'_>) -> bool
    ensures { result ≡ statement_aggregates (line_in statement.now) }
{
    let said = statement.said();
    said.is_aggregate()
}

/// The cost of a section, or one more than `COST_MAX` where it is more than that.
#[tactic(auto, using(crate::proofs::Sums::capped))]
fn section_cost(section: &Section<'_>) -> u64
    ensures cost { result ≡ min (section_cost (said_in section.now)) OVER }
{
    statements_cost(&section.statements)
}

/// The cost of statements, or one more than `COST_MAX` where it is more than that.
#[tactic(auto, using(crate::proofs::Sums::capped))]
fn statements_cost(statements: &[Statement<'_>]) -> u64
    ensures cost { result ≡ min (sum_by statement_cost (map line_in statements.now)) OVER }
{
    let mut total = 0;
    for statement in statements {
        total = (total + statement_cost(statement)).min(OVER);
    }
    total
}

/// The cost of a statement, or one more than `COST_MAX` where it is more than that.
fn statement_cost(statement: &Statement<'_>) -> u64
    ensures cost { result ≡ min (statement_cost (line_in statement.now)) OVER }
{
    let said = statement.said();
    match next_word(1, statement.line) {
        Some(first) => said_cost(&said, first.rest_at, first.rest).min(OVER),
        None => 0,
    }
}

/// The cost of a statement by what it says and the words behind its first, one row a statement; any number over the limit where it
/// is over the limit.
fn said_cost(said: &Said, at: usize, line: &[u8]) -> u64
    requires { at + length line.now + 1 < 2 ^ 64 }
    ensures { min result OVER ≡ min (cost_said said.now (words_at at line.now)) OVER }
{
    match said {
        Said::Fault { .. } | Said::Accept { .. } | Said::Close | Said::Stop { .. } => 0,
        Said::Probe { .. }
        | Said::MakeDir { .. }
        | Said::RemoveDir { .. }
        | Said::Aggregate { .. }
        | Said::Read { .. }
        | Said::Clock { .. }
        | Said::Pin { .. }
        | Said::Irq { .. }
        | Said::Events { .. }
        | Said::OldEvents { .. }
        | Said::Changes { .. }
        | Said::Poll => 1,
        Said::Write { .. } | Said::Unplug { .. } | Said::Open { .. } => 2,
        Said::Ioctl { command, .. } => command_cost(*command == GET_LINE),
        Said::OldIoctl { command, .. } => command_cost(gl_v1::makes_file(Some(*command))),
        Said::Detect => detect_cost(at, line),
        Said::Info => info_cost(at, line),
        Said::Get => word_count(at, line) + 7,
        Said::Set => word_count(at, line) + 5,
        Said::Start { .. } => {
            start_cost(text_at(1, at, line), word_count(at, line).saturating_sub(2))
        }
        Said::Step { turns, .. } => u64::from(*turns) + 1,
    }
}

fn command_cost(makes: bool) -> u64
    ensures { result ≡ (if makes then 3 else 2) }
{
    if makes {
        return 3;
    }
    2
}

fn detect_cost(at: usize, line: &[u8]) -> u64
    requires { at + length line.now + 1 < 2 ^ 64 }
    ensures { min result OVER ≡ min (if is_bare (words_at at line.now) then DETECT_ALL else 3 * length (words_at at line.now)) OVER }
{
    if is_bare(at, line) {
        return DETECT_ALL;
    }
    3 * word_count(at, line)
}

/// Whether gpiodetect has no chip word, and so tries all places: it has no words, or `--` alone.
fn is_bare(at: usize, line: &[u8]) -> bool
    requires { at + length line.now + 1 < 2 ^ 64 }
    ensures { result ≡ is_bare (words_at at line.now) }
{
    match next_word(at, line) {
        Some(first) => {
            if is_text(first.word, b"--") {
                return has_no_word(first.rest_at, first.rest);
            }
            false
        }
        None => true,
    }
}

fn has_no_word(at: usize, line: &[u8]) -> bool
    requires { at + length line.now + 1 < 2 ^ 64 }
    ensures { result ≡ are_none (words_at at line.now) }
{
    match next_word(at, line) {
        Some(_) => false,
        None => true,
    }
}

fn info_cost(at: usize, line: &[u8]) -> u64
    requires { at + length line.now + 1 < 2 ^ 64 }
    ensures { result ≡ (if list_any is_chip_option (words_at at line.now) then INFO_ONE else INFO_ALL) }
{
    if names_chip(at, line) {
        return INFO_ONE;
    }
    INFO_ALL
}

/// Whether a word may be gpioinfo's option for a chip.
fn names_chip(at: usize, line: &[u8]) -> bool
    requires { at + length line.now + 1 < 2 ^ 64 }
    ensures { result ≡ list_any is_chip_option (words_at at line.now) }
{
    let mut at = at;
    let mut rest = line;
    while let Some(found) = next_word(at, rest) {
        if is_chip_option(found.word) {
            return true;
        }
        at = found.rest_at;
        rest = found.rest;
    }
    false
}

fn is_chip_option(word: &[u8]) -> bool
    ensures { result ≡ (bytes_eq word.now (codes "-c") || starts_with nat_eq word.now (codes "--chip")) }
{
    is_text(word, b"-c") || word.starts_with(b"--chip")
}

fn start_cost(tool: &[u8], count: u64) -> u64
    requires { count ≤ OVER }
    ensures { result ≡ start_cost tool.now count }
{
    if is_text(tool, b"gpionotify") {
        return 2 * count + 2;
    }
    count + 5
}

/// How many words a line has, or one more than `COST_MAX` where it has more.
fn word_count(at: usize, line: &[u8]) -> u64
    requires { at + length line.now + 1 < 2 ^ 64 }
    ensures { result ≡ min (length (words_at at line.now)) OVER }
{
    let mut count = 0;
    let mut at = at;
    let mut rest = line;
    while let Some(found) = next_word(at, rest) {
        if count == OVER {
            return OVER;
        }
        count += 1;
        at = found.rest_at;
        rest = found.rest;
    }
    count
}
