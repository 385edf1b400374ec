//! A printed run, judged.
ghost use Rattle.std.specs.Prelude.{◌≡◌, ◌<◌, ◌^◌, if◌then◌else◌, ℕ, Option, None, Some, codes, length, IfOk, IsOkUnless, MatchOption};
ghost use Rattle.std.specs.Str.{bytes_eq};
ghost use Rattle.gl_script.specs.Script.{sections_of};
ghost use Rattle.gl_script.specs.Sentence.{Sentence};
ghost use Rattle.gl_check.specs.Misfit.{IsMisfit};
ghost use Rattle.gl_trace.specs.HistoryRead.{history_in};
ghost use Rattle.gl_trace.specs.WordRead.{stripped};
ghost use Rattle.gl_session.specs.Verdict.{IsOutputVerdict, IsSessionVerdict, IsVerdict, entries_verdict, header_of, is_judged, length_told, parts_by};

use crate::verdict::Verdict;
use gl_base::{Errno, read_plain_decimal, split_first};
use gl_check::replay;
use gl_check::sections::count_actors;
use gl_core::Core;
use gl_script::{RefusalKind, SESSION_MAX, Script};
use gl_trace::{NoHistory, read_history};
use gl_world::Entry;
use std::alloc::Global;

/// How many bytes a header, a session and its output may have together.
pub const CHECK_MAX: usize = 67_108_864;

/// What the first line of an input begins with.
const CHECK: &[u8] = b"check ";

/// What an input is judged to be. `NoMemory` alone is refused.
pub fn judge(alloc: Global, input: &[u8]) -> Result<Verdict, Errno>
    ensures verdict { IfOk result (λ verdict. IsVerdict input.now verdict) }
    ensures memory_alone { IsOkUnless result Errno.NoMemory }
{
    if input.len() > CHECK_MAX {
        return Ok(Verdict::TooLong);
    }
    match header_of(input) {
        Some((session, output)) => judge_session(alloc, session, output),
        None => Ok(Verdict::Header),
    }
}

/// The session and the output in an input, where it begins as it has to.
fn header_of(input: &[u8]) -> Option<(&[u8], &[u8])>
    ensures { MatchOption result (header_of input.now ≡ None) (λ parts. header_of input.now ≡ Some (record { session = parts.0.now; output = parts.1.now })) }
{
    let (line, after) = split_first(input, b'\n');
    match after {
        Some(rest) => parts_of(length_told(line), rest),
        None => None,
    }
}

/// How many bytes the session has, by the first line.
fn length_told(line: &[u8]) -> Option<usize>
    ensures { result ≡ length_told line.now }
{
    match behind_check(line) {
        Some(number) => match read_plain_decimal(number) {
            Some(count) if count <= SESSION_MAX as u64 => Some(count as usize),
            _ => None,
        },
        None => None,
    }
}

/// What stands after the word that the first line begins with.
fn behind_check(line: &[u8]) -> Option<&[u8]>
    ensures { MatchOption result (stripped (codes "check ") line.now ≡ None) (λ rest. stripped (codes "check ") line.now ≡ Some rest.now) }
{
    if line.starts_with(CHECK) {
        return Some(&line[CHECK.len()..]);
    }
    None
}

/// The session of so many bytes and the output after it, where there are enough.
fn parts_of(count: Option<usize>, rest: &[u8]) -> Option<(&[u8], &[u8])>
    ensures { MatchOption result (parts_by count rest.now ≡ None) (λ parts. parts_by count rest.now ≡ Some (record { session = parts.0.now; output = parts.1.now })) }
{
    match count {
        Some(count) => {
            if count <= rest.len() {
                Some(rest.split_at(count))
            } else {
                None
            }
        }
        None => None,
    }
}

/// What a session and an output are judged to be.
fn judge_session(alloc: Global, session: &[u8], output: &[u8]) -> Result<Verdict, Errno>
    ensures verdict { IfOk result (λ verdict. IsSessionVerdict (is_judged session.now) (record { session = session.now; output = output.now }) verdict) }
    ensures memory_alone { IsOkUnless result Errno.NoMemory }
{
    match Script::parse(alloc, session) {
        Ok(script) => judge_script(alloc, &script, session, output),
        Err(refusal) if refusal.kind == RefusalKind::NoMemory => Err(Errno::NoMemory),
        Err(_) => Ok(Verdict::NoSession),
    }
}

/// The same of bytes that are this session.
fn judge_script(
    alloc: Global,
    script: &Script<'_>,
    session: &[u8],
    output: &[u8],
) -> Result<Verdict, Errno>
    requires { Sentence session.now (sections_of script.now) }
    ensures verdict { IfOk result (λ verdict. IsSessionVerdict (is_judged session.now) (record { session = session.now; output = output.now }) verdict) }
    ensures memory_alone { IsOkUnless result Errno.NoMemory }
{
    if count_actors(script) < 2 {
        return Ok(Verdict::NoSession);
    }
    if script.has_aggregate() {
        return Ok(Verdict::NoSession);
    }
    judge_output(alloc, script, output)
}

/// What an output of a session is judged to be.
fn judge_output(alloc: Global, script: &Script<'_>, output: &[u8]) -> Result<Verdict, Errno>
    ensures verdict { IfOk result (λ verdict. IsOutputVerdict (sections_of script.now) (history_in output.now) verdict) }
    ensures memory_alone { IsOkUnless result Errno.NoMemory }
{
    match read_history(alloc, output) {
        Ok(printed) => judge_entries(alloc, script, printed.front, &printed.entries),
        Err(why) => without_history(why),
    }
}

/// What an output is judged to be in which no history could be read.
fn without_history(why: NoHistory) -> Result<Verdict, Errno>
    ensures verdict { IfOk result (λ verdict. (line : ℕ) × (why ≡ NoHistory.Line line) × (verdict ≡ Verdict.NoFormat line)) }
    ensures memory_alone { IsOkUnless result Errno.NoMemory }
{
    match why {
        NoHistory::Line(line) => Ok(Verdict::NoFormat(line)),
        NoHistory::NoMemory => Err(Errno::NoMemory),
    }
}

/// What the texts and the entries of a history are judged to be.
fn judge_entries(
    alloc: Global,
    script: &Script<'_>,
    front: &[u8],
    history: &[Entry<Core>],
) -> Result<Verdict, Errno>
    requires entries { length history.now < 2 ^ 32 }
    ensures verdict { IfOk result (λ verdict. (misfit : Option ℕ) × IsMisfit (sections_of script.now) history.now misfit
        × (verdict ≡ entries_verdict misfit (sections_of script.now) front.now history.now)) }
    ensures memory_alone { IsOkUnless result Errno.NoMemory }
{
    let mut texts = Vec::new(alloc);
    match replay(alloc, script, history, &mut texts) {
        Ok(Some(index)) => Ok(Verdict::NoEntry(index)),
        Ok(None) => Ok(of_texts(front, &texts)),
        Err(errno) => Err(errno),
    }
}

/// Whether what stands in front of a history is what the session printed.
fn of_texts(front: &[u8], texts: &[u8]) -> Verdict
    ensures { result ≡ (if bytes_eq front.now texts.now then Verdict.Yes else Verdict.NoText) }
{
    if front == texts {
        Verdict::Yes
    } else {
        Verdict::NoText
    }
}
