//! A whole talk over given results.
ghost use Rattle.std.specs.Prelude.{◌≡◌, ◌+◌, ◌≤◌, ◌<◌, [], length, drop, map, IfOk, OnOk, IsOkUnless, MatchOption};
ghost use Rattle.gl_client.specs.Program.{done, given, goes_on, then_left};
ghost use Rattle.gl_talk.specs.Open.{Names, no_names};
ghost use Rattle.gl_talk.specs.Over.{columns_in, joined, talk_in};
ghost use Rattle.gl_talk.specs.Talk.{Does, left, names_in, nothing_talked, talk, talked};

use crate::talk::Talk;
use gl_base::{Do, Errno, Got};
use gl_client::Next;
use gl_script::Statement;
use std::alloc::Global;

/// What a talk asked for, in order, and its text.
#[derive(Drop)]
pub struct TalkedOver {
    /// The operations.
    pub operations: Vec<Do>,
    /// The text.
    pub text: Vec<u8>,
}

/// The operations and the text of an actor's statements over these results, in order, with the closing of what is open
/// at the end. Where the results are too few it ends with the first operation that has none.
pub fn talk_over(
    alloc: Global,
    statements: &[Statement<'_>],
    results: &[Got],
) -> Result<TalkedOver, Errno>
    requires { length statements.now ≤ 1048576 }
    ensures ok { IfOk result (λ over. talk_in over ≡ talk (map columns_in statements.now) results.now) }
    ensures memory_alone { IsOkUnless result Errno.NoMemory }
{
    let mut over = TalkedOver {
        operations: Vec::new(alloc),
        text: Vec::new(alloc),
    };
    let mut talk = Talk::new(alloc)?;
    match talk_on(alloc, &mut talk, statements, results, &mut over) {
        Ok(()) => Ok(over),
        Err(errno) => Err(errno),
    }
}

/// Begins an actor's statements in a talk that is new, each after the one before it has come to its end, and quits, over these results.
fn talk_on(
    alloc: Global,
    current: &mut Talk,
    statements: &[Statement<'_>],
    results: &[Got],
    over: &mut TalkedOver,
) -> Result<(), Errno>
    requires few { length statements.now ≤ 1048576 }
    requires idle { (names_in current.old ≡ no_names) × (current.old.begun ≡ 0) × (left current.old ≡ goes_on (done no_names)) }
    requires fresh { talk_in over.old ≡ nothing_talked }
    ensures ok { OnOk result (talk_in over.new ≡ talk (map columns_in statements.now) results.now) }
    ensures memory_alone { IsOkUnless result Errno.NoMemory }
{
    let mut at = 0;
    for statement in statements {
        current.begin(alloc, statement)?;
        match finish(alloc, current, results, at, over)? {
            Some(next) => at = next,
            None => return Ok(()),
        }
    }
    current.quit();
    finish(alloc, current, results, at, over)?;
    Ok(())
}

/// Goes on to the end of a statement, or of the talk, with the results from `at` on. It answers where the results after
/// it begin, or None where they were too few.
fn finish(
    alloc: Global,
    talk: &mut Talk,
    results: &[Got],
    at: usize,
    over: &mut TalkedOver,
) -> Result<Option<usize>, Errno>
    requires { talk.old.begun ≤ 2147483647 }
    ensures over { (f : Names → Does) → IfOk result (λ rest. MatchOption rest
        (joined over.new nothing_talked ≡ joined over.old (talked (given (then_left (left talk.old) f) None) (drop at results.now)))
        (λ next. joined over.new (talked (f (names_in talk.new)) (drop next results.now)) ≡ joined over.old (talked (given (then_left (left talk.old) f) None) (drop at results.now)))) }
    ensures counted { OnOk result (talk.new.begun ≡ talk.old.begun) }
    ensures memory_alone { IsOkUnless result Errno.NoMemory }
{
    let mut at = at;
    let mut got = None;
    for _ in 0..u64::MAX {
        match talk.next(alloc, got)? {
            Next::Call(what) => {
                over.operations.push(what)?;
                match results.get(at) {
                    Some(next) => {
                        got = Some(next);
                        at += 1;
                    }
                    None => return Ok(None),
                }
            }
            Next::Print(text) => {
                over.text.extend_from_slice(text.as_slice())?;
                got = None;
            }
            Next::End => return Ok(Some(at)),
        }
    }
    Err(Errno::NoMemory)
}
