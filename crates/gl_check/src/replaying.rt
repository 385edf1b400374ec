//! A history of a session of several actors, judged.
ghost use Rattle.std.specs.Prelude.{◌≡◌, ◌<◌, ◌^◌, ◌++◌, None, length, map, IfOk, OnErr, IsOkUnless, MatchOption};
ghost use Rattle.gl_script.specs.Script.{sections_of};
ghost use Rattle.gl_talk.specs.Over.{columns_in};
ghost use Rattle.gl_check.specs.Judging.{AreTaken, Judges, all_words, setup_words};
ghost use Rattle.gl_check.specs.Misfit.{IsMisfit, beginning, texts_of};
ghost use Rattle.gl_check.specs.Texts.{texts_text};

use crate::judge::Judge;
use crate::sections::add_kind;
use crate::texts::put_texts;
use gl_base::Errno;
use gl_core::Core;
use gl_script::{Script, SectionKind, Statement};
use gl_world::Entry;
use std::alloc::Global;

/// The misfit of a session and a history: the index of the first entry, counted from 0, that isn't the session's, or the number of entries
/// where all are and an actor isn't at its end. None where there is none; then what the session printed up to the line `== history`,
/// exclusive, is appended. It fails only when out of memory. Where there is a misfit, and where it fails, `out` is as it was.
pub fn replay(
    alloc: Global,
    script: &Script<'_>,
    history: &[Entry<Core>],
    out: &mut Vec<u8>,
) -> Result<Option<u32>, Errno>
    requires few { length history.now < 2 ^ 32 }
    ensures misfit { IfOk result (IsMisfit (sections_of script.now) history.now) }
    ensures texts { IfOk result (λ misfit. MatchOption misfit (out.new.items ≡ out.old.items ++ texts_text (sections_of script.now) (texts_of (sections_of script.now) history.now)) (λ _. out.new ≡ out.old)) }
    ensures kept { OnErr result (out.new.items ≡ out.old.items) }
    ensures memory_alone { IsOkUnless result Errno.NoMemory }
{
    let mut setup = Vec::new(alloc);
    add_kind(script, SectionKind::Setup, &mut setup)?;
    let mut all = Vec::new(alloc);
    add_kind(script, SectionKind::Setup, &mut all)?;
    add_kind(script, SectionKind::After, &mut all)?;
    replay_new(alloc, script, &setup, &all, history, out)
}

/// The same by a new judge, with the statements of `setup`, and those of `setup` and `after`.
fn replay_new(
    alloc: Global,
    script: &Script<'_>,
    setup: &[Statement<'_>],
    all: &[Statement<'_>],
    history: &[Entry<Core>],
    out: &mut Vec<u8>,
) -> Result<Option<u32>, Errno>
    requires setup { map columns_in setup.now ≡ setup_words (sections_of script.now) }
    requires all { map columns_in all.now ≡ all_words (sections_of script.now) }
    requires few { length history.now < 2 ^ 32 }
    ensures misfit { IfOk result (IsMisfit (sections_of script.now) history.now) }
    ensures texts { IfOk result (λ misfit. MatchOption misfit (out.new.items ≡ out.old.items ++ texts_text (sections_of script.now) (texts_of (sections_of script.now) history.now)) (λ _. out.new ≡ out.old)) }
    ensures kept { OnErr result (out.new.items ≡ out.old.items) }
    ensures memory_alone { IsOkUnless result Errno.NoMemory }
{
    let mut judge = Judge::new(alloc, script, setup, all)?;
    judge_all(alloc, script, setup, all, &mut judge, history, out)
}

/// The same by a judge that has seen no entry.
fn judge_all(
    alloc: Global,
    script: &Script<'_>,
    setup: &[Statement<'_>],
    all: &[Statement<'_>],
    judge: &mut Judge,
    history: &[Entry<Core>],
    out: &mut Vec<u8>,
) -> Result<Option<u32>, Errno>
    requires setup { map columns_in setup.now ≡ setup_words (sections_of script.now) }
    requires all { map columns_in all.now ≡ all_words (sections_of script.now) }
    requires few { length history.now < 2 ^ 32 }
    requires beginning { Judges (sections_of script.now) judge.old (beginning (sections_of script.now)) }
    ensures misfit { IfOk result (IsMisfit (sections_of script.now) history.now) }
    ensures texts { IfOk result (λ misfit. MatchOption misfit (out.new.items ≡ out.old.items ++ texts_text (sections_of script.now) (texts_of (sections_of script.now) history.now)) (λ _. out.new ≡ out.old)) }
    ensures kept { OnErr result (out.new.items ≡ out.old.items) }
    ensures memory_alone { IsOkUnless result Errno.NoMemory }
{
    match judge.take_all(alloc, script, setup, all, history) {
        Ok(Some(index)) => Ok(Some(index)),
        Ok(None) => conclude(alloc, script, judge, history, out),
        Err(errno) => Err(errno),
    }
}

/// The same after all entries, all of which fit.
fn conclude(
    alloc: Global,
    script: &Script<'_>,
    judge: &Judge,
    history: &[Entry<Core>],
    out: &mut Vec<u8>,
) -> Result<Option<u32>, Errno>
    requires few { length history.now < 2 ^ 32 }
    requires fit { AreTaken (sections_of script.now) history.now judge.now None }
    ensures misfit { IfOk result (IsMisfit (sections_of script.now) history.now) }
    ensures texts { IfOk result (λ misfit. MatchOption misfit (out.new.items ≡ out.old.items ++ texts_text (sections_of script.now) (texts_of (sections_of script.now) history.now)) (λ _. out.new ≡ out.old)) }
    ensures kept { OnErr result (out.new.items ≡ out.old.items) }
    ensures memory_alone { IsOkUnless result Errno.NoMemory }
{
    if !judge.is_at_end() {
        return Ok(Some(history.len() as u32));
    }
    let mut texts = Vec::new(alloc);
    put_texts(script, judge, &mut texts)?;
    out.extend_from_slice(&texts)?;
    Ok(None)
}
