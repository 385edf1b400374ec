//! A check: a printed run is read, judged, and the judgment written.
ghost use Rattle.std.specs.Prelude.{◌≡◌, ◌≢◌, ◌<◌, ◌⊎◌, ℕ, List, IfSome};
ghost use Rattle.std.specs.Io.KnownBytes.{Appends};
ghost use Rattle.gl_base.specs.Count.{Rises};
ghost use Rattle.gl_script.specs.declared.refusal.Refusal.{Refusal};
ghost use Rattle.gl_session.specs.Run.{refused_line};
ghost use Rattle.gl_session.specs.Streams.{AppendsFront, LosesFront, ReadsThrough};
ghost use Rattle.gl_session.specs.Verdict.{IsJudgment, IsLawful, IsVerdict, verdict_line, verdict_status, yes_line};

use crate::judging::{CHECK_MAX, judge};
use crate::laws::lawful_runs_are_judged_so;
use crate::session::finish;
use crate::status::Status;
use crate::streams::{ReadError, read_through};
use crate::verdict::Verdict;
use gl_io::{Sink, Source};
use std::alloc::Global;

/// Reads a printed run from the source, to the end of input or one byte more than it may have, judges it, and writes the judgment.
pub fn run_check<S: Source, K: Sink>(alloc: Global, source: &mut S, sink: &mut K) -> Status
    ensures ends { IsJudgment result ⊎ ((result ≡ Status.ReadFault) ⊎ ((result ≡ Status.WriteFault) ⊎ (result ≡ Status.NoMemory))) }
    ensures judged { IsJudgment result → IfSome (S.left source.old) (λ input. (verdict : Verdict) × IsVerdict input verdict
        × (result ≡ verdict_status verdict) × Appends (K.held sink.old) (K.held sink.new) (verdict_line verdict)) }
    ensures refused { result ≡ Status.Refused → (refusal : Refusal) × Appends (K.held sink.old) (K.held sink.new) (refused_line refusal) }
    ensures read_through { result ≢ Status.ReadFault → result ≢ Status.NoMemory → (bytes : List ℕ) × ReadsThrough CHECK_MAX (S.left source.old) (S.left source.new) bytes }
    ensures front { result ≡ Status.WriteFault → IfSome (S.left source.old) (λ input. (verdict : Verdict) × IsVerdict input verdict
        × AppendsFront (K.held sink.old) (K.held sink.new) (verdict_line verdict)) }
    ensures complete { ¬ Rises (S.fault_count source.old) (S.fault_count source.new) → ¬ Rises (K.fault_count sink.old) (K.fault_count sink.new)
        → IsJudgment result ⊎ (result ≡ Status.NoMemory) }
    ensures yes { result ≡ Status.Ran → IfSome (S.left source.old) (λ input. IsLawful input × Appends (K.held sink.old) (K.held sink.new) yes_line) }
    ensures yes_complete { IfSome (S.left source.old) (λ input. IsLawful input → ¬ Rises (S.fault_count source.old) (S.fault_count source.new)
        → ¬ Rises (K.fault_count sink.old) (K.fault_count sink.new) → (result ≡ Status.Ran) ⊎ (result ≡ Status.NoMemory)) }
    ensures read_fault { result ≡ Status.ReadFault → Rises (S.fault_count source.old) (S.fault_count source.new) }
    ensures read_fault_told { S.fault_count source.old < S.fault_count source.new → result ≡ Status.ReadFault }
    ensures read_fault_writes_nothing { result ≡ Status.ReadFault → sink.new ≡ sink.old }
    ensures read_front { LosesFront (S.left source.old) (S.left source.new) }
    ensures write_fault { result ≡ Status.WriteFault → Rises (K.fault_count sink.old) (K.fault_count sink.new) }
    ensures write_fault_told { K.fault_count sink.old < K.fault_count sink.new → result ≡ Status.WriteFault }
    ensures no_memory { result ≡ Status.NoMemory → sink.new ≡ sink.old }
{
    lawful_runs_are_judged_so();
    match read_through(alloc, source, CHECK_MAX) {
        Ok(input) => answer(alloc, &input, sink),
        Err(ReadError::Fault) => Status::ReadFault,
        Err(ReadError::NoMemory) => Status::NoMemory,
    }
}

/// Judges an input, and writes the judgment.
fn answer<K: Sink>(alloc: Global, input: &[u8], sink: &mut K) -> Status
    ensures ends { IsJudgment result ⊎ ((result ≡ Status.WriteFault) ⊎ (result ≡ Status.NoMemory)) }
    ensures judged { IsJudgment result → (verdict : Verdict) × IsVerdict input.now verdict
        × (result ≡ verdict_status verdict) × Appends (K.held sink.old) (K.held sink.new) (verdict_line verdict) }
    ensures refused { result ≡ Status.Refused → (refusal : Refusal) × Appends (K.held sink.old) (K.held sink.new) (refused_line refusal) }
    ensures front { result ≡ Status.WriteFault → (verdict : Verdict) × IsVerdict input.now verdict
        × AppendsFront (K.held sink.old) (K.held sink.new) (verdict_line verdict) }
    ensures write_fault { result ≡ Status.WriteFault → Rises (K.fault_count sink.old) (K.fault_count sink.new) }
    ensures write_fault_told { K.fault_count sink.old < K.fault_count sink.new → result ≡ Status.WriteFault }
    ensures no_memory { result ≡ Status.NoMemory → sink.new ≡ sink.old }
{
    match judge(alloc, input) {
        Ok(verdict) => say(alloc, verdict, sink),
        Err(_) => Status::NoMemory,
    }
}

/// Writes a verdict.
fn say<K: Sink>(alloc: Global, verdict: Verdict, sink: &mut K) -> Status
    ensures ends { (result ≡ verdict_status verdict) ⊎ ((result ≡ Status.WriteFault) ⊎ (result ≡ Status.NoMemory)) }
    ensures written { result ≡ verdict_status verdict → Appends (K.held sink.old) (K.held sink.new) (verdict_line verdict) }
    ensures front { result ≡ Status.WriteFault → AppendsFront (K.held sink.old) (K.held sink.new) (verdict_line verdict) }
    ensures write_fault { result ≡ Status.WriteFault → Rises (K.fault_count sink.old) (K.fault_count sink.new) }
    ensures write_fault_told { K.fault_count sink.old < K.fault_count sink.new → result ≡ Status.WriteFault }
    ensures no_memory { result ≡ Status.NoMemory → sink.new ≡ sink.old }
{
    let mut line = Vec::new(alloc);
    match verdict.put_line(&mut line) {
        Ok(()) => finish(sink, &line, verdict.status()),
        Err(_) => Status::NoMemory,
    }
}
