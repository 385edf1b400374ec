//! What the program does with its words and its streams.
ghost use Rattle.std.specs.Prelude.{◌≡◌, ◌⊎◌, ◌≢◌, ◌<◌, ◌≤◌, ℕ, List, [], Some, None, IfSome};
ghost use Rattle.std.specs.Io.KnownBytes.{Appends, IsAtEnd};
ghost use Rattle.gl_base.specs.Count.{Rises};
ghost use Rattle.gl_driver.specs.Told.{new_port};
ghost use Rattle.gl_script.specs.declared.refusal.Refusal.{Refusal};
ghost use Rattle.gl_script.specs.Section.{SaidSection};
ghost use Rattle.gl_script.specs.Sentence.{Sentence, first_fault};
ghost use Rattle.gl_words.specs.Words.{asks, texts};
ghost use Rattle.gl_words.specs.declared.task.Task.TheVariants.{Check, Load};
ghost use Rattle.gl_session.specs.Ports.{AreAllThere, TakeMaps, left_at};
ghost use Rattle.gl_session.specs.Run.{IsRefusal, refused_line, usage_line};
ghost use Rattle.gl_session.specs.Verdict.{IsJudgment, IsLawful, IsVerdict, verdict_line, verdict_status, yes_line};
ghost use Rattle.gl_session.specs.Workers.{told_at};
ghost use Rattle.gl_session.specs.declared.verdict.Verdict.{Verdict};
ghost use Rattle.gpiosess.specs.Program.{HasPrinted, HasPrintedLoad};

use gl_aggregator::laws::{does_one_thing, own_entries_are_quiet};
use gl_aggregator::{AggDriver, AggPort};
use gl_check::laws::given_one_list;
use gl_driver::{Port, SimDriver, SimPort};
use gl_io::{Sink, Source};
use gl_session::{Status, run};
use std::alloc::Global;
use std::array;
use std::sync::Wait;
use std::thread::Threads;

/// A new port for the first actor, and one for each of 16 further ones. Each takes four maps.
fn new_ports() -> [Option<AggPort<SimPort>>; 17]
    ensures there { AreAllThere result }
    ensures new { (n : ℕ) → n < 17 → told_at (⟦<AggPort<SimPort> as Port>⟧.told) result n ≡ Some new_port }
    ensures bare { TakeMaps (⟦<AggPort<SimPort> as Port>⟧.maps) (⟦<AggPort<SimPort> as Port>⟧.maps_left) result }
    ensures four { left_at (⟦<AggPort<SimPort> as Port>⟧.maps_left) result 0 ≡ 4 }
{
    array::from_fn(|_| Some(AggPort::new(SimPort::new())))
}

/// Carries out what the words ask for, over the simulated driver with an aggregator over it and a new port for each actor, and writes what comes of it.
///
/// Without words a session is read from the source, and its text is written: of fewer than two actors that is one text, which the session alone
/// decides. The words of a load write its four lines, which its number alone decides. The word `check` judges what the source has:
/// `yes` is written exactly where it is a lawful run. What else comes of words and streams, and when, is what `run` of `gl_session` says.
pub fn carry_out<R: Threads + Wait + Sync, S: Source, K: Sink>(
    rt: &R,
    alloc: Global,
    words: &[&str],
    source: &mut S,
    sink: &mut K,
) -> Status
    ensures output { result ≡ Status.Ran → words.now ≡ [] → IfSome (S.left source.old) (λ input. (sections : List SaidSection) → Sentence input sections →
        IsAtEnd (S.left source.new) × HasPrinted sections (K.held sink.old) (K.held sink.new)) }
    ensures complete { words.now ≡ [] → IfSome (S.left source.old) (λ input. (sections : List SaidSection) → Sentence input sections →
        ¬ Rises (S.fault_count source.old) (S.fault_count source.new) → ¬ Rises (K.fault_count sink.old) (K.fault_count sink.new) →
        (result ≡ Status.Ran) ⊎ (result ≡ Status.NoMemory)) }
    ensures load { result ≡ Status.Ran → (n : ℕ) → asks (texts words.now) ≡ Some (Load n) → HasPrintedLoad n (K.held sink.old) (K.held sink.new) }
    ensures load_complete { (n : ℕ) → asks (texts words.now) ≡ Some (Load n) → ¬ Rises (K.fault_count sink.old) (K.fault_count sink.new) →
        (result ≡ Status.Ran) ⊎ (result ≡ Status.NoMemory) }

    // The judgment of a check is written, and its status is the answer; `yes` is that of a header, a session and an output that are a lawful
    // run, and of these alone. Only a check answers No.
    ensures check { asks (texts words.now) ≡ Some Check → IsJudgment result → IfSome (S.left source.old) (λ input. (verdict : Verdict) × IsVerdict input verdict
        × (result ≡ verdict_status verdict) × Appends (K.held sink.old) (K.held sink.new) (verdict_line verdict)) }
    ensures check_complete { asks (texts words.now) ≡ Some Check → ¬ Rises (S.fault_count source.old) (S.fault_count source.new) →
        ¬ Rises (K.fault_count sink.old) (K.fault_count sink.new) → IsJudgment result ⊎ (result ≡ Status.NoMemory) }
    ensures yes { asks (texts words.now) ≡ Some Check → result ≡ Status.Ran → IfSome (S.left source.old) (λ input. IsLawful input
        × Appends (K.held sink.old) (K.held sink.new) yes_line) }
    ensures yes_complete { asks (texts words.now) ≡ Some Check → IfSome (S.left source.old) (λ input. IsLawful input →
        ¬ Rises (S.fault_count source.old) (S.fault_count source.new) → ¬ Rises (K.fault_count sink.old) (K.fault_count sink.new) →
        (result ≡ Status.Ran) ⊎ (result ≡ Status.NoMemory)) }
    ensures no_only { result ≡ Status.No → asks (texts words.now) ≡ Some Check }

    // Words that ask for nothing are answered first, and where there are words nothing is read, except for a check.
    ensures usage { asks (texts words.now) ≡ None → (result ≡ Status.Usage) ⊎ (result ≡ Status.WriteFault) }
    ensures usage_only { result ≡ Status.Usage → asks (texts words.now) ≡ None }
    ensures usage_written { result ≡ Status.Usage → Appends (K.held sink.old) (K.held sink.new) usage_line }
    ensures words_read_nothing { words.now ≢ [] → asks (texts words.now) ≢ Some Check → source.new ≡ source.old }

    // Bytes that are no session are refused by their first fault.
    ensures refused { words.now ≡ [] → IfSome (S.left source.old) (λ input. (refusal : Refusal) → first_fault input ≡ Some refusal → IsRefusal result) }
    ensures refused_words { result ≡ Status.Refused → (words.now ≡ []) ⊎ (asks (texts words.now) ≡ Some Check) }
    ensures refused_only { result ≡ Status.Refused → words.now ≡ [] → IfSome (S.left source.old) (λ input. (refusal : Refusal) × (first_fault input ≡ Some refusal)
        × Appends (K.held sink.old) (K.held sink.new) (refused_line refusal)) }

    // A fault of a stream comes only where the stream counted one in this call.
    ensures read_fault { result ≡ Status.ReadFault → Rises (S.fault_count source.old) (S.fault_count source.new) }
    ensures write_fault { result ≡ Status.WriteFault → Rises (K.fault_count sink.old) (K.fault_count sink.new) }
    ensures read_fault_writes_nothing { result ≡ Status.ReadFault → sink.new ≡ sink.old }
    ensures no_memory_writes_nothing { result ≡ Status.NoMemory → sink.new ≡ sink.old }
{
    let mut ports = new_ports();
    let driver = AggDriver::new(SimDriver::new());
    own_entries_are_quiet();
    does_one_thing::<SimDriver>();
    given_one_list::<AggDriver<SimDriver>>();
    run(rt, alloc, words, source, sink, driver, &mut ports)
}
