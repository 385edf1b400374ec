//! The top call: from the bytes read to the bytes written and the status.
ghost use Rattle.std.specs.Prelude.{◌≡◌, ◌≢◌, ◌<◌, ◌≤◌, ◌⊎◌, ℕ, List, [], None, Some, drop, IfSome};
ghost use Rattle.std.specs.Io.KnownBytes.{Appends, IsAtEnd};
ghost use Rattle.gl_base.specs.Count.{Rises};
ghost use Rattle.gl_script.specs.declared.refusal.Refusal.{Refusal};
ghost use Rattle.gl_script.specs.Section.{SaidSection};
ghost use Rattle.gl_script.specs.Sentence.{Sentence, first_fault};
ghost use Rattle.gl_words.specs.Words.{asks, texts};
ghost use Rattle.gl_check.specs.Drivers.{driver_kind, over};
ghost use Rattle.gl_check.specs.Joining.{no_maps};
ghost use Rattle.gl_chip.specs.Values.{IsQuietDriver};
ghost use Rattle.gl_session.specs.Figures.{CameToLoad, HasWrittenLoad};
ghost use Rattle.gl_session.specs.Ports.{AreAllThere, OthersLearn, OwnsNothing, TakeMaps, left_at, maps_at};
ghost use Rattle.gl_session.specs.Workers.{told_at};
ghost use Rattle.gl_session.specs.Streams.{ReadsThrough, LosesFront, AppendsFront};
ghost use Rattle.gl_session.specs.Verdict.{IsJudgment, IsLawful, IsVerdict, verdict_line, verdict_status, yes_line};
ghost use Rattle.gl_session.specs.declared.verdict.Verdict.{Verdict};
ghost use Rattle.gl_session.specs.Run.{HasWritten, usage_line, refused_line, IsOutput, IsRefusal};

use crate::check::run_check;
use crate::judging::CHECK_MAX;
use crate::load::carry_load;
use crate::ports::carry_script;
use crate::status::Status;
use crate::streams::{ReadError, read_through, write_all};
use crate::text::put_refusal;
use gl_core::Core;
use gl_driver::Driver;
use gl_io::{Sink, Source};
use gl_script::{Refusal, RefusalKind, SESSION_MAX, Script, TURNS_MAX};
use gl_words::{Task, WordsFault, loads_are_within, read_words};
use std::alloc::Global;
use std::sync::Wait;
use std::thread::Threads;

/// Carries out what the words ask for, and writes what comes of it to the sink.
///
/// Without words a session is read from the source, to the end of input or one byte more than a session may have, carried out on a new
/// device with this driver, and its output is written at the end; for bytes that are none it is the line `refused LINE COLUMN KIND`. Two or
/// more actors carry their sections out each in a thread of its own, where one can be made.
///
/// The words `--generate N` ask for the load of N turns. Nothing is read: it is carried out by one actor, and four lines tell how many
/// statements it has, how many entries it makes, how many bytes it prints, and their sum modulo 2^32.
///
/// With the word `check` a line `check N` is read from the source, the N bytes of a session, and the output of its run, to the end of input
/// or one byte more than 67,108,864. It is judged, and one line written: `yes`, or what is wrong. No device is made and no driver asked.
///
/// All other words write the line `usage`.
///
/// The first cause decides: words that ask for nothing, a fault of reading, bytes that are no session, being out of memory, a fault of
/// writing. There are 17 ports: that of the number of an actor is the one through which it asks the driver. None of them keeps a map, and each
/// takes as many; what an `aggregate` teaches one of them the others learn too. Where the driver goes by no map it makes no entries of its own; those
/// that it makes elsewhere, eight at most for a call, begin no removal, end none and request no lines.
pub fn run<R: Threads + Wait + Sync, S: Source, K: Sink, D: Driver<Core>>(
    rt: &R,
    alloc: Global,
    words: &[&str],
    source: &mut S,
    sink: &mut K,
    driver: D,
    ports: &mut [Option<D::Port>],
) -> Status
    requires none { OwnsNothing D.OwnEntries }
    requires quiet { IsQuietDriver D.OwnEntries }
    requires few_own { D.ENTRIES ≤ 8 }
    requires bare { TakeMaps D.Port.maps D.Port.maps_left ports.old }
    requires ports { AreAllThere ports.old }

    // A session that ran is read to its end, and what it came to is written. With fewer than two actors that is One over what its driver did
    // where it was asked; where no port keeps maps, as without an `aggregate`, it is One of just the answers that it gave. A planned driver over a
    // new port gave those of Planned then, and a port that tells has told them. With two or more it is Output of texts and a history with Many; over
    // new ports of a planned driver its tells are as planned, and each port that tells has told those of its actor. The first port keeps the maps that
    // are taught there.
    ensures output { result ≡ Status.Ran → words.now ≡ [] → IfSome (S.left source.old) (λ input. (sections : List SaidSection) → Sentence input sections →
        IsAtEnd (S.left source.new)
        × HasWritten (over (left_at D.Port.maps_left ports.old 0) (driver_kind D.ENTRIES D.is_planned D.OwnEntries D.Follows)) sections (told_at D.Port.told ports.old) (told_at D.Port.told ports.new) (maps_at D.Port.maps D.Port.maps_left ports.new 0) (K.held sink.old) (K.held sink.new)) }
    ensures ran_only_session { result ≡ Status.Ran → words.now ≡ [] → IfSome (S.left source.old) (λ input. (sections : List SaidSection) × Sentence input sections) }

    // A load that ran told its four numbers: how many statements it has, how many entries One makes of it over just the answers that its
    // driver gave, how many bytes One prints then, and the sum of these. The answers are as above.
    ensures load { result ≡ Status.Ran → (n : ℕ) → asks (texts words.now) ≡ Some (Task.Load n) →
        HasWrittenLoad (driver_kind D.ENTRIES D.is_planned D.OwnEntries D.Follows) n (told_at D.Port.told ports.old 0) (told_at D.Port.told ports.new 0) (K.held sink.old) (K.held sink.new) }
    ensures load_ends { (n : ℕ) → asks (texts words.now) ≡ Some (Task.Load n) → (result ≡ Status.Ran) ⊎ ((result ≡ Status.WriteFault) ⊎ (result ≡ Status.NoMemory)) }

    // Words that ask for nothing are answered first, and where there are words nothing is read, except for a check.
    ensures usage { asks (texts words.now) ≡ None → (result ≡ Status.Usage) ⊎ (result ≡ Status.WriteFault) }
    ensures usage_only { result ≡ Status.Usage → asks (texts words.now) ≡ None }
    ensures usage_written { result ≡ Status.Usage → Appends (K.held sink.old) (K.held sink.new) usage_line }
    ensures words_read_nothing { words.now ≢ [] → asks (texts words.now) ≢ Some Task.Check → source.new ≡ source.old }

    // A fault of reading comes only where the source counted one in this call, and nothing is written.
    ensures read_fault { result ≡ Status.ReadFault → Rises (S.fault_count source.old) (S.fault_count source.new) }
    ensures read_fault_only { result ≡ Status.ReadFault → (words.now ≡ []) ⊎ (asks (texts words.now) ≡ Some Task.Check) }
    ensures read_fault_writes_nothing { result ≡ Status.ReadFault → sink.new ≡ sink.old }

    // Where the source counted one, that is the answer: nothing is tried again. The bytes that were taken are gone.
    ensures read_fault_told { S.fault_count source.old < S.fault_count source.new → result ≡ Status.ReadFault }
    ensures read_front { LosesFront (S.left source.old) (S.left source.new) }

    // Bytes that are no session are refused by their first fault, once they are read through.
    ensures refused { words.now ≡ [] → IfSome (S.left source.old) (λ input. (refusal : Refusal) → first_fault input ≡ Some refusal → IsRefusal result) }
    ensures refused_words { result ≡ Status.Refused → (words.now ≡ []) ⊎ (asks (texts words.now) ≡ Some Task.Check) }
    ensures refused_only { result ≡ Status.Refused → words.now ≡ [] → IfSome (S.left source.old) (λ input. (refusal : Refusal) × (first_fault input ≡ Some refusal)
        × Appends (K.held sink.old) (K.held sink.new) (refused_line refusal)) }
    ensures refused_read_through { result ≡ Status.Refused → words.now ≡ [] → (bytes : List ℕ) × ReadsThrough SESSION_MAX (S.left source.old) (S.left source.new) bytes }
    ensures refused_written { result ≡ Status.Refused → (refusal : Refusal) × Appends (K.held sink.old) (K.held sink.new) (refused_line refusal) }

    // A fault of writing comes only where the sink counted one in this call, once a session was read through, and leaves a front of the
    // output.
    ensures write_fault { result ≡ Status.WriteFault → Rises (K.fault_count sink.old) (K.fault_count sink.new) }
    ensures write_fault_told { K.fault_count sink.old < K.fault_count sink.new → result ≡ Status.WriteFault }
    ensures write_fault_read_through { result ≡ Status.WriteFault → words.now ≡ [] → (bytes : List ℕ) × ReadsThrough SESSION_MAX (S.left source.old) (S.left source.new) bytes }
    ensures write_fault_front { result ≡ Status.WriteFault → words.now ≡ [] → IfSome (S.left source.old) (λ input.
        (text : List ℕ) × IsOutput (over (left_at D.Port.maps_left ports.old 0) (driver_kind D.ENTRIES D.is_planned D.OwnEntries D.Follows)) (told_at D.Port.told ports.old) (told_at D.Port.told ports.new) (maps_at D.Port.maps D.Port.maps_left ports.new 0) input text
        × AppendsFront (K.held sink.old) (K.held sink.new) text) }
    ensures load_front { result ≡ Status.WriteFault → (n : ℕ) → asks (texts words.now) ≡ Some (Task.Load n) → (text : List ℕ)
        × CameToLoad (driver_kind D.ENTRIES D.is_planned D.OwnEntries D.Follows) n (told_at D.Port.told ports.old 0) (told_at D.Port.told ports.new 0) text
        × AppendsFront (K.held sink.old) (K.held sink.new) text }
    ensures usage_front { result ≡ Status.WriteFault → asks (texts words.now) ≡ None → AppendsFront (K.held sink.old) (K.held sink.new) usage_line }

    // Being out of memory may always be answered, and then nothing is written.
    ensures no_memory_writes_nothing { result ≡ Status.NoMemory → sink.new ≡ sink.old }

    // Where no fault was counted, a session runs, and so does a load.
    ensures complete { words.now ≡ [] → IfSome (S.left source.old) (λ input. (sections : List SaidSection) → Sentence input sections →
        ¬ Rises (S.fault_count source.old) (S.fault_count source.new) → ¬ Rises (K.fault_count sink.old) (K.fault_count sink.new) →
        (result ≡ Status.Ran) ⊎ (result ≡ Status.NoMemory)) }
    ensures load_complete { (n : ℕ) → asks (texts words.now) ≡ Some (Task.Load n) → ¬ Rises (K.fault_count sink.old) (K.fault_count sink.new) →
        (result ≡ Status.Ran) ⊎ (result ≡ Status.NoMemory) }

    // With the word `check` what is read is judged: a header, a session, and what is to be the output of its run. The judgment's line is
    // written; its status is the answer, or else a fault of reading or writing, or being out of memory. Only a check answers No.
    ensures check { asks (texts words.now) ≡ Some Task.Check → IsJudgment result → IfSome (S.left source.old) (λ input. (verdict : Verdict) × IsVerdict input verdict
        × (result ≡ verdict_status verdict) × Appends (K.held sink.old) (K.held sink.new) (verdict_line verdict)) }
    ensures check_front { result ≡ Status.WriteFault → asks (texts words.now) ≡ Some Task.Check → IfSome (S.left source.old) (λ input. (verdict : Verdict) × IsVerdict input verdict
        × AppendsFront (K.held sink.old) (K.held sink.new) (verdict_line verdict)) }
    ensures check_read_through { asks (texts words.now) ≡ Some Task.Check → result ≢ Status.ReadFault → result ≢ Status.NoMemory → (bytes : List ℕ) × ReadsThrough CHECK_MAX (S.left source.old) (S.left source.new) bytes }
    ensures no_only { result ≡ Status.No → asks (texts words.now) ≡ Some Task.Check }
    ensures check_complete { asks (texts words.now) ≡ Some Task.Check → ¬ Rises (S.fault_count source.old) (S.fault_count source.new) →
        ¬ Rises (K.fault_count sink.old) (K.fault_count sink.new) → IsJudgment result ⊎ (result ≡ Status.NoMemory) }

    // So `yes` is answered exactly where the input is within its length and is a header, a session of several actors, and the output of some
    // texts and some history with Many and PlannedTells.
    ensures yes { asks (texts words.now) ≡ Some Task.Check → result ≡ Status.Ran → IfSome (S.left source.old) (λ input. IsLawful input
        × Appends (K.held sink.old) (K.held sink.new) yes_line) }
    ensures yes_complete { asks (texts words.now) ≡ Some Task.Check → IfSome (S.left source.old) (λ input. IsLawful input →
        ¬ Rises (S.fault_count source.old) (S.fault_count source.new) → ¬ Rises (K.fault_count sink.old) (K.fault_count sink.new) →
        (result ≡ Status.Ran) ⊎ (result ≡ Status.NoMemory)) }

    // All ports are there again except when out of memory. Once a session ran all of them keep the same maps, those that an `aggregate` taught the
    // first one. Those of numbers that no actor has learned these alone, and are as they were without an `aggregate`; and so are all where nothing ran. A load teaches
    // the first one none.
    ensures ports_there { result ≢ Status.NoMemory → AreAllThere ports.new }
    ensures other_ports { result ≢ Status.NoMemory → words.now ≡ [] → IfSome (S.left source.old) (λ input.
        (sections : List SaidSection) → Sentence input sections → OthersLearn D.Port.maps D.Port.maps_left D.Port.told D.Port.faults sections ports.old ports.new) }
    ensures load_ports { (n : ℕ) → asks (texts words.now) ≡ Some (Task.Load n) → drop 1 ports.new ≡ drop 1 ports.old }
    ensures load_maps { result ≢ Status.NoMemory → (n : ℕ) → asks (texts words.now) ≡ Some (Task.Load n) → maps_at D.Port.maps D.Port.maps_left ports.new 0 ≡ no_maps (left_at D.Port.maps_left ports.old 0) }
    ensures check_ports { asks (texts words.now) ≡ Some Task.Check → ports.new ≡ ports.old }
    ensures usage_ports { asks (texts words.now) ≡ None → ports.new ≡ ports.old }
    ensures read_fault_ports { result ≡ Status.ReadFault → ports.new ≡ ports.old }
    ensures refused_ports { result ≡ Status.Refused → ports.new ≡ ports.old }
    ensures refused_bytes_ports { result ≢ Status.NoMemory → words.now ≡ [] → IfSome (S.left source.old) (λ input. (refusal : Refusal) → first_fault input ≡ Some refusal → ports.new ≡ ports.old) }
{
    match read_words(alloc, words) {
        Ok(Task::Session) => run_session(rt, alloc, source, sink, driver, ports),
        Ok(Task::Load(turns)) => {
            loads_are_within();
            run_load(rt, alloc, turns, sink, driver, ports)
        }
        Ok(Task::Check) => run_check(alloc, source, sink),
        Err(WordsFault::Usage) => finish(sink, b"usage\n", Status::Usage),
        Err(WordsFault::NoMemory) => Status::NoMemory,
    }
}

/// Reads a session from the source, runs it, and writes its output.
fn run_session<R: Threads + Wait + Sync, S: Source, K: Sink, D: Driver<Core>>(
    rt: &R,
    alloc: Global,
    source: &mut S,
    sink: &mut K,
    driver: D,
    ports: &mut [Option<D::Port>],
) -> Status
    requires none { OwnsNothing D.OwnEntries }
    requires quiet { IsQuietDriver D.OwnEntries }
    requires few_own { D.ENTRIES ≤ 8 }
    requires bare { TakeMaps D.Port.maps D.Port.maps_left ports.old }
    requires ports { AreAllThere ports.old }
    ensures output { result ≡ Status.Ran → IfSome (S.left source.old) (λ input. (sections : List SaidSection) → Sentence input sections →
        IsAtEnd (S.left source.new)
        × HasWritten (over (left_at D.Port.maps_left ports.old 0) (driver_kind D.ENTRIES D.is_planned D.OwnEntries D.Follows)) sections (told_at D.Port.told ports.old) (told_at D.Port.told ports.new) (maps_at D.Port.maps D.Port.maps_left ports.new 0) (K.held sink.old) (K.held sink.new)) }
    ensures ran_only_session { result ≡ Status.Ran → IfSome (S.left source.old) (λ input. (sections : List SaidSection) × Sentence input sections) }
    ensures no_usage { result ≢ Status.Usage }
    ensures no_no { result ≢ Status.No }
    ensures read_fault { result ≡ Status.ReadFault → Rises (S.fault_count source.old) (S.fault_count source.new) }
    ensures read_fault_writes_nothing { result ≡ Status.ReadFault → sink.new ≡ sink.old }
    ensures read_fault_told { S.fault_count source.old < S.fault_count source.new → result ≡ Status.ReadFault }
    ensures read_front { LosesFront (S.left source.old) (S.left source.new) }
    ensures refused { IfSome (S.left source.old) (λ input. (refusal : Refusal) → first_fault input ≡ Some refusal → IsRefusal result) }
    ensures refused_only { result ≡ Status.Refused → IfSome (S.left source.old) (λ input. (refusal : Refusal) × (first_fault input ≡ Some refusal)
        × Appends (K.held sink.old) (K.held sink.new) (refused_line refusal)) }
    ensures refused_read_through { result ≡ Status.Refused → (bytes : List ℕ) × ReadsThrough SESSION_MAX (S.left source.old) (S.left source.new) bytes }
    ensures refused_written { result ≡ Status.Refused → (refusal : Refusal) × Appends (K.held sink.old) (K.held sink.new) (refused_line refusal) }
    ensures write_fault { result ≡ Status.WriteFault → Rises (K.fault_count sink.old) (K.fault_count sink.new) }
    ensures write_fault_told { K.fault_count sink.old < K.fault_count sink.new → result ≡ Status.WriteFault }
    ensures write_fault_read_through { result ≡ Status.WriteFault → (bytes : List ℕ) × ReadsThrough SESSION_MAX (S.left source.old) (S.left source.new) bytes }
    ensures write_fault_front { result ≡ Status.WriteFault → IfSome (S.left source.old) (λ input.
        (text : List ℕ) × IsOutput (over (left_at D.Port.maps_left ports.old 0) (driver_kind D.ENTRIES D.is_planned D.OwnEntries D.Follows)) (told_at D.Port.told ports.old) (told_at D.Port.told ports.new) (maps_at D.Port.maps D.Port.maps_left ports.new 0) input text
        × AppendsFront (K.held sink.old) (K.held sink.new) text) }
    ensures no_memory_writes_nothing { result ≡ Status.NoMemory → sink.new ≡ sink.old }
    ensures complete { IfSome (S.left source.old) (λ input. (sections : List SaidSection) → Sentence input sections →
        ¬ Rises (S.fault_count source.old) (S.fault_count source.new) → ¬ Rises (K.fault_count sink.old) (K.fault_count sink.new) →
        (result ≡ Status.Ran) ⊎ (result ≡ Status.NoMemory)) }
    ensures ports_there { result ≢ Status.NoMemory → AreAllThere ports.new }
    ensures other_ports { result ≢ Status.NoMemory → IfSome (S.left source.old) (λ input. (sections : List SaidSection) → Sentence input sections → OthersLearn D.Port.maps D.Port.maps_left D.Port.told D.Port.faults sections ports.old ports.new) }
    ensures read_fault_ports { result ≡ Status.ReadFault → ports.new ≡ ports.old }
    ensures refused_ports { result ≡ Status.Refused → ports.new ≡ ports.old }
    ensures refused_bytes_ports { result ≢ Status.NoMemory → IfSome (S.left source.old) (λ input. (refusal : Refusal) → first_fault input ≡ Some refusal → ports.new ≡ ports.old) }
{
    match read_through(alloc, source, SESSION_MAX) {
        Ok(bytes) => answer(rt, alloc, &bytes, sink, driver, ports),
        Err(ReadError::Fault) => Status::ReadFault,
        Err(ReadError::NoMemory) => Status::NoMemory,
    }
}

/// Runs the load of a number, and writes the four lines on it.
fn run_load<R: Wait, K: Sink, D: Driver<Core>>(
    rt: &R,
    alloc: Global,
    turns: u32,
    sink: &mut K,
    driver: D,
    ports: &mut [Option<D::Port>],
) -> Status
    requires none { OwnsNothing D.OwnEntries }
    requires quiet { IsQuietDriver D.OwnEntries }
    requires few_own { D.ENTRIES ≤ 8 }
    requires bare { TakeMaps D.Port.maps D.Port.maps_left ports.old }
    requires turns { (1 ≤ turns) × (turns ≤ TURNS_MAX) }
    requires ports { AreAllThere ports.old }
    ensures ends { (result ≡ Status.Ran) ⊎ ((result ≡ Status.WriteFault) ⊎ (result ≡ Status.NoMemory)) }
    ensures ran { result ≡ Status.Ran → HasWrittenLoad (driver_kind D.ENTRIES D.is_planned D.OwnEntries D.Follows) turns (told_at D.Port.told ports.old 0) (told_at D.Port.told ports.new 0) (K.held sink.old) (K.held sink.new) }
    ensures write_fault { result ≡ Status.WriteFault → Rises (K.fault_count sink.old) (K.fault_count sink.new) }
    ensures write_fault_told { K.fault_count sink.old < K.fault_count sink.new → result ≡ Status.WriteFault }
    ensures front { result ≡ Status.WriteFault → (text : List ℕ) × CameToLoad (driver_kind D.ENTRIES D.is_planned D.OwnEntries D.Follows) turns (told_at D.Port.told ports.old 0) (told_at D.Port.told ports.new 0) text
        × AppendsFront (K.held sink.old) (K.held sink.new) text }
    ensures no_memory { result ≡ Status.NoMemory → sink.new ≡ sink.old }
    ensures ports_there { result ≢ Status.NoMemory → AreAllThere ports.new }
    ensures bare { result ≢ Status.NoMemory → maps_at D.Port.maps D.Port.maps_left ports.new 0 ≡ no_maps (left_at D.Port.maps_left ports.old 0) }
    ensures other_ports { drop 1 ports.new ≡ drop 1 ports.old }
{
    match carry_load(rt, alloc, turns, driver, ports) {
        Ok(text) => finish(sink, &text, Status::Ran),
        Err(_) => Status::NoMemory,
    }
}

/// Runs the session that the bytes say, and writes its text.
fn answer<R: Threads + Wait + Sync, K: Sink, D: Driver<Core>>(
    rt: &R,
    alloc: Global,
    bytes: &[u8],
    sink: &mut K,
    driver: D,
    ports: &mut [Option<D::Port>],
) -> Status
    requires none { OwnsNothing D.OwnEntries }
    requires quiet { IsQuietDriver D.OwnEntries }
    requires few_own { D.ENTRIES ≤ 8 }
    requires bare { TakeMaps D.Port.maps D.Port.maps_left ports.old }
    requires ports { AreAllThere ports.old }
    ensures ran { result ≡ Status.Ran → (sections : List SaidSection) × Sentence bytes.now sections
        × HasWritten (over (left_at D.Port.maps_left ports.old 0) (driver_kind D.ENTRIES D.is_planned D.OwnEntries D.Follows)) sections (told_at D.Port.told ports.old) (told_at D.Port.told ports.new) (maps_at D.Port.maps D.Port.maps_left ports.new 0) (K.held sink.old) (K.held sink.new) }
    ensures refused { result ≡ Status.Refused → (refusal : Refusal) × (first_fault bytes.now ≡ Some refusal)
        × Appends (K.held sink.old) (K.held sink.new) (refused_line refusal) }
    ensures write_fault { result ≡ Status.WriteFault → Rises (K.fault_count sink.old) (K.fault_count sink.new) }
    ensures write_fault_told { K.fault_count sink.old < K.fault_count sink.new → result ≡ Status.WriteFault }
    ensures front { result ≡ Status.WriteFault → (text : List ℕ)
        × IsOutput (over (left_at D.Port.maps_left ports.old 0) (driver_kind D.ENTRIES D.is_planned D.OwnEntries D.Follows)) (told_at D.Port.told ports.old) (told_at D.Port.told ports.new) (maps_at D.Port.maps D.Port.maps_left ports.new 0) bytes.now text
        × AppendsFront (K.held sink.old) (K.held sink.new) text }
    ensures no_memory { result ≡ Status.NoMemory → sink.new ≡ sink.old }
    ensures no_usage { result ≢ Status.Usage }
    ensures no_no { result ≢ Status.No }
    ensures no_read_fault { result ≢ Status.ReadFault }
    ensures ports_there { result ≢ Status.NoMemory → AreAllThere ports.new }
    ensures other_ports { result ≢ Status.NoMemory → (sections : List SaidSection) → Sentence bytes.now sections → OthersLearn D.Port.maps D.Port.maps_left D.Port.told D.Port.faults sections ports.old ports.new }
    ensures refused_ports { result ≢ Status.NoMemory → (refusal : Refusal) → first_fault bytes.now ≡ Some refusal → ports.new ≡ ports.old }
    ensures refused_only_ports { result ≡ Status.Refused → ports.new ≡ ports.old }
{
    let script = match Script::parse(alloc, bytes) {
        Ok(script) => script,
        Err(refusal) if refusal.kind == RefusalKind::NoMemory => return Status::NoMemory,
        Err(refusal) => return refuse(alloc, &refusal, sink),
    };
    match carry_script(rt, alloc, &script, driver, ports) {
        Ok(text) => finish(sink, &text, Status::Ran),
        Err(_) => Status::NoMemory,
    }
}

/// Writes why the bytes are refused.
fn refuse<K: Sink>(alloc: Global, refusal: &Refusal, sink: &mut K) -> Status
    ensures one { (result ≡ Status.Refused) ⊎ ((result ≡ Status.WriteFault) ⊎ (result ≡ Status.NoMemory)) }
    ensures written { result ≡ Status.Refused → Appends (K.held sink.old) (K.held sink.new) (refused_line refusal.now) }
    ensures fault { result ≡ Status.WriteFault → Rises (K.fault_count sink.old) (K.fault_count sink.new) }
    ensures fault_told { K.fault_count sink.old < K.fault_count sink.new → result ≡ Status.WriteFault }
    ensures front { result ≡ Status.WriteFault → AppendsFront (K.held sink.old) (K.held sink.new) (refused_line refusal.now) }
    ensures no_memory { result ≡ Status.NoMemory → sink.new ≡ sink.old }
{
    let mut text = Vec::new(alloc);
    match put_refusal(refusal, &mut text) {
        Ok(()) => finish(sink, &text, Status::Refused),
        Err(_) => Status::NoMemory,
    }
}

/// Writes what is left to write, and answers the status.
pub(crate) fn finish<K: Sink>(sink: &mut K, text: &[u8], status: Status) -> Status
    requires { status ≢ Status.WriteFault }
    ensures one { (result ≡ status) ⊎ (result ≡ Status.WriteFault) }
    ensures written { result ≡ status → Appends (K.held sink.old) (K.held sink.new) text.now }
    ensures fault { result ≡ Status.WriteFault → Rises (K.fault_count sink.old) (K.fault_count sink.new) }
    ensures fault_told { K.fault_count sink.old < K.fault_count sink.new → result ≡ Status.WriteFault }
    ensures front { result ≡ Status.WriteFault → AppendsFront (K.held sink.old) (K.held sink.new) text.now }
{
    match write_all(sink, text) {
        Ok(()) => status,
        Err(_) => Status::WriteFault,
    }
}
