//! The lines of a source, each answered to a sink.

ghost use Rattle.std.specs.Prelude.{◌≡◌, ◌≢◌, ◌<◌, ◌++◌, ◌∷◌, ℕ, List, [], Option, IfOk, OnOk, OnErr, IsErrOf, IsOkUnless};
ghost use Rattle.std.specs.Io.KnownBytes.{Appends, Consumes, IsAtEnd};
ghost use Rattle.gl_base.specs.Count.{Rises};
ghost use Rattle.gl_served.specs.Closing.{IsEnded};
ghost use Rattle.gl_served.specs.CutLines.{HasServed, HasServedAll, Sent, ServesTo, WroteAll, WroteFront, WroteLines, WrotePart, WroteWhole};
ghost use Rattle.gl_served.specs.Served.{Accepted, Keeps, ServedValue, nothing_accepted};

use crate::ended::Ended;
use crate::frames::frame_of;
use crate::limits::{LINE_MAX, WAITING_MAX};
use crate::served::Served;
use crate::streams::write_all;
use gl_base::{Errno, count_up};
use gl_io::{Sink, Source};
use std::alloc::Global;

/// How many bytes one call reads at most.
const CHUNK: usize = 4096;

/// The line that is being read, and the frames that wait.
#[derive(Drop)]
struct Reading {
    /// The bytes of the line so far: at most one more than a line may have.
    line: Vec<u8>,
    /// How many lines were answered.
    answered: u64,
    /// The frames that wait to be written.
    waiting: Vec<u8>,
}

/// Answers each line of a source to a sink by a new session, and at its end closes the files that are open, in the order of their numbers.
/// A last line needs no line end.
///
/// What the sink is given are the frames of the answers to the source's lines. At any other end it is a front of the frames for what
/// was read; after a fault of reading it is those of all lines that had ended, and out of memory no frame is cut.
///
/// All lines that a read gives are answered in one write, unless their frames are long, and it comes before the next read.
pub fn serve<S: Source, K: Sink>(
    alloc: Global,
    served: &mut Served,
    source: &mut S,
    sink: &mut K,
) -> Ended
    requires new { Keeps served.old nothing_accepted }
    ensures served { result ≡ Ended.AtEnd → IsAtEnd (S.left source.new)
        × ((input : List ℕ) × Consumes (S.left source.old) (S.left source.new) input
        × ((said : Accepted) × WroteAll input said (K.held sink.old) (K.held sink.new) × IsEnded said served.new)) }
    ensures front { result ≢ Ended.AtEnd → (input : List ℕ) × Consumes (S.left source.old) (S.left source.new) input × WroteFront (input ++ 10 ∷ []) (K.held sink.old) (K.held sink.new) }
    ensures read_fault { result ≡ Ended.ReadFault → Rises (S.fault_count source.old) (S.fault_count source.new) }
    ensures read_fault_told { S.fault_count source.old < S.fault_count source.new → result ≡ Ended.ReadFault }
    ensures read_fault_front { result ≡ Ended.ReadFault → (bytes : List ℕ) × Consumes (S.left source.old) (S.left source.new) bytes × WroteLines bytes (K.held sink.old) (K.held sink.new) }
    ensures memory_front { result ≡ Ended.NoMemory → (input : List ℕ) × Consumes (S.left source.old) (S.left source.new) input × WroteWhole (input ++ 10 ∷ []) (K.held sink.old) (K.held sink.new) }
    ensures write_fault { result ≡ Ended.WriteFault → Rises (K.fault_count sink.old) (K.fault_count sink.new) }
    ensures write_fault_told { K.fault_count sink.old < K.fault_count sink.new → result ≡ Ended.WriteFault }
{
    match Reading::new(alloc) {
        Ok(reading) => {
            let mut reading = reading;
            reading.run(alloc, served, source, sink)
        }
        Err(_) => Ended::NoMemory,
    }
}

impl Reading {
    /// No line has come.
    fn new(alloc: Global) -> Result<Reading, Errno>
        ensures ok { IfOk result (λ reading. (reading.line.items ≡ []) × (reading.answered ≡ 0) × (reading.waiting.items ≡ [])) }
        ensures memory_alone { IsOkUnless result Errno.NoMemory }
    {
        let line = Vec::with_capacity(alloc, LINE_MAX + 1)?;
        Ok(Reading {
            line,
            answered: 0,
            waiting: Vec::new(alloc),
        })
    }

    /// Reads the source to its end, and answers its lines.
    fn run<S: Source, K: Sink>(
        &mut self,
        alloc: Global,
        served: &mut Served,
        source: &mut S,
        sink: &mut K,
    ) -> Ended
        requires new { HasServed served.old self.old.line.items self.old.answered [] [] }
        requires rests { self.old.waiting.items ≡ [] }
        ensures served { result ≡ Ended.AtEnd → IsAtEnd (S.left source.new)
            × ((input : List ℕ) × Consumes (S.left source.old) (S.left source.new) input
            × ((said : Accepted) × WroteAll input said (K.held sink.old) (K.held sink.new) × IsEnded said served.new)) }
        ensures front { result ≢ Ended.AtEnd → (input : List ℕ) × Consumes (S.left source.old) (S.left source.new) input × WroteFront (input ++ 10 ∷ []) (K.held sink.old) (K.held sink.new) }
        ensures read_fault { result ≡ Ended.ReadFault → Rises (S.fault_count source.old) (S.fault_count source.new) }
        ensures read_fault_told { S.fault_count source.old < S.fault_count source.new → result ≡ Ended.ReadFault }
        ensures read_fault_front { result ≡ Ended.ReadFault → (bytes : List ℕ) × Consumes (S.left source.old) (S.left source.new) bytes × WroteLines bytes (K.held sink.old) (K.held sink.new) }
        ensures memory_front { result ≡ Ended.NoMemory → (input : List ℕ) × Consumes (S.left source.old) (S.left source.new) input × WroteWhole (input ++ 10 ∷ []) (K.held sink.old) (K.held sink.new) }
        ensures write_fault { result ≡ Ended.WriteFault → Rises (K.fault_count sink.old) (K.fault_count sink.new) }
        ensures write_fault_told { K.fault_count sink.old < K.fault_count sink.new → result ≡ Ended.WriteFault }
    {
        let mut chunk = [0; CHUNK];
        for _ in 0..u64::MAX {
            match source.take(&mut chunk) {
                Ok(0) => return self.end(alloc, served, sink),
                Ok(count) => {
                    let (taken, _) = chunk.split_at(count);
                    match self.take(alloc, served, taken, sink) {
                        Ok(()) => {}
                        Err(ended) => return ended,
                    }
                }
                Err(_) => return Ended::ReadFault,
            }
        }
        Ended::NoMemory
    }

    /// Takes bytes in, answers each line that they end, and writes what was answered.
    fn take<K: Sink>(
        &mut self,
        alloc: Global,
        served: &mut Served,
        bytes: &[u8],
        sink: &mut K,
    ) -> Result<(), Ended>
        ensures served { (start : Option (List ℕ)) (before : List ℕ) → ServesTo start (K.held sink.old) served.old self.old.line.items self.old.answered self.old.waiting.items before
            → OnOk result (ServesTo start (K.held sink.new) served.new self.new.line.items self.new.answered self.new.waiting.items (before ++ bytes.now)) }
        ensures rests { OnOk result (self.new.waiting.items ≡ []) }
        ensures front { (start : Option (List ℕ)) (before : List ℕ) → ServesTo start (K.held sink.old) served.old self.old.line.items self.old.answered self.old.waiting.items before
            → OnErr result (WroteFront (before ++ bytes.now) start (K.held sink.new)) }
        ensures whole { (start : Option (List ℕ)) (before : List ℕ) → ServesTo start (K.held sink.old) served.old self.old.line.items self.old.answered self.old.waiting.items before
            → IsErrOf result Ended.NoMemory → WroteWhole (before ++ bytes.now) start (K.held sink.new) }
        ensures no_fault { OnOk result (K.fault_count sink.new ≡ K.fault_count sink.old) }
        ensures fault { IsErrOf result Ended.WriteFault → Rises (K.fault_count sink.old) (K.fault_count sink.new) }
        ensures fault_told { K.fault_count sink.old < K.fault_count sink.new → IsErrOf result Ended.WriteFault }
        ensures no_end { ¬ IsErrOf result Ended.AtEnd }
        ensures no_read_fault { ¬ IsErrOf result Ended.ReadFault }
    {
        match self.take_all(alloc, served, bytes, sink) {
            Ok(()) => self.send(sink),
            Err(ended) => Err(ended),
        }
    }

    /// Takes bytes in, and answers each line that they end.
    fn take_all<K: Sink>(
        &mut self,
        alloc: Global,
        served: &mut Served,
        bytes: &[u8],
        sink: &mut K,
    ) -> Result<(), Ended>
        ensures served { (start : Option (List ℕ)) (before : List ℕ) → ServesTo start (K.held sink.old) served.old self.old.line.items self.old.answered self.old.waiting.items before
            → OnOk result (ServesTo start (K.held sink.new) served.new self.new.line.items self.new.answered self.new.waiting.items (before ++ bytes.now)) }
        ensures front { (start : Option (List ℕ)) (before : List ℕ) → ServesTo start (K.held sink.old) served.old self.old.line.items self.old.answered self.old.waiting.items before
            → OnErr result (WroteFront (before ++ bytes.now) start (K.held sink.new)) }
        ensures whole { (start : Option (List ℕ)) (before : List ℕ) → ServesTo start (K.held sink.old) served.old self.old.line.items self.old.answered self.old.waiting.items before
            → IsErrOf result Ended.NoMemory → WroteWhole (before ++ bytes.now) start (K.held sink.new) }
        ensures no_fault { OnOk result (K.fault_count sink.new ≡ K.fault_count sink.old) }
        ensures fault { IsErrOf result Ended.WriteFault → Rises (K.fault_count sink.old) (K.fault_count sink.new) }
        ensures fault_told { K.fault_count sink.old < K.fault_count sink.new → IsErrOf result Ended.WriteFault }
        ensures no_end { ¬ IsErrOf result Ended.AtEnd }
        ensures no_read_fault { ¬ IsErrOf result Ended.ReadFault }
    {
        for byte in bytes {
            match self.take_byte(alloc, served, *byte, sink) {
                Ok(()) => {}
                Err(ended) => return Err(ended),
            }
        }
        Ok(())
    }

    /// Takes a byte in, and answers the line where it ends it.
    fn take_byte<K: Sink>(
        &mut self,
        alloc: Global,
        served: &mut Served,
        byte: u8,
        sink: &mut K,
    ) -> Result<(), Ended>
        ensures served { (start : Option (List ℕ)) (before : List ℕ) → ServesTo start (K.held sink.old) served.old self.old.line.items self.old.answered self.old.waiting.items before
            → OnOk result (ServesTo start (K.held sink.new) served.new self.new.line.items self.new.answered self.new.waiting.items (before ++ byte ∷ [])) }
        ensures front { (start : Option (List ℕ)) (before : List ℕ) → ServesTo start (K.held sink.old) served.old self.old.line.items self.old.answered self.old.waiting.items before
            → OnErr result (WroteFront (before ++ byte ∷ []) start (K.held sink.new)) }
        ensures whole { (start : Option (List ℕ)) (before : List ℕ) → ServesTo start (K.held sink.old) served.old self.old.line.items self.old.answered self.old.waiting.items before
            → IsErrOf result Ended.NoMemory → WroteWhole (before ++ byte ∷ []) start (K.held sink.new) }
        ensures no_fault { OnOk result (K.fault_count sink.new ≡ K.fault_count sink.old) }
        ensures fault { IsErrOf result Ended.WriteFault → Rises (K.fault_count sink.old) (K.fault_count sink.new) }
        ensures fault_told { K.fault_count sink.old < K.fault_count sink.new → IsErrOf result Ended.WriteFault }
        ensures no_end { ¬ IsErrOf result Ended.AtEnd }
        ensures no_read_fault { ¬ IsErrOf result Ended.ReadFault }
    {
        if byte == b'\n' {
            return self.answer(alloc, served, sink);
        }
        match self.add(byte) {
            Ok(()) => Ok(()),
            Err(_) => Err(self.leave(sink)),
        }
    }

    /// Adds a byte to the line, where it isn't too long already.
    fn add(&mut self, byte: u8) -> Result<(), Errno>
        requires { byte ≢ 10 }
        ensures added { (served : ServedValue) (before written : List ℕ) → HasServed served self.old.line.items self.old.answered before written
            → OnOk result (HasServed served self.new.line.items self.new.answered (before ++ byte ∷ []) written) }
        ensures waits { self.new.waiting.items ≡ self.old.waiting.items }
        ensures memory_alone { IsOkUnless result Errno.NoMemory }
    {
        if self.line.len() > LINE_MAX {
            return Ok(());
        }
        match self.line.push(byte) {
            Ok(()) => Ok(()),
            Err(_) => Err(Errno::NoMemory),
        }
    }

    /// Answers the line, at its end or at that of the source.
    fn answer<K: Sink>(
        &mut self,
        alloc: Global,
        served: &mut Served,
        sink: &mut K,
    ) -> Result<(), Ended>
        ensures served { (start : Option (List ℕ)) (before : List ℕ) → ServesTo start (K.held sink.old) served.old self.old.line.items self.old.answered self.old.waiting.items before
            → OnOk result (ServesTo start (K.held sink.new) served.new self.new.line.items self.new.answered self.new.waiting.items (before ++ 10 ∷ [])) }
        ensures last { (start : Option (List ℕ)) (before : List ℕ) → ServesTo start (K.held sink.old) served.old self.old.line.items self.old.answered self.old.waiting.items before
            → self.old.line.items ≢ [] → OnOk result ((said : Accepted) × (frames : List ℕ) × HasServedAll before frames said × Sent start (K.held sink.new) self.new.waiting.items frames × Keeps served.new said) }
        ensures front { (start : Option (List ℕ)) (before : List ℕ) → ServesTo start (K.held sink.old) served.old self.old.line.items self.old.answered self.old.waiting.items before
            → OnErr result (WroteFront (before ++ 10 ∷ []) start (K.held sink.new)) }
        ensures whole { (start : Option (List ℕ)) (before : List ℕ) → ServesTo start (K.held sink.old) served.old self.old.line.items self.old.answered self.old.waiting.items before
            → IsErrOf result Ended.NoMemory → WroteWhole (before ++ 10 ∷ []) start (K.held sink.new) }
        ensures no_fault { OnOk result (K.fault_count sink.new ≡ K.fault_count sink.old) }
        ensures fault { IsErrOf result Ended.WriteFault → Rises (K.fault_count sink.old) (K.fault_count sink.new) }
        ensures fault_told { K.fault_count sink.old < K.fault_count sink.new → IsErrOf result Ended.WriteFault }
        ensures no_end { ¬ IsErrOf result Ended.AtEnd }
        ensures no_read_fault { ¬ IsErrOf result Ended.ReadFault }
    {
        match self.frame(alloc, served) {
            Ok(frame) => self.put(&frame, sink),
            Err(_) => Err(self.leave(sink)),
        }
    }

    /// The frame of the line's answer; a new line begins.
    fn frame(&mut self, alloc: Global, served: &mut Served) -> Result<Vec<u8>, Errno>
        ensures framed { (before written : List ℕ) → HasServed served.old self.old.line.items self.old.answered before written
            → IfOk result (λ frame. HasServed served.new self.new.line.items self.new.answered (before ++ 10 ∷ []) (written ++ frame.items)) }
        ensures last { (before written : List ℕ) → HasServed served.old self.old.line.items self.old.answered before written
            → self.old.line.items ≢ [] → IfOk result (λ frame. (said : Accepted) × HasServedAll before (written ++ frame.items) said × Keeps served.new said) }
        ensures waits { self.new.waiting.items ≡ self.old.waiting.items }
        ensures memory_alone { IsOkUnless result Errno.NoMemory }
    {
        let mut text = Vec::new(alloc);
        let answer = served.answer(alloc, &self.line, &mut text)?;
        self.line.clear();
        self.answered = count_up(self.answered);
        frame_of(alloc, self.answered, &answer, &text)
    }

    /// Puts a frame behind those that wait. Where many bytes wait then, all are written.
    fn put<K: Sink>(&mut self, frame: &[u8], sink: &mut K) -> Result<(), Ended>
        ensures line { self.new.line.items ≡ self.old.line.items }
        ensures answered { self.new.answered ≡ self.old.answered }
        ensures sent { (start : Option (List ℕ)) (frames : List ℕ) → Sent start (K.held sink.old) self.old.waiting.items frames → OnOk result (Sent start (K.held sink.new) self.new.waiting.items (frames ++ frame.now)) }
        ensures front { (start : Option (List ℕ)) (frames : List ℕ) → Sent start (K.held sink.old) self.old.waiting.items frames → OnErr result (WrotePart (frames ++ frame.now) start (K.held sink.new)) }
        ensures whole { (start : Option (List ℕ)) (frames : List ℕ) → Sent start (K.held sink.old) self.old.waiting.items frames → IsErrOf result Ended.NoMemory → Appends start (K.held sink.new) frames }
        ensures no_fault { OnOk result (K.fault_count sink.new ≡ K.fault_count sink.old) }
        ensures fault { IsErrOf result Ended.WriteFault → Rises (K.fault_count sink.old) (K.fault_count sink.new) }
        ensures fault_told { K.fault_count sink.old < K.fault_count sink.new → IsErrOf result Ended.WriteFault }
        ensures no_end { ¬ IsErrOf result Ended.AtEnd }
        ensures no_read_fault { ¬ IsErrOf result Ended.ReadFault }
    {
        match self.waiting.extend_from_slice(frame) {
            Ok(()) => self.send_many(sink),
            Err(_) => Err(self.leave(sink)),
        }
    }

    /// Writes what waits, where it is much.
    fn send_many<K: Sink>(&mut self, sink: &mut K) -> Result<(), Ended>
        ensures line { self.new.line.items ≡ self.old.line.items }
        ensures answered { self.new.answered ≡ self.old.answered }
        ensures sent { (start : Option (List ℕ)) (frames : List ℕ) → Sent start (K.held sink.old) self.old.waiting.items frames → OnOk result (Sent start (K.held sink.new) self.new.waiting.items frames) }
        ensures front { (start : Option (List ℕ)) (frames : List ℕ) → Sent start (K.held sink.old) self.old.waiting.items frames → OnErr result (WrotePart frames start (K.held sink.new)) }
        ensures no_memory { ¬ IsErrOf result Ended.NoMemory }
        ensures no_fault { OnOk result (K.fault_count sink.new ≡ K.fault_count sink.old) }
        ensures fault { IsErrOf result Ended.WriteFault → Rises (K.fault_count sink.old) (K.fault_count sink.new) }
        ensures fault_told { K.fault_count sink.old < K.fault_count sink.new → IsErrOf result Ended.WriteFault }
        ensures no_end { ¬ IsErrOf result Ended.AtEnd }
        ensures no_read_fault { ¬ IsErrOf result Ended.ReadFault }
    {
        if self.waiting.len() > WAITING_MAX {
            return self.send(sink);
        }
        Ok(())
    }

    /// Writes what waits.
    fn send<K: Sink>(&mut self, sink: &mut K) -> Result<(), Ended>
        ensures line { self.new.line.items ≡ self.old.line.items }
        ensures answered { self.new.answered ≡ self.old.answered }
        ensures sent { (start : Option (List ℕ)) (frames : List ℕ) → Sent start (K.held sink.old) self.old.waiting.items frames → OnOk result (Sent start (K.held sink.new) self.new.waiting.items frames) }
        ensures rests { OnOk result (self.new.waiting.items ≡ []) }
        ensures front { (start : Option (List ℕ)) (frames : List ℕ) → Sent start (K.held sink.old) self.old.waiting.items frames → OnErr result (WrotePart frames start (K.held sink.new)) }
        ensures no_memory { ¬ IsErrOf result Ended.NoMemory }
        ensures no_fault { OnOk result (K.fault_count sink.new ≡ K.fault_count sink.old) }
        ensures fault { IsErrOf result Ended.WriteFault → Rises (K.fault_count sink.old) (K.fault_count sink.new) }
        ensures fault_told { K.fault_count sink.old < K.fault_count sink.new → IsErrOf result Ended.WriteFault }
        ensures no_end { ¬ IsErrOf result Ended.AtEnd }
        ensures no_read_fault { ¬ IsErrOf result Ended.ReadFault }
    {
        match write_all(sink, &self.waiting) {
            Ok(()) => {
                self.waiting.clear();
                Ok(())
            }
            Err(_) => Err(Ended::WriteFault),
        }
    }

    /// Writes what waits when out of memory, and tells how serving ends.
    fn leave<K: Sink>(&mut self, sink: &mut K) -> Ended
        ensures line { self.new.line.items ≡ self.old.line.items }
        ensures answered { self.new.answered ≡ self.old.answered }
        ensures front { (start : Option (List ℕ)) (frames : List ℕ) → Sent start (K.held sink.old) self.old.waiting.items frames → WrotePart frames start (K.held sink.new) }
        ensures whole { (start : Option (List ℕ)) (frames : List ℕ) → Sent start (K.held sink.old) self.old.waiting.items frames → result ≡ Ended.NoMemory → Appends start (K.held sink.new) frames }
        ensures fault { result ≡ Ended.WriteFault → Rises (K.fault_count sink.old) (K.fault_count sink.new) }
        ensures fault_told { K.fault_count sink.old < K.fault_count sink.new → result ≡ Ended.WriteFault }
        ensures no_end { result ≢ Ended.AtEnd }
        ensures no_read_fault { result ≢ Ended.ReadFault }
    {
        match self.send(sink) {
            Ok(()) => Ended::NoMemory,
            Err(ended) => ended,
        }
    }

    /// Answers the last line, which nothing ended, and writes what was answered.
    fn answer_last<K: Sink>(
        &mut self,
        alloc: Global,
        served: &mut Served,
        sink: &mut K,
    ) -> Result<(), Ended>
        requires some { self.old.line.items ≢ [] }
        ensures last { (start : Option (List ℕ)) (before : List ℕ) → ServesTo start (K.held sink.old) served.old self.old.line.items self.old.answered self.old.waiting.items before
            → OnOk result ((said : Accepted) × WroteAll before said start (K.held sink.new) × Keeps served.new said) }
        ensures written { (start : Option (List ℕ)) (before : List ℕ) → ServesTo start (K.held sink.old) served.old self.old.line.items self.old.answered self.old.waiting.items before
            → OnOk result (WroteWhole (before ++ 10 ∷ []) start (K.held sink.new)) }
        ensures front { (start : Option (List ℕ)) (before : List ℕ) → ServesTo start (K.held sink.old) served.old self.old.line.items self.old.answered self.old.waiting.items before
            → OnErr result (WroteFront (before ++ 10 ∷ []) start (K.held sink.new)) }
        ensures whole { (start : Option (List ℕ)) (before : List ℕ) → ServesTo start (K.held sink.old) served.old self.old.line.items self.old.answered self.old.waiting.items before
            → IsErrOf result Ended.NoMemory → WroteWhole (before ++ 10 ∷ []) start (K.held sink.new) }
        ensures no_fault { OnOk result (K.fault_count sink.new ≡ K.fault_count sink.old) }
        ensures fault { IsErrOf result Ended.WriteFault → Rises (K.fault_count sink.old) (K.fault_count sink.new) }
        ensures fault_told { K.fault_count sink.old < K.fault_count sink.new → IsErrOf result Ended.WriteFault }
        ensures no_end { ¬ IsErrOf result Ended.AtEnd }
        ensures no_read_fault { ¬ IsErrOf result Ended.ReadFault }
    {
        match self.answer(alloc, served, sink) {
            Ok(()) => self.send(sink),
            Err(ended) => Err(ended),
        }
    }

    /// The source is at its end, and nothing waits.
    fn end<K: Sink>(&mut self, alloc: Global, served: &mut Served, sink: &mut K) -> Ended
        requires rests { self.old.waiting.items ≡ [] }
        ensures served { (start : Option (List ℕ)) (before : List ℕ) → ServesTo start (K.held sink.old) served.old self.old.line.items self.old.answered self.old.waiting.items before
            → result ≡ Ended.AtEnd → (said : Accepted) × WroteAll before said start (K.held sink.new) × IsEnded said served.new }
        ensures front { (start : Option (List ℕ)) (before : List ℕ) → ServesTo start (K.held sink.old) served.old self.old.line.items self.old.answered self.old.waiting.items before
            → result ≢ Ended.AtEnd → WroteFront (before ++ 10 ∷ []) start (K.held sink.new) }
        ensures whole { (start : Option (List ℕ)) (before : List ℕ) → ServesTo start (K.held sink.old) served.old self.old.line.items self.old.answered self.old.waiting.items before
            → result ≡ Ended.NoMemory → WroteWhole (before ++ 10 ∷ []) start (K.held sink.new) }
        ensures fault { result ≡ Ended.WriteFault → Rises (K.fault_count sink.old) (K.fault_count sink.new) }
        ensures fault_told { K.fault_count sink.old < K.fault_count sink.new → result ≡ Ended.WriteFault }
        ensures no_read_fault { result ≢ Ended.ReadFault }
    {
        if self.line.is_empty() {
            return close(alloc, served);
        }
        match self.answer_last(alloc, served, sink) {
            Ok(()) => close(alloc, served),
            Err(ended) => ended,
        }
    }
}

/// Closes the files that are open.
fn close(alloc: Global, served: &mut Served) -> Ended
    ensures ended { (said : Accepted) → Keeps served.old said → result ≡ Ended.AtEnd → IsEnded said served.new }
    ensures no_read_fault { result ≢ Ended.ReadFault }
    ensures no_write_fault { result ≢ Ended.WriteFault }
{
    match served.close(alloc) {
        Ok(()) => Ended::AtEnd,
        Err(_) => Ended::NoMemory,
    }
}
