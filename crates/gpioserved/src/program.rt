//! What the program does with its words and its streams.
ghost use Rattle.std.specs.Prelude.{◌≡◌, ◌≢◌, ◌<◌, ◌++◌, ◌∷◌, ◌⊎◌, ℕ, List, [], OnOk, OnErr, IsErrOf, codes};
ghost use Rattle.std.specs.Io.KnownBytes.{Consumes, IsAtEnd};
ghost use Rattle.gl_base.specs.Count.{Rises};
ghost use Rattle.gl_served.specs.CutLines.{WroteAll, WroteFront, WroteLines, WroteWhole};
ghost use Rattle.gl_served.specs.Served.{Accepted};
ghost use Rattle.gpioserved.specs.Program.{Says, status_number, status_of, usage_line};
ghost use Rattle.gpioserved.specs.Words.{task_of, texts};
ghost use Rattle.gpioserved.specs.declared.words.Task.TheVariants.{Serve, Help, Version, Nothing};

use crate::words::{Task, task_of};
use gl_io::{Sink, Source};
use gl_served::{Ended, Served, serve, write_all};
use std::alloc::Global;
use std::env::Args;
use std::io;
use std::io::ErrorKind;

/// What `--help` prints.
const HELP: &[u8] =
    b"gpioserved: answers the lines of a session on standard input, one by one, on standard output.

      --help          prints this
      --version       prints the version; `gpioserve --version` says whether this program is proved

It takes no other words. The first line is `session 1` (or 2, or 3), the second `setup`, and then
come statements, each of which is carried out at once; `due` and `data NAME N` ask. Each line is
answered by `= N` and N bytes, or, where it is refused, by `! N` and the N bytes of
`refused LINE COLUMN KIND`.

Status: 0 at the end of the input, 2 for words, 4 reading failed, 5 writing failed, 6 out of memory.
docs/FORMATS.md has it whole, under `Served line by line`.
";

/// What `--version` prints. The file `VERSION` at the top of the repository has the same number.
const VERSION: &[u8] = b"gpioserved 0.1.0\n";

/// The line that other words are answered.
const USAGE: &[u8] = b"usage\n";

/// What stands in the place of words that are no text: a word that asks for nothing.
const NO_TEXT: &str = "?";

/// How the program ends.
#[derive(Clone, Copy, PartialEq, Eq)]
pub enum Status {
    /// The source came to its end, or the help or the version was written.
    Ran,
    /// The words are none that the program takes.
    Usage,
    /// The source could not be read.
    ReadFault,
    /// The sink could not be written.
    WriteFault,
    /// Out of memory.
    NoMemory,
}

impl Status {
    /// The number that the process ends with: 0, 2, 4, 5 and 6, in the order above.
    pub fn number(self) -> u8
        ensures { result ≡ status_number self }
    {
        match self {
            Status::Ran => 0,
            Status::Usage => 2,
            Status::ReadFault => 4,
            Status::WriteFault => 5,
            Status::NoMemory => 6,
        }
    }
}

/// Carries out what the arguments ask for. The first of them is the program's own name.
pub fn run<S: Source, K: Sink>(
    alloc: Global,
    args: io::Result<Args>,
    source: &mut S,
    sink: &mut K,
) -> Status
    ensures read_fault { result ≡ Status.ReadFault → Rises (S.fault_count source.old) (S.fault_count source.new) }
    ensures read_fault_told { S.fault_count source.old < S.fault_count source.new → result ≡ Status.ReadFault }
    ensures write_fault { result ≡ Status.WriteFault → Rises (K.fault_count sink.old) (K.fault_count sink.new) }
    ensures write_fault_told { K.fault_count sink.old < K.fault_count sink.new → result ≡ Status.WriteFault }
    ensures usage_reads_nothing { result ≡ Status.Usage → source.new ≡ source.old }
{
    match args {
        Ok(args) => run_args(alloc, args, source, sink),
        Err(error) if error.kind() == ErrorKind::InvalidData => {
            carry_out(alloc, &[NO_TEXT], source, sink)
        }
        Err(_) => Status::NoMemory,
    }
}

/// The same, where the arguments are texts.
fn run_args<S: Source, K: Sink>(alloc: Global, args: Args, source: &mut S, sink: &mut K) -> Status
    ensures read_fault { result ≡ Status.ReadFault → Rises (S.fault_count source.old) (S.fault_count source.new) }
    ensures read_fault_told { S.fault_count source.old < S.fault_count source.new → result ≡ Status.ReadFault }
    ensures write_fault { result ≡ Status.WriteFault → Rises (K.fault_count sink.old) (K.fault_count sink.new) }
    ensures write_fault_told { K.fault_count sink.old < K.fault_count sink.new → result ≡ Status.WriteFault }
    ensures usage_reads_nothing { result ≡ Status.Usage → source.new ≡ source.old }
{
    let Ok(args) = args.skip(1).collect::<Vec<String>>(alloc) else {
        return Status::NoMemory;
    };
    match args
        .iter()
        .map(|arg| arg.as_str())
        .collect::<Vec<&str>>(alloc)
    {
        Ok(words) => carry_out(alloc, &words, source, sink),
        Err(_) => Status::NoMemory,
    }
}

/// Carries out what the words behind the program's own name ask for.
///
/// Without words the lines of the source are answered to the sink, by a new session: what `serve` of `gl_served` says of its end is
/// said of the status. The word `--help` writes the help, `--version` the version, and any other words the line `usage`; then nothing is read.
pub fn carry_out<S: Source, K: Sink>(
    alloc: Global,
    words: &[&str],
    source: &mut S,
    sink: &mut K,
) -> Status
    ensures served { task_of (texts words.now) ≡ Serve → result ≡ Status.Ran → IsAtEnd (S.left source.new)
        × ((input : List ℕ) × Consumes (S.left source.old) (S.left source.new) input
        × ((said : Accepted) × WroteAll input said (K.held sink.old) (K.held sink.new))) }
    ensures front { task_of (texts words.now) ≡ Serve → result ≢ Status.Ran → (input : List ℕ) × Consumes (S.left source.old) (S.left source.new) input
        × WroteFront (input ++ 10 ∷ []) (K.held sink.old) (K.held sink.new) }
    ensures memory_front { task_of (texts words.now) ≡ Serve → result ≡ Status.NoMemory → (input : List ℕ) × Consumes (S.left source.old) (S.left source.new) input
        × WroteWhole (input ++ 10 ∷ []) (K.held sink.old) (K.held sink.new) }

    // Words are answered by a text, and nothing is read.
    ensures help { task_of (texts words.now) ≡ Help → Says result Status.Ran HELP.now (K.held sink.old) (K.held sink.new) }
    ensures version { task_of (texts words.now) ≡ Version → Says result Status.Ran VERSION.now (K.held sink.old) (K.held sink.new) }
    ensures usage { task_of (texts words.now) ≡ Nothing → Says result Status.Usage usage_line (K.held sink.old) (K.held sink.new) }
    ensures usage_only { result ≡ Status.Usage → task_of (texts words.now) ≡ Nothing }
    ensures words_read_nothing { words.now ≢ [] → source.new ≡ source.old }

    // A fault of a stream comes just where the stream counted one in this call.
    ensures read_fault { result ≡ Status.ReadFault → Rises (S.fault_count source.old) (S.fault_count source.new) }
    ensures read_fault_told { S.fault_count source.old < S.fault_count source.new → result ≡ Status.ReadFault }
    ensures read_fault_front { result ≡ Status.ReadFault → (bytes : List ℕ) × Consumes (S.left source.old) (S.left source.new) bytes
        × WroteLines bytes (K.held sink.old) (K.held sink.new) }
    ensures write_fault { result ≡ Status.WriteFault → Rises (K.fault_count sink.old) (K.fault_count sink.new) }
    ensures write_fault_told { K.fault_count sink.old < K.fault_count sink.new → result ≡ Status.WriteFault }
{
    match task_of(words) {
        Task::Serve => serve_all(alloc, source, sink),
        Task::Help => say(sink, HELP, Status::Ran),
        Task::Version => say(sink, VERSION, Status::Ran),
        Task::Nothing => say(sink, USAGE, Status::Usage),
    }
}

/// Answers the lines of a source to a sink, by a new session.
fn serve_all<S: Source, K: Sink>(alloc: Global, source: &mut S, sink: &mut K) -> Status
    ensures served { result ≡ Status.Ran → IsAtEnd (S.left source.new)
        × ((input : List ℕ) × Consumes (S.left source.old) (S.left source.new) input
        × ((said : Accepted) × WroteAll input said (K.held sink.old) (K.held sink.new))) }
    ensures front { result ≢ Status.Ran → (input : List ℕ) × Consumes (S.left source.old) (S.left source.new) input
        × WroteFront (input ++ 10 ∷ []) (K.held sink.old) (K.held sink.new) }
    ensures memory_front { result ≡ Status.NoMemory → (input : List ℕ) × Consumes (S.left source.old) (S.left source.new) input
        × WroteWhole (input ++ 10 ∷ []) (K.held sink.old) (K.held sink.new) }
    ensures no_usage { result ≢ Status.Usage }
    ensures read_fault { result ≡ Status.ReadFault → Rises (S.fault_count source.old) (S.fault_count source.new) }
    ensures read_fault_told { S.fault_count source.old < S.fault_count source.new → result ≡ Status.ReadFault }
    ensures read_fault_front { result ≡ Status.ReadFault → (bytes : List ℕ) × Consumes (S.left source.old) (S.left source.new) bytes
        × WroteLines bytes (K.held sink.old) (K.held sink.new) }
    ensures write_fault { result ≡ Status.WriteFault → Rises (K.fault_count sink.old) (K.fault_count sink.new) }
    ensures write_fault_told { K.fault_count sink.old < K.fault_count sink.new → result ≡ Status.WriteFault }
{
    match Served::new(alloc) {
        Ok(served) => {
            let mut served = served;
            status_of(serve(alloc, &mut served, source, sink))
        }
        Err(_) => Status::NoMemory,
    }
}

/// How serving ended, as how the program ends.
fn status_of(ended: Ended) -> Status
    ensures { result ≡ status_of ended }
{
    match ended {
        Ended::AtEnd => Status::Ran,
        Ended::ReadFault => Status::ReadFault,
        Ended::WriteFault => Status::WriteFault,
        Ended::NoMemory => Status::NoMemory,
    }
}

/// Writes a text, and tells how the program ends: with this status, or with a fault of writing.
fn say<K: Sink>(sink: &mut K, text: &[u8], status: Status) -> Status
    requires { status ≢ Status.WriteFault }
    ensures says { Says result status text.now (K.held sink.old) (K.held sink.new) }
    ensures only { (result ≡ status) ⊎ (result ≡ Status.WriteFault) }
    ensures fault { result ≡ Status.WriteFault → Rises (K.fault_count sink.old) (K.fault_count sink.new) }
    ensures fault_told { K.fault_count sink.old < K.fault_count sink.new → result ≡ Status.WriteFault }
{
    match write_all(sink, text) {
        Ok(()) => status,
        Err(_) => Status::WriteFault,
    }
}
