//! What the words behind the program's own name ask for.
ghost use Rattle.std.specs.Prelude.{◌≡◌, [], ◌∷◌};
ghost use Rattle.gpioserved.specs.Words.{task_of, texts};

/// What words ask for.
#[derive(Clone, Copy, PartialEq, Eq)]
pub enum Task {
    /// No words: the lines of standard input are answered.
    Serve,
    /// `--help`: the help is written.
    Help,
    /// `--version`: the version is written.
    Version,
    /// Other words: they ask for nothing.
    Nothing,
}

/// What these words ask for.
pub fn task_of(words: &[&str]) -> Task
    ensures { result ≡ task_of (texts words.now) }
{
    match words {
        [] => Task::Serve,
        [word] => task_of_word(word),
        _ => Task::Nothing,
    }
}

/// What a word alone asks for.
fn task_of_word(word: &str) -> Task
    ensures { result ≡ task_of (word.now ∷ []) }
{
    if word == "--help" {
        Task::Help
    } else if word == "--version" {
        Task::Version
    } else {
        Task::Nothing
    }
}
