//! The words after the program's name: none, or those of a check or a load.
ghost use Rattle.std.specs.Prelude.{◌≡◌, ◌↔◌, [], ◌∷◌, None, Some, codes, is_some, IfOk, IfErr, IsErrOf};
ghost use Rattle.std.specs.Bool.{OnTrue};
ghost use Rattle.std.specs.Str.{bytes_eq};
ghost use Rattle.clap.specs.Words.{app_of, kind_of};
ghost use Rattle.gl_words.specs.Command.{load_command};
ghost use Rattle.gl_words.specs.Words.{texts, asks, AskForLoad, load_of, turns_of};

use clap::error::ErrorKind;
use clap::{Arg, Command, Error};
use gl_base::read_plain_decimal;
use gl_script::TURNS_MAX;
use std::alloc::{AllocError, Global};

/// What the program's words ask for.
#[derive(Clone, Copy, PartialEq, Eq)]
pub enum Task {
    /// No words: a session on standard input.
    Session,
    /// `--generate N`: the load of so many turns.
    Load(u32),
    /// `check`: a printed run on standard input, which is to be judged.
    Check,
}

/// Why words ask for nothing.
#[derive(Clone, Copy, PartialEq, Eq)]
pub enum WordsFault {
    /// They are neither none nor those of a check or a load.
    Usage,
    /// Out of memory.
    NoMemory,
}

/// What the words after the program's name ask for. Being out of memory is an answer only where they ask for a load.
pub fn read_words(alloc: Global, words: &[&str]) -> Result<Task, WordsFault>
    ensures ok { IfOk result (λ asked. asks (texts words.now) ≡ Some asked) }
    ensures session { IfOk result (λ asked. asked ≡ Task.Session → words.now ≡ []) }
    ensures usage { IsErrOf result WordsFault.Usage ↔ (asks (texts words.now) ≡ None) }
    ensures memory { IsErrOf result WordsFault.NoMemory → AskForLoad (texts words.now) }
{
    match words {
        [] => Ok(Task::Session),
        [word] => {
            if is_check(word) {
                Ok(Task::Check)
            } else {
                Err(WordsFault::Usage)
            }
        }
        [option, number] => {
            if !is_load(option, number) {
                return Err(WordsFault::Usage);
            }
            match turns_in(alloc, words) {
                Ok(turns) => Ok(Task::Load(turns)),
                Err(_) => Err(WordsFault::NoMemory),
            }
        }
        _ => Err(WordsFault::Usage),
    }
}

/// Whether a word alone asks for a check.
fn is_check(word: &str) -> bool
    ensures { result ≡ bytes_eq word.now (codes "check") }
{
    word == "check"
}

/// Whether an option and its value ask for a load.
fn is_load(option: &str, number: &str) -> bool
    ensures test { result ≡ is_some (load_of option.now number.now) }
    ensures load { OnTrue result (AskForLoad (option.now ∷ number.now ∷ [])) }
{
    option == "--generate" && is_number_of_turns(number)
}

/// Whether a word is a number of turns: a decimal without a leading zero, from 1 to 5000.
fn is_number_of_turns(number: &str) -> bool
    ensures { result ≡ is_some (turns_of number.now) }
{
    match read_plain_decimal(number.as_bytes()) {
        Some(turns) => 1 <= turns && turns <= u64::from(TURNS_MAX),
        None => false,
    }
}

/// The number of turns in the words of a load. Only being out of memory is an error.
fn turns_in(alloc: Global, words: &[&str]) -> Result<u32, Error>
    requires { AskForLoad (texts words.now) }
    ensures ok { IfOk result (λ turns. asks (texts words.now) ≡ Some (Task.Load turns)) }
    ensures memory_alone { IfErr result (λ error. kind_of error ≡ ErrorKind.OutOfMemory) }
{
    let command = load_command(alloc)?;
    let matches = command.try_get_matches_from(words)?;
    Ok(matches.get_one("generate").unwrap())
}

/// The command whose words are those of a load, without the program's name in front.
fn load_command<'a>(alloc: Global) -> Result<Command<'a>, AllocError>
    ensures { IfOk result (λ command. app_of command ≡ load_command) }
{
    let generate = Arg::new(alloc, "generate").long("generate");
    Command::new(alloc, "gpiosess")
        .no_binary_name(true)
        .arg(generate)
}
