//! What makes the definition of the program's words trustworthy.
ghost use Rattle.std.specs.Prelude.{◌≡◌, ◌≤◌, ℕ, List, Some};
ghost use Rattle.gl_words.specs.Words.{asks};
ghost use Rattle.gl_words.specs.declared.task.Task.TheVariants.{Load};

use gl_script::TURNS_MAX;

/// The load that words ask for has from 1 to 5000 turns.
pub fn loads_are_within()
    ensures { (words : List (List ℕ)) (n : ℕ) → asks words ≡ Some (Load n) → (1 ≤ n) × (n ≤ TURNS_MAX) }
{}
