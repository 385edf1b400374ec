//! Laws on the words of tools. Each stands as the contract of a function that does nothing.
ghost use Rattle.std.specs.Prelude.{◌≡◌, ℕ, ◌+◌, ◌≤◌, true, Some, List, ◌∷◌, length};
ghost use Rattle.std.specs.List.{list_any};
ghost use Rattle.gl_args.specs.Counts.{line_total, is_bare, is_chip_option, IsBareDetect, IsChipInfo, IsInfo};
ghost use Rattle.gl_args.specs.Names.{ToolsHaveTheirNames, OptionsHaveLongNames, OptionsHaveShortNames};
ghost use Rattle.gl_args.specs.Options.{SaidTool};
ghost use Rattle.gl_args.specs.Tools.{tool_said};

/// A tool has at most as many line words as it has words after its name.
pub fn lines_are_words()
    ensures { (words : List (List ℕ)) (tool : SaidTool) → tool_said words ≡ Some tool → line_total tool + 1 ≤ length words }
{}

/// gpiodetect has no chip word only where its name stands alone, or before `--` alone.
pub fn bare_words_alone_name_no_chip()
    ensures { (word : List ℕ) (words : List (List ℕ)) (tool : SaidTool) → tool_said (word ∷ words) ≡ Some tool → IsBareDetect tool → is_bare words ≡ true }
{}

/// gpioinfo has a chip wherever one of its words is `-c` or begins with `--chip`.
pub fn chip_options_name_a_chip()
    ensures { (word : List ℕ) (words : List (List ℕ)) (tool : SaidTool) → tool_said (word ∷ words) ≡ Some tool → IsInfo tool → list_any is_chip_option words ≡ true → IsChipInfo tool }
{}

/// Each tool is the one that its name names, and each option of a tool is the one that its long name says, and its short name
/// where it has one: the tables have a row for each, and no two options of a tool have one name.
pub fn names_are_whole()
    ensures tools { ToolsHaveTheirNames }
    ensures long { OptionsHaveLongNames }
    ensures short { OptionsHaveShortNames }
{}
