//! What a configuration gives to the lines of a request, for every number of lines. Each law stands as the
//! contract of a function that does nothing, over the definitions that [`resolve`](crate::resolve) meets.

ghost use Rattle.std.specs.Prelude.{◌≡◌, ◌<◌, ◌≤◌, ℕ, List, None, slice_index_or};
ghost use Rattle.gl_base.specs.Lines.{IsLineCount};
ghost use Rattle.gl_base.specs.Settings.{no_settings};
ghost use Rattle.gl_attrs.specs.ConfigFault.{config_fault, line_fault};
ghost use Rattle.gl_attrs.specs.Setting.{resolved_for, settings_for};

/// There are settings for as many lines as the request has: those that the configuration gives to each of
/// them, and none past them.
pub fn settings_are_told()
    ensures count { (config : List ℕ) (n : ℕ) → (resolved_for config n).count ≡ n }
    ensures line { (config : List ℕ) (n i : ℕ) → IsLineCount n → i < n → slice_index_or (resolved_for config n).lines i no_settings ≡ settings_for config i }
    ensures past { (config : List ℕ) (n i : ℕ) → n ≤ i → slice_index_or (resolved_for config n).lines i no_settings ≡ no_settings }
{}

/// A configuration without a fault for some lines has none for each of them, and none for fewer lines.
pub fn faultless_for_each_line()
    ensures line { (config : List ℕ) (n i : ℕ) → config_fault config n ≡ None → i < n → line_fault config i ≡ None }
    ensures fewer { (config : List ℕ) (n m : ℕ) → config_fault config n ≡ None → m ≤ n → config_fault config m ≡ None }
{}
