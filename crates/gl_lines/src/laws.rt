//! What finding lines costs, which files it opens and closes, and that it prints whole lines, whatever it is answered. Each law
//! stands as the contract of a function that does nothing.
ghost use Rattle.std.specs.Prelude.{◌≡◌, ℕ, ◌+◌, true, false, List, ◌∷◌, length};
ghost use Rattle.gl_args.specs.declared.names.ToolName.{ToolName};
ghost use Rattle.gl_args.specs.Options.{Options};
ghost use Rattle.gl_client.specs.Costs.{CostsAtMost};
ghost use Rattle.gl_client.specs.OpenSlots.{AreApart, NamesOpenSlots, SameSlots, with_slot};
ghost use Rattle.gl_lines.specs.FoundSlot.{found_slot};
ghost use Rattle.gl_args.specs.Names.{requests_lines};
ghost use Rattle.gl_client.specs.Printing.{PrintsLines};
ghost use Rattle.gl_lines.specs.Finding.{finds};

/// To find lines makes at most an entry a line and two for the chip, and to request them three more.
pub fn finding_costs()
    ensures requesting { (tool : ToolName) (base made : ℕ) (opts : Options) → requests_lines tool ≡ true → CostsAtMost (length opts.lines + 5) (finds tool base made opts) }
    ensures alone { (tool : ToolName) (base made : ℕ) (opts : Options) → requests_lines tool ≡ false → CostsAtMost (length opts.lines + 2) (finds tool base made opts) }
{}

/// Finding names no slot of a file that isn't open, and opens files in its own two slots alone, which are free before. Behind it
/// those slots are open that were so before, and where it has found the lines one more: that of the request, or of the chip's
/// file where it makes none.
pub fn finding_names_open_slots()
    ensures { (slots : List ℕ) (tool : ToolName) (base made : ℕ) (opts : Options) → AreApart (base ∷ made ∷ slots)
        → NamesOpenSlots (λ found now. SameSlots now (with_slot (found_slot tool base made found) slots)) slots (finds tool base made opts) }
{}

/// Each text that finding prints is whole lines: its last byte is 0x0A.
pub fn finding_prints_lines()
    ensures { (tool : ToolName) (base made : ℕ) (opts : Options) → PrintsLines (finds tool base made opts) }
{}
