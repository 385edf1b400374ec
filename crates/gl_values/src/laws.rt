//! What the tools cost, which files they open and close, and that they print whole lines, whatever they are answered. Each law
//! stands as the contract of a function that does nothing.
ghost use Rattle.std.specs.Prelude.{◌≡◌, ℕ, ◌+◌, Bool, true, List, ◌∷◌};
ghost use Rattle.gl_args.specs.Options.{SaidTool};
ghost use Rattle.gl_client.specs.Costs.{CostsAtMost};
ghost use Rattle.gl_client.specs.Gives.{Gives};
ghost use Rattle.gl_client.specs.OpenSlots.{AreApart, NamesOpenSlots, SameSlots, with_slot};
ghost use Rattle.gl_client.specs.Printing.{PrintsLines};
ghost use Rattle.gl_values.specs.Client.{tool_program, held_program};
ghost use Rattle.gl_values.specs.Costs.{tool_cost, held_cost};
ghost use Rattle.gl_lines.specs.OwnSlots.{SlotPasses};
ghost use Rattle.gl_values.specs.Set.{Held, stops};

/// A tool makes at most as many entries as its cost says, as a statement, started and stopped. The closing of a file is
/// counted where the file is opened.
pub fn tools_within_cost()
    ensures statement { (tool : SaidTool) (base : ℕ) → CostsAtMost (tool_cost tool) (tool_program tool base) }
    ensures started { (tool : SaidTool) (base : ℕ) → CostsAtMost (held_cost tool) (held_program tool base) }
    ensures stopped { (held : Held) → CostsAtMost 0 (stops held) }
{}

/// A tool names no slot of a file that isn't open, and opens files in its own two slots alone, which are free before. As a statement
/// it leaves those slots open that were so before; a started gpioset also that of the request which it holds, until a stop closes
/// it.
pub fn tools_name_open_slots()
    ensures statement { (slots : List ℕ) (tool : SaidTool) (base : ℕ) → AreApart (base ∷ (base + 1) ∷ slots) → NamesOpenSlots (λ held now. SameSlots now slots) slots (tool_program tool base) }
    ensures started { (slots : List ℕ) (tool : SaidTool) (base : ℕ) → AreApart (base ∷ (base + 1) ∷ slots) → NamesOpenSlots (λ held now. SameSlots now (with_slot held slots)) slots (held_program tool base) }
    ensures stopped { (slots : List ℕ) (held : Held) → AreApart (with_slot held slots) → NamesOpenSlots (λ after now. SameSlots now (with_slot after slots)) (with_slot held slots) (stops held) }
{}

/// The request that a started gpioset holds has the slot `base + 1`: whatever is true of that slot is true of what it holds.
/// A stopped one holds none.
pub fn tools_hold_their_own_slot()
    ensures started { (test : ℕ → Bool) (tool : SaidTool) (base : ℕ) → test (base + 1) ≡ true → Gives (SlotPasses test) (held_program tool base) }
    ensures stopped { (test : ℕ → Bool) (held : Held) → Gives (SlotPasses test) (stops held) }
{}

/// Each text that a tool prints is whole lines: its last byte is 0x0A.
pub fn tools_print_lines()
    ensures statement { (tool : SaidTool) (base : ℕ) → PrintsLines (tool_program tool base) }
    ensures started { (tool : SaidTool) (base : ℕ) → PrintsLines (held_program tool base) }
    ensures stopped { (held : Held) → PrintsLines (stops held) }
{}
