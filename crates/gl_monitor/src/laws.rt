//! What the monitors cost, which files they open and close, and that they print whole lines, whatever they are answered. Each law
//! stands as the contract of a function that does nothing.
ghost use Rattle.std.specs.Prelude.{◌≡◌, ℕ, ◌+◌, Bool, true, List, ◌∷◌};
ghost use Rattle.gl_args.specs.Options.{SaidTool};
ghost use Rattle.gl_client.specs.Costs.{CostsAtMost};
ghost use Rattle.gl_client.specs.Gives.{Gives};
ghost use Rattle.gl_client.specs.OpenSlots.{AreApart, NamesOpenSlots, SameSlots, with_slot};
ghost use Rattle.gl_client.specs.Printing.{PrintsLines};
ghost use Rattle.gl_monitor.specs.Costs.{monitor_cost};
ghost use Rattle.gl_monitor.specs.Monitor.{Watched, monitor_program, steps_held, stops, watched_slot};
ghost use Rattle.gl_monitor.specs.WatchedSlots.{WatchedPasses};

/// A monitor makes at most as many entries as its cost says when it is started, one more than its turns in a step, and
/// none when it is stopped. The closing of a file is counted where the file is opened.
pub fn monitors_within_cost()
    ensures started { (tool : SaidTool) (base : ℕ) → CostsAtMost (monitor_cost tool) (monitor_program tool base) }
    ensures stepped { (watched : Watched) (turns : ℕ) → CostsAtMost (turns + 1) (steps_held watched turns) }
    ensures stopped { (watched : Watched) → CostsAtMost 0 (stops watched) }
{}

/// A monitor names no slot of a file that isn't open, and when it is started opens files in its own two slots alone, which are
/// free before. Behind it those slots are open that were so before, and where it watches its lines that of the file which it
/// watches.
pub fn monitors_name_open_slots()
    ensures started { (slots : List ℕ) (tool : SaidTool) (base : ℕ) → AreApart (base ∷ (base + 1) ∷ slots)
        → NamesOpenSlots (λ after now. SameSlots now (with_slot (watched_slot after) slots)) slots (monitor_program tool base) }
    ensures stepped { (slots : List ℕ) (watched : Watched) (turns : ℕ) → AreApart (with_slot (watched_slot watched) slots)
        → NamesOpenSlots (λ after now. SameSlots now (with_slot (watched_slot after) slots)) (with_slot (watched_slot watched) slots) (steps_held watched turns) }
    ensures stopped { (slots : List ℕ) (watched : Watched) → AreApart (with_slot (watched_slot watched) slots)
        → NamesOpenSlots (λ after now. SameSlots now (with_slot (watched_slot after) slots)) (with_slot (watched_slot watched) slots) (stops watched) }
{}

/// The file that a monitor watches has one of the slots `base` and `base + 1`, and keeps it: whatever is true of both is
/// true of it. A stopped monitor watches none.
pub fn monitors_watch_their_own_slot()
    ensures started { (test : ℕ → Bool) (tool : SaidTool) (base : ℕ) → test base ≡ true → test (base + 1) ≡ true → Gives (WatchedPasses test) (monitor_program tool base) }
    ensures stepped { (test : ℕ → Bool) (watched : Watched) (turns : ℕ) → WatchedPasses test watched → Gives (WatchedPasses test) (steps_held watched turns) }
    ensures stopped { (test : ℕ → Bool) (watched : Watched) → Gives (WatchedPasses test) (stops watched) }
{}

/// Each text that a monitor prints is whole lines: its last byte is 0x0A.
pub fn monitors_print_lines()
    ensures started { (tool : SaidTool) (base : ℕ) → PrintsLines (monitor_program tool base) }
    ensures stepped { (watched : Watched) (turns : ℕ) → PrintsLines (steps_held watched turns) }
    ensures stopped { (watched : Watched) → PrintsLines (stops watched) }
{}
