//! Worked runs of the machine. Each is a function with nothing to do: its contract says what the calls of the
//! run are answered, computed from the definitions of the machine and its opening world alone. A definition
//! that answered otherwise would be refused.

ghost use Rattle.std.specs.Prelude.{◌≡◌, take};
ghost use Rattle.gl_model_runs.specs.Rows.ActiveLowEdges.{given as active_low_edges_given, run as active_low_edges_run};
ghost use Rattle.gl_model_runs.specs.Rows.Board.{given as board_given, run as board_run};
ghost use Rattle.gl_model_runs.specs.Rows.CallBehindGone.{given as call_behind_gone_given, run as call_behind_gone_run};
ghost use Rattle.gl_model_runs.specs.Rows.ChipInfo.{given as chip_info_given, run as chip_info_run};
ghost use Rattle.gl_model_runs.specs.Rows.Clocks.{given as clocks_given, run as clocks_run};
ghost use Rattle.gl_model_runs.specs.Rows.Deadlines.{given as deadlines_given, run as deadlines_run};
ghost use Rattle.gl_model_runs.specs.Rows.Debounce.{given as debounce_given, run as debounce_run};
ghost use Rattle.gl_model_runs.specs.Rows.DeviceCalls.{given as device_calls_given, run as device_calls_run};
ghost use Rattle.gl_model_runs.specs.Rows.Directions.{given as directions_given, run as directions_run};
ghost use Rattle.gl_model_runs.specs.Rows.FirstAttribute.{given as first_attribute_given, run as first_attribute_run};
ghost use Rattle.gl_model_runs.specs.Rows.HardDebounce.{given as hard_debounce_given, run as hard_debounce_run};
ghost use Rattle.gl_model_runs.specs.Rows.HogAndLocks.{given as hog_and_locks_given, run as hog_and_locks_run};
ghost use Rattle.gl_model_runs.specs.Rows.InterruptLocks.{given as interrupt_locks_given, run as interrupt_locks_run};
ghost use Rattle.gl_model_runs.specs.Rows.InterruptTable.{given as interrupt_table_given, run as interrupt_table_run};
ghost use Rattle.gl_model_runs.specs.Rows.LiteralBytes.{given as literal_bytes_given, run as literal_bytes_run};
ghost use Rattle.gl_model_runs.specs.Rows.LockedLines.{given as locked_lines_given, run as locked_lines_run};
ghost use Rattle.gl_model_runs.specs.Rows.Pins.{given as pins_given, run as pins_run};
ghost use Rattle.gl_model_runs.specs.Rows.PlacesUsed.{given as places_used_given, run as places_used_run};
ghost use Rattle.gl_model_runs.specs.Rows.PlannedFault.{given as planned_fault_given, run as planned_fault_run};
ghost use Rattle.gl_model_runs.specs.Rows.Reconfigured.{given as reconfigured_given, run as reconfigured_run};
ghost use Rattle.gl_model_runs.specs.Rows.RemoteChip.{given as remote_chip_given, run as remote_chip_run};
ghost use Rattle.gl_model_runs.specs.Rows.RemovedChip.{given as removed_chip_given, run as removed_chip_run};
ghost use Rattle.gl_model_runs.specs.Rows.RemovedDevice.{given as removed_device_given, run as removed_device_run};
ghost use Rattle.gl_model_runs.specs.Rows.RequestFaults.{given as request_faults_given, run as request_faults_run};
ghost use Rattle.gl_model_runs.specs.Rows.RequestHeader.{given as request_header_given, run as request_header_run};
ghost use Rattle.gl_model_runs.specs.Rows.SmallRing.{given as small_ring_given, run as small_ring_run};
ghost use Rattle.gl_model_runs.specs.Rows.SoftDebounce.{given as soft_debounce_given, run as soft_debounce_run};
ghost use Rattle.gl_model_runs.specs.Rows.TwoActorsBefore.{given as two_actors_before_given, run as two_actors_before_run};
ghost use Rattle.gl_model_runs.specs.Rows.TwoActorsBehind.{given as two_actors_behind_given, run as two_actors_behind_run};
ghost use Rattle.gl_model_runs.specs.Rows.TwoChips.{given as two_chips_given, run as two_chips_run};
ghost use Rattle.gl_model_runs.specs.Rows.TwoLines.{given as two_lines_given, run as two_lines_run};
ghost use Rattle.gl_model_runs.specs.Rows.TwoRemovals.{given as two_removals_given, run as two_removals_run};
ghost use Rattle.gl_model_runs.specs.Rows.Values.{given as values_given, run as values_run};
ghost use Rattle.gl_model_runs.specs.Rows.WatchQueue.{given as watch_queue_given, run as watch_queue_run};
ghost use Rattle.gl_world.specs.History.{entries_of};
ghost use Rattle.gl_model.specs.Calling.{AreOfCalls, AreOfCallsSoFar};
ghost use Rattle.gl_model.specs.Machine.{IsLegal, world_of};
ghost use Rattle.gl_model.specs.OneRemoval.{HasAtMostOneRemoval};
ghost use Rattle.gl_model_runs.specs.Rows.Histories.{history};
ghost use Rattle.gl_model_runs.specs.Run.{answers};

use gl_model::Image;

/// The first faulty line of a request decides, and a refused request leaves all lines as they were.
pub fn request_faults()
    ensures { answers request_faults_run ≡ request_faults_given }
{}

/// The head of a request, case by case; a refused request takes no file's number.
pub fn request_header()
    ensures { answers request_header_run ≡ request_header_given }
{}

/// Of two attributes of flags the first decides: an input that is pulled up, and no output.
pub fn first_attribute()
    ensures { answers first_attribute_run ≡ first_attribute_given }
{}

/// Values are set on outputs alone, and read of all lines that the mask has.
pub fn values()
    ensures { answers values_run ≡ values_given }
{}

/// A full ring drops its oldest event, and the numbers of the events tell of the gap.
pub fn small_ring()
    ensures { answers small_ring_run ≡ small_ring_given }
{}

/// Events are numbered in their request and in their line.
pub fn two_lines()
    ensures { answers two_lines_run ≡ two_lines_given }
{}

/// The edges of an active-low line are those of its logical value.
pub fn active_low_edges()
    ensures { answers active_low_edges_run ≡ active_low_edges_given }
{}

/// A debounced line is an event once its level has stayed for its period, at the deadline; a level that came back is none.
pub fn debounce()
    ensures { answers debounce_run ≡ debounce_given }
{}

/// A line that is locked as an enabled interrupt can't be an output, and an output's interrupt can't be enabled.
pub fn interrupt_locks()
    ensures { answers interrupt_locks_run ≡ interrupt_locks_given }
{}

/// The interrupt locks, case by case: what each call on a line's interrupt is answered, whether the line is free, claimed or
/// held, and how. (A hogged line's: `two_chips`.)
pub fn interrupt_table()
    ensures { answers interrupt_table_run ≡ interrupt_table_given }
{}

/// A line under an enabled lock can't be requested or configured as an output, a line without an interrupt tells of no
/// edges and isn't debounced, and a line that is to tell of edges or is debounced keeps its interrupt.
pub fn locked_lines()
    ensures { answers locked_lines_run ≡ locked_lines_given }
{}

/// A remote chip: its levels come by interrupts, its values from the driver or, of a debounced line, from where it
/// settled, and no pull or bias changes them.
pub fn remote_chip()
    ensures { answers remote_chip_run ≡ remote_chip_given }
{}

/// A line whose pin is held for another function can't be requested until the pin is dropped.
pub fn pins()
    ensures { answers pins_run ≡ pins_given }
{}

/// The open files of a chip that was removed answer ENODEV and are closed as ever; its word names no chip any more.
pub fn removed_chip()
    ensures { answers removed_chip_run ≡ removed_chip_given }
{}

/// Actor 1 asks a chip for its information while actor 2 removes it: the call comes before the guard is closed.
pub fn two_actors_before()
    ensures { answers two_actors_before_run ≡ two_actors_before_given }
{}

/// Actor 1 asks a chip for its information while actor 2 removes it: the call comes behind the closing of the guard.
pub fn two_actors_behind()
    ensures { answers two_actors_behind_run ≡ two_actors_behind_given }
{}

/// A file that watches a line is told of each request and release of it; of more than 32 changes the newest are dropped.
pub fn watch_queue()
    ensures { answers watch_queue_run ≡ watch_queue_given }
{}

/// A device of the tree goes live, is removed with its chip, and goes live again as another chip.
pub fn removed_device()
    ensures { answers removed_device_run ≡ removed_device_given }
{}

/// A device of three banks: its chips, a line found by name, its removal, and what it refuses until this has ended.
pub fn board()
    ensures { answers board_run ≡ board_given }
{}

/// The information on a chip, a buffer that is too short for it, and a number that is no command's.
pub fn chip_info()
    ensures { answers chip_info_run ≡ chip_info_given }
{}

/// Each structure that is read or written, byte by byte, without the words that make bytes of numbers and names.
pub fn literal_bytes()
    ensures { answers literal_bytes_run ≡ literal_bytes_given }
{}

/// A request whose driver fails is refused and told to nobody; its number isn't given again, and its line is free.
pub fn planned_fault()
    ensures { answers planned_fault_run ≡ planned_fault_given }
{}

/// Once there is a chip at each place, one more finds none.
pub fn places_used()
    ensures { answers places_used_run ≡ places_used_given }
{}

/// A hogged line, a line that is locked as an interrupt, and a line without an interrupt, with the information on them.
pub fn hog_and_locks()
    ensures { answers hog_and_locks_run ≡ hog_and_locks_given }
{}

/// The information on a debounced line has its period as an attribute, and its event comes at the deadline.
pub fn soft_debounce()
    ensures { answers soft_debounce_run ≡ soft_debounce_given }
{}

/// Lines that their driver debounces: which of a request they are, when they tell of an edge, and how long.
pub fn hard_debounce()
    ensures { answers hard_debounce_run ≡ hard_debounce_given }
{}

/// The monotonic and the real clock: which one an event has, what clocks are refused, and in which order debounced lines settle.
pub fn clocks()
    ensures { answers clocks_run ≡ clocks_given }
{}

/// What a new configuration changes of a line that is to settle, is monitored or is to be set, and what it leaves;
/// and the value of a line that is active low and debounced.
pub fn reconfigured()
    ensures { answers reconfigured_run ≡ reconfigured_given }
{}

/// Two chips beside each other: whose files are told of a change, what a hogged line's interrupt is answered, and who ends a
/// removal.
pub fn two_chips()
    ensures { answers two_chips_run ≡ two_chips_given }
{}

/// A command on a chip that is gone: the step answers it, and no legal history has it, since the chip's guard is closed.
pub fn call_behind_gone()
    ensures { answers call_behind_gone_run ≡ call_behind_gone_given }
{}

/// Both orders of the two actors' calls are histories that the machine can have.
pub fn two_actors_are_legal<K: Image>()
    ensures before { IsLegal K.Image.stands_for (history two_actors_before_run two_actors_before_given) }
    ensures behind { IsLegal K.Image.stands_for (history two_actors_behind_run two_actors_behind_given) }
{}

/// In both orders each of the two actors calls the device, one call after another; while actor 2's call goes on, it
/// has made its first entry only.
pub fn two_actors_call_the_device<K: Image>()
    ensures first_before { AreOfCalls K.Image.stands_for 1 (entries_of 1 (history two_actors_before_run two_actors_before_given)) }
    ensures second_before { AreOfCalls K.Image.stands_for 2 (entries_of 2 (history two_actors_before_run two_actors_before_given)) }
    ensures first_behind { AreOfCalls K.Image.stands_for 1 (entries_of 1 (history two_actors_behind_run two_actors_behind_given)) }
    ensures second_behind { AreOfCalls K.Image.stands_for 2 (entries_of 2 (history two_actors_behind_run two_actors_behind_given)) }
    ensures second_so_far { AreOfCallsSoFar K.Image.stands_for 2 (entries_of 2 (history (take 4 two_actors_behind_run) two_actors_behind_given)) }
{}

/// An actor calls the device, one call after another. The machine answers its entries so, their history is legal, and the
/// entries are those of whole calls: of commands, one with its driver's own entries between the ask and the tell, of a device's
/// removal, of a poll and a command at a closed guard, and of others.
pub fn device_calls<K: Image>()
    ensures answers { answers device_calls_run ≡ device_calls_given }
    ensures legal { IsLegal K.Image.stands_for (history device_calls_run device_calls_given) }
    ensures calls { AreOfCalls K.Image.stands_for 0 (entries_of 0 (history device_calls_run device_calls_given)) }
{}

/// A history with a command on a chip that is gone is one that the machine can't have; without the command it can.
pub fn no_call_stands_behind_gone<K: Image>()
    ensures before { IsLegal K.Image.stands_for (history (take 4 call_behind_gone_run) call_behind_gone_given) }
    ensures whole { IsLegal K.Image.stands_for (history call_behind_gone_run call_behind_gone_given) → ⊥ }
{}

/// An actor has begun the removals of two chips and ended neither. The machine answers so, their history is legal,
/// and in its world the actor has more than one unfinished removal: no rule of the machine forbids it.
pub fn two_removals<K: Image>()
    ensures answers { answers two_removals_run ≡ two_removals_given }
    ensures legal { IsLegal K.Image.stands_for (history (take 4 two_removals_run) two_removals_given) }
    ensures two { HasAtMostOneRemoval K.Image.stands_for 1 (world_of K.Image.stands_for (history (take 4 two_removals_run) two_removals_given)) → ⊥ }
{}

/// Deadlines that don't run any more: of a line whose period is changed, of a request that is closed, and of a chip that is gone.
/// The last call of the run is a read on that chip.
pub fn deadlines()
    ensures { answers deadlines_run ≡ deadlines_given }
{}

/// What hogged, active-low and kept outputs are driven with, and what a line without a direction flag keeps.
pub fn directions()
    ensures { answers directions_run ≡ directions_given }
{}
