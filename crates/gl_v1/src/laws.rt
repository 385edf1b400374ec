//! What goes over and back, by the fields of the structures. Each law stands as the contract of a function that does
//! nothing.
//!
//! The contracts of `send`, `receive` and `events` say which bytes they give. So the laws are about bytes and values
//! alone.

ghost use Rattle.std.specs.Prelude.{◌≡◌, ◌+◌, ◌*◌, ◌^◌, ◌<◌, ◌≤◌, ℕ, ℤ, List, [], ◌∷◌, ◌++◌, Some, length, take, slice_index};
ghost use Rattle.gl_base.specs.declared.errno.Errno.TheVariants.{Inval};
ghost use Rattle.gl_flags.specs.FlagFault.{flag_fault};
ghost use Rattle.gl_uapi.specs.Fields.{number_at, stretch, zeros};
ghost use Rattle.gl_uapi.specs.LineConfig.{SpellsConfig};
ghost use Rattle.gl_uapi.specs.LineValues.{SpellsValues};
ghost use Rattle.gl_uapi.specs.NewRequest.{new_config};
ghost use Rattle.gl_v1.specs.declared.commands.CommandV1.TheVariants.{LineInfo as LineInfoCommand, LineHandle, LineEvent, GetValues, SetValues, SetConfig};
ghost use Rattle.gl_v1.specs.Asked.{Asks};
ghost use Rattle.gl_v1.specs.Back.{back_of, events_back, events_in, info_back};
ghost use Rattle.gl_v1.specs.Flags.{event_word, newer_word, older_word};
ghost use Rattle.gl_v1.specs.Structures.{EventRequest, HandleConfig, HandleData, HandleRequest, LineInfo};
ghost use Rattle.gl_v1.specs.To.{event_request, handle_request, output_values, structure_of};
ghost use Rattle.gl_v1.specs.Values.{bits_below, bits_from, value_byte, value_bytes};

use crate::flags::{EVENT_TABLE, HANDLE_TABLE, INFO_TABLE};
use crate::layout::{
    V1_DATA_ID, V1_DATA_TIMESTAMP, V1_EVENT_DATA_SIZE, V1_EVENT_FD, V1_EVENT_REQUEST_SIZE,
    V1_HANDLE_FD, V1_HANDLE_REQUEST_SIZE, V1_LINE_INFO_SIZE, V1_VALUES_SIZE,
};
use gl_uapi::layout::{
    EVENT_ID, EVENT_TIMESTAMP, INFO_CONSUMER, INFO_FLAGS, INFO_NAME, INFO_OFFSET, LINE_CONFIG_SIZE,
    LINE_EVENT_SIZE, LINE_VALUES_SIZE, NAME_SIZE, REQUEST_FD,
};

/// A handle's request asks for the lines at its offsets, for its consumer, with its flags, with the number of lines that
/// it says, and with the values of outputs as one attribute.
pub fn handles_are_asked_for()
    ensures { (bytes offsets : List ℕ) (flags : ℕ) (values consumer : List ℕ) (lines : ℕ) (fd : ℤ)
        → HandleRequest bytes offsets flags values consumer lines fd → lines < 2 ^ 32
        → Asks (handle_request bytes) offsets consumer (new_config (newer_word HANDLE_TABLE flags) (output_values lines values ∷ [])) lines }
{}

/// A request for edges asks for one line, as an input with the edges that it says.
pub fn edges_are_asked_for()
    ensures { (bytes offset : List ℕ) (handle_flags event_flags : ℕ) (consumer : List ℕ) (fd : ℤ)
        → EventRequest bytes offset handle_flags event_flags consumer fd
        → Asks (event_request bytes) (offset ++ zeros 252) consumer (new_config (event_word HANDLE_TABLE EVENT_TABLE handle_flags event_flags) []) 1 }
{}

/// A word with a bit that is no flag of the first uAPI becomes a word of v2 that `gl_flags::check` refuses with `Inval`,
/// whatever other flags it has.
pub fn unknown_flags_are_refused()
    ensures handle { (word : ℕ) → 2 ^ length HANDLE_TABLE ≤ word → flag_fault (newer_word HANDLE_TABLE word) ≡ Some Inval }
    ensures line { (handle_flags event_flags : ℕ) → 2 ^ length HANDLE_TABLE ≤ handle_flags → flag_fault (event_word HANDLE_TABLE EVENT_TABLE handle_flags event_flags) ≡ Some Inval }
    ensures edge { (handle_flags event_flags : ℕ) → 2 ^ length EVENT_TABLE ≤ event_flags → flag_fault (event_word HANDLE_TABLE EVENT_TABLE handle_flags event_flags) ≡ Some Inval }
{}

/// A handle's configuration becomes one with its flags, and with the values of outputs as one attribute; its padding
/// isn't looked at.
pub fn configurations_are_asked_for()
    ensures { (bytes : List ℕ) (flags : ℕ) (values padding : List ℕ) (lines : ℕ) → HandleConfig bytes flags values padding
        → SpellsConfig (stretch 0 LINE_CONFIG_SIZE (structure_of SetConfig lines bytes)) (new_config (newer_word HANDLE_TABLE flags) (output_values lines values ∷ [])) }
{}

/// Values are asked for and set of all lines of a file.
pub fn values_are_asked_for()
    ensures get { (bytes : List ℕ) (lines : ℕ) → SpellsValues (stretch 0 LINE_VALUES_SIZE (structure_of GetValues lines bytes)) 0 (bits_below lines) }
    ensures set { (bytes values : List ℕ) (lines : ℕ) → HandleData bytes values
        → SpellsValues (stretch 0 LINE_VALUES_SIZE (structure_of SetValues lines bytes)) (bits_from 0 values) (bits_below lines) }
{}

/// Information is asked for of the same line.
pub fn information_is_asked_for()
    ensures { (bytes : List ℕ) (offset flags : ℕ) (name consumer : List ℕ) (lines : ℕ) → LineInfo bytes offset flags name consumer
        → number_at 4 INFO_OFFSET (structure_of LineInfoCommand lines bytes) ≡ offset }
{}

/// The information on a line goes back: its flags by name, its name, and who holds it; the offset is the one asked for.
pub fn information_goes_back()
    ensures { (got bytes : List ℕ) → length got ≡ 592 → length bytes ≡ V1_LINE_INFO_SIZE
        → LineInfo (info_back got bytes) (number_at 4 0 bytes) (older_word INFO_TABLE (number_at 8 INFO_FLAGS got))
        (stretch INFO_NAME NAME_SIZE got) (stretch INFO_CONSUMER NAME_SIZE got) }
{}

/// A new file's number goes back, and what stands before it stays.
pub fn file_numbers_go_back()
    ensures handle { (got bytes : List ℕ) (lines : ℕ) → length got ≡ 592 → length bytes ≡ V1_HANDLE_REQUEST_SIZE
        → (take V1_HANDLE_FD (back_of LineHandle lines got bytes) ≡ take V1_HANDLE_FD bytes)
        × (stretch V1_HANDLE_FD 4 (back_of LineHandle lines got bytes) ≡ stretch REQUEST_FD 4 got) }
    ensures event { (got bytes : List ℕ) (lines : ℕ) → length got ≡ 592 → length bytes ≡ V1_EVENT_REQUEST_SIZE
        → (take V1_EVENT_FD (back_of LineEvent lines got bytes) ≡ take V1_EVENT_FD bytes)
        × (stretch V1_EVENT_FD 4 (back_of LineEvent lines got bytes) ≡ stretch REQUEST_FD 4 got) }
{}

/// The byte of each line is its bit, and 0 past a file's lines.
pub fn values_go_back()
    ensures { (bits lines i : ℕ) → i < V1_VALUES_SIZE → slice_index (value_bytes bits lines 0 V1_VALUES_SIZE) i ≡ value_byte bits lines i }
{}

/// Each event keeps its time and its edge.
pub fn events_go_back()
    ensures { (got bytes : List ℕ) (i : ℕ) → V1_EVENT_DATA_SIZE * events_in got ≤ length bytes → i < events_in got
        → (number_at 8 (V1_EVENT_DATA_SIZE * i + V1_DATA_TIMESTAMP) (events_back got bytes) ≡ number_at 8 (LINE_EVENT_SIZE * i + EVENT_TIMESTAMP) got)
        × (number_at 4 (V1_EVENT_DATA_SIZE * i + V1_DATA_ID) (events_back got bytes) ≡ number_at 4 (LINE_EVENT_SIZE * i + EVENT_ID) got) }
{}
