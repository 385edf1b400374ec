//! What a writer left, a view reads back: the laws of the structures. Each stands as the contract of a
//! function that does nothing.
//!
//! The writers' contracts say that they leave the bytes of a value, and the views' contracts say which
//! fields of their bytes they read. So the laws are about bytes and values alone.

ghost use Rattle.std.specs.Prelude.{◌≡◌, ◌^◌, ◌<◌, ℕ, List, length, IsTrue};
ghost use Rattle.gl_base.specs.Name.{field_of, is_name, name_in};
ghost use Rattle.gl_uapi.specs.declared.info_changes.Changed.{Changed};
ghost use Rattle.gl_uapi.specs.declared.line_events.Event.{Event};
ghost use Rattle.gl_uapi.specs.declared.line_infos.Info.{Info};
ghost use Rattle.gl_uapi.specs.ChipInfo.{SpellsChip, chip_bytes};
ghost use Rattle.gl_uapi.specs.InfoChanged.{ChangedFits, SpellsChanged, changed_bytes, changed_in};
ghost use Rattle.gl_uapi.specs.LineConfig.{Config, SpellsConfig, config_in};
ghost use Rattle.gl_uapi.specs.LineEvent.{EventFits, SpellsEvent, event_bytes, event_in};
ghost use Rattle.gl_uapi.specs.LineInfo.{InfoFits, SpellsInfo, info_bytes, info_in};
ghost use Rattle.gl_uapi.specs.LineRequest.{Request, SpellsRequest, request_in};
ghost use Rattle.gl_uapi.specs.LineValues.{SpellsValues, values_bytes};

use crate::layout::{LINE_CONFIG_SIZE, LINE_REQUEST_SIZE};

/// A name is read back from its field.
pub fn name_is_read_back()
    ensures { (name : List ℕ) → IsTrue (is_name name) → name_in (field_of name) ≡ name }
{}

/// The bytes of a chip's information spell it.
pub fn chip_info_is_read_back()
    ensures { (name label : List ℕ) (lines : ℕ) → IsTrue (is_name name) → IsTrue (is_name label) → lines < 2 ^ 32
        → SpellsChip (chip_bytes name label lines) name label lines }
{}

/// The bytes of values spell them.
pub fn values_are_read_back()
    ensures { (bits mask : ℕ) → bits < 2 ^ 64 → mask < 2 ^ 64 → SpellsValues (values_bytes bits mask) bits mask }
{}

/// The bytes of an event spell it, and bytes that spell an event are read as it.
pub fn event_is_read_back()
    ensures written { (event : Event) → EventFits event → SpellsEvent (event_bytes event) event }
    ensures read { (bytes : List ℕ) (event : Event) → SpellsEvent bytes event → event_in bytes ≡ event }
{}

/// The bytes of an information spell it, and bytes that spell an information are read as it.
pub fn line_info_is_read_back()
    ensures written { (info : Info) → InfoFits info → SpellsInfo (info_bytes info) info }
    ensures read { (bytes : List ℕ) (info : Info) → InfoFits info → SpellsInfo bytes info → info_in bytes ≡ info }
{}

/// The bytes of a change spell it, and bytes that spell a change are read as it.
pub fn info_changed_is_read_back()
    ensures written { (changed : Changed) → ChangedFits changed → SpellsChanged (changed_bytes changed) changed }
    ensures read { (bytes : List ℕ) (changed : Changed) → ChangedFits changed → SpellsChanged bytes changed
        → changed_in bytes ≡ changed }
{}

/// Any bytes of its length spell a configuration, which is the one that is read.
pub fn config_is_read()
    ensures spelled { (bytes : List ℕ) → length bytes ≡ LINE_CONFIG_SIZE → SpellsConfig bytes (config_in bytes) }
    ensures only { (bytes : List ℕ) (config : Config) → SpellsConfig bytes config → config ≡ config_in bytes }
{}

/// Any bytes of its length spell a request, which is the one that is read.
pub fn request_is_read()
    ensures spelled { (bytes : List ℕ) → length bytes ≡ LINE_REQUEST_SIZE → SpellsRequest bytes (request_in bytes) }
    ensures only { (bytes : List ℕ) (request : Request) → SpellsRequest bytes request → request ≡ request_in bytes }
{}
