//! The output of a session of several actors, written.
ghost use Rattle.std.specs.Prelude.{◌≡◌, ◌++◌, ◌<◌, ◌^◌, get_or, length, codes, IfOk, MatchOption, OnOk, IsOkUnless, false, true};
ghost use Rattle.gl_base.specs.Rows.{Each};
ghost use Rattle.gl_script.specs.Script.{sections_of};
ghost use Rattle.gl_script.specs.declared.section.SectionKind.TheVariants.{Actor as ActorKind};
ghost use Rattle.gl_trace.specs.EntryText.{HasText, entry_text};
ghost use Rattle.gl_trace.specs.Typed.{IsTyped};
ghost use Rattle.gl_check.specs.Many.{actor_sections, no_section};
ghost use Rattle.gl_check.specs.One.{is_kind};
ghost use Rattle.gl_session.specs.Output.{AreTold, actors_text, entry_lines, history_text, output};
ghost use Rattle.gl_session.specs.Lines.{text_line};

use crate::text::{put_line, put_numbered};
use gl_base::{ByteList, Errno};
use gl_core::Core;
use gl_script::{Head, Script};
use gl_trace::{fits_entry, put_entry};
use gl_world::Entry;
use std::alloc::Global;

/// Appends a text.
fn put_text(text: &[u8], out: &mut Vec<u8>) -> Result<(), Errno>
    ensures ok { OnOk result (out.new.items ≡ out.old.items ++ text.now) }
    ensures memory_alone { IsOkUnless result Errno.NoMemory }
{
    out.extend_from_slice(text)?;
    Ok(())
}

/// Appends the line and the text of an actor.
fn put_actor(name: &[u8], text: &[u8], out: &mut Vec<u8>) -> Result<(), Errno>
    ensures ok { OnOk result (out.new.items ≡ out.old.items ++ (text_line (codes "== actor " ++ name.now) ++ text.now)) }
    ensures memory_alone { IsOkUnless result Errno.NoMemory }
{
    out.extend_from_slice(b"== actor ")?;
    put_line(name, out)?;
    put_text(text, out)
}

/// The name of an actor's section; None where the section is none.
fn actor_name<'a>(script: &Script<'a>, section: u32) -> Option<&'a [u8]>
    requires { section < length (sections_of script.now) }
    ensures { MatchOption result (is_kind ActorKind (get_or (sections_of script.now) section no_section).kind ≡ false)
        (λ name. (is_kind ActorKind (get_or (sections_of script.now) section no_section).kind ≡ true) × (name.now ≡ (get_or (sections_of script.now) section no_section).name)) }
{
    match script.head(section) {
        Some(Head::Actor(name)) => Some(name),
        Some(Head::Setup) => None,
        Some(Head::After) => None,
        None => None,
    }
}

/// Appends the lines and the texts of all actors.
fn put_actors(script: &Script<'_>, texts: &[ByteList], out: &mut Vec<u8>) -> Result<(), Errno>
    requires { length texts.now ≡ length (actor_sections (sections_of script.now)) }
    ensures ok { OnOk result (out.new.items ≡ out.old.items ++ actors_text (actor_sections (sections_of script.now)) texts.now) }
    ensures memory_alone { IsOkUnless result Errno.NoMemory }
{
    let mut at = 0;
    for section in 0..script.sections() {
        match actor_name(script, section) {
            Some(name) => {
                put_actor(name, texts[at].as_slice(), out)?;
                at += 1;
            }
            None => {}
        }
    }
    Ok(())
}

/// Appends the line of an entry.
fn put_entry_line(index: u32, entry: &Entry<Core>, out: &mut Vec<u8>) -> Result<(), Errno>
    requires { HasText entry.now }
    ensures ok { OnOk result (out.new.items ≡ out.old.items ++ text_line (entry_text index entry.now)) }
    ensures typed { IsTyped index entry.now }
    ensures memory_alone { IsOkUnless result Errno.NoMemory }
{
    fits_entry(index, entry);
    put_entry(index, entry, out)?;
    out.push(b'\n')?;
    Ok(())
}

/// Appends the lines of all entries.
fn put_entries(history: &[Entry<Core>], out: &mut Vec<u8>) -> Result<(), Errno>
    requires few { length history.now < 2 ^ 32 }
    requires texts { Each HasText history.now }
    ensures ok { OnOk result (out.new.items ≡ out.old.items ++ entry_lines 0 history.now) }
    ensures told { OnOk result (AreTold 0 history.now) }
    ensures memory_alone { IsOkUnless result Errno.NoMemory }
{
    for i in 0..history.len() {
        put_entry_line(i as u32, &history[i], out)?;
    }
    Ok(())
}

/// Appends the history.
fn put_history(history: &[Entry<Core>], out: &mut Vec<u8>) -> Result<(), Errno>
    requires few { length history.now < 2 ^ 32 }
    requires texts { Each HasText history.now }
    ensures ok { OnOk result (out.new.items ≡ out.old.items ++ history_text history.now) }
    ensures told { OnOk result (AreTold 0 history.now) }
    ensures memory_alone { IsOkUnless result Errno.NoMemory }
{
    put_numbered(b"== history", history.len() as u64, out)?;
    put_entries(history, out)
}

/// The output of a session: the texts of `setup`, of its actors in order, and of `after`, each after its header, and then the
/// history. `NoMemory` alone is refused.
pub fn output_of(
    alloc: Global,
    script: &Script<'_>,
    setup: &[u8],
    actors: &[ByteList],
    last: &[u8],
    history: &[Entry<Core>],
) -> Result<Vec<u8>, Errno>
    requires actors { length actors.now ≡ length (actor_sections (sections_of script.now)) }
    requires few { length history.now < 2 ^ 32 }
    requires texts { Each HasText history.now }
    ensures ok { IfOk result (λ text. text.items ≡ output (sections_of script.now) (record { setup = setup.now; actors = actors.now; last = last.now }) history.now) }
    ensures told { OnOk result (AreTold 0 history.now) }
    ensures memory_alone { IsOkUnless result Errno.NoMemory }
{
    let mut out = Vec::new(alloc);
    put_line(b"== setup", &mut out)?;
    put_text(setup, &mut out)?;
    put_actors(script, actors, &mut out)?;
    put_line(b"== after", &mut out)?;
    put_text(last, &mut out)?;
    put_history(history, &mut out)?;
    Ok(out)
}
