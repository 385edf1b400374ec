//! What a session printed, written.

ghost use Rattle.std.specs.Prelude.{◌≡◌, ◌<◌, ◌++◌, get_or, length, codes, map, MatchOption, OnOk, IsOkUnless, false, true};
ghost use Rattle.gl_base.specs.TextLines.{text_line};
ghost use Rattle.gl_script.specs.Script.{sections_of};
ghost use Rattle.gl_script.specs.declared.section.SectionKind.TheVariants.{Actor as ActorKind};
ghost use Rattle.gl_check.specs.Many.{actor_sections, no_section};
ghost use Rattle.gl_check.specs.One.{is_kind};
ghost use Rattle.gl_check.specs.Seating.{text_in};
ghost use Rattle.gl_check.specs.Texts.{actors_text, texts_text};

use crate::judge::Judge;
use crate::seat::Seat;
use gl_base::Errno;
use gl_script::{Head, Script};

/// Appends a line.
fn put_line(text: &[u8], out: &mut Vec<u8>) -> Result<(), Errno>
    ensures ok { OnOk result (out.new.items ≡ out.old.items ++ text_line text.now) }
    ensures memory_alone { IsOkUnless result Errno.NoMemory }
{
    out.extend_from_slice(text)?;
    out.push(b'\n')?;
    Ok(())
}

/// Appends the line and the text of an actor.
fn put_actor(name: &[u8], text: &[u8], out: &mut Vec<u8>) -> Result<(), Errno>
    ensures ok { OnOk result (out.new.items ≡ out.old.items ++ (text_line (codes "== actor " ++ name.now) ++ text.now)) }
    ensures memory_alone { IsOkUnless result Errno.NoMemory }
{
    out.extend_from_slice(b"== actor ")?;
    put_line(name, out)?;
    out.extend_from_slice(text)?;
    Ok(())
}

/// The name of an actor's section; None where the section is none.
fn actor_name<'a>(script: &Script<'a>, section: u32) -> Option<&'a [u8]>
    requires { section < length (sections_of script.now) }
    ensures { MatchOption result (is_kind ActorKind (get_or (sections_of script.now) section no_section).kind ≡ false)
        (λ name. (is_kind ActorKind (get_or (sections_of script.now) section no_section).kind ≡ true) × (name.now ≡ (get_or (sections_of script.now) section no_section).name)) }
{
    match script.head(section) {
        Some(Head::Actor(name)) => Some(name),
        Some(Head::Setup) => None,
        Some(Head::After) => None,
        None => None,
    }
}

/// Appends the lines and the texts of all actors.
fn put_actors(script: &Script<'_>, seats: &[Seat], out: &mut Vec<u8>) -> Result<(), Errno>
    requires { length seats.now ≡ length (actor_sections (sections_of script.now)) }
    ensures ok { OnOk result (out.new.items ≡ out.old.items ++ actors_text (actor_sections (sections_of script.now)) (map text_in seats.now)) }
    ensures memory_alone { IsOkUnless result Errno.NoMemory }
{
    let mut at = 0;
    for section in 0..script.sections() {
        match actor_name(script, section) {
            Some(name) => {
                put_actor(name, &seats[at].text, out)?;
                at += 1;
            }
            None => {}
        }
    }
    Ok(())
}

/// Appends what a session printed in front of its history.
pub fn put_texts(script: &Script<'_>, judge: &Judge, out: &mut Vec<u8>) -> Result<(), Errno>
    requires { length judge.now.others.items ≡ length (actor_sections (sections_of script.now)) }
    ensures ok { OnOk result (out.new.items ≡ out.old.items ++ texts_text (sections_of script.now)
        (record { setup = judge.now.setup.items; actors = map text_in judge.now.others.items; last = judge.now.first.text.items })) }
    ensures memory_alone { IsOkUnless result Errno.NoMemory }
{
    put_line(b"== setup", out)?;
    out.extend_from_slice(&judge.setup)?;
    put_actors(script, &judge.others, out)?;
    put_line(b"== after", out)?;
    out.extend_from_slice(&judge.first.text)?;
    Ok(())
}
