//! The sections of a session.

ghost use Rattle.std.specs.Prelude.{◌≡◌, ◌++◌, ◌-◌, ◌≤◌, get_or, length, map, option_map, OnOk, IsOkUnless};
ghost use Rattle.gl_script.specs.Meaning.{head_in};
ghost use Rattle.gl_script.specs.Script.{sections_of};
ghost use Rattle.gl_talk.specs.Over.{columns_in};
ghost use Rattle.gl_check.specs.Many.{actor_sections, no_section, words_of};
ghost use Rattle.gl_check.specs.One.{is_kind, said_in_kind};
ghost use Rattle.gl_check.specs.Sections.{is_actor_head, said_at};

use gl_base::Errno;
use gl_script::{Head, Script, SectionKind, Statement};

/// Whether a section with this head is of this kind.
fn is_head_of(kind: SectionKind, head: Head<'_>) -> bool
    ensures { result ≡ is_kind kind (head_in head.entry).kind }
{
    match kind {
        SectionKind::Setup => match head {
            Head::Setup => true,
            Head::Actor(_) => false,
            Head::After => false,
        },
        SectionKind::Actor => match head {
            Head::Setup => false,
            Head::Actor(_) => true,
            Head::After => false,
        },
        SectionKind::After => match head {
            Head::Setup => false,
            Head::Actor(_) => false,
            Head::After => true,
        },
    }
}

/// The statements of a section, by its number, counted from 0, if it is of this kind; else none.
pub fn statements_of_kind<'a>(
    script: &'a Script<'_>,
    section: u32,
    kind: SectionKind,
) -> &'a [Statement<'a>]
    ensures { map columns_in result.now ≡ said_at kind section (sections_of script.now) }
{
    let Some(head) = script.head(section) else {
        return &[];
    };
    if !is_head_of(kind, head) {
        return &[];
    }
    let Some(statements) = script.statements(section) else {
        return &[];
    };
    statements
}

/// Appends the statements of all sections of a kind. `NoMemory` alone is refused.
pub fn add_kind<'a>(
    script: &'a Script<'_>,
    kind: SectionKind,
    all: &mut Vec<Statement<'a>>,
) -> Result<(), Errno>
    ensures ok { OnOk result (map columns_in all.new.items ≡ map columns_in all.old.items ++ said_in_kind kind (sections_of script.now)) }
    ensures memory_alone { IsOkUnless result Errno.NoMemory }
{
    for section in 0..script.sections() {
        all.extend_from_slice(statements_of_kind(script, section, kind))?;
    }
    Ok(())
}

/// Whether the head is an actor's.
fn is_actor_head(head: Option<Head<'_>>) -> bool
    ensures { result ≡ is_actor_head (option_map head_in head.entry) }
{
    match head {
        Some(Head::Actor(_)) => true,
        Some(Head::Setup) => false,
        Some(Head::After) => false,
        None => false,
    }
}

/// How many actors a session has.
pub fn count_actors(script: &Script<'_>) -> u32
    ensures { result ≡ length (actor_sections (sections_of script.now)) }
{
    let mut count = 0;
    for section in 0..script.sections() {
        if is_actor_head(script.head(section)) {
            count += 1;
        }
    }
    count
}

/// The statements of an actor's section, by the actor's number, counted from 1.
pub fn actor_statements<'s>(script: &'s Script<'_>, number: u32) -> &'s [Statement<'s>]
    requires { (1 ≤ number) × (number ≤ length (actor_sections (sections_of script.now))) }
    ensures { map columns_in result.now ≡ words_of (get_or (actor_sections (sections_of script.now)) (number - 1) no_section) }
{
    let mut missing = number;
    for section in 0..script.sections() {
        if is_actor_head(script.head(section)) {
            missing -= 1;
            if missing == 0 {
                match script.statements(section) {
                    Some(statements) => return statements,
                    None => unreachable!(),
                }
            }
        }
    }
    unreachable!()
}
