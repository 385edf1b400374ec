//! Changes at some of the places.

ghost use Rattle.std.specs.Prelude.{◌≡◌, ◌==◌, ◌<◌, if◌then◌else◌, vec_capacity};
ghost use Rattle.gl_base.specs.Positions.{change_at};
ghost use Rattle.gl_base.specs.declared.limits.TheConstants.{PLACES};
ghost use Rattle.gl_registry.specs.Chips.{moved_on, no_chip};
ghost use Rattle.gl_model.specs.Places.{no_origin};
ghost use Rattle.gl_model.specs.Removal.{change_where, removed_by, without_deadlines};
ghost use Rattle.gl_core.specs.Chosen.{is_chosen};

use gl_base::{LINES_MAX, PLACES};
use gl_debounce::Timers;
use gl_model::Origin;
use gl_registry::Registry;

/// Some of the places: a mark for each of them.
pub(crate) type Chosen = [bool; PLACES as usize];

/// The chip of a place goes on to its next phase, if it is one of those that do.
fn go_on_if(chips: &mut Registry, place: u8, chosen: bool)
    ensures { chips.new ≡ (if chosen then change_at no_chip place moved_on chips.old else chips.old) }
{
    if chosen {
        chips.go_on(place);
    }
}

/// The chips of some places go on to their next phase.
pub(crate) fn move_on(chips: &mut Registry, places: &Chosen)
    ensures { chips.new ≡ change_where (is_chosen places.now) moved_on 0 chips.old }
{
    for place in 0..PLACES {
        go_on_if(chips, place, places[usize::from(place)]);
    }
}

/// An actor removes the chip of a place, if it is one of those that it removes.
fn set_remover_if(origins: &mut Vec<Origin>, place: u8, chosen: bool, actor: u8)
    ensures origins { origins.new.items ≡ (if chosen then change_at no_origin place (removed_by actor) origins.old.items else origins.old.items) }
    ensures capacity { vec_capacity origins.new ≡ vec_capacity origins.old }
{
    if chosen {
        if let Some(origin) = origins.get_mut(usize::from(place)) {
            origin.remover = Some(actor);
        }
    }
}

/// An actor removes the chips of some places.
pub(crate) fn set_remover(origins: &mut Vec<Origin>, places: &Chosen, actor: u8)
    ensures origins { origins.new.items ≡ change_where (is_chosen places.now) (removed_by actor) 0 origins.old.items }
    ensures capacity { vec_capacity origins.new ≡ vec_capacity origins.old }
{
    for place in 0..PLACES {
        set_remover_if(origins, place, places[usize::from(place)], actor);
    }
}

/// No deadline of a line of a place runs any more.
fn clear_place(timers: &mut Timers, place: u8)
    requires { place < PLACES }
    ensures { timers.new ≡ without_deadlines (λ p. p == place) timers.old }
{
    for offset in 0..LINES_MAX {
        timers.clear(place, offset);
    }
}

/// No deadline of a line of a place runs any more, if it is one of those whose deadlines end.
fn clear_place_if(timers: &mut Timers, place: u8, chosen: bool)
    requires { place < PLACES }
    ensures { timers.new ≡ (if chosen then without_deadlines (λ p. p == place) timers.old else timers.old) }
{
    if chosen {
        clear_place(timers, place);
    }
}

/// No deadline of a line of some places runs any more. No line is looked at where no deadline runs.
#[tactic(auto, using(crate::proofs::ClearingDeadlines::none_runs))]
pub(crate) fn clear_deadlines(timers: &mut Timers, places: &Chosen)
    ensures { timers.new ≡ without_deadlines (is_chosen places.now) timers.old }
{
    match timers.earliest() {
        Some(_) => clear_running(timers, places),
        None => {}
    }
}

/// No deadline of a line of some places runs any more. The lines of other places aren't looked at.
fn clear_running(timers: &mut Timers, places: &Chosen)
    ensures { timers.new ≡ without_deadlines (is_chosen places.now) timers.old }
{
    for place in 0..PLACES {
        clear_place_if(timers, place, places[usize::from(place)]);
    }
}
