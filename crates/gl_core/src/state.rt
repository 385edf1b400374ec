//! The state of the core: the tables that the calls of the machine work on.

ghost use Rattle.std.specs.Prelude.{◌≡◌, [], Ok, vec_capacity, IfOk, IsOkUnless};
ghost use Rattle.gl_base.specs.declared.limits.TheConstants.{PLACES};
ghost use Rattle.gl_model.specs.Chips.{phase_at};
ghost use Rattle.gl_model.specs.World.{World, opening};
ghost use Rattle.gl_core.specs.Kept.{StandsFor};
ghost use Rattle.gl_core.specs.Steps.{Tells};
ghost use Rattle.gl_core.specs.WellKept.{HasItsTables};

use crate::places::Places;
use crate::prepared_bank::PreparedBank;
use gl_base::{Errno, PLACES, Phase};
use gl_debounce::Timers;
use gl_model::Origin;
use gl_registry::Registry;
use gl_request::Requests;
use gl_simtree::Tree;
use gl_watch::Watches;
use std::alloc::Global;
use std::marker::Model;

/// All that is kept of a world, in tables (`specs/Kept`). The calls of the machine are its methods, a file a topic. Most of them
/// say what they do to each world that the tables stand for (`specs/Steps`).
#[derive(Drop)]
pub(crate) struct State {
    pub(crate) chips: Registry,
    pub(crate) origins: Vec<Origin>,
    pub(crate) places: Places,
    pub(crate) timers: Timers,
    pub(crate) requests: Requests,
    pub(crate) files: Watches,
    pub(crate) tree: Tree,
    pub(crate) plan: PreparedBank,
    pub(crate) next: u32,
    pub(crate) mono: u64,
    pub(crate) real: u64,
}

impl Model for State {
    ghost use Rattle.std.specs.Prelude.{vec_capacity};
    ghost use Rattle.gl_core.specs.Kept.{Kept};
    ghost use Rattle.gl_core.specs.Shape.{IsShaped, IsWithin};
    ghost use Rattle.gl_core.specs.View.{view_of};

    ghost Value = { Kept };

    ghost view = { λ c. view_of c };

    ghost invariant = { λ c. IsShaped c.chips c.origins.items c.places × IsWithin (vec_capacity c.origins) c.mono };
}

/// Two values, where both are there, or why one of them isn't.
pub(crate) fn both<A: Drop, B: Drop>(
    first: Result<A, Errno>,
    second: Result<B, Errno>,
) -> Result<(A, B), Errno>
    ensures ok { IfOk result (λ them. (first ≡ Ok them.0) × (second ≡ Ok them.1)) }
    ensures memory_alone { IsOkUnless first Errno.NoMemory → IsOkUnless second Errno.NoMemory → IsOkUnless result Errno.NoMemory }
{
    match first {
        Err(errno) => Err(errno),
        Ok(first) => match second {
            Err(errno) => Err(errno),
            Ok(second) => Ok((first, second)),
        },
    }
}

/// A table for the origins of all places. No place has one yet.
fn no_origins(alloc: Global) -> Result<Vec<Origin>, Errno>
    ensures none { IfOk result (λ origins. origins.items ≡ []) }
    ensures capacity { IfOk result (λ origins. vec_capacity origins ≡ PLACES) }
    ensures memory_alone { IsOkUnless result Errno.NoMemory }
{
    let origins = Vec::with_capacity(alloc, usize::from(PLACES))?;
    Ok(origins)
}

impl State {
    /// The state of a machine as it opens: without a chip, an open file or a directory. It fails only when out of memory.
    pub(crate) fn new(alloc: Global) -> Result<State, Errno>
        ensures ok { IfOk result (λ state. StandsFor state opening) }
        ensures memory_alone { IsOkUnless result Errno.NoMemory }
    {
        let boards = both(
            both(no_origins(alloc), Tree::new(alloc)),
            both(Registry::new(alloc), PreparedBank::new(alloc)),
        );
        let holds = both(
            both(Timers::new(alloc), Watches::new(alloc)),
            both(Requests::new(alloc), Places::new(alloc)),
        );
        match both(boards, holds) {
            Err(errno) => Err(errno),
            Ok((((origins, tree), (chips, plan)), ((timers, files), (requests, places)))) => {
                Ok(State {
                    chips,
                    origins,
                    places,
                    timers,
                    requests,
                    files,
                    tree,
                    plan,
                    next: 3,
                    mono: 0,
                    real: 0,
                })
            }
        }
    }

    /// What the tables tell by themselves, at every moment. The call does nothing.
    pub(crate) fn has_its_tables(&self)
        ensures { HasItsTables self.now }
    {
        let _timers = self.timers.len();
        self.timers.hard_lines_are_still();
        self.requests.have_limits();
    }

    /// The phase of a place.
    pub(crate) fn phase(&self, place: u8) -> Phase
        ensures { Tells (λ w. phase_at w place) self.now result }
    {
        self.chips.phase(place)
    }
}
