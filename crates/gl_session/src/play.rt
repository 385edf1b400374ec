//! A talk, carried out by a player.
ghost use Rattle.std.specs.Prelude.{◌≡◌, ◌⊎◌, ◌+◌, ◌≤◌, false, IfOk, IfErr, OnOk, IsTrue, None, map, length};
ghost use Rattle.gl_base.specs.declared.errno.Errno.TheVariants.{Full, NoMemory};
ghost use Rattle.gl_client.specs.Program.{done, given};
ghost use Rattle.gl_talk.specs.Over.{columns_in};
ghost use Rattle.gl_talk.specs.Talk.{left, names_in, says};
ghost use Rattle.gl_check.specs.Drivers.{driver_kind};
ghost use Rattle.gl_session.specs.Ports.{OwnsNothing};
ghost use Rattle.gl_session.specs.Performed.{PlaysOn, StoppedFull};

use crate::player::Player;
use gl_base::{Errno, Got};
use gl_client::Next;
use gl_core::Core;
use gl_driver::Driver;
use gl_script::Statement;
use gl_talk::Talk;
use std::alloc::Global;
use std::sync::Wait;

/// What a talk does next, done. False at the end of what is under way. `step` is room for what it does.
fn turn<R: Wait, D: Driver<Core>>(
    rt: &R,
    alloc: Global,
    player: &mut Player<'_, D>,
    talk: &mut Talk,
    got: &mut Option<Got>,
    step: &mut Next,
) -> Result<bool, Errno>
    requires none { OwnsNothing D.OwnEntries }
    requires begun { talk.old.begun ≤ 1048576 }
    ensures device { player.new.gate ≡ player.old.gate }
    ensures counted { OnOk result (talk.new.begun ≡ talk.old.begun) }
    ensures taken { IfOk result (λ more. IsTrue more
        → PlaysOn (driver_kind D.ENTRIES D.is_planned D.OwnEntries D.Follows) (given (left talk.old) got.old) player.old.view player.old.carried player.old.text
        (given (left talk.new) got.new) player.new.view player.new.carried player.new.text) }
    ensures ended { IfOk result (λ more. more ≡ false
        → (given (left talk.old) got.old ≡ done (names_in talk.new)) × (player.new ≡ player.old)) }
    ensures stopped { IfErr result (λ e. (e ≡ NoMemory) ⊎ ((e ≡ Full)
        × StoppedFull (driver_kind D.ENTRIES D.is_planned D.OwnEntries D.Follows) (given (left talk.old) got.old) player.old.view player.old.carried player.new.view)) }
{
    match talk.put_next(alloc, got.as_ref(), step) {
        Ok(()) => match &*step {
            Next::Call(what) => match player.perform(rt, alloc, what) {
                Ok(result_of) => {
                    *got = Some(result_of);
                    Ok(true)
                }
                Err(errno) => Err(errno),
            },
            Next::Print(piece) => match player.print(piece.as_slice()) {
                Ok(()) => {
                    *got = None;
                    Ok(true)
                }
                Err(errno) => Err(errno),
            },
            Next::End => Ok(false),
        },
        Err(errno) => Err(errno),
    }
}

/// Carries out what is under way of a talk, to its end: a statement, or the closing of what is open.
pub fn play<R: Wait, D: Driver<Core>>(
    rt: &R,
    alloc: Global,
    player: &mut Player<'_, D>,
    talk: &mut Talk,
) -> Result<(), Errno>
    requires none { OwnsNothing D.OwnEntries }
    requires begun { talk.old.begun ≤ 1048576 }
    ensures device { player.new.gate ≡ player.old.gate }
    ensures counted { OnOk result (talk.new.begun ≡ talk.old.begun) }
    ensures played { OnOk result (PlaysOn (driver_kind D.ENTRIES D.is_planned D.OwnEntries D.Follows) (given (left talk.old) None) player.old.view player.old.carried player.old.text
        (done (names_in talk.new)) player.new.view player.new.carried player.new.text) }
    ensures stopped { IfErr result (λ e. (e ≡ NoMemory) ⊎ ((e ≡ Full)
        × StoppedFull (driver_kind D.ENTRIES D.is_planned D.OwnEntries D.Follows) (given (left talk.old) None) player.old.view player.old.carried player.new.view)) }
{
    let mut got = None;
    let mut step = Next::End;
    for _ in rt.forever() {
        match turn(rt, alloc, player, talk, &mut got, &mut step) {
            Ok(true) => {}
            Ok(false) => return Ok(()),
            Err(errno) => return Err(errno),
        }
    }
    unreachable!()
}

/// Carries out statements one after the other.
pub fn play_all<R: Wait, D: Driver<Core>>(
    rt: &R,
    alloc: Global,
    player: &mut Player<'_, D>,
    talk: &mut Talk,
    statements: &[Statement<'_>],
) -> Result<(), Errno>
    requires none { OwnsNothing D.OwnEntries }
    requires begun { talk.old.begun + length statements.now ≤ 1048576 }
    ensures device { player.new.gate ≡ player.old.gate }
    ensures counted { OnOk result (talk.new.begun ≡ talk.old.begun + length statements.now) }
    ensures played { OnOk result (PlaysOn (driver_kind D.ENTRIES D.is_planned D.OwnEntries D.Follows) (says talk.old.begun (map columns_in statements.now) done (names_in talk.old))
        player.old.view player.old.carried player.old.text
        (done (names_in talk.new)) player.new.view player.new.carried player.new.text) }
    ensures stopped { IfErr result (λ e. (e ≡ NoMemory) ⊎ ((e ≡ Full)
        × StoppedFull (driver_kind D.ENTRIES D.is_planned D.OwnEntries D.Follows) (says talk.old.begun (map columns_in statements.now) done (names_in talk.old))
        player.old.view player.old.carried player.new.view)) }
{
    for statement in statements {
        talk.begin(alloc, statement)?;
        match play(rt, alloc, player, talk) {
            Ok(()) => {}
            Err(errno) => return Err(errno),
        }
    }
    Ok(())
}
