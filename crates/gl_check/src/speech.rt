//! What comes after a statement.

ghost use Rattle.std.specs.Prelude.{◌≡◌, ◌<◌, ◌≤◌, false, true, drop, length, map, IfOk, OnOk, IsOkUnless, IsTrue};
ghost use Rattle.gl_client.specs.Program.{done, goes_on};
ghost use Rattle.gl_talk.specs.Over.{columns_in};
ghost use Rattle.gl_talk.specs.Talk.{left, names_in, quits};
ghost use Rattle.gl_check.specs.Seating.{comes_behind, first_names, left_by};

use gl_base::Errno;
use gl_script::Statement;
use gl_talk::Talk;
use std::alloc::Global;

/// The talk of an actor that quits at its end; else that of `setup`. `NoMemory` alone is refused.
pub fn first_talk(alloc: Global, quit: bool) -> Result<Talk, Errno>
    ensures ok { IfOk result (λ talk. (names_in talk ≡ first_names quit) × (talk.begun ≡ 0) × (left talk ≡ goes_on (done (first_names quit)))) }
    ensures memory_alone { IsOkUnless result Errno.NoMemory }
{
    if quit {
        Talk::new(alloc)
    } else {
        Talk::for_setup(alloc)
    }
}

/// Goes on after a statement that is done: to the next one, or to the closing of what is open, where the actor quits at its end. False
/// where nothing comes after it. `NoMemory` alone is refused.
pub fn go_on(
    alloc: Global,
    talk: &mut Talk,
    closes: &mut bool,
    statements: &[Statement<'_>],
    quit: bool,
) -> Result<bool, Errno>
    requires few { talk.old.begun < 2147483647 }
    requires begun { talk.old.begun ≤ length statements.now }
    requires rests { left talk.old ≡ goes_on (done (names_in talk.old)) }
    requires stays_open { quit ≡ false → closes.old ≡ false }
    ensures begun { OnOk result (talk.new.begun ≤ length statements.now) }
    ensures stays_open { OnOk result (quit ≡ false → closes.new ≡ false) }
    ensures more { IfOk result (λ more. IsTrue more → left_by quit (map columns_in statements.now) talk.new closes.new
        ≡ goes_on (comes_behind closes.old quit talk.old.begun (drop talk.old.begun (map columns_in statements.now)) (names_in talk.old))) }
    ensures ends { IfOk result (λ more. more ≡ false
        → comes_behind closes.old quit talk.old.begun (drop talk.old.begun (map columns_in statements.now)) (names_in talk.old) ≡ done (names_in talk.old)) }
    ensures stays { IfOk result (λ more. more ≡ false → (talk.new ≡ talk.old) × (closes.new ≡ closes.old)) }
    ensures all { IfOk result (λ more. more ≡ false → closes.new ≡ false → talk.new.begun ≡ length statements.now) }
    ensures memory_alone { IsOkUnless result Errno.NoMemory }
{
    if *closes {
        return Ok(false);
    }
    let next = talk.begun as usize;
    if next < statements.len() {
        talk.begin(alloc, &statements[next])?;
        return Ok(true);
    }
    Ok(end(talk, closes, quit))
}

/// Begins the closing of what is open, where the actor quits at its end. False where it doesn't.
fn end(talk: &mut Talk, closes: &mut bool, quit: bool) -> bool
    requires stays_open { closes.old ≡ false }
    ensures begun { talk.new.begun ≡ talk.old.begun }
    ensures stays_open { quit ≡ false → closes.new ≡ false }
    ensures more { IsTrue result → (quit ≡ true) × (closes.new ≡ true) × (left talk.new ≡ goes_on (quits (names_in talk.old))) }
    ensures stays { result ≡ false → (quit ≡ false) × (talk.new ≡ talk.old) × (closes.new ≡ closes.old) }
{
    if !quit {
        return false;
    }
    talk.quit();
    *closes = true;
    true
}
