//! A load: for each number a session of so many turns.

ghost use Rattle.std.specs.Prelude.{◌≡◌, ◌+◌, ◌*◌, ◌/◌, ◌%◌, ◌^◌, ◌<◌, ◌≤◌, ◌++◌, [], ◌∷◌, OnOk, OnErr, IsOkUnless};
ghost use Rattle.gl_base.specs.Decimal.{decimal};
ghost use Rattle.gl_script.specs.Gen.{is_up, line_pulled, load_text, next_number, events_at, pull_end, text_of, turn, turns};

use gl_base::{Errno, put_decimal};

/// The lines before the turns: a chip of 64 lines, and a request of its first eight, whose edges are told.
const HEAD: &[u8] =
    b"session 1\nsetup\nprobe gen 64\nopen A 0\nioctl A GET_LINE 00000000 01000000 02000000 03000000 04000000 05000000 06000000 07000000 00*256 34 00*271 08000000 00*28 as R\n";

/// The line by which events are read.
const EVENTS: &[u8] = b"events R 6144\n";

/// Appends the load of a number: a session of one chip and one request, and then of so many turns, each of
/// which tells the time, pulls a line and reads a value. From 1 to 5000 it is a session within the limits
/// (`laws::loads_are_sessions`). Only want of memory is an error, and then `out` is as it was.
pub fn generate(n: u32, out: &mut Vec<u8>) -> Result<(), Errno>
    ensures ok { OnOk result (out.new.items ≡ out.old.items ++ load_text n) }
    ensures err { OnErr result (out.new.items ≡ out.old.items) }
    ensures memory_alone { IsOkUnless result Errno.NoMemory }
{
    let mut text = Vec::new(*out.allocator());
    put_load(n, &mut text)?;
    out.extend_from_slice(&text)?;
    Ok(())
}

/// Appends the load of a number.
fn put_load(n: u32, out: &mut Vec<u8>) -> Result<(), Errno>
    ensures ok { OnOk result (out.new.items ≡ out.old.items ++ load_text n) }
    ensures memory_alone { IsOkUnless result Errno.NoMemory }
{
    out.extend_from_slice(HEAD)?;
    put_turns(n, out)?;
    out.extend_from_slice(EVENTS)?;
    Ok(())
}

/// The number of a turn, from that of the turn before.
fn next_number(x: u64) -> u64
    requires { x < 2 ^ 32 }
    ensures number { result ≡ next_number x }
    ensures within { result < 2 ^ 32 }
{
    (x * 1_103_515_245 + 12_345) % (1 << 31)
}

/// Appends the lines of so many turns.
fn put_turns(n: u32, out: &mut Vec<u8>) -> Result<(), Errno>
    ensures ok { OnOk result (out.new.items ≡ out.old.items ++ text_of (turns 1 n n)) }
    ensures memory_alone { IsOkUnless result Errno.NoMemory }
{
    let mut x = u64::from(n);
    for passed in 0..n {
        x = next_number(x);
        put_turn(u64::from(passed) + 1, x, out)?;
    }
    Ok(())
}

/// Appends the lines of a turn, counted from 1, of this number.
fn put_turn(k: u64, x: u64, out: &mut Vec<u8>) -> Result<(), Errno>
    requires { k ≤ 2 ^ 32 }
    ensures ok { OnOk result (out.new.items ≡ out.old.items ++ text_of (turn k x)) }
    ensures memory_alone { IsOkUnless result Errno.NoMemory }
{
    let line = x / 65_536 % 16;
    put_line(b"clock ", 1000 * k, b" 0", out)?;
    put_line(b"write gpiochip0/sim_gpio", line, pull_end(x), out)?;
    put_line(b"gpioget -c 0 ", 8 + line % 8, b"", out)?;
    put_events(k, out)?;
    Ok(())
}

/// Appends the line by which events are read, at each sixteenth turn.
fn put_events(k: u64, out: &mut Vec<u8>) -> Result<(), Errno>
    ensures ok { OnOk result (out.new.items ≡ out.old.items ++ text_of (events_at k)) }
    ensures memory_alone { IsOkUnless result Errno.NoMemory }
{
    if k % 16 == 0 {
        out.extend_from_slice(EVENTS)?;
    }
    Ok(())
}

/// What stands behind the line's number where it is pulled.
fn pull_end(x: u64) -> &'static [u8]
    ensures { result.now ≡ pull_end (is_up x) }
{
    if x / 4_194_304 % 2 == 1 {
        b"/pull pull-up"
    } else {
        b"/pull pull-down"
    }
}

/// Appends a line that has a number between two texts.
fn put_line(front: &[u8], number: u64, back: &[u8], out: &mut Vec<u8>) -> Result<(), Errno>
    ensures ok { OnOk result (out.new.items ≡ out.old.items ++ text_of ((front.now ++ (decimal number ++ back.now)) ∷ [])) }
    ensures memory_alone { IsOkUnless result Errno.NoMemory }
{
    out.extend_from_slice(front)?;
    put_decimal(number, out)?;
    out.extend_from_slice(back)?;
    out.push(b'\n')?;
    Ok(())
}
